//! Words, the commands that they are read as, and the lines of `apply`.
//!
//! A row of a table has words as `spelled` reads them, or a line, and after ` => ` what they are read as.

use atom_writer::FeedName;
use chain_links::Base;
use std::alloc::{AllocError, Global};
use std::process::Abort;
use std::str;
use tool_words::{Command, LineAsk, LineFault, Show, WordsFault, read_line, read_words};

/// The options that `init` needs, each with a value.
static NEEDED: [(&str, &str); 4] = [
    ("base", "http://feed.example/"),
    ("uuid", "6d1f0c5a-93be-4c27-8d10-2b7f9e4a5c36"),
    ("title", "Feed"),
    ("author", "Editor"),
];

/// Words of the commands without options, and words of no command.
const LONE: &str = "\
apply => apply
apply 1 => apply 1
apply 100 => apply 100
apply 04 => apply 4
apply 0004 => apply 4
apply 0 => usage
apply 101 => usage
apply 18446744073709551617 => usage
apply  => usage
apply +4 => usage
apply -4 => usage
apply 4_ => usage
apply 4 5 => usage
apply --window 4 => usage
apply -- 4 => usage
apply 4 -- => usage
apply -- => usage
apply --help => usage
show => show
show feed => show feed
show archive 7 => show archive 7
show archive 4294967295 => show archive 4294967295
show member 001 => show member 1
show member 4294967295 => show member 4294967295
show pile => show pile
show archive 0 => usage
show archive 4294967296 => usage
show member 0 => usage
show member 4294967296 => usage
show archive => usage
show archive 7 8 => usage
show feed 1 => usage
show feed 3 => usage
show archive -- => usage
show archive -- 7 => usage
show archive  => usage
show  => usage
show pile 1 => usage
show page 1 => usage
show Feed => usage
show 7 => usage
 => usage
  => usage
-- => usage
--help => usage
--version => usage
-h => usage
-V => usage
help => usage
audit => audit
audit  => usage
audit 1 => usage
audit -- => usage
audit --report => usage
audit *base => usage
Audit => usage
drill 0 1 => drill 0 1
drill 7 1000 => drill 7 1000
drill 007 0001000 => drill 7 1000
drill 18446744073709551615 2000 => drill 18446744073709551615 2000
drill 00018446744073709551615 1 => drill 18446744073709551615 1
drill 18446744073709551616 1 => usage
drill 36893488147419103239 1 => usage
drill 340282366920938463463374607431768211463 1 => usage
drill 7 0 => usage
drill 7 2001 => usage
drill 7 4294967297 => usage
drill 7 18446744073709551617 => usage
drill => usage
drill 7 => usage
drill 7 1 1 => usage
drill  1 => usage
drill 7  => usage
drill -7 1 => usage
drill 7 -1 => usage
drill +7 1 => usage
drill 7 1_ => usage
drill seven 1 => usage
drill --seed 7 --count 1 => usage
drill --seed=7 1 => usage
drill -- 7 1 => usage
drill 7 1 -- => usage
drill 7 1 --help => usage
drill 7 --report => usage
Drill 7 1 => usage
Apply 4 => usage
appl 4 => usage
show --fetch => usage
show --report => usage
apply --listen a --requests 5 => usage
--listen a --requests 5 => usage";

/// Words of `init` and words like them.
const INIT: &str = "\
init * => init / Feed Editor 10 1073741824
init * --window 100 --capacity 4096 => init / Feed Editor 100 4096
init --capacity=68719476736 * --window=01 => init / Feed Editor 1 68719476736
init *author --title=A_feed *uuid *base => init / A feed Editor 10 1073741824
init *base *uuid --title=a=b= --author = => init / a=b= = 10 1073741824
init *uuid *title *author --base=http://feed.example:8080/a/ => init :8080/a/ Feed Editor 10 1073741824
init *base *title *author --uuid=6D1F0C5A93BE4C278D102B7F9E4A5C36 => init / Feed Editor 10 1073741824
init => usage
init *base *uuid *title => usage
init *base *uuid *author => usage
init *base *title *author => usage
init *uuid *title *author => usage
init * --window 0 => usage
init * --window 101 => usage
init * --window=-4 => usage
init * --window= => usage
init * --window => usage
init * -window 4 => usage
init * --capacity 4095 => usage
init * --capacity 68719476737 => usage
init * --window 10 --window=10 => usage
init * *title => usage
init * --limit 4 => usage
init * --=4 => usage
init * 4 => usage
init * -- => usage
init * --help => usage
init --help * => usage
init * --version => usage
init 4 * => usage
init *base *uuid *author --title - => usage
init *base *uuid *author --title -x => usage
init *base *uuid *author --title=-x => usage
init *base *uuid *author --title= => usage
init *base *uuid *author --title  => usage
init *base *uuid *author --title \u{FFFE} => usage
init *uuid *title *author --base http://feed.example:80/ => usage
init *uuid *title *author --base http://feed.example => usage
init *base *title *author --uuid 6d1f0c5a-93be-8c27-8d10-2b7f9e4a5c36 => usage
init * --fetch => usage
init * --report => usage
init * --listen a => usage
init * --requests=5 => usage
init --listen a --requests 5 => usage";

/// Words of `serve` and words like them.
const SERVE: &str = "\
serve --listen a --requests 5 --service => serve a 5 service
serve --service --requests=5 --listen a => serve a 5 service
serve --listen a --requests 5 --service --service => usage
serve --listen a --requests 5 --service=yes => usage
serve --listen a --requests 5 --service yes => usage
serve --listen --service --requests 5 => usage
serve --service => usage
serve --listen 127.0.0.1:80 --requests 5 => serve 127.0.0.1:80 5
serve --requests 5 --listen 127.0.0.1:80 => serve 127.0.0.1:80 5
serve --listen=127.0.0.1:80 --requests=5 => serve 127.0.0.1:80 5
serve --requests=5 --listen=127.0.0.1:80 => serve 127.0.0.1:80 5
serve --requests 5 --listen=a=b= => serve a=b= 5
serve --requests=5 --listen = => serve = 5
serve --requests=5 --listen ä_b => serve ä b 5
serve --listen a --requests 1 => serve a 1
serve --listen a --requests 00000000000000000000007 => serve a 7
serve --listen a --requests 1000000 => serve a 1000000
serve --listen a --requests=001000000 => serve a 1000000
serve --listen a --requests 1000001 => usage
serve --listen a --requests 18446744073709551617 => usage
serve --listen a --requests 0 => usage
serve --listen a --requests 000 => usage
serve --listen a --requests +5 => usage
serve --listen a --requests 5_ => usage
serve --listen a --requests five => usage
serve --listen a --requests -5 => usage
serve --listen a --requests=-5 => usage
serve --listen a --requests= => usage
serve --listen a --requests  => usage
serve --listen a --requests => usage
serve => usage
serve --listen a => usage
serve --requests 5 => usage
serve --requests 5 --listen => usage
serve --requests 5 --listen= => usage
serve --requests 5 --listen  => usage
serve --requests 5 --listen -a => usage
serve --requests 5 --listen=-a => usage
serve --listen --requests 5 => usage
serve --listen --requests=5 => usage
serve --listen a --requests 5 --listen a => usage
serve --listen a --requests 5 --listen=b => usage
serve --requests=5 --listen a --requests 5 => usage
serve --listen a --requests 5 --port 80 => usage
serve --listen a --requests 5 --=80 => usage
serve --listen a --requests 5 --window 4 => usage
serve --listen a --requests 5 *title => usage
serve * => usage
serve --Listen a --requests 5 => usage
serve -listen a --requests 5 => usage
serve listen a requests 5 => usage
serve a 5 => usage
serve a --listen a --requests 5 => usage
serve --listen a b --requests 5 => usage
serve --listen a --requests 5 6 => usage
serve --listen a --requests 5 -- => usage
serve --listen a --requests 5  => usage
Serve --listen a --requests 5 => usage";

/// Words of `mirror` and words like them.
const MIRROR: &str = "\
mirror *base --report => mirror / report 1073741824
mirror --report *base => mirror / report 1073741824
mirror *base --report --fetch => mirror / fetch report 1073741824
mirror --fetch *base --report --capacity 4096 => mirror / fetch report 4096
mirror --capacity=68719476736 --report *base => mirror / report 68719476736
mirror *base --report --capacity 0004096 => mirror / report 4096
mirror *base => mirror / 1073741824
mirror *base --fetch => mirror / fetch 1073741824
mirror --fetch --capacity 4096 *base => mirror / fetch 4096
mirror *base --fetch=yes => usage
mirror *base yes => usage
mirror *base --report --fetch --fetch => usage
mirror *base --report --fetch=yes => usage
mirror *base --report --fetch yes => usage
mirror *base --report --capacity 4095 => usage
mirror *base --report --capacity 68719476737 => usage
mirror *base --report --capacity => usage
mirror *base --report --capacity= => usage
mirror *base --report --capacity 4096 --capacity 4096 => usage
mirror --fetch --report => usage
mirror --report --base=http://feed.example/ => mirror / report 1073741824
mirror --base=http://feed.example:8080/a/ --report => mirror :8080/a/ report 1073741824
mirror => usage
mirror --report => usage
mirror *base --report --report => usage
mirror *base *base --report => usage
mirror *base *base => usage
mirror --base http://feed.example:80/ => usage
mirror *base --rep => usage
mirror *base -r => usage
mirror *base --help => usage
mirror *base --version => usage
mirror *base -- => usage
mirror *base  => usage
mirror *base --report= => usage
mirror *base --report=yes => usage
mirror *base --report yes => usage
mirror --base --report http://feed.example/ => usage
mirror --report --base => usage
mirror --report --base= => usage
mirror --report --base http://feed.example => usage
mirror --report --base http://feed.example:80/ => usage
mirror *base --report *title => usage
mirror *base --report 4 => usage
mirror report *base => usage
Mirror *base --report => usage";

/// Words of `foreign` and words like them.
const FOREIGN: &str = "\
foreign --from http://a.example/f.xml => foreign http://a.example/f.xml
foreign --from=http://a.example/ => foreign http://a.example/
foreign --from http://127.0.0.1:8080/feed => foreign http://127.0.0.1:8080/feed
foreign --from http://[::1]/ => foreign http://[::1]/
foreign --from http://a.example/%C3%A4?q=1#f => foreign http://a.example/%C3%A4?q=1#f
foreign --from http://a.example => usage
foreign --from http://a.example:80/ => usage
foreign --from http://A.example/ => usage
foreign --from HTTP://a.example/ => usage
foreign --from http:a.example/ => usage
foreign --from http://127.1/ => usage
foreign --from http://a.example/a/../b => usage
foreign --from http://a.example/a_b => usage
foreign --from http://a.example/ä => usage
foreign --from https://a.example/ => usage
foreign --from ftp://a.example/ => usage
foreign --from httpx://a.example/ => usage
foreign --from http: => usage
foreign --from a.example/f.xml => usage
foreign --from /f.xml => usage
foreign => usage
foreign --from => usage
foreign --from= => usage
foreign --from  => usage
foreign http://a.example/ => usage
foreign --from http://a.example/ http://a.example/ => usage
foreign --from http://a.example/ --from http://a.example/ => usage
foreign --from http://a.example/ --fetch => usage
foreign --from http://a.example/ -- => usage
foreign *base => usage
foreign --From http://a.example/ => usage
Foreign --from http://a.example/ => usage";

/// Words of `discover` and words like them.
const DISCOVER: &str = "\
discover http://a.example/service => discover http://a.example/service
discover http://127.0.0.1:8080/ => discover http://127.0.0.1:8080/
discover http://a.example/%C3%A4?q=1#f => discover http://a.example/%C3%A4?q=1#f
discover http://a.example => usage
discover http://a.example:80/ => usage
discover http://A.example/ => usage
discover HTTP://a.example/ => usage
discover http://a.example/a/../b => usage
discover http://a.example/a_b => usage
discover https://a.example/ => usage
discover http: => usage
discover a.example/service => usage
discover => usage
discover  => usage
discover - => usage
discover -- => usage
discover -- http://a.example/ => usage
discover http://a.example/ -- => usage
discover http://a.example/ http://a.example/ => usage
discover http://a.example/  => usage
discover --address http://a.example/ => usage
discover --address=http://a.example/ => usage
discover http://a.example/ --fetch => usage
Discover http://a.example/ => usage";

/// Words of `relay` and words like them.
const RELAY: &str = "\
relay *base --listen a --requests 5 => relay / a 5 1073741824
relay --requests=005 --capacity 4096 --listen=b *base => relay / b 5 4096
relay *base --listen a --requests 1000000 --capacity=68719476736 => relay / a 1000000 68719476736
relay --base=http://feed.example:8080/a/ --listen a --requests 1 => relay :8080/a/ a 1 1073741824
relay *base --listen a --requests 1000001 => usage
relay *base --listen a --requests 0 => usage
relay *base --listen a --requests 5 --capacity 4095 => usage
relay *base --listen a --requests 5 --capacity 68719476737 => usage
relay *base --listen a --requests 5 --capacity => usage
relay *base --listen a => usage
relay *base --requests 5 => usage
relay --listen a --requests 5 => usage
relay => usage
relay *base *base --listen a --requests 5 => usage
relay *base --listen a --listen a --requests 5 => usage
relay --base http://feed.example:80/ --listen a --requests 5 => usage
relay *base --listen a --requests 5 --fetch => usage
relay *base --listen a --requests 5 --report => usage
relay *base --listen a --requests 5 --service => usage
relay *base --listen a --requests 5 -- => usage
relay *base --listen a --requests 5  => usage
relay *base --listen  --requests 5 => usage
relay / a 5 => usage
Relay *base --listen a --requests 5 => usage";

/// Words of `scrub` and words like them.
const SCRUB: &str = "\
scrub => scrub
scrub --repair => scrub repair
scrub --repair --repair => usage
scrub --repair=yes => usage
scrub --repair= => usage
scrub --repair yes => usage
scrub repair => usage
scrub --rep => usage
scrub scrub => usage
scrub 1 => usage
scrub -- => usage
scrub  => usage
scrub *base => usage
Scrub => usage";

/// Lines of `apply`.
const LINES: &str = "\
add  => add 
add a => add a
add  a  => add  a 
add é => add é
add % => add %
add %x => bad
add a\u{B} => bad
add \u{FFFE} => bad
add a\tb\r => add a\tb\r
add => bad
add\ta => bad
 add a => bad
Add a => bad
change 1 b => change 1 b
change 1  => change 1 
change 1  b => change 1  b
change 1 2 3 => change 1 2 3
change 4294967295 b => change 4294967295 b
change 1 % => change 1 %
change 1 %x => bad
change 1 \u{B} => bad
change 01 b => bad
change 0 b => bad
change 4294967296 b => bad
change +1 b => bad
change -1 b => bad
change  1 b => bad
change b => bad
change 1 => bad
change  => bad
change => bad
remove 1 => remove 1
remove 4294967295 => remove 4294967295
remove 4294967296 => bad
remove 0 => bad
remove 01 => bad
remove 1  => bad
remove 1 b => bad
remove  => bad
remove => bad
title New => title New
title  => title 
title  a  => title  a 
title % => title %
title %x => bad
title \u{B} => bad
title => bad
titleX => bad
window 1 => window 1
window 100 => window 100
window 0 => bad
window 101 => bad
window 007 => bad
window 4294967297 => bad
window +1 => bad
window  1 => bad
window 1  => bad
window 1 2 => bad
window  => bad
window => bad
delete 1 => bad
 => bad";

/// Rows with values of 1,024 and 1,025, of 255 and 256, and of 254 and 256 bytes.
const LONGEST: &str = "init *base *uuid --title % --author=% => init / % % 10 1073741824";

const LONGER: &str = "\
init *base *uuid --title % *author => usage
init *base *uuid --author=% *title => usage";

const LISTEN: &str = "\
serve --listen % --requests 5 => serve % 5
serve --listen=% --requests 5 => serve % 5";

const LISTEN_LONGER: &str = "\
serve --listen % --requests 5 => usage
serve --listen=% --requests 5 => usage";

const ACCENTS: &str = "serve --listen % --requests 5 => serve % 5";

const MORE_ACCENTS: &str = "serve --listen % --requests 5 => usage";

/// Rows, whether their left sides are lines of `apply`, and a letter that takes the place of each `%` in them, this number
/// of times.
static GROUPS: [(&str, bool, &str, usize); 15] = [
    (LONE, false, "%", 1),
    (INIT, false, "%", 1),
    (SERVE, false, "%", 1),
    (MIRROR, false, "%", 1),
    (FOREIGN, false, "%", 1),
    (DISCOVER, false, "%", 1),
    (RELAY, false, "%", 1),
    (SCRUB, false, "%", 1),
    (LONGEST, false, "x", 1_024),
    (LONGER, false, "x", 1_025),
    (LISTEN, false, "x", 255),
    (LISTEN_LONGER, false, "x", 256),
    (ACCENTS, false, "\u{E9}", 127),
    (MORE_ACCENTS, false, "\u{E9}", 128),
    (LINES, true, "x", 1_024),
];

/// Returns the words of a row. They are separated by single spaces, and an empty row has none. `*` means all options that
/// `init` needs, `*title` only the title, and so on. `_` means a space within a word.
pub fn spelled(rt: &impl Abort, alloc: Global, row: &str) -> Vec<String> {
    let mut words = Vec::new(alloc);
    if row.is_empty() {
        return words;
    }
    for word in row.split(' ') {
        match word.strip_prefix('*') {
            None => push(rt, &mut words, word.replace(alloc, '_', " ")),
            Some(wanted) => push_needed(rt, alloc, &mut words, wanted),
        }
    }
    words
}

/// Appends a word that was made.
fn push(rt: &impl Abort, words: &mut Vec<String>, word: Result<String, AllocError>) {
    words.push(word.expect(rt, "memory")).expect(rt, "memory");
}

/// Appends the option of this name among those that `init` needs, or all of them where the name is empty.
fn push_needed(rt: &impl Abort, alloc: Global, words: &mut Vec<String>, wanted: &str) {
    for (name, value) in NEEDED.iter() {
        if wanted.is_empty() || wanted == *name {
            let option = format!(in alloc; "--{name}").expect(rt, "memory");
            words.push(option).expect(rt, "memory");
            push(rt, words, String::from_str(alloc, value));
        }
    }
}

/// Returns bytes as text.
fn utf8<'a>(rt: &impl Abort, bytes: &'a [u8]) -> &'a str {
    str::from_utf8(bytes).expect(rt, "a text")
}

/// Returns a base address without `http://feed.example`.
fn base_of<'a>(rt: &impl Abort, base: &'a Base) -> &'a str {
    utf8(rt, base.text())
        .strip_prefix("http://feed.example")
        .expect(rt, "a base address")
}

/// Returns what words of a command are read as. A base address is without `http://feed.example`, and a flag is there if
/// it is set.
fn printed(rt: &impl Abort, alloc: Global, command: &Command) -> String {
    let line = match command {
        Command::Apply { window: None } => format!(in alloc; "apply"),
        Command::Apply {
            window: Some(window),
        } => format!(in alloc; "apply {window}"),
        Command::Show(Show::Document) => format!(in alloc; "show"),
        Command::Show(Show::Feed) => format!(in alloc; "show feed"),
        Command::Show(Show::Archive(number)) => format!(in alloc; "show archive {number}"),
        Command::Show(Show::Member(number)) => format!(in alloc; "show member {number}"),
        Command::Show(Show::Pile) => format!(in alloc; "show pile"),
        Command::Serve {
            listen,
            requests,
            service,
        } => {
            let listen = utf8(rt, listen.slice());
            let service = if *service { " service" } else { "" };
            format!(in alloc; "serve {listen} {requests}{service}")
        }
        Command::Mirror {
            base,
            fetch,
            report,
            capacity,
        } => {
            let base = base_of(rt, base);
            let fetch = if *fetch { "fetch " } else { "" };
            let report = if *report { "report " } else { "" };
            format!(in alloc; "mirror {base} {fetch}{report}{capacity}")
        }
        Command::Audit => format!(in alloc; "audit"),
        Command::Drill { seed, count } => format!(in alloc; "drill {seed} {count}"),
        Command::Foreign { from } => {
            let from = utf8(rt, from.slice());
            format!(in alloc; "foreign {from}")
        }
        Command::Discover { address } => {
            let address = utf8(rt, address.slice());
            format!(in alloc; "discover {address}")
        }
        Command::Relay {
            base,
            listen,
            requests,
            capacity,
        } => {
            let base = base_of(rt, base);
            let listen = utf8(rt, listen.slice());
            format!(in alloc; "relay {base} {listen} {requests} {capacity}")
        }
        Command::Scrub { repair } => {
            let repair = if *repair { " repair" } else { "" };
            format!(in alloc; "scrub{repair}")
        }
        Command::Init {
            name,
            window,
            capacity,
        } => named(rt, alloc, name, *window, *capacity),
    };
    line.expect(rt, "memory")
}

/// Returns what words of `init` are read as.
fn named(
    rt: &impl Abort,
    alloc: Global,
    name: &FeedName,
    window: u32,
    capacity: u64,
) -> Result<String, AllocError> {
    assert_eq!(rt; name.id.print().as_slice(), NEEDED[1].1.as_bytes());
    let base = base_of(rt, &name.base);
    let title = utf8(rt, name.title.bytes());
    let author = utf8(rt, name.author.bytes());
    format!(in alloc; "init {base} {title} {author} {window} {capacity}")
}

/// Returns what a line is read as.
fn asked(rt: &impl Abort, alloc: Global, ask: &LineAsk) -> String {
    let line = match ask {
        LineAsk::Add(title) => {
            let title = utf8(rt, title.bytes());
            format!(in alloc; "add {title}")
        }
        LineAsk::Change { number, title } => {
            let title = utf8(rt, title.bytes());
            format!(in alloc; "change {number} {title}")
        }
        LineAsk::Remove { number } => format!(in alloc; "remove {number}"),
        LineAsk::Title(title) => {
            let title = utf8(rt, title.bytes());
            format!(in alloc; "title {title}")
        }
        LineAsk::Window(size) => format!(in alloc; "window {size}"),
    };
    line.expect(rt, "memory")
}

/// Returns what the words of a row are read as.
fn reading(rt: &impl Abort, alloc: Global, row: &str) -> String {
    let words = spelled(rt, alloc, row);
    match read_words(alloc, words.as_slice()) {
        Ok(command) => {
            let line = printed(rt, alloc, &command);
            drop(command);
            line
        }
        Err(fault) => {
            assert!(rt; fault == WordsFault::Usage, "{fault}");
            String::from_str(alloc, "usage").expect(rt, "memory")
        }
    }
}

/// Returns what the line is read as, or `bad`.
fn line_reading(rt: &impl Abort, alloc: Global, line: &str) -> String {
    match read_line(alloc, line.as_bytes()) {
        Ok(ask) => {
            let line = asked(rt, alloc, &ask);
            drop(ask);
            line
        }
        Err(fault) => {
            assert!(rt; fault == LineFault::BadLine, "{fault}");
            String::from_str(alloc, "bad").expect(rt, "memory")
        }
    }
}

/// Reads rows, and compares what they are read as.
fn expect_rows(rt: &impl Abort, alloc: Global, rows: &str, is_line: bool) {
    for row in rows.split('\n') {
        let (given, wanted) = row.split_once(" => ").expect(rt, "a reading");
        let read = if is_line {
            line_reading(rt, alloc, given)
        } else {
            reading(rt, alloc, given)
        };
        assert!(rt; read.as_str() == wanted, "{row}");
    }
}

#[test]
fn reads_words_and_lines(rt: HostRuntime) {
    let alloc = rt.alloc();
    for &(rows, is_line, letter, times) in &GROUPS {
        let value = letter.repeat(alloc, times).expect(&rt, "memory");
        let rows = rows
            .replace(alloc, '%', value.as_str())
            .expect(&rt, "memory");
        expect_rows(&rt, alloc, rows.as_str(), is_line);
    }
}

#[test]
fn a_fault_has_a_sentence(rt: HostRuntime) {
    let (usage, bad) = (WordsFault::Usage, LineFault::BadLine);
    let (words_memory, line_memory) = (WordsFault::NoMemory, LineFault::NoMemory);
    let sentences = format!(in rt.alloc(); "{usage}, {words_memory}, {bad}, {line_memory}").expect(
        &rt, "memory",
    );
    assert_eq!(rt;
        sentences.as_str(),
        "the words are those of no command, out of memory, the line has none of the forms of a line, out of memory"
    );
}
