//! The texts of the scripts.
//!
//! In a script, `|` stands for LF, a `^` before it or before a token for CR, and `longest` for 1,024 letters. A token has
//! fields between braces. A timestamp is a number of milliseconds after 2023-11-14T22:13:20Z or a whole timestamp.
//!
//! | Token | Text |
//! |---|---|
//! | `{feed,TITLE,UPDATED,PREV,FIRST,LAST}` | a subscription document up to its items, with the archive before it or 0 |
//! | `{archive,NUMBER,TITLE,UPDATED,FIRST,LAST}` | an archive up to its items |
//! | `{entry,NUMBER,TITLE,UPDATED}` `{gone,NUMBER,WHEN}` | the line of an item |
//! | `{end}` | the last line of a document |
//! | `{opening}` | the first lines of each document, up to its title |
//! | `{letters,N}` `{sealed,J}` | the subscription document and archive J of a store of N letters (`push_letters`) |
//! | `{pile,fN,J,..}` | a pile of these documents, of which `fN` is a subscription document |
//! | `{live,N}` | the lines of the entries of a report on that store |
//! | `{times,COUNT,TEXT}` | a text, repeated; each `*` in it is the number of the repeat in 12 hexadecimal digits |
//! | `{certificate}` `{edited,OLD,NEW}` | the certificate of 13 letters, and this certificate with another text in place of one |
//! | `{service}` | the service document of a feed |
//! | `{atom,UPDATED}` | the beginning of another server's feed |
//! | `{FF}` | a byte |

use std::alloc::Global;
use std::fmt;
use std::process::Abort;

/// The beginning of a document of the feed `6d1f0c5a-93be-4c27-8d10-2b7f9e4a5c36`.
#[derive(Clone, Copy)]
pub struct Heading<'a> {
    /// The number of an archive, or 0 for the subscription document.
    pub archive: u32,
    /// The newest archive before it, or 0.
    pub prev: u32,
    /// The feed's title, with its escapes.
    pub title: &'a str,
    pub updated: &'a str,
    pub first: u32,
    pub last: u32,
}

/// The links of a document, by its archive and the newest one before it.
#[derive(Clone, Copy)]
struct Links(u32, u32);

impl fmt::Display for Links {
    fn fmt<W: fmt::Write>(&self, f: &mut fmt::Formatter<W>) -> fmt::Result {
        let (archive, prev) = (self.0, self.1);
        let next = archive.saturating_add(1);
        match (archive, prev) {
            (0, 0) => write!(
                f,
                "<link rel=\"self\" href=\"http://feed.example/feed\"/>\n"
            ),
            (0, _) => write!(
                f,
                "<link rel=\"self\" href=\"http://feed.example/feed\"/>\n<link rel=\"prev-archive\" href=\"http://feed.example/archive/{prev}\"/>\n"
            ),
            (_, 0) => write!(
                f,
                "<link rel=\"self\" href=\"http://feed.example/archive/{archive}\"/>\n<link rel=\"current\" href=\"http://feed.example/feed\"/>\n<link rel=\"next-archive\" href=\"http://feed.example/archive/{next}\"/>\n<fh:archive/>\n"
            ),
            _ => write!(
                f,
                "<link rel=\"self\" href=\"http://feed.example/archive/{archive}\"/>\n<link rel=\"current\" href=\"http://feed.example/feed\"/>\n<link rel=\"prev-archive\" href=\"http://feed.example/archive/{prev}\"/>\n<link rel=\"next-archive\" href=\"http://feed.example/archive/{next}\"/>\n<fh:archive/>\n"
            ),
        }
    }
}

/// The first lines of each document of the feed, up to its title. They have 313 bytes.
const OPENING: &str =
    "<?xml version=\"1.0\" encoding=\"utf-8\"?>\n<feed xmlns=\"http://www.w3.org/2005/Atom\" xmlns:fh=\"http://purl.org/syndication/history/1.0\" xmlns:at=\"http://purl.org/atompub/tombstones/1.0\" xmlns:app=\"http://www.w3.org/2007/app\" xmlns:sp=\"urn:archived-feed:span:1\">\n<id>urn:uuid:6d1f0c5a-93be-4c27-8d10-2b7f9e4a5c36</id>\n";

/// The certificate of the store of 13 letters. `sha256sum` computed the digests.
pub const CERTIFICATE: &str = "\
coverage 1\n\
feed 6d1f0c5a-93be-4c27-8d10-2b7f9e4a5c36 http://feed.example/\n\
version 13\n\
document http://feed.example/feed 434520641e5994d45ae1c7ec7defc01931d2f536119a73ca09a657f4cc707994\n\
document http://feed.example/archive/3 bffeaabf465befcc5286bc17e5ab1b82684961c03bb2a21d7081fb9e6d402b76\n\
document http://feed.example/archive/2 222304bbe97e7038202cba3a21bdbe3727575fa3b88a623e6f18e34cf0673b57\n\
document http://feed.example/archive/1 d2bf1b9f89d7f604cf2fb360878f6a24680c6839d79fc01771124bc00e05e8d9\n\
live 13 295c1574b2102efff17182faf9a781ea6d2f927cee1b6439aa96ebff632451c2\n\
end\n\
";

/// The service document of the store.
const SERVICE: &str =
    "<?xml version=\"1.0\" encoding=\"utf-8\"?>\n<service xmlns=\"http://www.w3.org/2007/app\" xmlns:atom=\"http://www.w3.org/2005/Atom\"><workspace><atom:title>Feed</atom:title><collection href=\"http://feed.example/feed\"><atom:title>Feed</atom:title><accept>application/atom+xml;type=entry</accept></collection></workspace></service>\n";

/// The longest title.
const LONGEST: &str = "\
aaaaaaaaaaaaaaaaaaaaaaaaaaaaaaaaaaaaaaaaaaaaaaaaaaaaaaaaaaaaaaaaaaaaaaaaaaaaaaaaaaaaaaaaaaaaaaaaaaaa\
aaaaaaaaaaaaaaaaaaaaaaaaaaaaaaaaaaaaaaaaaaaaaaaaaaaaaaaaaaaaaaaaaaaaaaaaaaaaaaaaaaaaaaaaaaaaaaaaaaaa\
aaaaaaaaaaaaaaaaaaaaaaaaaaaaaaaaaaaaaaaaaaaaaaaaaaaaaaaaaaaaaaaaaaaaaaaaaaaaaaaaaaaaaaaaaaaaaaaaaaaa\
aaaaaaaaaaaaaaaaaaaaaaaaaaaaaaaaaaaaaaaaaaaaaaaaaaaaaaaaaaaaaaaaaaaaaaaaaaaaaaaaaaaaaaaaaaaaaaaaaaaa\
aaaaaaaaaaaaaaaaaaaaaaaaaaaaaaaaaaaaaaaaaaaaaaaaaaaaaaaaaaaaaaaaaaaaaaaaaaaaaaaaaaaaaaaaaaaaaaaaaaaa\
aaaaaaaaaaaaaaaaaaaaaaaaaaaaaaaaaaaaaaaaaaaaaaaaaaaaaaaaaaaaaaaaaaaaaaaaaaaaaaaaaaaaaaaaaaaaaaaaaaaa\
aaaaaaaaaaaaaaaaaaaaaaaaaaaaaaaaaaaaaaaaaaaaaaaaaaaaaaaaaaaaaaaaaaaaaaaaaaaaaaaaaaaaaaaaaaaaaaaaaaaa\
aaaaaaaaaaaaaaaaaaaaaaaaaaaaaaaaaaaaaaaaaaaaaaaaaaaaaaaaaaaaaaaaaaaaaaaaaaaaaaaaaaaaaaaaaaaaaaaaaaaa\
aaaaaaaaaaaaaaaaaaaaaaaaaaaaaaaaaaaaaaaaaaaaaaaaaaaaaaaaaaaaaaaaaaaaaaaaaaaaaaaaaaaaaaaaaaaaaaaaaaaa\
aaaaaaaaaaaaaaaaaaaaaaaaaaaaaaaaaaaaaaaaaaaaaaaaaaaaaaaaaaaaaaaaaaaaaaaaaaaaaaaaaaaaaaaaaaaaaaaaaaaa\
aaaaaaaaaaaaaaaaaaaaaaaa";

/// Appends bytes.
pub fn push(rt: &impl Abort, text: &mut Vec<u8>, bytes: &[u8]) {
    text.extend_from_slice(bytes).expect(rt, "memory");
}

/// The beginning of a document, up to its items.
pub fn heading_text(rt: &impl Abort, alloc: Global, heading: &Heading) -> String {
    let Heading {
        archive,
        prev,
        title,
        updated,
        first,
        last,
    } = heading;
    let links = Links(*archive, *prev);
    format!(in alloc;
        "{OPENING}<title>{title}</title>\n<updated>{updated}</updated>\n<author><name>Editor</name></author>\n{links}<sp:span first=\"{first}\" last=\"{last}\"/>\n"
    ).expect(rt, "memory")
}

/// The line of an entry.
pub fn entry_line(
    rt: &impl Abort,
    alloc: Global,
    number: u32,
    title: &str,
    updated: &str,
) -> String {
    format!(in alloc;
        "<entry><id>urn:uuid:6d1f0c5a-93be-8c27-8000-{number:012x}</id><title>{title}</title><updated>{updated}</updated><app:edited>{updated}</app:edited><link rel=\"edit\" href=\"http://feed.example/member/{number}\"/><content></content></entry>\n"
    ).expect(rt, "memory")
}

/// The line of a tombstone.
pub fn gone_line(rt: &impl Abort, alloc: Global, number: u32, when: &str) -> String {
    format!(in alloc;
        "<at:deleted-entry ref=\"urn:uuid:6d1f0c5a-93be-8c27-8000-{number:012x}\" when=\"{when}\"/>\n"
    ).expect(rt, "memory")
}

/// The timestamp that is `after` milliseconds after 2023-11-14T22:13:20Z. The minute is fixed, so `after` has to be less
/// than 40,000.
pub fn moment(rt: &impl Abort, alloc: Global, after: u32) -> String {
    let (seconds, millis) = (20 + after / 1_000, after % 1_000);
    let text = if millis == 0 {
        format!(in alloc; "2023-11-14T22:13:{seconds}Z")
    } else {
        format!(in alloc; "2023-11-14T22:13:{seconds}.{millis:03}Z")
    };
    text.expect(rt, "memory")
}

/// The number that a field has.
fn number_of(rt: &impl Abort, field: Option<&str>) -> u32 {
    let field = field.expect(rt, "a number");
    field.parse::<u32>().expect(rt, "a number")
}

/// The timestamp that a field has.
fn timestamp(rt: &impl Abort, alloc: Global, field: Option<&str>) -> String {
    let field = field.expect(rt, "a timestamp");
    match field.parse::<u32>() {
        Ok(after) => moment(rt, alloc, after),
        Err(_) => String::from_str(alloc, field).expect(rt, "memory"),
    }
}

/// Appends the beginning of a document.
fn push_heading(rt: &impl Abort, alloc: Global, text: &mut Vec<u8>, name: &str, rest: &str) {
    let is_archive = name == "archive";
    let mut fields = rest.split(',');
    let archive = if is_archive {
        number_of(rt, fields.next())
    } else {
        0
    };
    let title = fields.next().expect(rt, "a title");
    let updated = timestamp(rt, alloc, fields.next());
    let prev = if is_archive {
        archive.saturating_sub(1)
    } else {
        number_of(rt, fields.next())
    };
    let heading = Heading {
        archive,
        prev,
        title,
        updated: updated.as_str(),
        first: number_of(rt, fields.next()),
        last: number_of(rt, fields.next()),
    };
    let lines = heading_text(rt, alloc, &heading);
    push(rt, text, lines.as_bytes());
}

/// Appends the line of an item.
fn push_item(rt: &impl Abort, alloc: Global, text: &mut Vec<u8>, name: &str, rest: &str) {
    let mut fields = rest.split(',');
    let number = number_of(rt, fields.next());
    let line = if name == "gone" {
        let when = timestamp(rt, alloc, fields.next());
        gone_line(rt, alloc, number, when.as_str())
    } else {
        let title = fields.next().expect(rt, "a title");
        let updated = timestamp(rt, alloc, fields.next());
        entry_line(rt, alloc, number, title, updated.as_str())
    };
    push(rt, text, line.as_bytes());
}

/// The title of a member: the letter with its number.
fn letter(rt: &impl Abort, alloc: Global, number: u32) -> String {
    let at = number.saturating_sub(1) as usize;
    let byte = b"abcdefghijklmnopqrstu".get(at).expect(rt, "a letter");
    let letter = char::from(*byte);
    format!(in alloc; "{letter}").expect(rt, "memory")
}

/// Appends a document of a store with windows of 4 operations, of which operation n makes member n. Its title is the n-th
/// letter, and the clock stands still at 2023-11-14T22:13:20Z.
///
/// It is the archive of this number with its last operation, or, if `archive` is 0, the subscription document after this
/// operation.
fn push_letters(rt: &impl Abort, alloc: Global, text: &mut Vec<u8>, archive: u32, last: u32) {
    let sealed = last.saturating_sub(1) / 4;
    let updated = moment(rt, alloc, last);
    let heading = Heading {
        archive,
        prev: sealed,
        title: "Feed",
        updated: updated.as_str(),
        first: sealed.saturating_mul(4).saturating_add(1),
        last,
    };
    let lines = heading_text(rt, alloc, &heading);
    push(rt, text, lines.as_bytes());
    for number in (heading.first..=last).rev() {
        let title = letter(rt, alloc, number);
        let updated = moment(rt, alloc, number);
        let line = entry_line(rt, alloc, number, title.as_str(), updated.as_str());
        push(rt, text, line.as_bytes());
    }
    push(rt, text, b"</feed>\n");
}

/// Appends an offer to a pile.
pub fn push_offer(rt: &impl Abort, alloc: Global, pile: &mut Vec<u8>, address: &str, text: &[u8]) {
    let line = format!(in alloc; "{address} {}\n", text.len()).expect(rt, "memory");
    push(rt, pile, line.as_bytes());
    push(rt, pile, text);
    push(rt, pile, b"\n");
}

/// Appends a pile of documents of the store of letters.
fn push_pile(rt: &impl Abort, alloc: Global, pile: &mut Vec<u8>, rest: &str) {
    push(rt, pile, b"pile 1\n");
    for field in rest.split(',') {
        let mut text = Vec::new(alloc);
        match field.strip_prefix('f') {
            Some(last) => {
                push_letters(rt, alloc, &mut text, 0, number_of(rt, Some(last)));
                push_offer(rt, alloc, pile, "http://feed.example/feed", text.as_slice());
            }
            None => {
                let archive = number_of(rt, Some(field));
                push_letters(rt, alloc, &mut text, archive, archive.saturating_mul(4));
                let address = format!(in alloc; "http://feed.example/archive/{archive}");
                let address = address.expect(rt, "memory");
                push_offer(rt, alloc, pile, address.as_str(), text.as_slice());
            }
        }
    }
}

/// Appends the lines of this number of live entries.
fn push_live(rt: &impl Abort, alloc: Global, text: &mut Vec<u8>, count: u32) {
    for number in 1..=count {
        let title = letter(rt, alloc, number);
        let updated = moment(rt, alloc, number);
        let line = format!(in alloc; "entry {number} {updated} {title}\n").expect(rt, "memory");
        push(rt, text, line.as_bytes());
    }
}

/// Appends a text, repeated.
fn push_times(rt: &impl Abort, alloc: Global, text: &mut Vec<u8>, rest: &str) {
    let (count, part) = rest.split_once(',').expect(rt, "a text");
    for number in 1..=number_of(rt, Some(count)) {
        let digits = format!(in alloc; "{number:012x}").expect(rt, "memory");
        let part = part
            .replace(alloc, '*', digits.as_str())
            .expect(rt, "memory");
        push_plain(rt, text, part.as_str());
    }
}

/// Appends the certificate after an edit.
fn push_edited(rt: &impl Abort, alloc: Global, text: &mut Vec<u8>, rest: &str) {
    let (old, new) = rest.split_once(',').expect(rt, "a text");
    let old = old.replace(alloc, '|', "\n").expect(rt, "memory");
    let new = new.replace(alloc, '|', "\n").expect(rt, "memory");
    assert!(rt; CERTIFICATE.contains(old.as_str()), "{rest}");
    let edited = CERTIFICATE.replace(alloc, old.as_str(), new.as_str());
    push(rt, text, edited.expect(rt, "memory").as_bytes());
}

/// Appends the text of a token, which has this name and these other fields.
fn push_token(rt: &impl Abort, alloc: Global, text: &mut Vec<u8>, name: &str, rest: &str) {
    match name {
        "feed" | "archive" => push_heading(rt, alloc, text, name, rest),
        "entry" | "gone" => push_item(rt, alloc, text, name, rest),
        "end" => push(rt, text, b"</feed>\n"),
        "opening" => push(rt, text, OPENING.as_bytes()),
        "letters" => push_letters(rt, alloc, text, 0, number_of(rt, Some(rest))),
        "sealed" => {
            let archive = number_of(rt, Some(rest));
            push_letters(rt, alloc, text, archive, archive.saturating_mul(4));
        }
        "pile" => push_pile(rt, alloc, text, rest),
        "live" => push_live(rt, alloc, text, number_of(rt, Some(rest))),
        "times" => push_times(rt, alloc, text, rest),
        "certificate" => push(rt, text, CERTIFICATE.as_bytes()),
        "edited" => push_edited(rt, alloc, text, rest),
        "service" => push(rt, text, SERVICE.as_bytes()),
        "atom" => {
            let beginning = format!(in alloc;
                "<feed xmlns=\"http://www.w3.org/2005/Atom\" xmlns:at=\"http://purl.org/atompub/tombstones/1.0\"><id>f</id><updated>{rest}</updated>"
            );
            push(rt, text, beginning.expect(rt, "memory").as_bytes());
        }
        _ => {
            let byte = u8::from_str_radix(name, 16).expect(rt, "a token");
            push(rt, text, &[byte]);
        }
    }
}

/// Appends a text without tokens.
fn push_plain(rt: &impl Abort, text: &mut Vec<u8>, part: &str) {
    for (at, line) in part.split('|').enumerate() {
        if at > 0 {
            push(rt, text, b"\n");
        }
        match line.strip_suffix('^') {
            Some(line) => {
                push(rt, text, line.as_bytes());
                push(rt, text, b"\r");
            }
            None => push(rt, text, line.as_bytes()),
        }
    }
}

/// The text of a part of a script.
pub fn expanded(rt: &impl Abort, alloc: Global, part: &str) -> Vec<u8> {
    let part = part.replace(alloc, "longest", LONGEST).expect(rt, "memory");
    let mut text = Vec::new(alloc);
    for piece in part.as_str().split('{') {
        let plain = match piece.split_once('}') {
            Some((token, plain)) => {
                match token.split_once(',') {
                    Some((name, rest)) => push_token(rt, alloc, &mut text, name, rest),
                    None => push_token(rt, alloc, &mut text, token, ""),
                }
                plain
            }
            None => piece,
        };
        push_plain(rt, &mut text, plain);
    }
    text
}
