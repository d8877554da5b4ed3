ghost use Rattle.std.specs.Prelude.{◌≡◌, IfOk};
ghost use Rattle.store_commands.specs.Line as lines;
ghost use Rattle.tool_words.specs.Line.{IsLineAsk};

use atom_values::{Draft, NoMemory};
use member_rules::{Ask, Setting, ShortText, WindowSize};
use std::alloc::Global;
use tool_words::{LineAsk, LineFault, read_line};

/// How many bytes of a line decide what it asks for: the longest good line is `change`, a number of ten digits and a
/// title of 1,024 bytes, and one byte more shows that a line is longer.
pub const PREFIX_LIMIT: usize = 1_043;

/// Returns what a line of `apply` asks of a feed. `None`: the line is a bad one.
pub fn line_ask(alloc: Global, line: &[u8]) -> Result<Option<Ask>, NoMemory>
    ensures { IfOk result (λ ask. ask ≡ lines.line_ask line.now) }
{
    match read_line(alloc, line) {
        Ok(ask) => Ok(Some(ask_of(alloc, ask))),
        Err(LineFault::BadLine) => Ok(None),
        Err(LineFault::NoMemory) => Err(NoMemory),
    }
}

/// The ask of a good line. Its draft, if it has one, has the line's title alone.
fn ask_of(alloc: Global, ask: LineAsk) -> Ask
    requires { IsLineAsk ask }
    ensures { result ≡ lines.ask_of ask }
{
    match ask {
        LineAsk::Add(title) => Ask::Create(Draft::titled(alloc, title)),
        LineAsk::Change { number, title } => Ask::Replace {
            number,
            draft: Draft::titled(alloc, title),
        },
        LineAsk::Remove { number } => Ask::Delete { number },
        LineAsk::Title(title) => Ask::Change(Setting::Title(ShortText::of(title).unwrap())),
        LineAsk::Window(size) => Ask::Change(Setting::Window(WindowSize::new(size).unwrap())),
    }
}
