ghost use Rattle.std.specs.Prelude.{◌≡◌, ◌⊎◌, ℕ, List, Bool, map, string_bytes, Ok, Err, IfOk};
ghost use Rattle.tool_words.specs.Words.{IsServe};
ghost use Rattle.tool_words.specs.declared.command.Command.{Command as CommandValue};

use crate::command::Command;
use crate::fault::WordsFault;
use crate::listen::{listen, requests};
use crate::parse::parsed;
use std::alloc::Global;

/// The names of the options of `serve`.
static SERVE_OPTIONS: [&str; 2] = ["listen", "requests"];

/// The name of the flag of `serve`.
static SERVE_FLAGS: [&str; 1] = ["service"];

/// Reads the words after `serve`.
pub(crate) fn serve(alloc: Global, words: &[String]) -> Result<Command, WordsFault>
    ensures found { IfOk result (λ command. (listen : List ℕ) × (requests : ℕ) × (service : Bool)
        × (command ≡ Command.Serve listen requests service)
        × IsServe (map string_bytes words.now) listen requests service) }
    ensures only { (listen : List ℕ) (requests : ℕ) (service : Bool)
        → IsServe (map string_bytes words.now) listen requests service
        → (result ≡ Ok (Command.Serve listen requests service)) ⊎ (result ≡ Err WordsFault.NoMemory) }
{
    let matches = parsed(alloc, &SERVE_OPTIONS, &SERVE_FLAGS, words)?;
    let listen = listen(alloc, &matches)?;
    let requests = requests(&matches)?;
    Ok(Command::Serve {
        listen,
        requests,
        service: matches.get_flag("service"),
    })
}
