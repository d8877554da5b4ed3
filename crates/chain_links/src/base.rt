ghost use Rattle.std.specs.Prelude.{◌≡◌, ◌↔◌, ◌≤◌, ◌+◌, ◌++◌, length, IsTrue, OnOk, OnErr, IfOk, IfErr, IfSome, OnSome, IfNone, unwrap_or};
ghost use Rattle.chain_links.specs.Base.{BaseParts, IsBase, Spells, default_port, host_text, path_text};
ghost use Rattle.chain_links.specs.PartOffsets.{HasParts};
ghost use Rattle.chain_links.specs.Checked.{IsUrlText};
ghost use Rattle.chain_links.specs.Address.{IsAddress, IsTarget, printed, printed_limit};
ghost use Rattle.chain_links.specs.declared.address.Address.{Address};

use crate::address::{Address, append, append_suffix, read_suffix, suffix_len};
use crate::front::{after, after_host, is_path, port};
use atom_values::{Copies, NoMemory};
use std::alloc::{AllocError, Global};
use std::error::Error;
use std::marker::Model;
use std::{fmt, str};
use url::{ParseError, Url};

/// The greatest number of bytes of a base address.
pub const MAX_BASE: usize = 200;

const SCHEME: &[u8] = b"http://";

/// A base address, below which the documents of a feed have their addresses.
///
/// Keeps the text, which is `http://`, a host, optionally a port, and a path that ends with `/` (a part of RFC 3986
/// section 3), and the offsets of its parts.
#[derive(Debug, Drop)]
pub struct Base {
    text: Vec<u8>,
    parts: PartOffsets,
}

/// The offsets in the text where the host ends and the path starts, and the port's value.
#[derive(Clone, Copy, Debug)]
struct PartOffsets {
    host_end: usize,
    port: u16,
    path_start: usize,
}

impl Model for Base {
    ghost use Rattle.std.specs.Prelude.{ℕ, List};
    ghost use Rattle.chain_links.specs.PartOffsets.{HasParts};

    ghost Value = { List ℕ };

    ghost view = { λ b. b.text.items };

    ghost invariant = { λ b. HasParts b.text.items b.parts.host_end b.parts.port b.parts.path_start };
}

/// Why `Base::parse` refused a text.
#[derive(Clone, Copy, Debug, PartialEq, Eq)]
pub enum BaseFault {
    /// The text isn't in the grammar of base addresses, or has more than `MAX_BASE` bytes.
    BadBase,
    /// The copy of the text needed memory, and none was left.
    NoMemory,
}

impl fmt::Display for BaseFault {
    fn fmt<W: fmt::Write>(&self, f: &mut fmt::Formatter<W>) -> fmt::Result {
        match self {
            BaseFault::BadBase => write!(f, "not a base address"),
            BaseFault::NoMemory => write!(f, "out of memory"),
        }
    }
}

impl Error for BaseFault {}

impl From<AllocError> for BaseFault {
    ghost use Rattle.std.specs.Prelude.{◌≡◌};
    ghost use Rattle.chain_links.specs.declared.base.BaseFault.TheVariants.{NoMemory};

    ghost from_gives = { λ _ fault. fault ≡ NoMemory };

    fn from(_error: AllocError) -> BaseFault {
        BaseFault::NoMemory
    }
}

/// The offsets of a base address' parts in its text. `None` if the text is no base address.
fn find_parts(text: &[u8]) -> Option<PartOffsets>
    ensures base { OnSome result (IsBase text.now) }
    ensures offsets { IfSome result (λ at. HasParts text.now at.host_end at.port at.path_start) }
    ensures none { IfNone result (¬ IsBase text.now) }
{
    if text.len() > MAX_BASE {
        return None;
    }
    let host = after(text, SCHEME)?;
    let behind = after_host(host)?;
    let (number, path) = port(behind)?;
    if !is_path(path) {
        return None;
    }
    Some(PartOffsets {
        host_end: text.len() - behind.len(),
        port: number,
        path_start: text.len() - path.len(),
    })
}

impl Base {
    /// Parses a base address. `BadBase` exactly if the text is none; `NoMemory` if there is no memory for its copy.
    pub fn parse(alloc: Global, text: &[u8]) -> Result<Base, BaseFault>
        ensures text { IfOk result (λ base. base ≡ text.now) }
        ensures taken { OnOk result (IsBase text.now) }
        ensures refused { result ≡ Err BaseFault.BadBase → ¬ IsBase text.now }
        ensures foreign { ¬ IsBase text.now → result ≡ Err BaseFault.BadBase }
    {
        let Some(parts) = find_parts(text) else {
            return Err(BaseFault::BadBase);
        };
        let text = Vec::from_slice(alloc, text)?;
        Ok(Base { text, parts })
    }

    /// The whole text.
    pub fn text(&self) -> &[u8]
        ensures text { result.now ≡ self.now }
        ensures base { IsBase self.now }
        // The text has one reading only.
        ensures one_reading { (p q : BaseParts) → Spells p self.now → Spells q self.now → p ≡ q }
    {
        &self.text
    }

    /// The host (RFC 3986 section 3.2.2).
    pub fn host(&self) -> &[u8]
        ensures { (parts : BaseParts) → Spells parts self.now → result.now ≡ host_text parts.labels }
    {
        &self.text[SCHEME.len()..self.parts.host_end]
    }

    /// The port (RFC 3986 section 3.2.3), which is 80 if the text has none.
    pub fn port(&self) -> u16
        ensures { (parts : BaseParts) → Spells parts self.now → result ≡ unwrap_or parts.port default_port }
    {
        self.parts.port
    }

    /// The path (RFC 3986 section 3.3), which begins with the `/` after the host and the port.
    pub fn path(&self) -> &[u8]
        ensures path { (parts : BaseParts) → Spells parts self.now → result.now ≡ path_text parts.segments }
        ensures base { IsBase self.now }
    {
        &self.text[self.parts.path_start..]
    }

    /// Whether the parser of the URL Standard (section 4.4) reads the text as a URL and prints the same text. `false`
    /// if the port is written as 80, a segment is `.` or `..`, or the host is a short form of an IPv4 address.
    ///
    /// `NoMemory` if the parser finds no memory for its URL.
    pub fn checked(&self, alloc: Global) -> Result<bool, NoMemory>
        ensures { IfOk result (λ answer. IsTrue answer ↔ IsUrlText self.now) }
    {
        let Ok(text) = str::from_utf8(&self.text) else {
            // Never reached: a base address is ASCII.
            return Ok(false);
        };
        match Url::parse(alloc, text) {
            Ok(url) => Ok(url.as_str() == text),
            Err(ParseError::OutOfMemory | ParseError::Overflow) => Err(NoMemory),
            Err(_) => Ok(false),
        }
    }

    /// Parses the address of a document below this base. `None` if the text isn't one. Takes no memory.
    pub fn read(&self, text: &[u8]) -> Option<Address>
        ensures found { IfSome result (λ address. IsAddress address × (text.now ≡ printed self.now address)) }
        ensures only { (address : Address) → IsAddress address → text.now ≡ printed self.now address
            → result ≡ Some address }
        ensures distinct { (one other : Address) → IsAddress one → IsAddress other
            → printed self.now one ≡ printed self.now other → one ≡ other }
    {
        read_suffix(after(text, &self.text)?)
    }

    /// Parses the target of a request: the address of a document, whole or from the path on. `None` if the target is
    /// neither (RFC 9112 section 3.2). Takes no memory.
    pub fn read_target(&self, target: &[u8]) -> Option<Address>
        ensures found { IfSome result (λ address. IsAddress address × IsTarget self.now address target.now) }
        ensures only { (address : Address) → IsAddress address → IsTarget self.now address target.now
            → result ≡ Some address }
    {
        match self.read(target) {
            Some(address) => Some(address),
            None => read_suffix(after(target, self.path())?),
        }
    }

    /// The address of a document below this base. `NoMemory` if there is no memory for it.
    pub fn print(&self, alloc: Global, address: Address) -> Result<Vec<u8>, NoMemory>
        requires { IsAddress address }
        ensures { IfOk result (λ text. text.items ≡ printed self.now address) }
    {
        let mut out = Vec::with_capacity(alloc, self.printed_len(address))?;
        self.print_into(&mut out, address)?;
        Ok(out)
    }

    /// Appends the address of a document below this base to `out`. `NoMemory` if `out` can't grow, which leaves `out`
    /// unchanged.
    pub fn print_into(&self, out: &mut Vec<u8>, address: Address) -> Result<(), NoMemory>
        requires { IsAddress address }
        ensures ok { OnOk result (out.new.items ≡ out.old.items ++ printed self.now address) }
        ensures err { OnErr result (out.new.items ≡ out.old.items) }
        ensures bound { length (printed self.now address) ≤ printed_limit }
    {
        out.reserve(self.printed_len(address))?;
        append(out, &self.text);
        append_suffix(out, address);
        Ok(())
    }

    /// The length of the address of a document below this base. Takes no memory.
    pub fn printed_len(&self, address: Address) -> usize
        requires { IsAddress address }
        ensures length { result ≡ length (printed self.now address) }
        ensures bound { result ≤ printed_limit }
    {
        self.text.len() + suffix_len(address)
    }
}

impl Copies for Base {
    ghost rules = { λ base. IsBase base };

    fn copy(&self, alloc: Global) -> Result<Base, NoMemory> {
        Ok(Base {
            text: Vec::from_slice(alloc, &self.text)?,
            parts: self.parts,
        })
    }
}
