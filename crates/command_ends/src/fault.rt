ghost use Rattle.std.specs.Prelude.{◌≡◌, ◌≤◌, ◌+◌, ◌++◌, codes, decimal, length};
ghost use Rattle.arrayvec.specs.ArrayString.{array_string_len};
ghost use Rattle.command_ends.specs.Fault.{bad_store_line, fault_answer, full_line, member_line, numbered};
ghost use Rattle.command_ends.specs.Fault.{area_word, connection_line, refusal_answer, rule_fault, spaced};
ghost use Rattle.command_ends.specs.StoreFaults.{prepare_fault};

use crate::status::Status;
use arrayvec::ArrayString;
use atom_values::{Failed, NoMemory};
use doc_source::PileFault;
use feed_disk::Area;
use feed_journal::DiskFault;
use feed_recovery::{ArchiveFault, InitFault, LoadFault, MemberFault, PrepareFault};
use itoa::Buffer;
use member_rules::RuleFault;
use std::alloc::{AllocError, AllocFailed};

/// Why a command ends before its defined end.
#[derive(Clone, Copy, Debug, PartialEq, Eq)]
pub enum Fault {
    /// Memory ran out.
    NoMemory,
    /// A call on the input failed.
    Input,
    /// A call on the disk failed.
    Disk,
    /// The disk has no store that opens, or has one already.
    BadStore(BadStore),
    /// An area of `size` bytes has no room for `needed` more within `capacity`.
    Full {
        area: Area,
        size: u64,
        needed: u64,
        capacity: u64,
    },
    /// The input or a document of the source is refused, or the store doesn't have the document that the words name.
    Refused(Refusal),
}

/// Why the store of a disk can't be opened, made or read.
#[derive(Clone, Copy, Debug, PartialEq, Eq)]
pub enum BadStore {
    /// The disk has no store.
    NotInit,
    /// The disk has a store already, so none is made.
    AlreadyInit,
    /// The payload of this index, counted from 0, is bad at offset `at`.
    BadRecord { area: Area, index: u32, at: u64 },
    /// This number of operations can't have this number of seals.
    SealCount { records: u32, seals: u32 },
    /// The seal of this index, counted from 1, isn't the text of its archive.
    BadSeal { index: u32 },
    /// The payload of this index, counted from 0, isn't as it was.
    Changed { area: Area, index: u32 },
    /// The gate after the last frame of the area, at offset `at`, is open.
    OpenGate { area: Area, at: u64 },
}

/// Why an input, a document of the source or a request for a document is refused. Lines are numbered from 1.
#[derive(Clone, Copy, Debug, PartialEq, Eq)]
pub enum Refusal {
    /// The input is longer than the command's limit.
    TooLong,
    /// The input isn't the text of a document: no piece of a document can begin at this offset.
    BadDocument { offset: u64 },
    /// The input isn't a pile: at this offset a line or an offer begins that can't be read.
    BadPile { at: u64 },
    /// The input doesn't begin with a certificate: this line of it is the first that no certificate has there.
    BadCertificate { line: u32 },
    /// The pile after a certificate has more offers than are audited.
    TooManyOffers,
    /// The document of the source isn't read as a service document: it is refused at this offset.
    BadService { at: u64 },
    /// The line is none of the command's.
    BadLine { line: u64 },
    /// The line names a member that was never made.
    NotFound { line: u64, member: u32 },
    /// The line names a member that was deleted.
    Deleted { line: u64, member: u32 },
    /// The line's timestamp would be past the greatest stamp.
    Clock { line: u64 },
    /// The line's entry is too large.
    TooLarge { line: u64 },
    /// Only the archives 1 to `sealed` are sealed.
    NotSealed { number: u32, sealed: u32 },
    /// The store never had this member.
    NoMember { number: u32 },
    /// The member of the store was deleted.
    DeletedMember { number: u32 },
}

/// How many bytes the longest line of a fault may have: `full`, the name of an area and three numbers need 76.
pub const MAX_LINE: usize = 80;

/// The line that is printed for a fault. It has a fixed size, so that out of memory can be printed too.
pub type FaultLine = ArrayString<MAX_LINE>;

impl Fault {
    /// The status with which a command ends at this fault.
    pub fn status(self) -> Status
        ensures { result ≡ (fault_answer self).status }
    {
        match self {
            Fault::NoMemory => Status::NoMemory,
            Fault::Input => Status::InputFault,
            Fault::Disk => Status::DiskFault,
            Fault::BadStore(_) => Status::BadStore,
            Fault::Full { .. } => Status::Full,
            Fault::Refused(refusal) => refusal.status(),
        }
    }

    /// The line that is printed, with its LF.
    pub fn line(self) -> FaultLine
        ensures { result.bytes ≡ (fault_answer self).printed }
    {
        match self {
            Fault::NoMemory => line_of("no memory\n"),
            Fault::Input => line_of("input fault\n"),
            Fault::Disk => line_of("disk fault\n"),
            Fault::BadStore(bad) => bad.line(),
            Fault::Full {
                area,
                size,
                needed,
                capacity,
            } => line_of_full(area, size, needed, capacity),
            Fault::Refused(refusal) => refusal.line(),
        }
    }

    /// The fault of a line that the rules of the feed refuse.
    pub fn of_rule(line: u64, fault: RuleFault) -> Fault
        ensures { result ≡ rule_fault line fault }
    {
        let refusal = match fault {
            RuleFault::NotFound { number: member } => Refusal::NotFound { line, member },
            RuleFault::Deleted { number: member, .. } => Refusal::Deleted { line, member },
            RuleFault::OtherId { .. } => Refusal::BadLine { line },
            RuleFault::ClockSpent { .. } => Refusal::Clock { line },
            RuleFault::TooLarge { .. } => Refusal::TooLarge { line },
            RuleFault::NoMemory => return Fault::NoMemory,
        };
        Fault::Refused(refusal)
    }

    /// The fault of a line whose request the store doesn't prepare.
    pub fn of_prepare(line: u64, fault: PrepareFault) -> Fault
        ensures { result ≡ prepare_fault line fault }
    {
        match fault {
            PrepareFault::Rule(fault) => Fault::of_rule(line, fault),
            PrepareFault::Full {
                area,
                size,
                needed,
                capacity,
            } => Fault::Full {
                area,
                size,
                needed,
                capacity,
            },
            PrepareFault::NoMemory => Fault::NoMemory,
        }
    }
}

impl BadStore {
    fn line(self) -> FaultLine
        ensures { result.bytes ≡ bad_store_line self }
    {
        match self {
            BadStore::NotInit => line_of("not init\n"),
            BadStore::AlreadyInit => line_of("already init\n"),
            BadStore::BadRecord { area, index, at } => {
                let mut line = naming_area("bad store ", area);
                append_number(&mut line, u64::from(index));
                append_number(&mut line, at);
                append(&mut line, "\n");
                line
            }
            BadStore::SealCount { records, seals } => {
                let mut line = line_of("seal count");
                append_number(&mut line, u64::from(records));
                append_number(&mut line, u64::from(seals));
                append(&mut line, "\n");
                line
            }
            BadStore::BadSeal { index } => numbered("bad seal ", u64::from(index), "\n"),
            BadStore::Changed { area, index } => {
                let mut line = naming_area("changed ", area);
                append_number(&mut line, u64::from(index));
                append(&mut line, "\n");
                line
            }
            BadStore::OpenGate { area, at } => {
                let mut line = naming_area("open gate ", area);
                append_number(&mut line, at);
                append(&mut line, "\n");
                line
            }
        }
    }
}

impl Refusal {
    fn status(self) -> Status
        ensures { result ≡ (refusal_answer self).status }
    {
        match self {
            Refusal::TooLong
            | Refusal::BadDocument { .. }
            | Refusal::BadPile { .. }
            | Refusal::BadCertificate { .. }
            | Refusal::TooManyOffers
            | Refusal::BadService { .. }
            | Refusal::BadLine { .. } => Status::BadInput,
            Refusal::NotFound { .. }
            | Refusal::Deleted { .. }
            | Refusal::Clock { .. }
            | Refusal::TooLarge { .. }
            | Refusal::NotSealed { .. }
            | Refusal::NoMember { .. }
            | Refusal::DeletedMember { .. } => Status::Refused,
        }
    }

    fn line(self) -> FaultLine
        ensures { result.bytes ≡ (refusal_answer self).printed }
    {
        match self {
            Refusal::TooLong => line_of("input too long\n"),
            Refusal::BadDocument { offset } => numbered("bad document ", offset, "\n"),
            Refusal::BadPile { at } => numbered("bad pile ", at, "\n"),
            Refusal::BadCertificate { line } => {
                numbered("bad certificate ", u64::from(line), "\n")
            }
            Refusal::TooManyOffers => line_of("too many offers\n"),
            Refusal::BadService { at } => numbered("bad service ", at, "\n"),
            Refusal::BadLine { line } => numbered("bad line ", line, "\n"),
            Refusal::NotFound { line, member } => naming_member(line, " not found ", member),
            Refusal::Deleted { line, member } => naming_member(line, " deleted ", member),
            Refusal::Clock { line } => numbered("line ", line, " clock\n"),
            Refusal::TooLarge { line } => numbered("line ", line, " too large\n"),
            Refusal::NotSealed { number, sealed } => {
                let mut line = numbered("archive ", u64::from(number), " not sealed");
                append_number(&mut line, u64::from(sealed));
                append(&mut line, "\n");
                line
            }
            Refusal::NoMember { number } => {
                numbered("member ", u64::from(number), " not found\n")
            }
            Refusal::DeletedMember { number } => {
                numbered("member ", u64::from(number), " deleted\n")
            }
        }
    }
}

/// Appends a text for which the line has room.
fn append(line: &mut FaultLine, text: &str)
    requires { array_string_len line.old + length text.now ≤ MAX_LINE }
    ensures bytes { line.new.bytes ≡ line.old.bytes ++ text.now }
    ensures len { array_string_len line.new ≡ array_string_len line.old + length text.now }
{
    // The text fits, so it is never handed back.
    let _ = line.try_push_str(text);
}

/// The line of this text.
pub fn line_of(text: &str) -> FaultLine
    requires { length text.now ≤ MAX_LINE }
    ensures { result.bytes ≡ text.now }
{
    let mut line = ArrayString::new();
    append(&mut line, text);
    line
}

/// Appends a space and a number, for which the line has room.
fn append_number(line: &mut FaultLine, number: u64)
    requires { array_string_len line.old + 21 ≤ MAX_LINE }
    ensures bytes { line.new.bytes ≡ line.old.bytes ++ spaced number }
    ensures len { array_string_len line.new ≤ array_string_len line.old + 21 }
{
    let mut buffer = Buffer::new();
    append(line, " ");
    append(line, buffer.format(number));
}

/// The word that names an area.
fn area_word(area: Area) -> &'static str
    ensures { result.now ≡ area_word area }
{
    match area {
        Area::Journal => "journal",
        Area::Sealed => "sealed",
        Area::Mirror => "mirror",
    }
}

/// A text and the name of an area.
fn naming_area(front: &str, area: Area) -> FaultLine
    requires { length front.now ≤ 10 }
    ensures bytes { result.bytes ≡ front.now ++ area_word area }
    ensures len { array_string_len result ≤ length front.now + 7 }
{
    let mut line = line_of(front);
    append(&mut line, area_word(area));
    line
}

/// The line of an area that has no room.
fn line_of_full(area: Area, size: u64, needed: u64, capacity: u64) -> FaultLine
    ensures { result.bytes ≡ full_line area size needed capacity }
{
    let mut line = naming_area("full ", area);
    append_number(&mut line, size);
    append_number(&mut line, needed);
    append_number(&mut line, capacity);
    append(&mut line, "\n");
    line
}

/// The line of a connection that was served: the status of its reply, and the version of the feed.
pub fn connection_line(status: u16, version: u32) -> FaultLine
    ensures { result.bytes ≡ connection_line status version }
{
    let mut line = numbered("", u64::from(status), "");
    append_number(&mut line, u64::from(version));
    append(&mut line, "\n");
    line
}

/// A number between two texts.
fn numbered(front: &str, number: u64, back: &str) -> FaultLine
    requires { length front.now + length back.now ≤ 32 }
    ensures bytes { result.bytes ≡ numbered front.now number back.now }
    ensures len { array_string_len result ≤ length front.now + length back.now + 20 }
{
    let mut line = line_of(front);
    let mut buffer = Buffer::new();
    append(&mut line, buffer.format(number));
    append(&mut line, back);
    line
}

/// The line of a refusal that names a member.
fn naming_member(number: u64, why: &str, member: u32) -> FaultLine
    requires { length why.now ≤ 20 }
    ensures { result.bytes ≡ member_line number why.now member }
{
    let mut line = numbered("line ", number, why);
    let mut buffer = Buffer::new();
    append(&mut line, buffer.format(member));
    append(&mut line, "\n");
    line
}

impl From<NoMemory> for Fault {
    ghost use Rattle.std.specs.Prelude.{◌≡◌};
    ghost use Rattle.command_ends.specs.declared.fault.Fault.TheVariants.{NoMemory};

    ghost from_gives = { λ _ e. e ≡ NoMemory };

    fn from(_error: NoMemory) -> Fault {
        Fault::NoMemory
    }
}

impl<T: Drop> From<AllocFailed<T>> for Fault {
    ghost use Rattle.std.specs.Prelude.{◌≡◌};
    ghost use Rattle.command_ends.specs.declared.fault.Fault.TheVariants.{NoMemory};

    ghost from_gives = { λ _ e. e ≡ NoMemory };

    fn from(_error: AllocFailed<T>) -> Fault {
        Fault::NoMemory
    }
}

impl From<AllocError> for Fault {
    ghost use Rattle.std.specs.Prelude.{◌≡◌};
    ghost use Rattle.command_ends.specs.declared.fault.Fault.TheVariants.{NoMemory};

    ghost from_gives = { λ _ e. e ≡ NoMemory };

    fn from(_error: AllocError) -> Fault {
        Fault::NoMemory
    }
}

impl From<Failed> for Fault {
    ghost use Rattle.std.specs.Prelude.{◌≡◌};
    ghost use Rattle.command_ends.specs.declared.fault.Fault.TheVariants.{Input};

    ghost from_gives = { λ _ e. e ≡ Input };

    fn from(_error: Failed) -> Fault {
        Fault::Input
    }
}

impl From<Refusal> for Fault {
    ghost use Rattle.std.specs.Prelude.{◌≡◌};
    ghost use Rattle.command_ends.specs.declared.fault.Fault.TheVariants.{Refused};

    ghost from_gives = { λ refusal e. e ≡ Refused refusal };

    fn from(refusal: Refusal) -> Fault {
        Fault::Refused(refusal)
    }
}

impl From<DiskFault> for Fault {
    ghost use Rattle.std.specs.Prelude.{◌≡◌};
    ghost use Rattle.command_ends.specs.declared.fault.Fault.TheVariants.{Disk};

    ghost from_gives = { λ _ e. e ≡ Disk };

    fn from(_error: DiskFault) -> Fault {
        Fault::Disk
    }
}

impl From<PileFault> for Fault {
    ghost use Rattle.std.specs.Prelude.{◌≡◌};
    ghost use Rattle.command_ends.specs.Fault.{pile_fault};

    ghost from_gives = { λ fault e. e ≡ pile_fault fault };

    fn from(fault: PileFault) -> Fault {
        match fault {
            PileFault::BadPile { at } => Fault::Refused(Refusal::BadPile { at }),
            PileFault::TooLong { .. } => Fault::Refused(Refusal::TooLong),
            PileFault::SourceFault => Fault::Input,
            PileFault::NoMemory => Fault::NoMemory,
        }
    }
}

impl From<InitFault> for Fault {
    ghost use Rattle.std.specs.Prelude.{◌≡◌};
    ghost use Rattle.command_ends.specs.StoreFaults.{init_fault};

    ghost from_gives = { λ fault e. e ≡ init_fault fault };

    fn from(fault: InitFault) -> Fault {
        match fault {
            InitFault::AlreadyInit => Fault::BadStore(BadStore::AlreadyInit),
            InitFault::DiskFault => Fault::Disk,
            InitFault::NoMemory => Fault::NoMemory,
        }
    }
}

impl From<LoadFault> for Fault {
    ghost use Rattle.std.specs.Prelude.{◌≡◌};
    ghost use Rattle.command_ends.specs.StoreFaults.{load_fault};

    ghost from_gives = { λ fault e. e ≡ load_fault fault };

    fn from(fault: LoadFault) -> Fault {
        let bad = match fault {
            LoadFault::NotInit => BadStore::NotInit,
            LoadFault::BadRecord { area, index, at } => BadStore::BadRecord {
                area,
                index,
                at: at as u64,
            },
            LoadFault::SealCount { records, seals } => BadStore::SealCount { records, seals },
            LoadFault::BadSeal { index } => BadStore::BadSeal { index },
            LoadFault::DiskFault => return Fault::Disk,
            LoadFault::NoMemory => return Fault::NoMemory,
        };
        Fault::BadStore(bad)
    }
}

impl From<ArchiveFault> for Fault {
    ghost use Rattle.std.specs.Prelude.{◌≡◌};
    ghost use Rattle.command_ends.specs.StoreFaults.{archive_fault};

    ghost from_gives = { λ fault e. e ≡ archive_fault fault };

    fn from(fault: ArchiveFault) -> Fault {
        match fault {
            ArchiveFault::NotSealed { number, sealed } => {
                Fault::Refused(Refusal::NotSealed { number, sealed })
            }
            ArchiveFault::DiskFault => Fault::Disk,
            ArchiveFault::Changed { index } => Fault::BadStore(BadStore::Changed {
                area: Area::Sealed,
                index,
            }),
            ArchiveFault::NoMemory => Fault::NoMemory,
        }
    }
}

impl From<MemberFault> for Fault {
    ghost use Rattle.std.specs.Prelude.{◌≡◌};
    ghost use Rattle.command_ends.specs.StoreFaults.{member_fault};

    ghost from_gives = { λ fault e. e ≡ member_fault fault };

    fn from(fault: MemberFault) -> Fault {
        match fault {
            MemberFault::NotFound { number } => Fault::Refused(Refusal::NoMember { number }),
            MemberFault::Deleted { number, .. } => {
                Fault::Refused(Refusal::DeletedMember { number })
            }
            MemberFault::DiskFault => Fault::Disk,
            MemberFault::Changed { index } => Fault::BadStore(BadStore::Changed {
                area: Area::Journal,
                index,
            }),
            MemberFault::NoMemory => Fault::NoMemory,
        }
    }
}
