ghost use Rattle.std.specs.Prelude.{◌≡◌, IfSome};
ghost use Rattle.http_face.specs.Reply.{HasPhrase, fault_reply};

use crate::reply::{Line7, Reply};
use atom_values::{Failed, NoMemory};
use std::alloc::AllocError;
use std::error::Error;
use std::fmt;

/// Why [`crate::read_request`] returned no request.
#[derive(Clone, Copy, Debug, PartialEq, Eq)]
pub enum RequestFault {
    /// A call on the connection failed.
    ConnFault,
    /// No request begins with the bytes, or the `Content-Length` of a POST or PUT isn't 1 to 30 digits.
    BadHead,
    /// The head has more than 16,384 bytes or more than 64 fields.
    HeadTooLarge,
    /// The connection ended within the request, after `read` bytes.
    EndedEarly { read: u64 },
    /// A POST or PUT has no `Content-Length`, or it has a `Transfer-Encoding` (RFC 9112 section 6).
    NoLength,
    /// A POST or PUT has two or more `Content-Length` fields.
    TwoLengths,
    /// The `Content-Length` of a POST or PUT is `length`, which is over 65,536.
    BodyTooLarge { length: u128 },
    /// Memory ran out.
    NoMemory,
}

impl RequestFault {
    /// The reply to bytes that are no request. `None` if the connection failed.
    pub fn reply(self) -> Option<Reply>
        ensures reply { result ≡ fault_reply self }
        // The status line of the reply has a phrase.
        ensures status { IfSome result (λ reply. HasPhrase reply.status) }
    {
        let (status, line) = match self {
            RequestFault::ConnFault => return None,
            RequestFault::BadHead => (400, Line7::BadHead),
            RequestFault::HeadTooLarge => (431, Line7::HeadTooLarge),
            RequestFault::EndedEarly { .. } => (400, Line7::EndedEarly),
            RequestFault::NoLength => (411, Line7::NoLength),
            RequestFault::TwoLengths => (400, Line7::TwoLengths),
            RequestFault::BodyTooLarge { .. } => (413, Line7::BodyTooLarge),
            RequestFault::NoMemory => (503, Line7::NoMemory),
        };
        Some(Reply::line(status, line))
    }
}

impl fmt::Display for RequestFault {
    fn fmt<W: fmt::Write>(&self, f: &mut fmt::Formatter<W>) -> fmt::Result {
        match self {
            RequestFault::ConnFault => write!(f, "connection fault"),
            RequestFault::BadHead => write!(f, "bad head"),
            RequestFault::HeadTooLarge => write!(f, "head too large"),
            RequestFault::EndedEarly { read } => write!(f, "ended early after {read} bytes"),
            RequestFault::NoLength => write!(f, "no length"),
            RequestFault::TwoLengths => write!(f, "two lengths"),
            RequestFault::BodyTooLarge { length } => write!(f, "body too large: {length} bytes"),
            RequestFault::NoMemory => write!(f, "out of memory"),
        }
    }
}

impl Error for RequestFault {}

impl From<Failed> for RequestFault {
    ghost use Rattle.std.specs.Prelude.{◌≡◌};
    ghost use Rattle.http_face.specs.declared.fault.RequestFault.TheVariants.{ConnFault};

    ghost from_gives = { λ _ e. e ≡ ConnFault };

    fn from(_error: Failed) -> RequestFault {
        RequestFault::ConnFault
    }
}

impl From<NoMemory> for RequestFault {
    ghost use Rattle.std.specs.Prelude.{◌≡◌};
    ghost use Rattle.http_face.specs.declared.fault.RequestFault.TheVariants.{NoMemory};

    ghost from_gives = { λ _ e. e ≡ NoMemory };

    fn from(_error: NoMemory) -> RequestFault {
        RequestFault::NoMemory
    }
}

impl From<AllocError> for RequestFault {
    ghost use Rattle.std.specs.Prelude.{◌≡◌};
    ghost use Rattle.http_face.specs.declared.fault.RequestFault.TheVariants.{NoMemory};

    ghost from_gives = { λ _ e. e ≡ NoMemory };

    fn from(_error: AllocError) -> RequestFault {
        RequestFault::NoMemory
    }
}

/// Why [`crate::read_response`] returned no answer.
#[derive(Clone, Copy, Debug, PartialEq, Eq)]
pub enum ResponseFault {
    /// A call on the connection failed.
    ConnFault,
    /// No response begins with the bytes, its head is over a limit, its status is another than 200, 404 and
    /// 410, or its body can't be read.
    BadResponse,
    /// Memory ran out.
    NoMemory,
}

impl fmt::Display for ResponseFault {
    fn fmt<W: fmt::Write>(&self, f: &mut fmt::Formatter<W>) -> fmt::Result {
        match self {
            ResponseFault::ConnFault => write!(f, "connection fault"),
            ResponseFault::BadResponse => write!(f, "bad response"),
            ResponseFault::NoMemory => write!(f, "out of memory"),
        }
    }
}

impl Error for ResponseFault {}

impl From<Failed> for ResponseFault {
    ghost use Rattle.std.specs.Prelude.{◌≡◌};
    ghost use Rattle.http_face.specs.declared.fault.ResponseFault.TheVariants.{ConnFault};

    ghost from_gives = { λ _ e. e ≡ ConnFault };

    fn from(_error: Failed) -> ResponseFault {
        ResponseFault::ConnFault
    }
}

impl From<AllocError> for ResponseFault {
    ghost use Rattle.std.specs.Prelude.{◌≡◌};
    ghost use Rattle.http_face.specs.declared.fault.ResponseFault.TheVariants.{NoMemory};

    ghost from_gives = { λ _ e. e ≡ NoMemory };

    fn from(_error: AllocError) -> ResponseFault {
        ResponseFault::NoMemory
    }
}

/// A call on the connection failed. Before that, the connection took the first `sent` bytes of the reply. The count
/// stays at the greatest `u64`.
#[derive(Clone, Copy, Debug, PartialEq, Eq)]
pub struct CutOff {
    pub sent: u64,
}

impl fmt::Display for CutOff {
    fn fmt<W: fmt::Write>(&self, f: &mut fmt::Formatter<W>) -> fmt::Result {
        write!(f, "cut off after {} bytes", self.sent)
    }
}

impl Error for CutOff {}
