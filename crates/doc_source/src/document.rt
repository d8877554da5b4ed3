//! The document that a response carries.

ghost use Rattle.std.specs.Prelude.{◌≡◌, ◌⊎◌, ◌≤◌, List, ℕ, Option, Err, IfOk, IfSome, IsErr, IsOkAnd, option_map, vec_len};
ghost use Rattle.atom_values.specs.Counts.{HasRisen};
ghost use Rattle.http_face.specs.Conn.{Reads};
ghost use Rattle.http_face.specs.Response.{IsAnswered, IsBadResponse};
ghost use Rattle.doc_source.specs.Pile.{offer_limit};

use crate::fetch::GetFault;
use http_face::{Conn, ResponseFault, read_response};
use std::alloc::Global;

/// Reads the response to a request for a document, and returns its bytes. `None` only if the response says that the
/// server has no such document (404 or 410).
///
/// - `Failed`: a call of the connection failed, or no response can be read.
/// - `NoMemory`: memory ran out.
pub fn read_document<C: Conn>(alloc: Global, conn: &mut C) -> Result<Option<Vec<u8>>, GetFault>
    ensures answered { IfOk result (λ found. C.observable
        → IsAnswered (C.state conn.old).left (option_map (λ bytes. bytes.items) found)) }
    ensures only { (answer : Option (List ℕ)) → IsAnswered (C.state conn.old).left answer → C.observable
        → IsOkAnd result (λ found. option_map (λ bytes. bytes.items) found ≡ answer)
        ⊎ (result ≡ Err GetFault.Failed) ⊎ (result ≡ Err GetFault.NoMemory) }
    ensures bad { C.observable → IsBadResponse (C.state conn.old).left → IsErr result }
    ensures failed { result ≡ Err GetFault.Failed → C.observable → IsBadResponse (C.state conn.old).left
        ⊎ HasRisen (C.state conn.old).faults (C.state conn.new).faults }
    ensures limit { IfOk result (λ found. IfSome found (λ bytes. vec_len bytes ≤ offer_limit)) }
    ensures reads { Reads (C.state conn.old) (C.state conn.new) }
{
    match read_response(alloc, conn) {
        Ok(found) => Ok(found),
        Err(ResponseFault::NoMemory) => Err(GetFault::NoMemory),
        Err(ResponseFault::ConnFault | ResponseFault::BadResponse) => Err(GetFault::Failed),
    }
}
