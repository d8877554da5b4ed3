ghost use Rattle.std.specs.Prelude.{◌≡◌, ℕ, ◌≤◌, List, length, Ok, Err, IfOk, MatchResult, OnOk};
ghost use Rattle.xml_tokens.specs.Progress.{Point, IsAt, IsOpened, IsOver, IsReading, depth_of, pending, total_of};
ghost use Rattle.feed_reader.specs.Rest.{IsDocumentFrom};
ghost use Rattle.service_reader.specs.Service.{collections_of};
ghost use Rattle.service_reader.specs.ServiceDocument.{SpellsService, IsServiceRefusedAt, service_depth, service_limit};
ghost use Rattle.service_reader.specs.ServiceReading.{AreAdded, AreMade, IsReadAs, IsRootRead};
ghost use Rattle.service_reader.specs.declared.values.Collection.{Collection as CollectionValue};
ghost use Rattle.service_reader.specs.declared.fault.ServiceRead.{ServiceRead};
ghost use Rattle.service_reader.specs.declared.fault.ServiceWhy.{ServiceWhy};

use crate::children::read_children;
use crate::fault::{ServiceRead, ServiceWhy};
use crate::found::{Found, Refusal};
use crate::values::{Collection, MAX_COLLECTIONS};
use crate::workspace::{InService, InWorkspace};
use atom_values::Many;
use std::alloc::Global;
use xml_tokens::{Element, Elements, Event, TokenFault, TokenWhy};

/// The greatest length of a service document, in bytes.
pub const MAX_SERVICE: usize = 67_108_864;

/// The greatest depth of an element in a service document. The root has depth 1.
pub const MAX_SERVICE_DEPTH: usize = 256;

/// Reads a service document of at most [`MAX_SERVICE`] bytes (RFC 5023 section 8.3.1), and returns the collections of
/// all its workspaces in document order. `address` is that of the document, to which the `href` of each collection is
/// joined (URL Standard section 4.4).
///
/// The workspaces are children of the root, the collections are children of a workspace, and all other elements there
/// are skipped, whatever they hold. A collection takes entries if it has no `accept`, or one whose text is
/// `application/atom+xml;type=entry` or `application/atom+xml`, without the white space at both ends.
///
/// `NotRead` has the first of these reasons that holds:
///
/// - `Token`: the bytes aren't UTF-8, or else a token isn't allowed where it is. The first such token counts.
/// - `NotAService`: the root isn't a service.
/// - The reason of the first collection that has one: `BadLink`, or else `TooMany`.
///
/// `NoMemory` if memory runs out or an address would have 4 GB, also where the bytes would be refused. One pass checks
/// the characters, and a second one reads the tokens.
pub fn read_service(
    alloc: Global,
    bytes: &[u8],
    address: &[u8],
) -> Result<Many<Collection, MAX_COLLECTIONS>, ServiceRead>
    requires { length bytes.now ≤ service_limit }
    // The bytes spell the collections that are returned.
    ensures found { IfOk result
        (λ collections. SpellsService bytes.now address.now collections.items) }
    // The collections that the bytes spell are returned, unless memory runs out.
    ensures only { (spelled : List CollectionValue) → SpellsService bytes.now address.now spelled
        → MatchResult result (λ collections. collections.items ≡ spelled)
        (λ fault. fault ≡ ServiceRead.NoMemory) }
    // A refusal states why and where.
    ensures refused { (at : ℕ) (why : ServiceWhy) → result ≡ Err (ServiceRead.NotRead at why)
        → IsServiceRefusedAt bytes.now address.now at why }
{
    match document(alloc, bytes, address)? {
        Ok(collections) => Ok(collections),
        Err((at, why)) => Err(ServiceRead::NotRead { at, why }),
    }
}

/// Reads a document to its end. The inner error is the refusal of its first element that has one.
fn document(
    alloc: Global,
    bytes: &[u8],
    address: &[u8],
) -> Result<Result<Many<Collection, MAX_COLLECTIONS>, Refusal>, TokenFault>
    ensures { IsReadAs bytes.now address.now result }
{
    let mut elements = Elements::new(alloc, MAX_SERVICE_DEPTH, bytes)?;
    let root = read_root(&mut elements, bytes)?;
    if root.is_app(b"service") {
        return service(alloc, &mut elements, address);
    }
    elements.skip()?;
    elements.drain()?;
    Ok(Err((root.at, ServiceWhy::NotAService)))
}

/// Reads the tag of the root of the document `bytes`, of which nothing is read.
fn read_root<'a>(elements: &mut Elements<'a>, bytes: &[u8]) -> Result<Element<'a>, TokenFault>
    requires { IsOpened service_depth bytes.now elements.old }
    ensures read { IsRootRead bytes.now result elements.new }
    ensures depth { OnOk result (depth_of elements.new ≡ 1) }
{
    match elements.next()? {
        Some(Event::Begin(root)) => Ok(root),
        // The first part of a document's tree is its root.
        Some(Event::End) => Err(broken(bytes.len())),
        Some(Event::Said(_)) => Err(broken(bytes.len())),
        None => Err(broken(bytes.len())),
    }
}

/// The fault of an input that ends too early.
fn broken(at: usize) -> TokenFault {
    TokenFault::NotRead {
        at,
        why: TokenWhy::NotWellFormed,
    }
}

/// Reads the content of a service, and the rest of its document.
fn service(
    alloc: Global,
    elements: &mut Elements<'_>,
    address: &[u8],
) -> Result<Result<Many<Collection, MAX_COLLECTIONS>, Refusal>, TokenFault>
    requires reading { IsReading elements.old }
    requires inside { 1 ≤ depth_of elements.old }
    ensures read { (from : Point) → IsAt elements.old from
        → IsDocumentFrom (λ inner made. AreMade address.now (collections_of inner) made)
        (total_of elements.old) (pending elements.old) from result elements.new }
    ensures over { OnOk result (IsOver elements.new) }
{
    let workspace = InWorkspace { alloc, address };
    let mut found = Found::new(alloc);
    if let Err(fault) = read_workspaces(elements, &InService { workspace }, &mut found) {
        drop(found);
        return Err(fault);
    }
    Ok(found.collections())
}

/// Reads the workspaces of a service, and the rest of its document.
fn read_workspaces(
    elements: &mut Elements<'_>,
    service: &InService<'_>,
    found: &mut Found,
) -> Result<(), TokenFault>
    requires reading { IsReading elements.old }
    requires inside { 1 ≤ depth_of elements.old }
    ensures read { (from : Point) → IsAt elements.old from
        → IsDocumentFrom (λ inner _. AreAdded service.now.workspace.address.now found.old
        (collections_of inner) found.new)
        (total_of elements.old) (pending elements.old) from result elements.new }
    ensures over { OnOk result (IsOver elements.new) }
{
    read_children(service, elements, found)?;
    elements.drain()
}
