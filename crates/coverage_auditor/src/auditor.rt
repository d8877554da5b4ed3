ghost use Rattle.std.specs.Prelude.{◌≡◌, ◌↔◌, List, IfOk};
ghost use Rattle.member_rules.specs.Head.{HeadValue};
ghost use Rattle.member_rules.specs.declared.operation.Op.{Op};
ghost use Rattle.coverage_auditor.specs.Certified.{IsServedPile, ShowsCertified};
ghost use Rattle.coverage_auditor.specs.Checks.{ChecksAll};
ghost use Rattle.coverage_auditor.specs.Links.{accepted};
ghost use Rattle.coverage_auditor.specs.Verdict.{AreShort, Covers, IsVerdict};

use crate::chain::Chain;
use crate::halt::Halt;
use crate::links::{check_first, check_links, check_version};
use crate::live::check_live;
use crate::verdict::Verdict;
use atom_values::NoMemory;
use coverage_certificate::Certificate;
use doc_source::Offer;
use std::alloc::Global;

/// Goes through all checks of a certificate against a pile.
fn check(alloc: Global, certificate: &Certificate, pile: &[Offer]) -> Result<(), Halt>
    requires { AreShort pile.now }
    ensures { ChecksAll certificate.now pile.now result }
{
    let chain = Chain::read(alloc, certificate, pile)?;
    check_version(certificate, &chain)?;
    check_links(&chain)?;
    check_first(&chain)?;
    check_live(alloc, certificate, &chain)
}

/// Audits a certificate against a pile of documents, each of at most 67,108,864 bytes.
///
/// The verdict is the first of these that fits. Those of the lines are tried on each line in order, all four on one
/// line before the next line:
///
/// - `NoDocument`: the pile has no document of the line's address. `DigestDiffers`: it has some, and none with the
///   line's digest. `NotADocument`: the bytes of the first one with this digest are the text of no document.
///   `WrongDocument`: they are, and the document states another address, base or feed.
/// - `VersionDiffers`: the first line's document doesn't end with the certificate's version.
/// - `BrokenChain`: a line's document doesn't come right before that of the line above.
/// - `NotTheFirst`: the last line's document doesn't begin with operation 1.
/// - `LiveDiffers`: the live entries of the documents have another number or another digest.
/// - `Accepted`.
///
/// `NoMemory` if there is no memory. Digests each offer at most once, reads each line's document once, and the piece of
/// each live entry once more; the texts stay in `pile`, and beside it the memory is 12 bytes for each item, about 100
/// for each document, and a map of the live members. Takes time in proportion to the pile, and to the lines times the
/// logarithm of the number of offers.
pub fn audit(alloc: Global, certificate: &Certificate, pile: &[Offer]) -> Result<Verdict, NoMemory>
    requires { AreShort pile.now }
    ensures verdict { IfOk result (IsVerdict certificate.now pile.now) }
    ensures covers { IfOk result (λ verdict.
        (verdict ≡ accepted certificate.now) ↔ Covers certificate.now pile.now) }
    // If one feed served all documents of the pile, an accepted certificate states the feed's own chain.
    ensures served { (head : HeadValue) (history : List Op) → IsServedPile head history pile.now
        → IfOk result (λ verdict. verdict ≡ accepted certificate.now
        → ShowsCertified head history certificate.now pile.now) }
{
    let accepted = Verdict::Accepted {
        version: certificate.version,
        live: certificate.live_count,
    };
    match check(alloc, certificate, pile) {
        Ok(()) => Ok(accepted),
        Err(Halt::Refused(verdict)) => Ok(verdict),
        Err(Halt::NoMemory) => Err(NoMemory),
    }
}
