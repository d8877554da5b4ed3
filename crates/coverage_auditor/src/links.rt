ghost use Rattle.std.specs.Prelude.{◌≡◌, ◌<◌, List, ◌∷◌, length};
ghost use Rattle.atom_writer.specs.Doc.{DocValue};
ghost use Rattle.coverage_auditor.specs.Checks.{Checks};
ghost use Rattle.coverage_auditor.specs.Links.{broken_chain, not_the_first, oldest_of, version_differs};

use crate::chain::Chain;
use crate::halt::Halt;
use crate::verdict::Verdict;
use chain_links::follows;
use coverage_certificate::Certificate;

/// `VersionDiffers` unless the newest document ends with the certificate's version.
pub(crate) fn check_version(certificate: &Certificate, chain: &Chain<'_>) -> Result<(), Halt>
    requires { 0 < length chain.now }
    ensures { (newest : DocValue) (others : List DocValue) → chain.now ≡ newest ∷ others
        → Checks (version_differs certificate.now newest) result }
{
    let found = chain.document(0).span().last;
    if found == certificate.version {
        Ok(())
    } else {
        Err(Halt::Refused(Verdict::VersionDiffers { found }))
    }
}

/// `BrokenChain` unless each document but the newest comes right before the one before it.
pub(crate) fn check_links(chain: &Chain<'_>) -> Result<(), Halt>
    ensures { Checks (broken_chain chain.now) result }
{
    for at in 1..chain.len() {
        let newer = chain.document(at - 1).place();
        let older = chain.document(at).place();
        if !follows(&older, &newer) {
            let address = older.address;
            return Err(Halt::Refused(Verdict::BrokenChain { address }));
        }
    }
    Ok(())
}

/// `NotTheFirst` unless the oldest document begins with the first operation.
pub(crate) fn check_first(chain: &Chain<'_>) -> Result<(), Halt>
    requires { 0 < length chain.now }
    ensures { (newest : DocValue) (others : List DocValue) → chain.now ≡ newest ∷ others
        → Checks (not_the_first (oldest_of newest others)) result }
{
    let first = chain.document(chain.len() - 1).span().first;
    if first == 1 {
        Ok(())
    } else {
        Err(Halt::Refused(Verdict::NotTheFirst { first }))
    }
}
