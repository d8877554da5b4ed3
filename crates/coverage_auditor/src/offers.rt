ghost use Rattle.std.specs.Prelude.{◌≡◌, ◌+◌, ◌∷◌, ◌++◌, [], List, IfOk, OnOk, MatchResult, length, slice_get, Some};
ghost use Rattle.chain_links.specs.Address.{IsAddress};
ghost use Rattle.coverage_certificate.specs.Certificate.{CertificateValue};
ghost use Rattle.doc_source.specs.declared.offer.Offer.{Offer as OfferValue};
ghost use Rattle.coverage_auditor.specs.Finding.{RefusesLine, offer_of};
ghost use Rattle.coverage_auditor.specs.Offers.{IsIndexOf, KeepsFirst, address_number, line_key};

use crate::verdict::Verdict;
use atom_values::NoMemory;
use chain_links::{Address, Base};
use coverage_certificate::CoverLine;
use doc_source::Offer;
use sha2::{Digest, Sha256};
use std::alloc::Global;
use std::collections::BTreeMap;

/// An address by its number, and a digest.
pub(crate) type Key = (u64, [u8; 32]);

/// A number for each address.
fn address_number(address: Address) -> u64
    ensures { result ≡ address_number address }
{
    match address {
        Address::Feed => 0,
        Address::Archive(number) => u64::from(number),
        Address::Member(number) => u64::from(number) + 4_294_967_296,
    }
}

/// The key of a line in maps.
pub(crate) fn line_key(line: &CoverLine) -> Key
    ensures { result ≡ line_key line.now }
{
    (address_number(line.address), line.digest)
}

/// Enters the value at the key, unless the map has one there.
fn keep_first<K: Ord + Drop, V: Drop>(
    map: &mut BTreeMap<K, V>,
    key: K,
    value: V,
) -> Result<(), NoMemory>
    ensures { OnOk result (KeepsFirst K.cmp map.old map.new key value) }
{
    if !map.contains_key(&key) {
        map.insert(key, value)?;
    }
    Ok(())
}

/// The offers of a pile by their addresses below a base. Each offer is digested once.
#[derive(Drop)]
pub(crate) struct Offers {
    /// The digest of the first offer of each address.
    firsts: BTreeMap<u64, [u8; 32]>,
    /// The index in the pile of the first offer of each address and digest.
    places: BTreeMap<Key, usize>,
}

impl Offers {
    /// The offers of this pile.
    pub(crate) fn of(alloc: Global, base: &Base, pile: &[Offer]) -> Result<Offers, NoMemory>
        ensures { IfOk result (λ offers. IsIndexOf base.now pile.now offers.firsts offers.places) }
    {
        let mut offers = Offers {
            firsts: BTreeMap::new(alloc),
            places: BTreeMap::new(alloc),
        };
        for (at, offer) in pile.iter().enumerate() {
            offers.add(base, at, offer)?;
        }
        Ok(offers)
    }

    /// Adds the offer with this index. Offers at other addresses than those of the base are left out.
    fn add(&mut self, base: &Base, at: usize, offer: &Offer) -> Result<(), NoMemory>
        ensures { OnOk result ((pile : List OfferValue) → length pile ≡ at
            → IsIndexOf base.now pile self.old.firsts self.old.places
            → IsIndexOf base.now (pile ++ offer.now ∷ []) self.new.firsts self.new.places) }
    {
        let Some(address) = base.read(offer.address.slice()) else {
            return Ok(());
        };
        let digest = Sha256::digest(offer.bytes.slice());
        let number = address_number(address);
        keep_first(&mut self.firsts, number, digest)?;
        keep_first(&mut self.places, (number, digest), at)
    }

    /// The index in the pile of the first offer of a line.
    pub(crate) fn place(&self, line: &CoverLine) -> Result<usize, Verdict>
        requires { IsAddress line.now.address }
        ensures { (c : CertificateValue) (pile : List OfferValue)
            → IsIndexOf c.base pile self.now.firsts self.now.places
            → MatchResult result (λ at. (offer : OfferValue) × (slice_get pile at ≡ Some offer)
            × (offer_of c.base pile line.now ≡ Some offer)) (RefusesLine c pile line.now) }
    {
        if let Some(at) = self.places.get(&line_key(line)) {
            return Ok(*at);
        }
        let address = line.address;
        match self.firsts.get(&address_number(address)) {
            Some(found) => Err(Verdict::DigestDiffers {
                address,
                found: *found,
            }),
            None => Err(Verdict::NoDocument { address }),
        }
    }
}
