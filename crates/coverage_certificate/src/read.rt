//! The reading of a certificate's text, line by line.

ghost use Rattle.std.specs.Prelude.{◌≡◌, ◌≢◌, ◌⊎◌, ◌↔◌, ◌<◌, ◌≤◌, ◌+◌, ◌^◌, ◌∷◌, ◌++◌, ℕ, List, None, All, Err, IfErr, IfOk, IfSome, IsTrue, Ok, [], length, map};
ghost use Rattle.atom_values.specs.Ascii.{lf};
ghost use Rattle.chain_links.specs.Address.{IsAddress};
ghost use Rattle.chain_links.specs.Base.{IsBase};
ghost use Rattle.deleted_entries.specs.FeedId.{IsFeedId};
ghost use Rattle.coverage_certificate.specs.Certificate.{CertificateValue, CoverValue, IsCertificate, line_limit};
ghost use Rattle.coverage_certificate.specs.Digest.{IsDigest};
ghost use Rattle.coverage_certificate.specs.Reading.{AreLinesSoFar, Fits, HasNoLine, IsBadEnding, IsDocumentLine};
ghost use Rattle.coverage_certificate.specs.Reading.{IsFeedLine, IsLiveLine, IsReading, IsVersionLine, is_nil};
ghost use Rattle.coverage_certificate.specs.Text.{IsFirstBadLine, certificate_limit, certificate_text, document_line, end_line};
ghost use Rattle.coverage_certificate.specs.Text.{feed_line, head_line};
ghost use Rattle.coverage_certificate.specs.Text.{live_line, text_of_lines, version_line};

use crate::certificate::{Certificate, MAX_COVER_LINES};
use crate::certificate_fault::CertificateFault;
use crate::cover_line::CoverLine;
use crate::field::{after, feed_id, next_line, number, spaced_digest};
use crate::live::Live;
use atom_values::{Many, NoMemory};
use chain_links::{Address, Base, BaseFault};
use deleted_entries::FeedId;
use std::alloc::Global;

/// The greatest number of bytes of a text that [`Certificate::read`] parses.
pub const MAX_CERTIFICATE: usize = 1_073_741_824;

/// The number of bytes of a feed's identifier.
const FEED_LEN: usize = 36;

/// The number of the first document line, counted from 1.
const FIRST_DOCUMENT: u32 = 4;

/// The feed and the base that a certificate names.
#[derive(Debug, Drop)]
struct Named {
    feed: FeedId,
    base: Base,
}

impl Certificate {
    /// Parses the text of a certificate, in one pass.
    ///
    /// Errors:
    ///
    /// - `BadCertificate` exactly if the text isn't that of a certificate. `line` is the first line that is
    ///   refused, counted from 1. A text that lacks lines, or the LF of its last line, is refused at the line that
    ///   isn't whole. Bytes after the last line are one line more.
    /// - `NoMemory`.
    pub fn read(alloc: Global, text: &[u8]) -> Result<Certificate, CertificateFault>
        requires { length text.now ≤ certificate_limit }
        ensures text { IfOk result (λ c. certificate_text c ≡ text.now) }
        ensures rules { IfOk result IsCertificate }
        ensures only { (c : CertificateValue) → IsCertificate c → certificate_text c ≡ text.now
            → (result ≡ Ok c) ⊎ (result ≡ Err CertificateFault.NoMemory) }
        ensures bad { (line : ℕ) → result ≡ Err (CertificateFault.BadCertificate line)
            → IsFirstBadLine text.now line }
        ensures refused { (line : ℕ) → IsFirstBadLine text.now line
            → (result ≡ Err (CertificateFault.BadCertificate line))
            ⊎ (result ≡ Err CertificateFault.NoMemory) }
    {
        read_lines(alloc, text)
    }
}

/// Reads the first line. `None` if the text doesn't begin with it.
fn read_head(text: &[u8]) -> Option<&[u8]>
    ensures found { IfSome result (λ rest. text.now ≡ head_line ++ lf ∷ rest.now) }
    ensures none { result ≡ None → (rest : List ℕ) → text.now ≢ head_line ++ lf ∷ rest }
{
    after(text, b"coverage 1\n")
}

/// The identifier of a line with the feed's name, and the text after it. `None` for any other line.
fn named_feed(line: &[u8]) -> Option<(FeedId, &[u8])>
    ensures found { IfSome result (λ x. IsFeedId x.0 × (line.now ≡ feed_line x.0 x.1.now)) }
    ensures none { result ≡ None → (feed base : List ℕ) → IsFeedId feed → line.now ≢ feed_line feed base }
{
    let fields = after(line, b"feed ")?;
    let (id, behind) = fields.split_at_checked(FEED_LEN)?;
    let feed = feed_id(id)?;
    Some((feed, after(behind, b" ")?))
}

/// The name of a line with the feed's name. `None` for any other line.
fn name_of(alloc: Global, line: &[u8]) -> Result<Option<Named>, NoMemory>
    ensures found { IfOk result (λ found. IfSome found (λ named. IsFeedId named.feed × IsBase named.base
        × (line.now ≡ feed_line named.feed named.base))) }
    ensures none { IfOk result (λ found. found ≡ None → ¬ IsFeedLine line.now) }
{
    let Some(fields) = named_feed(line) else {
        return Ok(None);
    };
    match Base::parse(alloc, fields.1) {
        Ok(base) => Ok(Some(Named {
            feed: fields.0,
            base,
        })),
        Err(BaseFault::BadBase) => Ok(None),
        Err(BaseFault::NoMemory) => Err(NoMemory),
    }
}

/// Reads the line with the feed's name. `None` if the text doesn't begin with one.
fn read_name(alloc: Global, text: &[u8]) -> Result<Option<(Named, &[u8])>, NoMemory>
    ensures found { IfOk result (λ found. IfSome found (λ x. IsFeedId x.0.feed × IsBase x.0.base
        × (text.now ≡ feed_line x.0.feed x.0.base ++ lf ∷ x.1.now))) }
    ensures none { IfOk result (λ found. found ≡ None → HasNoLine IsFeedLine text.now) }
{
    let Some((line, rest)) = next_line(text) else {
        return Ok(None);
    };
    let found = name_of(alloc, line)?;
    match found {
        Some(named) => Ok(Some((named, rest))),
        None => Ok(None),
    }
}

/// The version of a line. `None` if it has none.
fn version_of(line: &[u8]) -> Option<u32>
    ensures found { IfSome result (λ n. (n < 2 ^ 32) × (line.now ≡ version_line n)) }
    ensures none { result ≡ None → ¬ IsVersionLine line.now }
{
    number(after(line, b"version ")?)
}

/// Reads the line with the version. `None` if the text doesn't begin with one.
fn read_version(text: &[u8]) -> Option<(u32, &[u8])>
    ensures found { IfSome result (λ x. (x.0 < 2 ^ 32) × (text.now ≡ version_line x.0 ++ lf ∷ x.1.now)) }
    ensures none { result ≡ None → HasNoLine IsVersionLine text.now }
{
    let (line, rest) = next_line(text)?;
    Some((version_of(line)?, rest))
}

/// Whether the first document line, or a later one, may have this address.
fn fits(is_first: bool, address: Address) -> bool
    requires { IsAddress address }
    ensures { IsTrue result ↔ Fits is_first address }
{
    match address {
        Address::Feed => is_first,
        Address::Archive(_) => !is_first,
        Address::Member(_) => false,
    }
}

/// The document of a line that may be the first one, or a later one. `None` for any other line.
fn document_of(base: &Base, is_first: bool, line: &[u8]) -> Option<CoverLine>
    ensures found { IfSome result (λ cover. Fits is_first cover.address × IsDigest cover.digest
        × (line.now ≡ document_line base.now cover)) }
    ensures none { result ≡ None → ¬ IsDocumentLine base.now is_first line.now }
{
    let (address, digest) = spaced_digest(after(line, b"document ")?)?;
    let address = base.read(address)?;
    if fits(is_first, address) {
        Some(CoverLine { address, digest })
    } else {
        None
    }
}

/// Reads a document line. `None` if the text doesn't begin with one that is allowed in this place.
fn read_document<'a>(base: &Base, is_first: bool, text: &'a [u8]) -> Option<(CoverLine, &'a [u8])>
    ensures found { IfSome result (λ x. Fits is_first x.0.address × IsDigest x.0.digest
        × (text.now ≡ document_line base.now x.0 ++ lf ∷ x.1.now)) }
    ensures none { result ≡ None → HasNoLine (IsDocumentLine base.now is_first) text.now }
{
    // `text` states the base's rules.
    let _rules = base.text();
    let (line, rest) = next_line(text)?;
    Some((document_of(base, is_first, line)?, rest))
}

/// Reads the document lines, up to the first line that isn't one or isn't allowed in its place.
fn read_documents<'a>(
    alloc: Global,
    base: &Base,
    text: &'a [u8],
) -> Result<(Many<CoverLine, MAX_COVER_LINES>, &'a [u8]), NoMemory>
    ensures split { IfOk result (λ x. text.now
        ≡ text_of_lines (map (document_line base.now) x.0.items) ++ x.1.now) }
    ensures placed { IfOk result (λ x. AreLinesSoFar x.0.items) }
    ensures digests { IfOk result (λ x. All (λ (line : CoverValue). IsDigest line.digest) x.0.items) }
    ensures few { IfOk result (λ x. length x.0.items ≤ line_limit) }
    ensures short { IfOk result (λ x. length x.0.items ≤ length text.now) }
    ensures none { IfOk result (λ x. HasNoLine (IsDocumentLine base.now (is_nil x.0.items)) x.1.now) }
{
    let mut lines = Many::new(alloc);
    let mut rest = text;
    while let Some((line, behind)) = read_document(base, lines.len() == 0, rest) {
        // The list never has its greatest number of lines, since each takes bytes of the text.
        lines.push(line).map_err(|_| NoMemory)?;
        rest = behind;
    }
    Ok((lines, rest))
}

/// The live entries of a line. `None` for any other line.
fn live_of(line: &[u8]) -> Option<Live>
    ensures found { IfSome result (λ live. (live.count < 2 ^ 32) × IsDigest live.digest
        × (line.now ≡ live_line live.count live.digest)) }
    ensures none { result ≡ None → ¬ IsLiveLine line.now }
{
    let (count, digest) = spaced_digest(after(line, b"live ")?)?;
    Some(Live {
        count: number(count)?,
        digest,
    })
}

/// Reads the line of the live entries. `None` if the text doesn't begin with one.
fn read_live(text: &[u8]) -> Option<(Live, &[u8])>
    ensures found { IfSome result (λ x. (x.0.count < 2 ^ 32) × IsDigest x.0.digest
        × (text.now ≡ live_line x.0.count x.0.digest ++ lf ∷ x.1.now)) }
    ensures none { result ≡ None → HasNoLine IsLiveLine text.now }
{
    let (line, rest) = next_line(text)?;
    Some((live_of(line)?, rest))
}

/// Reads the line of the live entries, which has this number, and the last line. Nothing may follow.
fn read_ending(line: u32, text: &[u8]) -> Result<Live, CertificateFault>
    requires { line + 2 < 2 ^ 32 }
    ensures found { IfOk result (λ live. (live.count < 2 ^ 32) × IsDigest live.digest
        × (text.now ≡ text_of_lines (live_line live.count live.digest ∷ end_line ∷ []))) }
    ensures refused { IfErr result (IsBadEnding line text.now) }
{
    let Some((live, rest)) = read_live(text) else {
        return Err(CertificateFault::BadCertificate { line });
    };
    let Some(rest) = after(rest, b"end\n") else {
        return Err(CertificateFault::BadCertificate { line: line + 1 });
    };
    if rest.is_empty() {
        Ok(live)
    } else {
        Err(CertificateFault::BadCertificate { line: line + 2 })
    }
}

/// Reads the text from its first line to its last.
fn read_lines(alloc: Global, text: &[u8]) -> Result<Certificate, CertificateFault>
    requires { length text.now ≤ certificate_limit }
    ensures { IsReading text.now result }
{
    let Some(rest) = read_head(text) else {
        return Err(CertificateFault::BadCertificate { line: 1 });
    };
    let Some((named, rest)) = read_name(alloc, rest)? else {
        return Err(CertificateFault::BadCertificate { line: 2 });
    };
    let Some((version, rest)) = read_version(rest) else {
        return Err(CertificateFault::BadCertificate { line: 3 });
    };
    let (lines, rest) = read_documents(alloc, &named.base, rest)?;
    if lines.len() == 0 {
        return Err(CertificateFault::BadCertificate {
            line: FIRST_DOCUMENT,
        });
    }
    let live = read_ending(FIRST_DOCUMENT + lines.len() as u32, rest)?;
    let digest = live.digest;
    let Named { feed, base } = named;
    Ok(Certificate {
        feed,
        base,
        version,
        lines,
        live_count: live.count,
        live_digest: digest,
    })
}
