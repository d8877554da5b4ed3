ghost use Rattle.std.specs.Prelude.{◌≡◌, ◌++◌, List, ℕ, Some, IfSome};
ghost use Rattle.std.specs.Option.{option_copied};
ghost use Rattle.service_face.specs.Page.{page_name, page_of};
ghost use Rattle.service_face.specs.declared.page.Page.{Page};

use chain_links::Base;

/// A page of the feed that is made from the store alone. Its address is the base address and its name.
#[derive(Clone, Copy, Debug, PartialEq, Eq)]
pub enum Page {
    /// The service document, `service`.
    Service,
    /// The listing of the live members, `members`.
    Members,
}

impl Page {
    /// Parses the target of a request: the address of a page, whole or from the path on. `None` if the target is
    /// neither (RFC 9112 section 3.2).
    pub(crate) fn of_target(base: &Base, target: &[u8]) -> Option<Page>
        ensures { result ≡ page_of base.now target.now }
    {
        match after(target, base.text()) {
            Some(name) => Page::named(name),
            None => Page::named(after(target, base.path())?),
        }
    }

    /// The page of this name.
    fn named(name: &[u8]) -> Option<Page>
        ensures found { IfSome result (λ page. name.now ≡ page_name page) }
        ensures only { (page : Page) → name.now ≡ page_name page → result ≡ Some page }
    {
        if name == b"service".as_slice() {
            Some(Page::Service)
        } else if name == b"members".as_slice() {
            Some(Page::Members)
        } else {
            None
        }
    }
}

/// The rest of the text after the prefix. `None` if the text doesn't begin with it.
fn after<'a>(text: &'a [u8], prefix: &[u8]) -> Option<&'a [u8]>
    ensures found { IfSome result (λ rest. text.now ≡ prefix.now ++ rest.now) }
    ensures only { (rest : List ℕ) → text.now ≡ prefix.now ++ rest → option_copied result ≡ Some rest }
{
    text.strip_prefix(prefix)
}
