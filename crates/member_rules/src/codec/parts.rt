use crate::codec::coded::Coded;
use crate::codec::fault::FieldFault;
use crate::codec::unread::Unread;
use atom_values::{AtomText, Category, Link, NoMemory, Person};
use atom_writer::Out;
use std::alloc::Global;

impl Coded for Person {
    ghost use Rattle.member_rules.specs.Fields.{person};

    ghost field = { person };

    #[tactic(auto, unfolding(crate::specs::Fields::text, crate::specs::Fields::optional, crate::specs::Fields::person))]
    fn push<W: Out>(&self, out: &mut W) -> Result<(), NoMemory> {
        self.name.push(out)?;
        self.uri.push(out)?;
        self.email.push(out)?;
        Ok(())
    }

    fn read(alloc: Global, unread: &mut Unread) -> Result<Person, FieldFault> {
        let mut left = *unread;
        let name = AtomText::read(alloc, &mut left)?;
        let uri = Option::read(alloc, &mut left)?;
        let email = Option::read(alloc, &mut left)?;
        *unread = left;
        Ok(Person { name, uri, email })
    }

    fn has_one_value() {}
}

impl Coded for Link {
    ghost use Rattle.member_rules.specs.Fields.{link};

    ghost field = { link };

    #[tactic(auto, unfolding(crate::specs::Fields::text, crate::specs::Fields::optional, crate::specs::Fields::link))]
    fn push<W: Out>(&self, out: &mut W) -> Result<(), NoMemory> {
        self.href.push(out)?;
        self.rel.push(out)?;
        self.media.push(out)?;
        self.hreflang.push(out)?;
        self.title.push(out)?;
        self.length.push(out)?;
        Ok(())
    }

    fn read(alloc: Global, unread: &mut Unread) -> Result<Link, FieldFault> {
        let mut left = *unread;
        let href = AtomText::read(alloc, &mut left)?;
        let rel = AtomText::read(alloc, &mut left)?;
        let media = Option::read(alloc, &mut left)?;
        let hreflang = Option::read(alloc, &mut left)?;
        let title = Option::read(alloc, &mut left)?;
        let length = Option::read(alloc, &mut left)?;
        *unread = left;
        Ok(Link {
            href,
            rel,
            media,
            hreflang,
            title,
            length,
        })
    }

    fn has_one_value() {}
}

impl Coded for Category {
    ghost use Rattle.member_rules.specs.Fields.{category};

    ghost field = { category };

    #[tactic(auto, unfolding(crate::specs::Fields::text, crate::specs::Fields::optional, crate::specs::Fields::category))]
    fn push<W: Out>(&self, out: &mut W) -> Result<(), NoMemory> {
        self.term.push(out)?;
        self.scheme.push(out)?;
        self.label.push(out)?;
        Ok(())
    }

    fn read(alloc: Global, unread: &mut Unread) -> Result<Category, FieldFault> {
        let mut left = *unread;
        let term = AtomText::read(alloc, &mut left)?;
        let scheme = Option::read(alloc, &mut left)?;
        let label = Option::read(alloc, &mut left)?;
        *unread = left;
        Ok(Category {
            term,
            scheme,
            label,
        })
    }

    fn has_one_value() {}
}
