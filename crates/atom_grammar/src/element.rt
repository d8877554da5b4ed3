ghost use Rattle.std.specs.Prelude.{IsTrue, codes};
ghost use Rattle.atom_grammar.specs.Items.{element, attribute, date, kind, construct};
ghost use Rattle.atom_grammar.specs.Parts.{Reads, starts, optional};

use crate::part_fault::PartFault;
use crate::reader::Reader;
use atom_values::{AtomText, Stamp, Text, TextKind};
use std::alloc::Global;

impl Reader<'_> {
    /// Reads the text between these tags.
    pub(crate) fn element(
        &mut self,
        alloc: Global,
        start: &[u8],
        end: &[u8],
    ) -> Result<AtomText, PartFault>
        requires { IsTrue (starts (codes "</") end.now) }
        ensures { Reads (element start.now end.now) self.old.rest.now result self.new.rest.now }
    {
        self.literal(start)?;
        let text = self.content(alloc)?;
        self.literal(end)?;
        Ok(text)
    }

    /// Reads the text between these tags, or returns `None` if the open tag isn't next.
    pub(crate) fn optional_element(
        &mut self,
        alloc: Global,
        start: &[u8],
        end: &[u8],
    ) -> Result<Option<AtomText>, PartFault>
        requires { IsTrue (starts (codes "</") end.now) }
        ensures { Reads (optional start.now (element start.now end.now))
            self.old.rest.now result self.new.rest.now }
    {
        if !self.at(start) {
            return Ok(None);
        }
        Ok(Some(self.element(alloc, start, end)?))
    }

    /// Reads an attribute, whose name and opening quote are `start`.
    pub(crate) fn attribute(&mut self, alloc: Global, start: &[u8]) -> Result<AtomText, PartFault>
        ensures { Reads (attribute start.now) self.old.rest.now result self.new.rest.now }
    {
        self.literal(start)?;
        let value = self.quoted(alloc)?;
        self.literal(b"\"")?;
        Ok(value)
    }

    /// Reads an attribute, or returns `None` if its name isn't next.
    pub(crate) fn optional_attribute(
        &mut self,
        alloc: Global,
        start: &[u8],
    ) -> Result<Option<AtomText>, PartFault>
        ensures { Reads (optional start.now (attribute start.now))
            self.old.rest.now result self.new.rest.now }
    {
        if !self.at(start) {
            return Ok(None);
        }
        Ok(Some(self.attribute(alloc, start)?))
    }

    /// Reads the timestamp between these tags.
    pub(crate) fn date(&mut self, start: &[u8], end: &[u8]) -> Result<Stamp, PartFault>
        ensures { Reads (date start.now end.now) self.old.rest.now result self.new.rest.now }
    {
        self.literal(start)?;
        let moment = self.moment()?;
        self.literal(end)?;
        Ok(moment)
    }

    /// Reads the timestamp between these tags, or returns `None` if the open tag isn't next.
    pub(crate) fn optional_date(
        &mut self,
        start: &[u8],
        end: &[u8],
    ) -> Result<Option<Stamp>, PartFault>
        ensures { Reads (optional start.now (date start.now end.now))
            self.old.rest.now result self.new.rest.now }
    {
        if !self.at(start) {
            return Ok(None);
        }
        Ok(Some(self.date(start, end)?))
    }

    /// Reads the attribute that states a text's kind (RFC 4287 section 3.1.1), which plain text doesn't have.
    fn kind(&mut self) -> Result<TextKind, PartFault>
        ensures { Reads kind self.old.rest.now result self.new.rest.now }
    {
        if !self.at(b" type=\"html\"") {
            return Ok(TextKind::Plain);
        }
        self.literal(b" type=\"html\"")?;
        Ok(TextKind::Html)
    }

    /// Reads a text construct (RFC 4287 section 3.1), whose open tag begins with `start`.
    pub(crate) fn construct(
        &mut self,
        alloc: Global,
        start: &[u8],
        end: &[u8],
    ) -> Result<Text, PartFault>
        requires { IsTrue (starts (codes "</") end.now) }
        ensures { Reads (construct start.now end.now) self.old.rest.now result self.new.rest.now }
    {
        self.literal(start)?;
        let kind = self.kind()?;
        self.literal(b">")?;
        let value = self.content(alloc)?;
        self.literal(end)?;
        Ok(Text { kind, value })
    }

    /// Reads a text construct, or returns `None` if its open tag isn't next.
    pub(crate) fn optional_construct(
        &mut self,
        alloc: Global,
        start: &[u8],
        end: &[u8],
    ) -> Result<Option<Text>, PartFault>
        requires { IsTrue (starts (codes "</") end.now) }
        ensures { Reads (optional start.now (construct start.now end.now))
            self.old.rest.now result self.new.rest.now }
    {
        if !self.at(start) {
            return Ok(None);
        }
        Ok(Some(self.construct(alloc, start, end)?))
    }
}
