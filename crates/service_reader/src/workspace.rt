ghost use Rattle.service_reader.specs.ServiceReading.{AreAdded};
ghost use Rattle.service_reader.specs.Service.{collections_in, collections_of};

use crate::accept::{Accepts, InCollection};
use crate::children::{Children, read_children};
use crate::found::Found;
use crate::link::target;
use std::alloc::Global;
use xml_tokens::{Element, Elements, TokenFault};

/// Reads the children of a workspace.
#[derive(Drop)]
pub(crate) struct InWorkspace<'d> {
    pub(crate) alloc: Global,
    /// The document's address.
    pub(crate) address: &'d [u8],
}

/// Reads the children of a service.
#[derive(Drop)]
pub(crate) struct InService<'d> {
    pub(crate) workspace: InWorkspace<'d>,
}

impl Children<Found> for InWorkspace<'_> {
    ghost Read = { λ self start b found. AreAdded self.address.now start (collections_in b) found };

    fn child<'a>(
        &self,
        elements: &mut Elements<'a>,
        child: &Element<'a>,
        into: &mut Found,
    ) -> Result<(), TokenFault> {
        if into.is_refused() || !child.is_app(b"collection") {
            return elements.skip();
        }
        let mut accepts = Accepts::none();
        read_children(&InCollection, elements, &mut accepts)?;
        let href = target(self.alloc, self.address, child)?;
        into.add(child.at, href, accepts.entries())?;
        Ok(())
    }
}

impl Children<Found> for InService<'_> {
    ghost Read = { λ self start b found.
        AreAdded self.workspace.address.now start (collections_of b) found };

    fn child<'a>(
        &self,
        elements: &mut Elements<'a>,
        child: &Element<'a>,
        into: &mut Found,
    ) -> Result<(), TokenFault> {
        if child.is_app(b"workspace") {
            read_children(&self.workspace, elements, into)
        } else {
            elements.skip()
        }
    }
}
