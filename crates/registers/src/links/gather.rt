ghost use Rattle.std.specs.Prelude.{◌≡◌};
ghost use Rattle.lists.specs.Listed.{listed};
ghost use Rattle.refusals.specs.Chains.{ok_map};
ghost use Rattle.registers.specs.Rules.{LinksRead, no_links, is_linked, link_line};
ghost use Rattle.registers.specs.Views.{links_read};

use crate::Link;
use crate::links::Links;
use crate::size::Size;
use lists::ShortList;
use refusals::{Gathers, Refusal};

impl Links {
    // No link yet, for a register of that size. Each part says itself how it is empty, as `Inlets` does.
    pub fn new(size: usize) -> Result<Links, Refusal>
        ensures { ok_map links_read result ≡ no_links size }
    {
        let size = Size::try_from(size)?;
        let links = ShortList::new();
        Ok(Links { size, links })
    }

    // Whether there is such a link already.
    fn has(&self, link: Link) -> bool
        ensures { result ≡ is_linked (listed self.now.links) link }
    {
        self.links.as_slice().contains(&link)
    }
}

impl Gathers for Links {
    type Line = Link;

    ghost Read = { LinksRead };

    ghost read = { links_read };

    ghost takes = { link_line };

    // One link more.
    fn add(&mut self, link: Link) -> Result<(), Refusal> {
        let Link { from, to } = link;
        if from >= self.size.cells || to >= self.size.cells || to == self.size.next(from) {
            return Err(Refusal::OutOfRange);
        }
        if self.has(link) {
            return Err(Refusal::Repeated);
        }
        self.links.push(link).map_err(|_| Refusal::TooMany)
    }
}
