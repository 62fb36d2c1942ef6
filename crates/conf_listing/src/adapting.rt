//! The pieces of an adapted configuration, made one after another.

ghost use Rattle.std.specs.Prelude.{◌≡◌, [], ◌∷◌, ◌++◌, map, IfOk, OnOk};
ghost use Rattle.conf_text.specs.Trees.{trees};
ghost use Rattle.conf_text.specs.Views.{setting, tree_of};
ghost use Rattle.relay_conf.specs.Elements.{heading_of};
ghost use Rattle.conf_listing.specs.Items.{all_stand_for, items_in, items_of, parameter_item, section_item};

use crate::adapted::{Adapted, Entry};
use crate::maker::Maker;
use crate::place::{Place, Spot};
use conf_text::{Element, Pair};
use relay_conf::{line_of, pairs_of};
use std::alloc::{AllocError, Allocator};

/// The configuration of these elements, adapted to the profile: a row for each section and each
/// parameter, in the order of the text, each section's parameters before the sections in it.
pub fn adapt<A: Allocator + Copy>(
    alloc: A,
    elements: &[Element<A>],
) -> Result<Adapted<A>, AllocError>
    ensures { IfOk result
        (λ adapted. all_stand_for adapted.entries.items
        ≡ items_of (trees (map tree_of elements.now))) }
{
    let mut draft = Adapting {
        entries: Vec::new(alloc),
        maker: Maker::new(alloc, elements),
    };
    let spot = Spot {
        place: Place::Top,
        depth: 0,
        has_buffer: false,
    };
    for element in elements {
        draft.put_element(spot, element)?;
    }
    Ok(Adapted {
        entries: draft.entries,
    })
}

// The pieces so far.
#[derive(Drop)]
struct Adapting<'a, A: Allocator> {
    entries: Vec<Entry<A>, A>,
    maker: Maker<'a, A>,
}

impl<A: Allocator + Copy> Adapting<'_, A> {
    // Adds a section with all that is in it.
    fn put_element(&mut self, spot: Spot, element: &Element<A>) -> Result<(), AllocError>
        ensures { OnOk result
            (all_stand_for self.new.entries.items
            ≡ all_stand_for self.old.entries.items ++ items_in (tree_of element.now)) }
    {
        let inside = self.open(spot, element)?;
        self.put_pairs(inside, pairs_of(element))?;
        for child in &element.children {
            self.put_element(inside, child)?;
        }
        self.close(inside, element)
    }

    // Adds the opening of a section, and says what may stand in it.
    fn open(&mut self, spot: Spot, element: &Element<A>) -> Result<Spot, AllocError>
        ensures { OnOk result
            (all_stand_for self.new.entries.items
            ≡ all_stand_for self.old.entries.items ++ section_item
            (heading_of (tree_of element.now)) ∷ []) }
    {
        let (inside, row) = self.maker.section(spot, element)?;
        self.entries.push(Entry::Of(row))?;
        Ok(inside)
    }

    // Adds the parameters of a section.
    fn put_pairs(&mut self, spot: Spot, pairs: &[Pair<A>]) -> Result<(), AllocError>
        ensures { OnOk result
            (all_stand_for self.new.entries.items
            ≡ all_stand_for self.old.entries.items ++ map parameter_item (map setting pairs.now)) }
    {
        for pair in pairs {
            let row = self.maker.parameter(spot, pair)?;
            self.entries.push(Entry::Of(row))?;
        }
        Ok(())
    }

    // Adds the end of a section.
    fn close(&mut self, inside: Spot, element: &Element<A>) -> Result<(), AllocError>
        ensures { OnOk result
            (all_stand_for self.new.entries.items ≡ all_stand_for self.old.entries.items) }
    {
        let text = self.maker.end(inside, element.name.as_bytes())?;
        let line = line_of(element);
        self.entries.push(Entry::End { line, text })?;
        Ok(())
    }
}
