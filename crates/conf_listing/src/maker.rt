//! The rows of an adapted configuration.

ghost use Rattle.std.specs.Prelude.{◌≡◌, IfOk};
ghost use Rattle.conf_text.specs.Views.{setting, tree_of};
ghost use Rattle.relay_conf.specs.Elements.{heading_of};
ghost use Rattle.conf_listing.specs.Items.{item_of, parameter_item, section_item};

use crate::adapted::Row;
use crate::decision::Decision;
use crate::labels::label_name;
use crate::lines::{put_end, put_heading, put_opening, put_setting};
use crate::near::nearest;
use crate::notes::{GONE, HARMLESS, Notes};
use crate::openings::{Becomes, opening_of};
use crate::paths::FileNames;
use crate::patterns::patterns;
use crate::place::{Place, Spot};
use crate::rules::{Rule, buffer_name, rule_at, since_named};
use crate::values::Values;
use conf_text::{Element, Pair};
use conf_values::is_label_name;
use relay_conf::{argument_of, line_of};
use std::alloc::{AllocError, Allocator};

/// Makes the row of one section or parameter after another.
#[derive(Drop)]
pub(crate) struct Maker<'a, A: Allocator> {
    values: Values<'a, A>,
    // The lines of the buffer that is added at the end of the output that is open.
    moved: Vec<u8, A>,
}

impl<'a, A: Allocator + Copy> Maker<'a, A> {
    /// Nothing was made of these elements so far.
    pub fn new(alloc: A, elements: &'a [Element<A>]) -> Maker<'a, A> {
        Maker {
            values: Values {
                alloc,
                elements,
                sinks: FileNames::new(alloc),
                buffers: FileNames::new(alloc),
            },
            moved: Vec::new(alloc),
        }
    }

    /// The row of a section, and what may stand in it.
    pub fn section(
        &mut self,
        spot: Spot,
        element: &Element<A>,
    ) -> Result<(Spot, Row<A>), AllocError>
        ensures { IfOk result
            (λ made. item_of made.1 ≡ section_item (heading_of (tree_of element.now))) }
    {
        let alloc = self.values.alloc;
        let subject = heading(alloc, element)?;
        let mut notes = Notes::new(alloc);
        let mut lines = Vec::new(alloc);
        let becomes = opening_of(spot.place, element);
        put_section(alloc, spot, becomes, element, &mut notes, &mut lines)?;
        let row = notes.into_row(alloc, spot.depth, line_of(element), subject, &lines)?;
        Ok((spot_in(spot, becomes.place(), element), row))
    }

    /// The row of a parameter.
    pub fn parameter(&mut self, spot: Spot, pair: &Pair<A>) -> Result<Row<A>, AllocError>
        ensures { IfOk result (λ row. item_of row ≡ parameter_item (setting pair.now)) }
    {
        let alloc = self.values.alloc;
        let subject = Vec::from_slice(alloc, pair.name.as_bytes())?;
        let mut notes = Notes::new(alloc);
        let mut lines = Vec::new(alloc);
        self.put_setting(spot, pair, &mut notes, &mut lines)?;
        notes.into_row(alloc, spot.depth, pair.line, subject, &lines)
    }

    /// The lines at the end of a section of this name.
    pub fn end(&mut self, inside: Spot, name: &[u8]) -> Result<Vec<u8, A>, AllocError> {
        let alloc = self.values.alloc;
        let mut lines = Vec::new(alloc);
        if matches!(inside.place, Place::Outside | Place::LeftOut) {
            return Ok(lines);
        }
        if matches!(inside.place, Place::Output(_)) && !self.moved.is_empty() {
            put_buffer(&mut lines, inside.depth, &self.moved)?;
            self.moved.clear();
        }
        put_end(&mut lines, inside.depth.saturating_sub(1), name)?;
        Ok(lines)
    }

    // Adds the lines that stand for a parameter.
    fn put_setting(
        &mut self,
        spot: Spot,
        pair: &Pair<A>,
        notes: &mut Notes<A>,
        lines: &mut Vec<u8, A>,
    ) -> Result<(), AllocError> {
        let name = pair.name.as_bytes();
        let value = pair.value.as_bytes();
        match spot.place {
            Place::LeftOut => notes.say(&[GONE]),
            Place::Passed => self
                .values
                .put(spot.depth, Rule::Kept, name, value, notes, lines),
            _ => self.put_placed(spot, pair, notes, lines),
        }
    }

    // Adds the lines that stand for a parameter. One that has since stood in a buffer goes to the
    // one that is added, unless there is one.
    fn put_placed(
        &mut self,
        spot: Spot,
        pair: &Pair<A>,
        notes: &mut Notes<A>,
        lines: &mut Vec<u8, A>,
    ) -> Result<(), AllocError> {
        let name = pair.name.as_bytes();
        if pair.name.as_str() == "retry_limit" {
            notes.decide(self.values.alloc, Decision::RetryLimit)?;
        }
        match buffer_name(spot.place, name) {
            Some(_) if spot.has_buffer => {
                notes.say(&[b"left out, it has no effect beside a `<buffer>`"])
            }
            Some(new) => {
                self.put_moved(spot.depth.saturating_add(1), new.as_bytes(), pair, notes)
            }
            None => self.put_named(spot, pair, notes, lines),
        }
    }

    // Adds the line of a parameter to the buffer that is added.
    fn put_moved(
        &mut self,
        depth: usize,
        name: &[u8],
        pair: &Pair<A>,
        notes: &mut Notes<A>,
    ) -> Result<(), AllocError> {
        let rule = rule_at(Place::Buffer, name).unwrap_or(Rule::Harmless);
        notes.say(&[b"it is `", name, b"` in a `<buffer>` now"])?;
        let value = pair.value.as_bytes();
        self.values
            .put(depth, rule, name, value, notes, &mut self.moved)
    }

    // Adds the lines that stand for a parameter, which may have got a new name.
    fn put_named(
        &mut self,
        spot: Spot,
        pair: &Pair<A>,
        notes: &mut Notes<A>,
        lines: &mut Vec<u8, A>,
    ) -> Result<(), AllocError> {
        match since_named(spot.place, pair.name.as_bytes()) {
            Some(new) => {
                notes.say(&[b"it is `", new.as_bytes(), b"` now"])?;
                self.put_ruled(spot, new.as_bytes(), pair, notes, lines)
            }
            None => self.put_ruled(spot, pair.name.as_bytes(), pair, notes, lines),
        }
    }

    // Adds the lines that stand for a parameter which has this name.
    fn put_ruled(
        &mut self,
        spot: Spot,
        name: &[u8],
        pair: &Pair<A>,
        notes: &mut Notes<A>,
        lines: &mut Vec<u8, A>,
    ) -> Result<(), AllocError> {
        match rule_at(spot.place, name) {
            Some(rule) => {
                let value = pair.value.as_bytes();
                self.values.put(spot.depth, rule, name, value, notes, lines)
            }
            None => say_unknown(self.values.alloc, spot.place, pair.name.as_str(), notes),
        }
    }
}

// A parameter that isn't known is left out, if that is accepted.
fn say_unknown<A: Allocator + Copy>(
    alloc: A,
    place: Place,
    name: &str,
    notes: &mut Notes<A>,
) -> Result<(), AllocError> {
    notes.leave_unknown(alloc, name.as_bytes(), b"parameter")?;
    match nearest(alloc, place, name)? {
        Some(known) => notes.say(&[b"the nearest is `", known.as_bytes(), b"`"]),
        None => Ok(()),
    }
}

// `<name argument>` of a section.
fn heading<A: Allocator + Copy>(alloc: A, element: &Element<A>) -> Result<Vec<u8, A>, AllocError>
    ensures { IfOk result
        (λ text. text.items ≡ (section_item (heading_of (tree_of element.now))).subject) }
{
    let mut text = Vec::new(alloc);
    put_heading(
        &mut text,
        name_of(element).as_bytes(),
        argument_of(element).as_bytes(),
    )?;
    Ok(text)
}

// The name of a section.
fn name_of<A: Allocator>(element: &Element<A>) -> &str
    ensures { result.now ≡ (heading_of (tree_of element.now)).name }
{
    element.name.as_str()
}

// Adds the lines of a section's opening. The whole configuration has no line of its own.
fn put_section<A: Allocator + Copy>(
    alloc: A,
    spot: Spot,
    becomes: Becomes,
    element: &Element<A>,
    notes: &mut Notes<A>,
    lines: &mut Vec<u8, A>,
) -> Result<(), AllocError> {
    let name = element.name.as_bytes();
    match becomes {
        Becomes::Is(Place::Outside) => Ok(()),
        Becomes::Is(_) => put_opening(lines, spot.depth, name, element.argument.as_bytes()),
        Becomes::Adapted(_) => put_adapted(alloc, spot, element, notes, lines),
        Becomes::Null => put_null(alloc, spot, element, notes, lines),
        Becomes::Gone => notes.say(&[GONE]),
        Becomes::Harmless => notes.say(&[HARMLESS]),
        Becomes::Decided(decision) => notes.leave_out(alloc, decision),
        Becomes::Unknown => notes.leave_unknown(alloc, name, b"section"),
    }
}

// An output of a type that no relay has becomes one that drops what it takes.
fn put_null<A: Allocator + Copy>(
    alloc: A,
    spot: Spot,
    element: &Element<A>,
    notes: &mut Notes<A>,
    lines: &mut Vec<u8, A>,
) -> Result<(), AllocError> {
    notes.decide(alloc, Decision::OutputType)?;
    put_adapted(alloc, spot, element, notes, lines)?;
    put_setting(lines, spot.depth.saturating_add(1), b"@type", b"null")?;
    put_end(lines, spot.depth, element.name.as_bytes())
}

// Adds a buffer with these lines.
fn put_buffer<A: Allocator>(
    lines: &mut Vec<u8, A>,
    depth: usize,
    moved: &[u8],
) -> Result<(), AllocError> {
    put_opening(lines, depth, b"buffer", b"")?;
    lines.extend_from_slice(moved)?;
    put_end(lines, depth, b"buffer")
}

// What may stand in a section of this place.
fn spot_in<A: Allocator>(round: Spot, place: Place, element: &Element<A>) -> Spot {
    let depth = match place {
        Place::Outside | Place::LeftOut => round.depth,
        _ => round.depth.saturating_add(1),
    };
    Spot {
        place,
        depth,
        has_buffer: has_buffer(element),
    }
}

// Whether a `<buffer>` stands in a section.
fn has_buffer<A: Allocator>(element: &Element<A>) -> bool {
    for child in &element.children {
        if child.name.as_str() == "buffer" {
            return true;
        }
    }
    false
}

// Adds the opening of a section with the argument that the profile has for it.
fn put_adapted<A: Allocator + Copy>(
    alloc: A,
    spot: Spot,
    element: &Element<A>,
    notes: &mut Notes<A>,
    lines: &mut Vec<u8, A>,
) -> Result<(), AllocError> {
    let argument = adapted_argument(alloc, element, notes)?;
    if notes.said.is_empty() && argument.as_slice() != element.argument.as_bytes() {
        notes.say(&[b"other blanks stand between its words"])?;
    }
    put_opening(lines, spot.depth, element.name.as_bytes(), &argument)
}

// The argument that the profile has for that of a match, a label, a store or a buffer.
fn adapted_argument<A: Allocator + Copy>(
    alloc: A,
    element: &Element<A>,
    notes: &mut Notes<A>,
) -> Result<Vec<u8, A>, AllocError> {
    let name = element.name.as_str();
    let old = element.argument.as_bytes();
    if name == "match" {
        return patterns(alloc, element.argument.as_str(), notes);
    }
    if name == "label" {
        return label_argument(alloc, old, notes);
    }
    if name == "store" {
        return store_argument(alloc, old, notes);
    }
    buffer_argument(alloc, old, notes)
}

// The name that the profile has for that of a label.
fn label_argument<A: Allocator + Copy>(
    alloc: A,
    old: &[u8],
    notes: &mut Notes<A>,
) -> Result<Vec<u8, A>, AllocError> {
    if is_label_name(old) {
        return Vec::from_slice(alloc, old);
    }
    notes.say(&[b"a label's name has letters, digits and `_`"])?;
    label_name(alloc, old)
}

// The argument of a store: its failures count.
fn store_argument<A: Allocator + Copy>(
    alloc: A,
    old: &[u8],
    notes: &mut Notes<A>,
) -> Result<Vec<u8, A>, AllocError> {
    if old == b"ignore_error".as_slice() {
        notes.decide(alloc, Decision::IgnoreError)?;
        return Ok(Vec::new(alloc));
    }
    Vec::from_slice(alloc, old)
}

// The argument of a buffer: its chunks are by tag alone.
fn buffer_argument<A: Allocator + Copy>(
    alloc: A,
    old: &[u8],
    notes: &mut Notes<A>,
) -> Result<Vec<u8, A>, AllocError> {
    if old.is_empty() || old == b"tag".as_slice() {
        return Vec::from_slice(alloc, old);
    }
    notes.say(&[b"chunks are by tag alone"])?;
    Vec::from_slice(alloc, b"tag")
}
