//! A configuration's text, line by line.

ghost use Rattle.std.specs.Prelude.{◌≡◌, ◌+◌, ◌<◌, ◌^◌, List, map, length, count_by, ◌==◌, Ok, Err, IfOk, IfErr};
ghost use Rattle.conf_text.specs.declared.fault.ConfFault.{ConfFault};
ghost use Rattle.conf_text.specs.Trees.{Tree};
ghost use Rattle.conf_text.specs.Views.{tree_of};
ghost use Rattle.conf_text.specs.Grammar.{lines_of, IsConfiguration, HasFault, IsRefusal};
ghost use Rattle.conf_text.specs.Answers.{Gives};
ghost use Rattle.conf_text.specs.Reading.{elements_of, reading};

use crate::element::Element;
use crate::fault::{ConfError, ConfFault, FaultKind};
use crate::section::Reader;
use std::alloc::Allocator;
use std::str;

/// The elements of a configuration's text (Fluentd, "Config File Syntax"), in time linear in it.
/// Parameters outside every section, where there are any, stand in a first element of empty name
/// and argument, line 0 and no children.
///
/// An error is the first fault of the text, or that memory ran out: bytes that aren't UTF-8 come
/// before all others, then faults by lines in order, and a section that never ends comes last.
pub fn read<A: Allocator + Copy>(alloc: A, text: &[u8]) -> Result<Vec<Element<A>, A>, ConfError>
    // What is read is a configuration of these elements.
    ensures found { IfOk result (λ v. IsConfiguration text.now (map tree_of v.items)) }
    // A configuration of some elements is read to them, unless memory runs out.
    ensures only { (elements : List Tree) → IsConfiguration text.now elements
        → Gives (λ v. map tree_of v.items) result (Ok elements) }
    // What is refused has that fault, or memory ran out.
    ensures refused { IfErr result (λ e. IsRefusal text.now e) }
    // A text that has a fault is refused with it, unless memory runs out.
    ensures fault { (f : ConfFault) → HasFault text.now f.kind f.line
        → Gives (λ v. map tree_of v.items) result (Err f) }
{
    parsed(alloc, text)
}

// As `reading` says, which the grammar's clauses follow from.
#[tactic(auto, unfolding(crate::specs::Reading::reading))]
fn parsed<A: Allocator + Copy>(alloc: A, bytes: &[u8]) -> Result<Vec<Element<A>, A>, ConfError>
    ensures { Gives (λ v. map tree_of v.items) result (reading bytes.now) }
{
    match str::from_utf8(bytes) {
        Ok(text) => elements(alloc, text),
        Err(bad) => Err(ConfError::Fault(ConfFault {
            kind: FaultKind::NotUtf8,
            line: line_behind(&bytes[..bad.valid_up_to()]),
        })),
    }
}

fn elements<A: Allocator + Copy>(alloc: A, text: &str) -> Result<Vec<Element<A>, A>, ConfError>
    ensures { Gives (λ v. map tree_of v.items) result (elements_of (lines_of text.now)) }
{
    let mut reader = Reader::new(alloc);
    let mut number = 0;
    for line in text.lines() {
        number += 1;
        reader.take(alloc, number, line)?;
    }
    reader.finish(alloc)
}

// The line of the byte behind these.
fn line_behind(front: &[u8]) -> usize
    requires { length front.now + 1 < 2 ^ 64 }
    ensures { result ≡ count_by (λ b. b == 10) front.now + 1 }
{
    front.iter().filter(|b| **b == b'\n').count() + 1
}
