//! Sections that are open, and their elements.

ghost use Rattle.std.specs.Prelude.{◌≡◌, [], map, reverse, length, IfOk, Ok, string_bytes};
ghost use Rattle.conf_text.specs.Views.{setting, tree_of};
ghost use Rattle.conf_text.specs.Trees.{tree, trees};
ghost use Rattle.conf_text.specs.Form.{line_form};
ghost use Rattle.conf_text.specs.Grammar.{top};
ghost use Rattle.conf_text.specs.Answers.{Gives};
ghost use Rattle.conf_text.specs.Reading.{frame, headed, set_to, open_one, close_one, step, with_setting, with_element, closed, stack, start, first_and, end_of};
ghost use Rattle.conf_text.specs.Frames.{frame_of, stack_of};

use crate::element::{Element, Pair};
use crate::fault::{ConfError, ConfFault, FaultKind};
use crate::form::{Form, line_form};
use std::alloc::{AllocError, Allocator};
use std::mem;

/// How many sections may be open at once.
pub const MOST_OPEN: usize = 8;

/// What was read so far: the innermost open section, and those round it.
#[derive(Drop)]
pub struct Reader<A: Allocator> {
    innermost: Section<A>,
    outer: Vec<Section<A>, A>,
}

impl<A: Allocator + Copy> Reader<A> {
    /// Nothing was read.
    pub fn new(alloc: A) -> Self
        ensures { stack_of result ≡ start }
    {
        Reader {
            innermost: Section::top(alloc),
            outer: Vec::new(alloc),
        }
    }

    /// Takes the next line. After an error what was read is of no use.
    pub fn take(&mut self, alloc: A, number: usize, line: &str) -> Result<(), ConfError>
        ensures { Gives (λ _. stack_of self.new) result
            (step number (line_form line.now) (stack_of self.old)) }
    {
        match line_form(alloc, line)? {
            Form::Ignored => Ok(()),
            Form::Opens(name, argument) => self.open(alloc, number, name, argument),
            Form::Ends(name) => self.close(number, name),
            Form::Parameter(name, value) => self.set(alloc, number, name, value),
            Form::BadName => Err(ConfError::Fault(ConfFault {
                kind: FaultKind::BadName,
                line: number,
            })),
            Form::BadQuote => Err(ConfError::Fault(ConfFault {
                kind: FaultKind::BadQuote,
                line: number,
            })),
        }
    }

    /// The elements, once all lines were taken.
    #[tactic(auto, unfolding(crate::specs::Reading::end_of))]
    pub fn finish(self, alloc: A) -> Result<Vec<Element<A>, A>, ConfError>
        ensures { Gives (λ v. map tree_of v.items) result (end_of (stack_of self)) }
    {
        if !self.outer.is_empty() {
            let line = self.innermost.line;
            return Err(ConfError::Fault(ConfFault {
                kind: FaultKind::OpenSection,
                line,
            }));
        }
        self.innermost.into_elements(alloc)
    }

    #[tactic(auto, unfolding(crate::specs::Reading::open_one))]
    fn open(&mut self, alloc: A, line: usize, name: &str, argument: &str) -> Result<(), ConfError>
        ensures { Gives (λ _. stack_of self.new) result
            (open_one line name.now argument.now (stack_of self.old)) }
    {
        if self.outer.len() >= MOST_OPEN {
            return Err(ConfError::Fault(ConfFault {
                kind: FaultKind::TooDeep,
                line,
            }));
        }
        let section = Section::new(alloc, name, argument, line)?;
        let parent = mem::replace(&mut self.innermost, section);
        self.outer.push(parent)?;
        Ok(())
    }

    #[tactic(auto, unfolding(crate::specs::Reading::close_one))]
    fn close(&mut self, line: usize, name: &str) -> Result<(), ConfError>
        ensures { Gives (λ _. stack_of self.new) result
            (close_one line name.now (stack_of self.old)) }
    {
        let Some(parent) = self.outer.pop() else {
            return Err(ConfError::Fault(ConfFault {
                kind: FaultKind::WrongEnd,
                line,
            }));
        };
        if self.innermost.name.as_str() != name {
            return Err(ConfError::Fault(ConfFault {
                kind: FaultKind::WrongEnd,
                line,
            }));
        }
        let section = mem::replace(&mut self.innermost, parent);
        self.innermost.add_child(section.into_element())?;
        Ok(())
    }

    fn set(&mut self, alloc: A, line: usize, name: &str, value: String<A>) -> Result<(), ConfError>
        ensures { Gives (λ _. stack_of self.new) result
            (Ok (stack (with_setting (stack_of self.old).innermost
            (set_to name.now (string_bytes value) line)) (stack_of self.old).outer)) }
    {
        let name = String::from_str(alloc, name)?;
        self.innermost.add_pair(Pair { name, value, line })?;
        Ok(())
    }
}

/// A section that is open, or what stands outside every section, with what it has so far.
#[derive(Drop)]
pub struct Section<A: Allocator> {
    name: String<A>,
    argument: String<A>,
    line: usize,
    pairs: Vec<Pair<A>, A>,
    children: Vec<Element<A>, A>,
}

impl<A: Allocator + Copy> Section<A> {
    // A section with nothing in it so far.
    fn new(alloc: A, name: &str, argument: &str, line: usize) -> Result<Self, AllocError>
        ensures { IfOk result (λ s. frame_of s ≡ frame (headed name.now argument.now line) [] []) }
    {
        Ok(Section {
            name: String::from_str(alloc, name)?,
            argument: String::from_str(alloc, argument)?,
            line,
            pairs: Vec::new(alloc),
            children: Vec::new(alloc),
        })
    }

    // The elements of what stands outside every section: its parameters make a first one.
    fn into_elements(self, alloc: A) -> Result<Vec<Element<A>, A>, ConfError>
        ensures { let f = frame_of self in Gives
            (λ v. map tree_of v.items) result (Ok (first_and f.heading f.settings f.elements)) }
    {
        if self.pairs.is_empty() {
            return Ok(self.children);
        }
        let Section {
            name,
            argument,
            line,
            pairs,
            mut children,
        } = self;
        let first = Element {
            name,
            argument,
            line,
            pairs,
            children: Vec::new(alloc),
        };
        children.insert(0, first)?;
        Ok(children)
    }

    // What stands outside every section.
    fn top(alloc: A) -> Self
        ensures { frame_of result ≡ frame top [] [] }
    {
        Section {
            name: String::new(alloc),
            argument: String::new(alloc),
            line: 0,
            pairs: Vec::new(alloc),
            children: Vec::new(alloc),
        }
    }
}

impl<A: Allocator> Section<A> {
    // The element that this section is once it ends.
    fn into_element(self) -> Element<A>
        ensures { tree_of result ≡ closed (frame_of self) }
    {
        Element {
            name: self.name,
            argument: self.argument,
            line: self.line,
            pairs: self.pairs,
            children: self.children,
        }
    }

    // One more parameter. An error is that memory ran out.
    fn add_pair(&mut self, pair: Pair<A>) -> Result<(), ConfError>
        ensures { Gives (λ _. frame_of self.new) result
            (Ok (with_setting (frame_of self.old) (setting pair))) }
    {
        self.pairs.push(pair)?;
        Ok(())
    }

    // One more element. An error is that memory ran out.
    fn add_child(&mut self, child: Element<A>) -> Result<(), ConfError>
        ensures { Gives (λ _. frame_of self.new) result
            (Ok (with_element (frame_of self.old) (tree_of child))) }
    {
        self.children.push(child)?;
        Ok(())
    }
}
