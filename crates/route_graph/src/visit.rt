//! What is known while an event's way is looked for: a chain of open scopes, and the buffers found.

ghost use Rattle.std.specs.Prelude.{◌≡◌, [], ◌∷◌, ◌++◌, IfNone, IfOk, OnOk, map, replicate, reverse, slice_set};
ghost use Rattle.std.specs.Option.{option_to_list};
ghost use Rattle.route_graph.specs.Listing.{numbers_of};
ghost use Rattle.route_graph.specs.Visits.{Known, mark_at, IsWith};
ghost use Rattle.route_graph.specs.declared.hop.Hop.{Hop};

use crate::hop::Hop;
use relay_conf::{BufferNo, ScopeNo};
use std::alloc::{AllocError, Allocator};
use std::collections::BTreeSet;
use std::marker::Model;

/// How far a scope has been gone through.
#[derive(Clone, Copy)]
pub(crate) enum Mark {
    /// Not at all.
    New,
    /// In part: it is on the chain of relabels that is followed now.
    Open,
    /// Wholly: all its leaves are found, and no chain from it comes back.
    Done,
}

/// What is to be done next.
#[derive(Clone, Copy)]
pub(crate) enum Step {
    /// The event takes this hop.
    Take(Hop),
    /// All hops from this scope are taken.
    Leave(ScopeNo),
}

/// A search for the leaves of one event. To contracts its steps stand in the order in which they
/// come.
#[derive(Drop)]
pub(crate) struct LeafSearch<A: Allocator> {
    marks: Vec<Mark, A>,
    ahead: Vec<Step, A>,
    found: Vec<BufferNo, A>,
    // the numbers of the buffers found
    numbers: BTreeSet<usize, A>,
}

impl<A: Allocator> Model for LeafSearch<A> {
    ghost use Rattle.std.specs.Prelude.{reverse};
    ghost use Rattle.route_graph.specs.Listing.{numbers_of};
    ghost use Rattle.route_graph.specs.Visits.{Known, HasNumbers};

    ghost Value = { Known };

    ghost view = { λ v. record {
      marks = v.marks.items;
      coming = reverse v.ahead.items;
      found = numbers_of v.found.items;
    } };

    ghost invariant = { λ v. HasNumbers v.numbers (numbers_of v.found.items) };
}

impl<A: Allocator> LeafSearch<A> {
    /// The buffers found.
    pub fn into_found(self) -> Vec<BufferNo, A>
        ensures { numbers_of result.items ≡ self.found }
    {
        self.found
    }

    /// Takes the next step off those to come, if there is one.
    pub fn next(&mut self) -> Option<Step>
        ensures taken { self.old
            ≡ record self.new { coming = option_to_list result ++ self.new.coming } }
        ensures none { IfNone result (self.old.coming ≡ []) }
    {
        self.ahead.pop()
    }

    /// The mark of a scope. One that isn't there is done.
    pub fn mark(&self, scope: ScopeNo) -> Mark
        ensures { result ≡ mark_at self.now.marks scope.0 }
    {
        self.marks.get(scope.0).copied().unwrap_or(Mark::Done)
    }

    /// Marks a scope as done, if it is there.
    pub fn leave(&mut self, scope: ScopeNo)
        ensures { self.new ≡ record
            self.old { marks = slice_set self.old.marks scope.0 Mark.Done } }
    {
        if let Some(mark) = self.marks.get_mut(scope.0) {
            *mark = Mark::Done;
        }
    }

    /// Opens a scope, if it is there: its hops come next, and then it is left.
    pub fn enter(&mut self, scope: ScopeNo, hops: &[Hop]) -> Result<(), AllocError>
        ensures marks { OnOk result (self.new.marks ≡ slice_set self.old.marks scope.0 Mark.Open) }
        ensures coming { OnOk result
            (self.new.coming ≡ map Step.Take hops.now ++ Step.Leave scope ∷ self.old.coming) }
        ensures found { OnOk result (self.new.found ≡ self.old.found) }
    {
        self.ahead.push(Step::Leave(scope))?;
        push_steps(&mut self.ahead, hops)?;
        if let Some(mark) = self.marks.get_mut(scope.0) {
            *mark = Mark::Open;
        }
        Ok(())
    }
}

impl<A: Allocator + Copy> LeafSearch<A> {
    /// The search from this scope, of so many in all.
    pub fn begin(alloc: A, scopes: usize, start: ScopeNo) -> Result<LeafSearch<A>, AllocError>
        ensures { IfOk result
            (λ visit. visit ≡ record {
              marks = replicate scopes Mark.New;
              coming = Step.Take (Hop.Scope start) ∷ [];
              found = [];
            }) }
    {
        let mut ahead = Vec::new(alloc);
        ahead.push(Step::Take(Hop::Scope(start)))?;
        Ok(LeafSearch {
            marks: vec![in alloc; Mark::New; scopes]?,
            ahead,
            found: Vec::new(alloc),
            numbers: BTreeSet::new(alloc),
        })
    }

    /// Adds a buffer, if it isn't among those found.
    pub fn add(&mut self, buffer: BufferNo) -> Result<(), AllocError>
        ensures marks { OnOk result (self.new.marks ≡ self.old.marks) }
        ensures coming { OnOk result (self.new.coming ≡ self.old.coming) }
        ensures found { OnOk result (IsWith self.old.found buffer.0 self.new.found) }
    {
        self.found.reserve(1)?;
        if self.numbers.insert(buffer.0)? {
            self.found.push_reserved(buffer);
        }
        Ok(())
    }
}

// Puts the steps that take these hops on top of those ahead, the first one uppermost.
fn push_steps<A: Allocator>(ahead: &mut Vec<Step, A>, hops: &[Hop]) -> Result<(), AllocError>
    ensures { OnOk result
        (reverse ahead.new.items ≡ map Step.Take hops.now ++ reverse ahead.old.items) }
{
    for place in (0..hops.len()).rev() {
        ahead.push(Step::Take(hops[place]))?;
    }
    Ok(())
}
