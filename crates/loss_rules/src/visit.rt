//! A search for the scopes that relabels lead to.

ghost use Rattle.std.specs.Prelude.{◌≡◌, false, true, [], ◌∷◌, ◌++◌, IfOk, IfNone, IfSome, OnOk, map, replicate, slice_set};
ghost use Rattle.loss_rules.specs.Visits.{mark_at};

use crate::relabel::Relabel;
use std::alloc::{AllocError, Allocator};

/// A search: which scopes were gone through, and those still to come, the next one last.
#[derive(Drop)]
pub(crate) struct ScopeSearch<A: Allocator> {
    marks: Vec<bool, A>,
    ahead: Vec<usize, A>,
}

impl<A: Allocator> ScopeSearch<A> {
    /// Takes the next scope off those to come, if there is one.
    pub fn next(&mut self) -> Option<usize>
        ensures marks { self.new.marks.items ≡ self.old.marks.items }
        ensures some { IfSome result
            (λ scope. self.old.ahead.items ≡ self.new.ahead.items ++ scope ∷ []) }
        ensures none { IfNone result (self.old.ahead.items ≡ []) }
    {
        self.ahead.pop()
    }

    /// Whether the scope was gone through. One that isn't there leads nowhere, and counts as gone
    /// through.
    pub fn is_marked(&self, scope: usize) -> bool
        ensures { result ≡ mark_at self.now.marks.items scope }
    {
        self.marks.get(scope).copied().unwrap_or(true)
    }

    /// Marks the scope as gone through, if it is there.
    pub fn mark(&mut self, scope: usize)
        ensures marks { self.new.marks.items ≡ slice_set self.old.marks.items scope true }
        ensures ahead { self.new.ahead.items ≡ self.old.ahead.items }
    {
        if let Some(mark) = self.marks.get_mut(scope) {
            *mark = true;
        }
    }

    /// Adds the targets of these relabels to the scopes to come.
    pub fn follow(&mut self, relabels: &[Relabel]) -> Result<(), AllocError>
        ensures marks { OnOk result (self.new.marks.items ≡ self.old.marks.items) }
        ensures ahead { OnOk result
            (self.new.ahead.items
            ≡ self.old.ahead.items ++ map (λ relabel. relabel.target) relabels.now) }
    {
        for relabel in relabels {
            self.ahead.push(relabel.target)?;
        }
        Ok(())
    }
}

impl<A: Allocator + Copy> ScopeSearch<A> {
    /// The search from this scope, of so many in all.
    pub fn begin(alloc: A, scopes: usize, start: usize) -> Result<ScopeSearch<A>, AllocError>
        ensures marks { IfOk result (λ visit. visit.marks.items ≡ replicate scopes false) }
        ensures ahead { IfOk result (λ visit. visit.ahead.items ≡ start ∷ []) }
    {
        let mut ahead = Vec::new(alloc);
        ahead.push(start)?;
        Ok(ScopeSearch {
            marks: vec![in alloc; false; scopes]?,
            ahead,
        })
    }
}
