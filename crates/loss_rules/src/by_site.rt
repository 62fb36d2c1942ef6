//! Labels and reaches, whose patterns are looked up by the scope or the match that they are of.

ghost use Rattle.std.specs.Prelude.{◌≡◌, ◌↔◌, ◌⊎◌, ℕ, List, map, Any, Contains, IfOk, OnOk};
ghost use Rattle.tag_pattern.specs.Items.{Item};
ghost use Rattle.loss_rules.specs.Labels.{IsLabelOf, IsReachOf};

use crate::hint::number_of;
use crate::label::{Label, Reach};
use crate::site::Site;
use relay_net::Entrance;
use std::alloc::{AllocError, Allocator};
use std::collections::BTreeMap;
use std::marker::Model;
use tag_pattern::{Plain, Prefix};

/// Lists of patterns, each of a site: the places of a relay, of a scope in it and of a match in
/// that. Each call takes steps by the logarithm of the number of sites and patterns.
#[derive(Drop)]
pub(crate) struct PatternsBySite<'a, A: Allocator> {
    lists: BTreeMap<((usize, usize), usize), Vec<&'a [Plain<A>], A>, A>,
    // For the number of each pattern the place of a list of its site that has such a one: a hint,
    // on which nothing rests.
    places: BTreeMap<u64, usize, A>,
}

impl<'a, A: Allocator + Copy> PatternsBySite<'a, A> {
    ghost use Rattle.loss_rules.specs.BySite.{patterns_at};

    /// No patterns.
    pub fn new(alloc: A) -> Self
        ensures { (site : (ℕ × ℕ) × ℕ) (list : List (List Item))
            → ¬ Contains (patterns_at result site) list }
    {
        PatternsBySite {
            lists: BTreeMap::new(alloc),
            places: BTreeMap::new(alloc),
        }
    }

    /// Adds a list of patterns of this site.
    pub fn add(
        &mut self,
        alloc: A,
        site: ((usize, usize), usize),
        patterns: &'a [Plain<A>],
    ) -> Result<(), AllocError>
        ensures { OnOk result
            ((other : (ℕ × ℕ) × ℕ) (list : List (List Item))
            → Contains (patterns_at self.new other) list
            ↔ (Contains (patterns_at self.old other) list
            ⊎ ((site ≡ other) × (patterns.now ≡ list)))) }
    {
        let place = self.at(site).len();
        self.note(site, place, patterns)?;
        let mut lists = match self.lists.remove(&site) {
            Some(lists) => lists,
            None => Vec::new(alloc),
        };
        lists.push(patterns)?;
        self.lists.insert(site, lists)?;
        Ok(())
    }

    // Notes that these patterns stand at this place among the lists of the site.
    fn note(
        &mut self,
        site: ((usize, usize), usize),
        place: usize,
        patterns: &[Plain<A>],
    ) -> Result<(), AllocError>
        ensures { OnOk result (self.new.lists ≡ self.old.lists) }
    {
        for pattern in patterns {
            self.places.insert(number_of(site, None, pattern), place)?;
        }
        Ok(())
    }

    /// The place among the lists of this site where the pattern may stand, with this prefix in
    /// front if there is one; it may also be past them.
    pub fn hint(
        &self,
        site: ((usize, usize), usize),
        prefix: Option<&[u8]>,
        pattern: &Plain<A>,
    ) -> usize {
        match self.places.get(&number_of(site, prefix, pattern)) {
            Some(place) => *place,
            None => usize::MAX,
        }
    }

    /// The lists of patterns of this site.
    pub fn at<'b>(&'b self, site: ((usize, usize), usize)) -> &'b [&'b [Plain<A>]]
        ensures { map (λ list. list.now) result.now ≡ patterns_at self.now site }
    {
        let Some(lists) = self.lists.get(&site) else {
            return &[];
        };
        lists.as_slice()
    }
}

/// Labels that are looked up by the scope that they are of. To contracts it is their list.
pub struct Labels<'a, A: Allocator> {
    list: &'a [Label<A>],
    by_scope: PatternsBySite<'a, A>,
}

// By hand, so that crates above don't prove again how its parts end.
impl<'a, A: Allocator> Drop for Labels<'a, A> {
    fn drop(self) {
        let Labels {
            list: _,
            by_scope: _,
        } = self;
    }
}

impl<'a, A: Allocator> Model for Labels<'a, A> {
    ghost use Rattle.std.specs.Prelude.{List};
    ghost use Rattle.loss_rules.specs.BySite.{AreLabelsBySite};
    ghost use Rattle.loss_rules.specs.declared.label.Label.{Label};

    ghost Value = { List (Label A) };

    ghost view = { λ labels. labels.list.now };

    ghost invariant = { λ labels. AreLabelsBySite labels.list.now labels.by_scope };
}

impl<'a, A: Allocator + Copy> Labels<'a, A> {
    /// These labels. The only error is want of memory.
    pub fn new(alloc: A, list: &'a [Label<A>]) -> Result<Self, AllocError>
        ensures { IfOk result (λ labels. labels ≡ list.now) }
    {
        let mut by_scope = PatternsBySite::new(alloc);
        for label in list {
            by_scope.add(alloc, ((label.place, label.scope), 0), &label.patterns)?;
        }
        Ok(Labels { list, by_scope })
    }

    /// The patterns of each label of this scope.
    pub(crate) fn at<'b>(&'b self, scope: Entrance) -> &'b [&'b [Plain<A>]]
        ensures { (list : List (List Item))
            → Contains (map (λ patterns. patterns.now) result.now) list
            ↔ Any (λ label. IsLabelOf scope.relay scope.scope label
            × (label.patterns.items ≡ list)) self.now }
    {
        self.by_scope.at(((scope.relay, scope.scope), 0))
    }

    /// The place among these where the pattern may stand, with the prefix in front if there is one;
    /// it may also be past them.
    pub(crate) fn hint(
        &self,
        scope: Entrance,
        prefix: Option<&Prefix<A>>,
        pattern: &Plain<A>,
    ) -> usize {
        let site = ((scope.relay, scope.scope), 0);
        match prefix {
            Some(prefix) => self.by_scope.hint(site, Some(prefix.as_bytes()), pattern),
            None => self.by_scope.hint(site, None, pattern),
        }
    }
}

/// Reaches that are looked up by the match that they are of. To contracts it is their list.
pub struct Reaches<'a, A: Allocator> {
    list: &'a [Reach<A>],
    by_match: PatternsBySite<'a, A>,
}

// By hand, so that crates above don't prove again how its parts end.
impl<'a, A: Allocator> Drop for Reaches<'a, A> {
    fn drop(self) {
        let Reaches {
            list: _,
            by_match: _,
        } = self;
    }
}

impl<'a, A: Allocator> Model for Reaches<'a, A> {
    ghost use Rattle.std.specs.Prelude.{List};
    ghost use Rattle.loss_rules.specs.BySite.{AreReachesBySite};
    ghost use Rattle.loss_rules.specs.declared.label.Reach.{Reach};

    ghost Value = { List (Reach A) };

    ghost view = { λ reaches. reaches.list.now };

    ghost invariant = { λ reaches. AreReachesBySite reaches.list.now reaches.by_match };
}

impl<'a, A: Allocator + Copy> Reaches<'a, A> {
    /// These reaches. The only error is want of memory.
    pub fn new(alloc: A, list: &'a [Reach<A>]) -> Result<Self, AllocError>
        ensures { IfOk result (λ reaches. reaches ≡ list.now) }
    {
        let mut by_match = PatternsBySite::new(alloc);
        for reach in list {
            let site = ((reach.place, reach.scope), reach.rule);
            by_match.add(alloc, site, &reach.patterns)?;
        }
        Ok(Reaches { list, by_match })
    }

    /// The patterns of each reach of the match at this site.
    pub(crate) fn at<'b>(&'b self, at: Site) -> &'b [&'b [Plain<A>]]
        ensures { (list : List (List Item))
            → Contains (map (λ patterns. patterns.now) result.now) list
            ↔ Any (λ reach. IsReachOf at.place at.scope at.rule reach
            × (reach.patterns.items ≡ list)) self.now }
    {
        self.by_match.at(((at.place, at.scope), at.rule))
    }

    /// The place among these where the pattern may stand; it may also be past them.
    pub(crate) fn hint(&self, at: Site, pattern: &Plain<A>) -> usize {
        let site = ((at.place, at.scope), at.rule);
        self.by_match.hint(site, None, pattern)
    }
}
