//! Where a rule is broken: a line of the plan, or of a relay's configuration.

ghost use Rattle.std.specs.Prelude.{◌≡◌, ◌++◌, ℕ, List, OnOk};
ghost use Rattle.plan_advice.specs.Sites.{site_line};

use loss_rules::Place;
use plan_lines::Plan;
use relay_conf::{MatchRule, Scope};
use relay_net::Entrance;
use std::alloc::{AllocError, Allocator};
use text_lines::lines;

/// The texts that a plan was read from, with the names by which they are shown.
#[derive(Drop)]
pub struct Texts<'t, A: Allocator> {
    /// The plan's name.
    pub plan_name: &'t str,
    /// The plan.
    pub plan: &'t [u8],
    /// How many of the plan's lines are its own; those behind them were added.
    pub own_lines: usize,
    /// What is said in place of the plan's name of a line that was added.
    pub added_name: &'t str,
    /// The names of the configurations, in the order of the plan's relays.
    pub conf_names: &'t [&'t str],
    /// The configurations, in that order.
    pub confs: &'t [Vec<u8, A>],
}

/// A line of one of the texts.
#[derive(Drop)]
pub struct Site<'t> {
    /// The text's name.
    pub name: &'t str,
    /// The text.
    pub text: &'t [u8],
    /// The line, counted from 1.
    pub line: usize,
}

impl<'t, A: Allocator> Texts<'t, A> {
    /// The line at this place.
    pub(crate) fn site(&self, plan: &Plan<A>, place: Place) -> Site<'t>
    where
        A: Copy,
    {
        match place {
            Place::Plan { line } => self.plan_site(line),
            Place::Conf { relay, line } => match plan.net().place(u64::from(relay)) {
                Some(at) => self.conf_site(at, line),
                None => self.conf_site(self.confs.len(), line),
            },
        }
    }

    /// This line of the plan.
    pub(crate) fn plan_site(&self, line: usize) -> Site<'t> {
        Site {
            name: if line > self.own_lines {
                self.added_name
            } else {
                self.plan_name
            },
            text: self.plan,
            line,
        }
    }

    /// The name of the configuration of the relay at this place; empty where it has none.
    pub(crate) fn conf_name(&self, place: usize) -> &'t str {
        self.conf_names.get(place).copied().unwrap_or("")
    }

    /// This line of the configuration of the relay at this place; no text where it has none.
    pub fn conf_site(&self, place: usize, line: usize) -> Site<'t>
        ensures { result.line ≡ line }
    {
        Site {
            name: self.conf_name(place),
            text: match self.confs.get(place) {
                Some(conf) => conf.as_slice(),
                None => &[],
            },
            line,
        }
    }
}

impl<'t> Site<'t> {
    /// Adds a line of these words, where the site is, and what stands there.
    pub fn put<A: Allocator + Copy>(
        &self,
        alloc: A,
        out: &mut Vec<u8, A>,
        words: &str,
    ) -> Result<(), AllocError>
        ensures { OnOk result
            ((shown : List ℕ) ×
            (out.new.items ≡ out.old.items ++ site_line words.now self.now.name.now self.now.line
            shown)) }
    {
        let name = self.name;
        let line = self.line;
        let front = format!(in alloc; "# {words} {name}, line {line}: ")?;
        out.extend_from_slice(front.as_bytes())?;
        out.extend_from_slice(self.line_text(alloc)?)?;
        out.extend_from_slice(b"\n")
    }

    /// The line's text, without what is blank in front of it; empty where the text has no such
    /// line. The only error is want of memory.
    pub fn line_text<A: Allocator + Copy>(&self, alloc: A) -> Result<&'t [u8], AllocError> {
        let all = lines(alloc, self.text)?;
        match all.get(self.line.saturating_sub(1)) {
            Some(line) => Ok(line.trim_ascii_start()),
            None => Ok(&[]),
        }
    }
}

/// The matches of this scope of the relay at this place; none where it isn't there.
pub(crate) fn matches_of<A: Allocator + Copy>(
    plan: &Plan<A>,
    place: usize,
    scope: usize,
) -> &[MatchRule<A>] {
    let Some(node) = plan.net().relays().get(place) else {
        return &[];
    };
    match node.relay.scopes.get(scope) {
        Some(scope) => &scope.matches,
        None => &[],
    }
}

/// The match that a line of a relay's configuration is in: its scope, and its index there.
#[derive(Drop)]
pub(crate) struct MatchSite<'n, A: Allocator> {
    pub at: Entrance,
    pub index: usize,
    pub rule: &'n MatchRule<A>,
}

/// The match that this line of a configuration is in: of those that begin there or before it the
/// last one.
pub(crate) fn match_at<A: Allocator + Copy>(
    plan: &Plan<A>,
    place: Place,
) -> Option<MatchSite<'_, A>> {
    let Place::Conf { relay, line } = place else {
        return None;
    };
    let net = plan.net();
    let Some(at) = net.place(u64::from(relay)) else {
        return None;
    };
    let Some(node) = net.relays().get(at) else {
        return None;
    };
    let mut found = None;
    for (number, scope) in node.relay.scopes.iter().enumerate() {
        let here = Entrance {
            relay: at,
            scope: number,
        };
        found = later_in(found, here, scope, line);
    }
    found
}

// The last one of this and of those of one scope that begin there or before it.
fn later_in<'n, A: Allocator>(
    last: Option<MatchSite<'n, A>>,
    at: Entrance,
    scope: &'n Scope<A>,
    line: usize,
) -> Option<MatchSite<'n, A>> {
    let mut found = last;
    for (index, rule) in scope.matches.iter().enumerate() {
        if rule.line <= line && line_of(&found) <= rule.line {
            found = Some(MatchSite { at, index, rule });
        }
    }
    found
}

// The line of this match; 0 of none.
fn line_of<A: Allocator>(found: &Option<MatchSite<'_, A>>) -> usize {
    match found {
        Some(found) => found.rule.line,
        None => 0,
    }
}
