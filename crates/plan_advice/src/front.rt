//! What is said of a broken rule in front of the steps.

use crate::keeping::put_lacks_of;
use crate::pieces::Piece;
use crate::site::{MatchSite, Texts, match_at};
use crate::story::{put_headed, put_joined, put_line, put_note};
use crate::ways::Ways;
use crate::words::{advice, asks_for_lines, meaning};
use loss_rules::{Place, Rule};
use plan_lines::Plan;
use relay_conf::Output;
use relay_net::{Entrance, Node};
use std::alloc::{AllocError, Allocator};

/// What is explained: a rule that is broken at this place of a plan.
#[derive(Drop)]
pub(crate) struct Subject<'a, A: Allocator> {
    pub alloc: A,
    pub plan: &'a Plan<A>,
    pub texts: &'a Texts<'a, A>,
    pub rule: Rule,
    pub place: Place,
}

impl<A: Allocator + Copy> Subject<'_, A> {
    /// What is said in front of the steps: the rule, the line where it is broken, what to change,
    /// by which lines of the plan tags come there, and the other lines where it is broken, which
    /// are these; each line begins with `#`.
    pub fn front(&self, others: &[Place]) -> Result<Vec<u8, A>, AllocError> {
        let mut lines = Vec::new(self.alloc);
        self.put(&mut lines)?;
        for place in others {
            self.of_other(*place).put_as_other(&mut lines)?;
        }
        Ok(lines)
    }

    // Adds all of that but the other lines.
    fn put(&self, out: &mut Vec<u8, A>) -> Result<(), AllocError> {
        self.put_rule(out)?;
        self.put_place(out, "It is broken in")?;
        put_headed(out, b"To mend it", advice(self.rule))?;
        self.put_details(out)?;
        self.put_labelling(out)?;
        self.put_lacks(out)?;
        self.put_ways(out)
    }

    // The same rule at another place, alone.
    fn of_other(&self, place: Place) -> Subject<'_, A> {
        Subject {
            alloc: self.alloc,
            plan: self.plan,
            texts: self.texts,
            rule: self.rule,
            place,
        }
    }

    // Adds that the rule is broken here too, and what stands here.
    fn put_as_other(&self, out: &mut Vec<u8, A>) -> Result<(), AllocError> {
        self.put_place(out, "It is broken too in")?;
        self.put_details(out)?;
        self.put_lacks(out)
    }

    // Adds these words, the place, and what stands there.
    fn put_place(&self, out: &mut Vec<u8, A>, words: &str) -> Result<(), AllocError> {
        let site = self.texts.site(self.plan, self.place);
        site.put(self.alloc, out, words)?;
        self.put_relay_of_conf(out)
    }

    // Adds what the rule asks for.
    fn put_rule(&self, out: &mut Vec<u8, A>) -> Result<(), AllocError> {
        let rule = self.rule;
        let code = format!(in self.alloc; "{rule}")?;
        put_headed(out, code.as_bytes(), meaning(rule))
    }

    // Adds whose configuration it is that breaks the rule, if it is one.
    fn put_relay_of_conf(&self, out: &mut Vec<u8, A>) -> Result<(), AllocError> {
        let Place::Conf { relay, .. } = self.place else {
            return Ok(());
        };
        let Some(at) = self.plan.net().place(u64::from(relay)) else {
            return Ok(());
        };
        match self.plan.relay_lines().get(at) {
            Some(entry) => put_line(
                self.alloc,
                out,
                &[
                    Piece::Text(b"  That is the configuration of relay "),
                    Piece::Number(u64::from(relay)),
                    Piece::Text(b", whose folder is "),
                    Piece::Text(entry.folder.as_bytes()),
                    Piece::Text(b"."),
                ],
            ),
            None => Ok(()),
        }
    }

    // Adds by which command lines are added that are missing.
    fn put_labelling(&self, out: &mut Vec<u8, A>) -> Result<(), AllocError> {
        if !asks_for_lines(self.rule) {
            return Ok(());
        }
        let name = self.texts.plan_name.as_bytes();
        put_joined(
            out,
            &[
                b"  `relayctl label ",
                name,
                b"` looks for lines that mend it, and prints the plan with them.",
            ],
        )
    }

    // Adds what each output of a match lacks that doesn't keep.
    fn put_lacks(&self, out: &mut Vec<u8, A>) -> Result<(), AllocError> {
        if self.rule != Rule::ReachedMatchesKeep {
            return Ok(());
        }
        let Some(found) = match_at(self.plan, self.place) else {
            return Ok(());
        };
        for output in &found.rule.outputs {
            put_lacks_of(self.alloc, out, output)?;
        }
        self.put_dropping(out, &found)
    }

    // Adds how to say that events may go at the match, where all of them do.
    fn put_dropping(
        &self,
        out: &mut Vec<u8, A>,
        found: &MatchSite<'_, A>,
    ) -> Result<(), AllocError> {
        let [Output::Null { line: _ }] = found.rule.outputs.as_slice() else {
            return Ok(());
        };
        let Some(node) = self.plan.net().relays().get(found.at.relay) else {
            return Ok(());
        };
        put_line(
            self.alloc,
            out,
            &[
                Piece::Text(
                    b"  If what comes there may go on purpose, say so: `relayctl check` with `--drop ",
                ),
                Piece::Number(u64::from(node.number)),
                Piece::Text(b":"),
                Piece::Text(scope_word(node, found.at.scope)),
                Piece::Text(b":"),
                Piece::Number(found.index as u64),
                Piece::Text(b"`."),
            ],
        )
    }

    // Adds the lines of the plan by which tags come to the place.
    fn put_ways(&self, out: &mut Vec<u8, A>) -> Result<(), AllocError> {
        let lines = self.ways()?;
        if lines.is_empty() {
            return Ok(());
        }
        put_note(
            out,
            b"Tags come there by these lines, back to those of clients:",
        )?;
        for line in &lines {
            self.texts.plan_site(*line).put(self.alloc, out, " ")?;
        }
        Ok(())
    }

    // These lines, where the place is one that tags come to.
    fn ways(&self) -> Result<Vec<usize, A>, AllocError> {
        let mut ways = Ways::new(self.alloc, self.plan);
        match self.place {
            Place::Plan { line } => self.add_label_ways(&mut ways, line)?,
            Place::Conf { .. } => self.add_match_ways(&mut ways)?,
        }
        ways.into_lines()
    }

    // Adds the ways to the scope of the label in this line.
    fn add_label_ways(&self, ways: &mut Ways<'_, A>, line: usize) -> Result<(), AllocError> {
        for label in self.plan.labels() {
            if label.line == line {
                ways.add_scope(Entrance {
                    relay: label.place,
                    scope: label.scope,
                })?;
            }
        }
        Ok(())
    }

    // Adds the ways to the match, but for a rule that isn't on matches.
    fn add_match_ways(&self, ways: &mut Ways<'_, A>) -> Result<(), AllocError> {
        if matches!(
            self.rule,
            Rule::AddressesAreDistinct | Rule::PathsAreDistinct
        ) {
            return Ok(());
        }
        match match_at(self.plan, self.place) {
            Some(found) => ways.add_match(found.at, found.index),
            None => Ok(()),
        }
    }
}

// The word that names the scope of the relay.
fn scope_word<A: Allocator>(node: &Node<A>, scope: usize) -> &[u8] {
    match node.relay.scopes.get(scope) {
        Some(found) if scope > 0 => found.name.as_bytes(),
        _ => b".",
    }
}
