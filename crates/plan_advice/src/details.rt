//! What stands where a rule is broken: the address that isn't there, what stands twice, the match
//! that has no reach.

use crate::front::Subject;
use crate::links::MOST_OUTPUTS;
use crate::pieces::Piece;
use crate::site::{match_at, matches_of};
use crate::story::put_line;
use loss_rules::{Label, Place, RelayLine, Rule, buffer_path, fits_any, line_of, sink_path};
use plan_lines::Plan;
use relay_conf::{MatchRule, Output};
use relay_net::Node;
use std::alloc::{AllocError, Allocator};
use tag_pattern::{Plain, apart};

// A relay of the plan, and its line there.
#[derive(Drop)]
struct Entry<'a, A: Allocator> {
    node: &'a Node<A>,
    line: &'a RelayLine<A>,
}

// A match, by its index in its scope.
#[derive(Clone, Copy)]
struct Found {
    index: usize,
    line: usize,
}

impl<A: Allocator + Copy> Subject<'_, A> {
    /// Adds what stands there, for rules of which that says more than the line does.
    pub fn put_details(&self, out: &mut Vec<u8, A>) -> Result<(), AllocError> {
        match (self.rule, self.place) {
            (Rule::AddressesAreDistinct, Place::Plan { line }) => self.put_relays(out, line),
            (Rule::AddressesAreDistinct, Place::Conf { relay, line }) => {
                self.put_address(out, relay, line)
            }
            (Rule::ServersAreSources, Place::Conf { line, .. }) => self.put_server(out, line),
            (Rule::ReachesCover, Place::Plan { line }) => self.put_match(out, line),
            (Rule::PathsAreDistinct, Place::Conf { relay, line }) => {
                self.put_paths(out, relay, line)
            }
            _ => Ok(()),
        }
    }

    // Adds which relays before this line of the plan have the number or the folder of the relay
    // there.
    fn put_relays(&self, out: &mut Vec<u8, A>, line: usize) -> Result<(), AllocError> {
        for place in 0..self.plan.relay_lines().len() {
            if let Some(here) = relay_at(self.plan, place)
                && here.line.line == line
            {
                return self.put_relays_before(out, place, &here);
            }
        }
        Ok(())
    }

    // Adds which relays before this one, which is at this place, have its number or its folder.
    fn put_relays_before(
        &self,
        out: &mut Vec<u8, A>,
        place: usize,
        here: &Entry<'_, A>,
    ) -> Result<(), AllocError> {
        for before in 0..place {
            if let Some(other) = relay_at(self.plan, before) {
                self.put_relay(out, here, &other)?;
            }
        }
        Ok(())
    }

    // Adds what the other relay has of this one.
    fn put_relay(
        &self,
        out: &mut Vec<u8, A>,
        here: &Entry<'_, A>,
        other: &Entry<'_, A>,
    ) -> Result<(), AllocError> {
        let number = here.node.number;
        if other.node.number == number {
            let number = Piece::Number(u64::from(number));
            self.put_too(out, b"relay", other.line.line, b"number", number)?;
        }
        let folder = here.line.folder.as_bytes();
        if other.line.folder.as_bytes() != folder {
            return Ok(());
        }
        self.put_too(
            out,
            b"relay",
            other.line.line,
            b"folder",
            Piece::Text(folder),
        )
    }

    // Adds what the one in this line has too.
    fn put_too<'p>(
        &self,
        out: &mut Vec<u8, A>,
        one: &'p [u8],
        line: usize,
        kind: &'p [u8],
        what: Piece<'p>,
    ) -> Result<(), AllocError> {
        put_line(
            self.alloc,
            out,
            &[
                Piece::Text(b"  The "),
                Piece::Text(one),
                Piece::Text(b" in line "),
                Piece::Number(line as u64),
                Piece::Text(b" has the "),
                Piece::Text(kind),
                Piece::Text(b" "),
                what,
                Piece::Text(b" too."),
            ],
        )
    }

    // Adds the address of the source in this line of the configuration of the relay with this
    // number.
    fn put_address(&self, out: &mut Vec<u8, A>, relay: u32, line: usize) -> Result<(), AllocError> {
        let net = self.plan.net();
        let Some(place) = net.place(u64::from(relay)) else {
            return Ok(());
        };
        let Some(node) = net.relays().get(place) else {
            return Ok(());
        };
        for source in &node.relay.sources {
            if source.line == line {
                let front = b"Another source has the address";
                self.put_host(out, front, node.host.as_bytes(), source.port, b" too")?;
            }
        }
        Ok(())
    }

    // Adds the address of the server in this line of the configuration.
    fn put_server(&self, out: &mut Vec<u8, A>, line: usize) -> Result<(), AllocError> {
        let Some(found) = match_at(self.plan, self.place) else {
            return Ok(());
        };
        for output in &found.rule.outputs {
            self.put_server_of(out, output, line)?;
        }
        Ok(())
    }

    // Adds its address, if it is one of this output.
    fn put_server_of(
        &self,
        out: &mut Vec<u8, A>,
        output: &Output<A>,
        line: usize,
    ) -> Result<(), AllocError> {
        let Output::Forward { settings, .. } = output else {
            return Ok(());
        };
        for server in &settings.servers {
            if server.line == line {
                let front = b"No source of the plan has the address";
                return self.put_host(out, front, server.host.as_bytes(), server.port, b"");
            }
        }
        Ok(())
    }

    // Adds these words around an address.
    fn put_host<'p>(
        &self,
        out: &mut Vec<u8, A>,
        front: &'p [u8],
        host: &'p [u8],
        port: u16,
        end: &'p [u8],
    ) -> Result<(), AllocError> {
        put_line(
            self.alloc,
            out,
            &[
                Piece::Text(b"  "),
                Piece::Text(front),
                Piece::Text(b" "),
                Piece::Text(host),
                Piece::Text(b":"),
                Piece::Number(u64::from(port)),
                Piece::Text(end),
                Piece::Text(b"."),
            ],
        )
    }

    // Adds which outputs before this line of the configuration have a path of the output there.
    fn put_paths(&self, out: &mut Vec<u8, A>, relay: u32, line: usize) -> Result<(), AllocError> {
        let net = self.plan.net();
        let Some(place) = net.place(u64::from(relay)) else {
            return Ok(());
        };
        let Some(here) = output_in(self.plan, place, line) else {
            return Ok(());
        };
        for number in 0..MOST_OUTPUTS {
            let Some(other) = net.output(place, number) else {
                return Ok(());
            };
            let before = line_of(other);
            if before < line {
                self.put_path(out, before, buffer_path(here), buffer_path(other))?;
                self.put_path(out, before, sink_path(here), sink_path(other))?;
            }
        }
        Ok(())
    }

    // Adds that the output in this line has this path too, if both have one and it does.
    fn put_path(
        &self,
        out: &mut Vec<u8, A>,
        line: usize,
        path: Option<&[u8]>,
        its: Option<&[u8]>,
    ) -> Result<(), AllocError> {
        match (path, its) {
            (Some(path), Some(its)) if path == its => {
                self.put_too(out, b"output", line, b"path", Piece::Text(path))
            }
            _ => Ok(()),
        }
    }

    // Adds which match asks for a reach, of the label in this line of the plan.
    fn put_match(&self, out: &mut Vec<u8, A>, line: usize) -> Result<(), AllocError> {
        for label in self.plan.labels() {
            if label.line == line
                && let Some(found) = uncovered(self.plan, label)
            {
                return self.put_found(out, found, self.texts.conf_name(label.place));
            }
        }
        Ok(())
    }

    // Adds that it is this match, of the configuration with this name.
    fn put_found(&self, out: &mut Vec<u8, A>, found: Found, name: &str) -> Result<(), AllocError> {
        put_line(
            self.alloc,
            out,
            &[
                Piece::Text(b"  The first that lacks one is the match in line "),
                Piece::Number(found.line as u64),
                Piece::Text(b" of "),
                Piece::Text(name.as_bytes()),
                Piece::Text(b", with the index "),
                Piece::Number(found.index as u64),
                Piece::Text(b"."),
            ],
        )
    }
}

// The first match that may take tags of the label and has no reach that covers them.
fn uncovered<A: Allocator + Copy>(plan: &Plan<A>, label: &Label<A>) -> Option<Found> {
    let matches = matches_of(plan, label.place, label.scope);
    for pattern in &label.patterns {
        if let Some(found) = uncovered_of(plan, label, pattern, matches) {
            return Some(found);
        }
    }
    None
}

// The same of one pattern of the label, among the matches of its scope.
fn uncovered_of<A: Allocator + Copy>(
    plan: &Plan<A>,
    label: &Label<A>,
    pattern: &Plain<A>,
    matches: &[MatchRule<A>],
) -> Option<Found> {
    for (index, rule) in matches.iter().enumerate() {
        if !is_covered(plan, label, pattern, index, &rule.patterns) {
            return Some(Found {
                index,
                line: rule.line,
            });
        }
        if fits_any(pattern, &rule.patterns) {
            return None;
        }
    }
    None
}

// Whether each of these patterns, those of the match with this index, has nothing in common with
// the label's, or a reach covers it.
fn is_covered<A: Allocator + Copy>(
    plan: &Plan<A>,
    label: &Label<A>,
    pattern: &Plain<A>,
    index: usize,
    patterns: &[Plain<A>],
) -> bool {
    for taken in patterns {
        if !apart(taken, pattern) && !is_reached(plan, label, pattern, index, taken) {
            return false;
        }
    }
    true
}

// Whether the label's pattern or that of the match with this index fits a reach of the match.
fn is_reached<A: Allocator + Copy>(
    plan: &Plan<A>,
    label: &Label<A>,
    pattern: &Plain<A>,
    index: usize,
    taken: &Plain<A>,
) -> bool {
    for reach in plan.reaches() {
        if reach.place == label.place
            && reach.scope == label.scope
            && reach.rule == index
            && (fits_any(pattern, &reach.patterns) || fits_any(taken, &reach.patterns))
        {
            return true;
        }
    }
    false
}

// The relay at this place of the plan.
fn relay_at<A: Allocator + Copy>(plan: &Plan<A>, place: usize) -> Option<Entry<'_, A>> {
    let Some(node) = plan.net().relays().get(place) else {
        return None;
    };
    match plan.relay_lines().get(place) {
        Some(line) => Some(Entry { node, line }),
        None => None,
    }
}

// The output with a buffer that this line of the relay at this place opens.
fn output_in<A: Allocator + Copy>(plan: &Plan<A>, place: usize, line: usize) -> Option<&Output<A>> {
    for number in 0..MOST_OUTPUTS {
        let Some(output) = plan.net().output(place, number) else {
            return None;
        };
        if line_of(output) == line {
            return Some(output);
        }
    }
    None
}
