//! What a rule asks of the things in a configuration, and the search for the lines in which it is
//! broken.

ghost use Rattle.std.specs.Prelude.{◌≡◌, ◌++◌, ◌∷◌, ℕ, [], cond, IfOk, OnOk};
ghost use Rattle.relay_conf.specs.declared.relay.MatchRule.{MatchRule};
ghost use Rattle.loss_rules.specs.Everywhere.{AreInConf, AreLines};
ghost use Rattle.loss_rules.specs.Lines.{Adds, site_of, KeptInList, BrokenInList, KeptInRelay, BrokenInRelay, BrokenInNet};
ghost use Rattle.loss_rules.specs.Sites.{EachMatch};
ghost use Rattle.relay_net.specs.Outputs.{servers_of};

use crate::answer::Place;
use crate::ordered::{put_conf_places, put_in_order};
use crate::site::Site;
use relay_conf::{MatchRule, Output, Relay, Server};
use relay_net::Net;
use std::alloc::{AllocError, Allocator};

/// What a rule asks of a thing in a configuration.
pub(crate) trait Requirement<T> {
    ghost use Rattle.std.specs.Prelude.{ℕ, OnOk};
    ghost use Rattle.loss_rules.specs.Lines.{Adds};
    ghost use Rattle.loss_rules.specs.declared.site.Site.{Site};

    ghost keeps: { Self → Site → T → Type 0 };

    ghost breaks: { Self → Site → T → ℕ → Type 0 };

    /// Adds the lines in which the thing, which stands at this site, isn't as it should be. The
    /// only error is want of memory.
    fn add_lines<B: Allocator + Copy>(
        &self,
        at: Site,
        found: &T,
        lines: &mut Vec<usize, B>,
    ) -> Result<(), AllocError>
        ensures { OnOk result
            (Adds (keeps self.now at found.now)
            (breaks self.now at found.now) lines.old.items lines.new.items) };
}

/// This is asked of each server of an output.
#[derive(Drop)]
pub(crate) struct OfServers<R>(pub R);

impl<A: Allocator, R: Requirement<Server<A>>> Requirement<Output<A>> for OfServers<R> {
    ghost use Rattle.std.specs.Prelude.{ℕ};
    ghost use Rattle.relay_net.specs.Outputs.{servers_of};
    ghost use Rattle.loss_rules.specs.Lines.{KeptInList, BrokenInList};

    ghost keeps = { λ asked at found. KeptInList
        (λ number server. R.keeps asked.0 at server) (servers_of found) };

    ghost breaks = { λ asked at found line. BrokenInList
        (λ number server l. R.breaks asked.0 at server l) (servers_of found) line };

    fn add_lines<B: Allocator + Copy>(
        &self,
        at: Site,
        found: &Output<A>,
        lines: &mut Vec<usize, B>,
    ) -> Result<(), AllocError> {
        for server in servers(found) {
            self.0.add_lines(at, server, lines)?;
        }
        Ok(())
    }
}

/// This is asked of each output of a match.
#[derive(Drop)]
pub(crate) struct OfOutputs<R>(pub R);

impl<A: Allocator, R: Requirement<Output<A>>> Requirement<MatchRule<A>> for OfOutputs<R> {
    ghost use Rattle.std.specs.Prelude.{ℕ};
    ghost use Rattle.loss_rules.specs.Lines.{KeptInList, BrokenInList};

    ghost keeps = { λ asked at found. KeptInList
        (λ output other. R.keeps asked.0 (record at { output = output }) other)
        found.outputs.items };

    ghost breaks = { λ asked at found line. BrokenInList
        (λ output other l. R.breaks asked.0 (record at { output = output }) other l)
        found.outputs.items line };

    fn add_lines<B: Allocator + Copy>(
        &self,
        at: Site,
        found: &MatchRule<A>,
        lines: &mut Vec<usize, B>,
    ) -> Result<(), AllocError> {
        for (output, other) in found.outputs.iter().enumerate() {
            let here = Site {
                place: at.place,
                scope: at.scope,
                rule: at.rule,
                output,
            };
            self.0.add_lines(here, other, lines)?;
        }
        Ok(())
    }
}

/// Each place where this is broken: by relays in the order of the plan, and in each by its lines.
pub(crate) fn broken_places<A: Allocator + Copy, B: Allocator + Copy, R: Requirement<MatchRule<A>>>(
    alloc: B,
    net: &Net<A>,
    asked: &R,
) -> Result<Vec<Place, B>, AllocError>
    ensures listed { IfOk result
        (λ places. AreInConf net.now
        (BrokenInNet net.now
        (λ place scope rule found line. R.breaks asked.now (site_of place scope rule) found line))
        places.items) }
    ensures kept { IfOk result
        (λ places. places.items ≡ []
        → EachMatch net.now
        (λ place scope rule found. R.keeps asked.now (site_of place scope rule) found)) }
{
    let mut places = Vec::new(alloc);
    for (place, node) in net.relays().iter().enumerate() {
        let lines = relay_lines(alloc, asked, place, &node.relay)?;
        put_conf_places(node.number, &lines, &mut places)?;
    }
    Ok(places)
}

/// The lines of the relay at this place in which this is broken, in rising order.
pub(crate) fn relay_lines<A: Allocator, B: Allocator + Copy, R: Requirement<MatchRule<A>>>(
    alloc: B,
    asked: &R,
    place: usize,
    relay: &Relay<A>,
) -> Result<Vec<usize, B>, AllocError>
    ensures lines { IfOk result
        (λ lines. AreLines (BrokenInRelay
        (λ scope rule found line. R.breaks asked.now (site_of place scope rule) found line)
        relay.now) lines.items) }
    ensures kept { IfOk result
        (λ lines. lines.items ≡ []
        → KeptInRelay (λ scope rule found. R.keeps asked.now (site_of place scope rule) found)
        relay.now) }
{
    let mut lines = Vec::new(alloc);
    for (scope, found) in relay.scopes.iter().enumerate() {
        add_scope_lines(asked, place, scope, &found.matches, &mut lines)?;
    }
    put_in_order(&mut lines);
    Ok(lines)
}

// Adds the lines of the scope with these matches in which this is broken.
fn add_scope_lines<A: Allocator, B: Allocator + Copy, R: Requirement<MatchRule<A>>>(
    asked: &R,
    place: usize,
    scope: usize,
    matches: &[MatchRule<A>],
    lines: &mut Vec<usize, B>,
) -> Result<(), AllocError>
    ensures { OnOk result (Adds
        (KeptInList (λ rule found. R.keeps asked.now (site_of place scope rule) found) matches.now)
        (BrokenInList (λ rule found line. R.breaks asked.now (site_of place scope rule) found line)
        matches.now) lines.old.items lines.new.items) }
{
    for (rule, found) in matches.iter().enumerate() {
        let here = Site {
            place,
            scope,
            rule,
            output: 0,
        };
        asked.add_lines(here, found, lines)?;
    }
    Ok(())
}

/// Adds this line, unless all is kept there. The only error is want of memory.
pub(crate) fn add_unless<B: Allocator>(
    kept: bool,
    line: usize,
    lines: &mut Vec<usize, B>,
) -> Result<(), AllocError>
    ensures { OnOk result
        (lines.new.items ≡ cond kept lines.old.items (lines.old.items ++ line ∷ [])) }
{
    if !kept {
        lines.push(line)?;
    }
    Ok(())
}

// The servers that the output sends to.
fn servers<A: Allocator>(output: &Output<A>) -> &[Server<A>]
    ensures { result.now ≡ servers_of output.now }
{
    match output {
        Output::Forward { settings, line: _ } => &settings.servers,
        _ => &[],
    }
}
