//! The plan at whose named matches events may be let go.

ghost use Rattle.std.specs.Prelude.{◌≡◌, [], IfOk, IfErr, OnOk};
ghost use Rattle.loss_rules.specs.Rules.{PathsAreDistinct};
ghost use Rattle.plan_lines.specs.Parts.{plan_of, IsWhole};
ghost use Rattle.label_plan.specs.Drops.{LetsGo, IsRefused};
ghost use Rattle.label_plan.specs.OneByOne.{LetsOneGo, IsRefusedAt};

use crate::error::DropError;
use crate::name::DropName;
use crate::place::place_in;
use crate::put::put_outputs;
use crate::sink::own_sink;
use plan_lines::PlanParts;
use std::alloc::Allocator;

/// The plan in which one sink of its own stands in place of the outputs of each match that is
/// named: it keeps what comes, and no other output of its relay has its buffer's number or a path
/// of its. All else is as it was: the patterns of these matches, other matches, relays, clients,
/// labels, reaches and the duty. So a yes of that plan says of each acknowledged event that it is
/// kept, or among those that came to such a match.
///
/// Labels and reaches stay, though fewer may be needed: what only the outputs fed that were
/// replaced gets no events. A name may stand twice. An error says which name means no match of the
/// plan, or that memory ran out.
pub fn with_drops<A: Allocator + Copy>(
    alloc: A,
    parts: PlanParts<A>,
    drops: &[DropName<'_>],
) -> Result<PlanParts<A>, DropError>
    requires { IsWhole (plan_of parts) }
    ensures dropped { IfOk result (λ after. LetsGo (plan_of parts) drops.now (plan_of after)) }
    ensures unchanged { IfOk result (λ after. drops.now ≡ [] → plan_of after ≡ plan_of parts) }
    ensures whole { IfOk result (λ after. IsWhole (plan_of after)) }
    // Where paths were distinct in each relay, they are.
    ensures paths { IfOk result
        (λ after. PathsAreDistinct (plan_of parts).net → PathsAreDistinct (plan_of after).net) }
    ensures refused { IfErr result (IsRefused (plan_of parts).net drops.now) }
{
    let mut changed = parts;
    for at in 0..drops.len() {
        match let_go(alloc, &mut changed, &drops[at], at) {
            Ok(()) => {}
            Err(error) => return Err(error),
        }
    }
    Ok(changed)
}

// A sink of its own in place of the outputs of the match that the name means, which has this place
// among the names.
fn let_go<A: Allocator + Copy>(
    alloc: A,
    parts: &mut PlanParts<A>,
    name: &DropName<'_>,
    at: usize,
) -> Result<(), DropError>
    ensures lets { OnOk result (LetsOneGo (plan_of parts.old) name.now (plan_of parts.new)) }
    ensures refused { IfErr result (IsRefusedAt (plan_of parts.old).net name.now at) }
{
    let place = match place_in(parts, name, at) {
        Ok(place) => place,
        Err(error) => return Err(error),
    };
    let relay = &parts.relays[place.place].relay;
    let outputs = own_sink(alloc, relay, place.line)?;
    put_outputs(&mut parts.relays, place, outputs);
    Ok(())
}
