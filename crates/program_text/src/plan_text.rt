//! A plan, as a text that is read with the configurations that it names.

ghost use Rattle.std.specs.Prelude.{◌≡◌, ◌≤◌, ◌+◌, length, map, IfOk, IfErr};
ghost use Rattle.std.specs.List.{AllZip};
ghost use Rattle.plan_lines.specs.Plans.{texts as texts_of};
ghost use Rattle.program_text.specs.Plans.{IsPlanRead, IsPlanStop, StopsWith};
ghost use Rattle.program_text.specs.Texts.{IsTextOf};

use crate::{CountedRead, Open, ReadFault, read_named, read_whole};
use plan_lines::{Plan, PlanError, conf_names};
use std::alloc::{AllocError, Allocator};

/// Why a plan isn't read.
#[derive(Drop)]
pub enum PlanStop {
    /// The plan has this fault, which isn't want of memory.
    Plan(PlanError),
    /// A text isn't read, or what it needs isn't there.
    Unread(ReadFault),
}

impl From<ReadFault> for PlanStop {
    ghost use Rattle.std.specs.Prelude.{◌≡◌};
    ghost use Rattle.program_text.specs.declared.plan_text.PlanStop.TheVariants.{Unread};

    ghost from_gives = { λ fault stop. stop ≡ Unread fault };

    fn from(fault: ReadFault) -> PlanStop {
        PlanStop::Unread(fault)
    }
}

impl From<AllocError> for PlanStop {
    ghost use Rattle.std.specs.Prelude.{◌≡◌};
    ghost use Rattle.program_text.specs.declared.plan_text.PlanStop.TheVariants.{Unread};
    ghost use Rattle.program_text.specs.declared.reading.ReadFault.TheVariants.{Memory};

    ghost from_gives = { λ _ stop. stop ≡ Unread Memory };

    fn from(_: AllocError) -> PlanStop {
        PlanStop::Unread(ReadFault::Memory)
    }
}

/// The plan of the texts that are read, or why there is none. Each text is read whole before a
/// fault of the plan is looked for.
pub fn read_plan<A: Allocator + Copy, R: CountedRead, O: Open>(
    alloc: A,
    net: &mut R,
    files: &O,
) -> Result<Plan<A>, PlanStop>
    ensures plan { IfOk result (IsPlanRead (R.remaining net.old) (O.text_of files.now)) }
    ensures stop { IfErr result (IsPlanStop A (R.remaining net.old) (O.text_of files.now)) }
    ensures calls { R.calls net.new ≤ R.calls net.old + 16777216 }
{
    let text = read_whole(alloc, net)?;
    let names = conf_names(alloc, &text)?;
    let confs = read_confs(alloc, &names, files)?;
    match Plan::read(alloc, &text, &confs) {
        Ok(plan) => Ok(plan),
        Err(fault) => Err(plan_stop(fault)),
    }
}

/// What a fault of the plan stops with: want of memory is none of the plan's.
pub fn plan_stop(fault: PlanError) -> PlanStop
    ensures { StopsWith fault result }
{
    match fault {
        PlanError::Memory => PlanStop::Unread(ReadFault::Memory),
        other => PlanStop::Plan(other),
    }
}

/// The texts of these names, in their order, each read whole.
pub fn read_confs<A: Allocator + Copy, O: Open>(
    alloc: A,
    names: &[&str],
    files: &O,
) -> Result<Vec<Vec<u8, A>, A>, ReadFault>
    ensures count { IfOk result (λ confs. length confs.items ≡ length names.now) }
    ensures texts { IfOk result
        (λ confs. AllZip (λ name conf. IsTextOf (O.text_of files.now name) conf)
        (map (λ name. name.now) names.now) (texts_of confs.items)) }
{
    let mut confs = Vec::new(alloc);
    for name in names {
        let conf = read_named(alloc, name, files)?;
        confs.push(conf)?;
    }
    Ok(confs)
}
