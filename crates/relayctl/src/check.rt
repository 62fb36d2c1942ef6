//! The word `check`: every broken rule of a plan with the labels that it lacks, each explained.

ghost use Rattle.std.specs.Prelude.{◌≡◌, ◌++◌, length, map, string_bytes, IfOk, MatchResult};
ghost use Rattle.plan_lines.specs.Forms.{confs_named};
ghost use Rattle.plan_lines.specs.Plans.{texts as texts_of};
ghost use Rattle.relayctl.specs.Adapting.{adapted_note as adapted_note_of, AddsAdaptedNote, IsAdaptedCheck, PrintsAdaptedCheck, SaysStopped};
ghost use Rattle.relayctl.specs.Checking.{labels_note as labels_note_of, IsCheck, IsTextsCheck, PrintsCheck, PrintsFound, PrintsUnread, SaysCheck, SaysRules};

use crate::drops::{put_drops, say_missing};
use crate::explain::{Said, say_faults};
use crate::faults::further_faults;
use crate::listing::list_broken;
use conf_listing::{AdaptedConfs, StoppedConfs, adapt_confs};
use label_plan::{DropError, DropName, DroppedPlanError, LabelledCheck, check_dropping};
use loss_checker::{BrokenRule, Plan, PlanError, conf_names};
use plan_advice::{Texts, put_stale_reaches, put_warnings};
use program_text::{
    CountedRead, Open, PlanStop, ReadFault, Status, print_plan_stop, put_last, read_confs,
    read_whole,
};
use std::alloc::{AllocError, Allocator};
use std::io::Write;
use text_lines::lines;

/// Labels the plan that `net` gives, by this name in what is printed, at whose named matches events
/// may go on purpose: in place of the outputs of each stands a sink that keeps. It prints `yes`
/// where each rule holds of that plan, with the matches at which events may go, and warnings of
/// what may keep events from arriving; or every place where a rule is broken, and behind them, the
/// shortest first, what each broken rule means, what mends it, and steps that lose an acknowledged
/// event, where some were found. Of a plan without relays or clients, of a fault, and of names that
/// mean no match, it says so in `faults`. Each text is read whole before a fault of the plan is
/// looked for.
pub fn run_check<A: Allocator + Copy, R: CountedRead, O: Open, W: Write, F: Write>(
    alloc: A,
    name: &str,
    net: &mut R,
    files: &O,
    drops: &[DropName<'_>],
    out: &mut W,
    faults: &mut F,
) -> Status
    ensures { PrintsCheck A (R.remaining net.old) (O.text_of files.now) drops.now
        (W.contents out.old) (W.contents out.new) (F.contents faults.old)
        (F.contents faults.new) result }
{
    let found = check_read(alloc, name, net, files, drops);
    print_check(alloc, found, out, faults)
}

/// The same of the plan with its configurations adapted, as `relayctl adapt` prints them. Where
/// something of them isn't accepted, by a name among these words, it prints what in place of an
/// answer; and says in `faults` that one of them has a fault.
pub fn run_adapted_check<
    A: Allocator + Copy,
    B: Allocator,
    R: CountedRead,
    O: Open,
    W: Write,
    F: Write,
>(
    alloc: A,
    name: &str,
    net: &mut R,
    files: &O,
    accepted: &[String<B>],
    drops: &[DropName<'_>],
    out: &mut W,
    faults: &mut F,
) -> Status
    ensures { PrintsAdaptedCheck A (R.remaining net.old) (O.text_of files.now)
        (map string_bytes accepted.now) drops.now (W.contents out.old) (W.contents out.new)
        (F.contents faults.old) (F.contents faults.new) result }
{
    let found = check_adapted(alloc, name, net, files, accepted, drops);
    print_check(alloc, found, out, faults)
}

// Prints an answer, or says in place of faults why there is none.
#[tactic(auto, using(crate::proofs::Stopping::stopped_unread))]
fn print_check<A: Allocator, W: Write, F: Write>(
    alloc: A,
    found: Result<Check<A>, ReadFault>,
    out: &mut W,
    faults: &mut F,
) -> Status
    ensures { MatchResult found
        (λ found. PrintsFound found (W.contents out.old) (W.contents out.new)
        (F.contents faults.old) (F.contents faults.new) result)
        (λ _. PrintsUnread (W.contents out.old) (W.contents out.new) (F.contents faults.old)
        (F.contents faults.new) result) }
{
    match found {
        Ok(Check::Answered(said)) => put_last(out, &said.lines, said.status),
        Ok(Check::Refused(said)) => put_last(faults, &said.lines, said.status),
        Err(fault) => print_plan_stop(alloc, PlanStop::Unread(fault), faults),
    }
}

// What is said of a plan.
#[derive(Drop)]
enum Check<A: Allocator> {
    // Its answer.
    Answered(Said<A>),
    // Why there is none.
    Refused(Said<A>),
}

// What is said of the texts that are read.
fn check_read<A: Allocator + Copy, R: CountedRead, O: Open>(
    alloc: A,
    name: &str,
    net: &mut R,
    files: &O,
    drops: &[DropName<'_>],
) -> Result<Check<A>, ReadFault>
    ensures { IfOk result (IsCheck A (R.remaining net.old) (O.text_of files.now) drops.now) }
{
    let text = read_whole(alloc, net)?;
    let names = conf_names(alloc, &text)?;
    let confs = read_confs(alloc, &names, files)?;
    let found = check_texts(alloc, name, &text, &names, &confs, &confs, drops)?;
    Ok(found)
}

// The same with the configurations adapted.
fn check_adapted<A: Allocator + Copy, B: Allocator, R: CountedRead, O: Open>(
    alloc: A,
    name: &str,
    net: &mut R,
    files: &O,
    accepted: &[String<B>],
    drops: &[DropName<'_>],
) -> Result<Check<A>, ReadFault>
    ensures { IfOk result
        (IsAdaptedCheck A (R.remaining net.old) (O.text_of files.now)
        (map string_bytes accepted.now) drops.now) }
{
    let text = read_whole(alloc, net)?;
    let names = conf_names(alloc, &text)?;
    let confs = read_confs(alloc, &names, files)?;
    match adapt_confs(alloc, &names, &confs, accepted)? {
        AdaptedConfs::Texts(adapted) => {
            let shown = adapted_names(alloc, &names)?;
            let lent = lent_names(alloc, &shown)?;
            let found = check_texts(
                alloc,
                name,
                &text,
                &lent,
                &adapted.texts,
                &adapted.noted,
                drops,
            )?;
            Ok(as_adapted(found)?)
        }
        AdaptedConfs::Stopped(stopped) => Ok(not_adapted(stopped)),
    }
}

// What is said of a plan's text with these configurations, which are shown under these names by
// other texts of the same lines, once events are let go at the named matches.
fn check_texts<A: Allocator + Copy>(
    alloc: A,
    name: &str,
    text: &[u8],
    names: &[&str],
    confs: &[Vec<u8, A>],
    shown: &[Vec<u8, A>],
    drops: &[DropName<'_>],
) -> Result<Check<A>, AllocError>
    requires { length confs.now ≡ length (confs_named text.now) }
    ensures { IfOk result (IsTextsCheck A text.now (texts_of confs.now) drops.now) }
{
    match check_dropping(alloc, text, confs, drops) {
        Ok(checked) => {
            let own = lines(alloc, text)?.len();
            let added = added_name(alloc, name, drops)?;
            let texts = Texts {
                plan_name: name,
                plan: &checked.text,
                own_lines: own,
                added_name: added.as_str(),
                conf_names: names,
                confs: shown,
            };
            Ok(say_checked(alloc, &checked, &texts, drops)?)
        }
        Err(DroppedPlanError::Plan(PlanError::Memory)) => Err(AllocError),
        Err(DroppedPlanError::Drop(DropError::Memory)) => Err(AllocError),
        Err(DroppedPlanError::Plan(fault)) => {
            let texts = Texts {
                plan_name: name,
                plan: text,
                own_lines: usize::MAX,
                added_name: name,
                conf_names: names,
                confs: shown,
            };
            let further = further_faults(alloc, text, confs, fault)?;
            let hint = adapting_hint(fault, &further);
            Ok(Check::Refused(say_faults(alloc, &texts, fault, &further, hint)?))
        }
        Err(DroppedPlanError::Drop(_)) => {
            Ok(Check::Refused(say_missing(alloc, text, confs, drops)?))
        }
    }
}

// How the lines are called that were added to the plan of this name: where no matches are named,
// `relayctl label` prints them.
fn added_name<A: Allocator>(
    alloc: A,
    name: &str,
    drops: &[DropName<'_>],
) -> Result<String<A>, AllocError> {
    if drops.is_empty() {
        format!(in alloc; "what `relayctl label {name}` prints")
    } else {
        format!(in alloc; "what is added to {name}")
    }
}

// What is said at the end of faults, where some are of configurations.
fn adapting_hint(first: PlanError, further: &[PlanError]) -> &'static str {
    if is_of_conf(first) || further.iter().any(|fault| is_of_conf(*fault)) {
        "# Configurations as they run in Fluentd are read by `relayctl check --adapt`, which asks about what changes what a relay does\n"
    } else {
        ""
    }
}

// Whether it is a fault of a configuration.
fn is_of_conf(fault: PlanError) -> bool {
    matches!(fault, PlanError::BadText(_, _) | PlanError::BadRelay(_, _))
}

// How adapted configurations of these names are called.
fn adapted_names<A: Allocator + Copy>(
    alloc: A,
    names: &[&str],
) -> Result<Vec<String<A>, A>, AllocError> {
    let mut shown = Vec::new(alloc);
    for name in names {
        shown.push(format!(in alloc; "{name} as adapted")?)?;
    }
    Ok(shown)
}

/// Texts, lent.
pub(crate) fn lent_names<A: Allocator + Copy>(
    alloc: A,
    names: &[String<A>],
) -> Result<Vec<&str, A>, AllocError> {
    let mut lent = Vec::new(alloc);
    for name in names {
        lent.push(name.as_str())?;
    }
    Ok(lent)
}

// An answer, with a line behind it: it is of adapted configurations.
fn as_adapted<A: Allocator>(found: Check<A>) -> Result<Check<A>, AllocError>
    ensures { IfOk result (AddsAdaptedNote found) }
{
    match found {
        Check::Answered(said) => {
            let Said { mut lines, status } = said;
            lines.extend_from_slice(adapted_note().as_bytes())?;
            Ok(Check::Answered(Said { lines, status }))
        }
        Check::Refused(said) => Ok(Check::Refused(said)),
    }
}

// The line that says of what an answer is.
fn adapted_note() -> &'static str
    ensures { result.now ≡ adapted_note_of }
{
    "# That is of the configurations as `relayctl adapt` prints them: relays have to run those\n"
}

// What is said where some aren't adapted.
fn not_adapted<A: Allocator>(stopped: StoppedConfs<A>) -> Check<A>
    ensures { SaysStopped stopped result }
{
    let lines = stopped.lines;
    if stopped.has_fault {
        let status = Status::Usage;
        Check::Refused(Said { lines, status })
    } else {
        let status = Status::No;
        Check::Answered(Said { lines, status })
    }
}

// What is said of a plan that was labelled and asked.
fn say_checked<A: Allocator + Copy>(
    alloc: A,
    checked: &LabelledCheck<A>,
    texts: &Texts<'_, A>,
    drops: &[DropName<'_>],
) -> Result<Check<A>, AllocError>
    ensures { IfOk result
        (SaysCheck drops.now checked.now.is_labelled checked.now.plan checked.now.broken.items) }
{
    let net = checked.plan.net();
    if net.relays().is_empty() {
        return Ok(Check::Refused(say_empty(alloc, "no relays\n")?));
    }
    if net.clients().is_empty() {
        return Ok(Check::Refused(say_empty(alloc, "no clients\n")?));
    }
    let said = say_rules(alloc, &checked.plan, texts, &checked.broken, drops)?;
    Ok(Check::Answered(noted(said, checked.is_labelled)?))
}

// What is said of a plan that says too little to be asked.
fn say_empty<A: Allocator>(alloc: A, line: &str) -> Result<Said<A>, AllocError>
    ensures { IfOk result (λ said. (said.lines.items ≡ line.now) × (said.status ≡ Status.Usage)) }
{
    Ok(Said {
        lines: Vec::from_slice(alloc, line.as_bytes())?,
        status: Status::Usage,
    })
}

// The same, with a line behind it where no labels were found.
fn noted<A: Allocator>(said: Said<A>, is_labelled: bool) -> Result<Said<A>, AllocError>
    ensures { IfOk result
        (λ noted. (noted.lines.items ≡ said.lines.items ++ labels_note_of is_labelled)
        × (noted.status ≡ said.status)) }
{
    let Said { mut lines, status } = said;
    lines.extend_from_slice(labels_note(is_labelled).as_bytes())?;
    Ok(Said { lines, status })
}

// The line that says that no labels were found, where none were.
fn labels_note(is_labelled: bool) -> &'static str
    ensures { result.now ≡ labels_note_of is_labelled }
{
    if is_labelled {
        ""
    } else {
        "# relayctl label finds no labels for this plan: its own lines were asked\n"
    }
}

// A yes where no rule is broken, and behind it what may go at the named matches and what that
// doesn't promise; else what is said of each that is, and of lines of the plan by which no event
// goes.
fn say_rules<A: Allocator + Copy>(
    alloc: A,
    plan: &Plan<A>,
    texts: &Texts<'_, A>,
    broken: &[BrokenRule<A>],
    drops: &[DropName<'_>],
) -> Result<Said<A>, AllocError>
    ensures { IfOk result
        (λ said. SaysRules drops.now plan.now broken.now said.lines.items said.status) }
{
    if broken.is_empty() {
        let mut lines = Vec::from_slice(alloc, b"yes\n")?;
        put_drops(alloc, plan, texts, drops, &mut lines)?;
        put_warnings(alloc, plan, texts, &mut lines)?;
        return Ok(Said {
            lines,
            status: Status::Done,
        });
    }
    let mut lines = list_broken(alloc, plan, texts, broken)?;
    put_stale_reaches(alloc, plan, texts, &mut lines)?;
    Ok(Said {
        lines,
        status: Status::No,
    })
}
