//! What is said of a plan that can't be read.

use crate::site::{Site, Texts};
use crate::story::put_headed;
use conf_text::{ConfFault, FaultKind};
use plan_lines::PlanError;
use relay_conf::{RelayFault, RelayFaultKind};
use std::alloc::{AllocError, Allocator};
use text_lines::lines;

// What a fault means, and what mends it.
#[derive(Clone, Copy)]
struct Words {
    meaning: &'static str,
    advice: &'static str,
}

/// Says of a plan's fault what it means, the line that has it, and what to change; and so of the
/// fault of a configuration, where the plan has that. Each line begins with `#`. Of want of memory
/// there is nothing to say. The only error is want of memory.
pub fn explain_fault<A: Allocator + Copy>(
    alloc: A,
    texts: &Texts<'_, A>,
    fault: PlanError,
) -> Result<Vec<u8, A>, AllocError> {
    let mut out = Vec::new(alloc);
    let Some((line, words)) = plan_words(fault) else {
        return Ok(out);
    };
    put_fault(alloc, &mut out, words, &texts.plan_site(line))?;
    if let Some((at, words)) = conf_words(fault) {
        let place = relays_before(alloc, texts, line)?;
        put_fault(alloc, &mut out, words, &texts.conf_site(place, at))?;
    }
    Ok(out)
}

// Adds what a fault means, the line that has it, and what mends it.
fn put_fault<A: Allocator + Copy>(
    alloc: A,
    out: &mut Vec<u8, A>,
    words: Words,
    site: &Site<'_>,
) -> Result<(), AllocError> {
    put_headed(out, b"The fault", words.meaning)?;
    site.put(alloc, out, "It stands in")?;
    put_headed(out, b"To mend it", words.advice)
}

// How many relays the plan has in front of this line: the place of the relay in this line.
fn relays_before<A: Allocator + Copy>(
    alloc: A,
    texts: &Texts<'_, A>,
    line: usize,
) -> Result<usize, AllocError> {
    let all = lines(alloc, texts.plan)?;
    let mut count = 0usize;
    for text in all.iter().take(line.saturating_sub(1)) {
        if text.trim_ascii_start().starts_with(b"relay") {
            count = count.saturating_add(1);
        }
    }
    Ok(count)
}

// The line of the plan's fault, and the words on it; none of want of memory.
fn plan_words(fault: PlanError) -> Option<(usize, Words)> {
    match fault {
        PlanError::BadLine(line) => Some((line, BAD_LINE)),
        PlanError::BadNumber(line) => Some((line, BAD_NUMBER)),
        PlanError::BadPattern(line) => Some((line, BAD_PATTERN)),
        PlanError::NoSuch(line) => Some((line, NO_SUCH)),
        PlanError::BadText(line, _) => Some((line, BAD_CONF)),
        PlanError::BadRelay(line, _) => Some((line, BAD_CONF)),
        PlanError::Memory => None,
    }
}

const BAD_LINE: Words = Words {
    meaning: "the line is of no form, or isn't UTF-8",
    advice: "write it as `relay NUMBER HOST FOLDER CONF`, `client NUMBER PORT PATTERN..`, `label NUMBER SCOPE PATTERN..`, `reach NUMBER SCOPE INDEX PATTERN..`, `duty any` or `duty every`, as docs/CHECKING.md has it, \"The plan\"",
};

const BAD_NUMBER: Words = Words {
    meaning: "a number is no decimal number below its limit",
    advice: "a relay's number is below 4294967296, a port below 65536",
};

const BAD_PATTERN: Words = Words {
    meaning: "a pattern can't be read",
    advice: "a wildcard is a whole part of a tag; braces aren't nested",
};

const NO_SUCH: Words = Words {
    meaning: "the relay, scope, match or source port isn't there",
    advice: "a relay's line stands before those that name it; its configuration has a source with this port, or the scope and, counted from 0, the match; `.` is the main scope",
};

const BAD_CONF: Words = Words {
    meaning: "the configuration has a fault",
    advice: "mend the configuration, as follows",
};

// The line of the configuration's fault, and the words on it, where the plan's fault is that.
fn conf_words(fault: PlanError) -> Option<(usize, Words)> {
    match fault {
        PlanError::BadText(_, ConfFault { kind, line }) => Some((line, text_words(kind))),
        PlanError::BadRelay(_, RelayFault { kind, line }) => Some((line, relay_words(kind))),
        _ => None,
    }
}

// The words on a fault of a configuration's text.
fn text_words(kind: FaultKind) -> Words {
    match kind {
        FaultKind::OpenSection => Words {
            meaning: "a section never ends",
            advice: "write its end",
        },
        FaultKind::WrongEnd => Words {
            meaning: "an end of another section",
            advice: "correct the name, or write the end that is missing before it",
        },
        FaultKind::BadQuote => Words {
            meaning: "a value in quotes",
            advice: "close the mark, double a `\\` that is meant as such, use `'` where `#{` is meant as such, and put a blank before a comment",
        },
        FaultKind::BadName => Words {
            meaning: "a name, or a section's line",
            advice: "a name is letters, digits and `_`, and a line that begins with `<` ends with `>`",
        },
        FaultKind::NotUtf8 => Words {
            meaning: "not UTF-8",
            advice: "save the file as UTF-8",
        },
        FaultKind::TooDeep => Words {
            meaning: "too many open sections",
            advice: "mostly ends are missing before it",
        },
    }
}

// The words on a fault of a relay's settings.
fn relay_words(kind: RelayFaultKind) -> Words {
    match kind {
        RelayFaultKind::UnknownSection => Words {
            meaning: "an unknown section, or a known one in a wrong place",
            advice: "correct the name, or move the section to where it belongs",
        },
        RelayFaultKind::UnknownParameter => Words {
            meaning: "an unknown parameter",
            advice: "correct the name, move the line into its section, or take it out",
        },
        RelayFaultKind::BadValue => Words {
            meaning: "a value of another form",
            advice: "a size is as `8m`, a time as `5s`, a boolean `true` or `false`, a port at most 65535, a label as `@AUDIT`, a path a name without folders; docs/CONFIGURATION.md has each form, \"Forms of values\"",
        },
        RelayFaultKind::Missing => Words {
            meaning: "something required is missing",
            advice: "write it: `@type`, `path`, `host`, the `@label` of a relabel, `self_hostname` or `shared_key`, or a `<server>` or `<store>`",
        },
        RelayFaultKind::OutOfProfile => Words {
            meaning: "Fluentd knows it, this project doesn't",
            advice: "take it out, or do it in another program before or behind the relay; for a path write a name without folders, for `block` `throw_exception`",
        },
        RelayFaultKind::NoSuchLabel => Words {
            meaning: "no such label",
            advice: "correct the name (case counts), or write the `<label>`",
        },
        RelayFaultKind::DoubleName => Words {
            meaning: "a label twice",
            advice: "put its matches into the first",
        },
    }
}
