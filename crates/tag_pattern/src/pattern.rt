//! Patterns: texts that stand for plain patterns.

ghost use Rattle.std.specs.Prelude.{◌≡◌, ◌↔◌, List, length, IfOk, MatchResult};
ghost use Rattle.tag_pattern.specs.Grammar.{Slot, IsPatternText, HasPartialWildcard, AreTooMany, IsPattern, plain_patterns};

use crate::expansion::expansion;
use crate::plain::Plain;
use crate::survey::take_survey;
use std::alloc::{AllocError, AllocFailed, Allocator};
use thiserror::Error;

/// Why a text is no pattern.
#[derive(Clone, Copy, Debug, Drop, PartialEq, Eq, Error)]
pub enum PatternError {
    /// A part has a `*` in it and is neither `*` nor `**`.
    #[error("P2")]
    PartialWildcard,
    /// Braces are nested, empty, unclosed, closed without being open, or touch a part; an
    /// alternative is empty; or a comma stands outside braces.
    #[error("P3")]
    BraceFault,
    /// It stands for more than 64 plain patterns, or one of them has more than 32 items.
    #[error("P4")]
    TooMany,
    /// Memory ran out.
    #[error("memory")]
    Memory,
}

impl From<AllocError> for PatternError {
    ghost use Rattle.std.specs.Prelude.{◌≡◌};
    ghost use Rattle.tag_pattern.specs.declared.pattern.PatternError.TheVariants.{Memory};

    ghost from_gives = { λ _ e. e ≡ Memory };

    fn from(_refused: AllocError) -> PatternError {
        PatternError::Memory
    }
}

impl<T: Drop> From<AllocFailed<T>> for PatternError {
    ghost use Rattle.std.specs.Prelude.{◌≡◌};
    ghost use Rattle.tag_pattern.specs.declared.pattern.PatternError.TheVariants.{Memory};

    ghost from_gives = { λ _ e. e ≡ Memory };

    fn from(_refused: AllocFailed<T>) -> PatternError {
        PatternError::Memory
    }
}

/// Patterns, as a configuration writes them.
pub struct Pattern;

impl Pattern {
    /// The plain patterns for which one pattern stands, the leftmost group varying slowest.
    ///
    /// A fault of braces comes before a partial wildcard, and that before too many. Each is found
    /// before memory is asked for; the only other error is `Memory`. It never makes more than 64
    /// plain patterns, whatever the text.
    pub fn read<A: Allocator + Copy>(alloc: A, text: &str) -> Result<Vec<Plain<A>, A>, PatternError>
        ensures patterns { IfOk result
            (λ plains. (slots : List Slot) × IsPattern slots text.now
            × (plains.items ≡ plain_patterns slots)) }
        ensures only { (slots : List Slot) → IsPattern slots text.now
            → MatchResult result (λ plains. plains.items ≡ plain_patterns slots)
            (λ e. e ≡ PatternError.Memory) }

        ensures brace_fault { (result ≡ Err PatternError.BraceFault)
            ↔ ((slots : List Slot) → ¬ IsPatternText slots text.now) }
        ensures partial_wildcard { (result ≡ Err PatternError.PartialWildcard)
            ↔ ((slots : List Slot) × IsPatternText slots text.now × HasPartialWildcard slots) }
        ensures too_many { (result ≡ Err PatternError.TooMany)
            ↔ ((slots : List Slot) × IsPatternText slots text.now × (¬ HasPartialWildcard slots)
            × AreTooMany slots) }
    {
        let bytes = text.as_bytes();
        let survey = match take_survey(bytes) {
            None => return Err(PatternError::BraceFault),
            Some(survey) => survey,
        };
        if survey.has_partial {
            return Err(PatternError::PartialWildcard);
        }
        match survey.plains {
            None => Err(PatternError::TooMany),
            Some(plains) => expansions(alloc, bytes, plains),
        }
    }
}

// The plain patterns for which the text stands, of which there are `plains`.
fn expansions<A: Allocator + Copy>(
    alloc: A,
    text: &[u8],
    plains: usize,
) -> Result<Vec<Plain<A>, A>, PatternError>
    requires { (slots : List Slot) × IsPattern slots text.now
        × (plains ≡ length (plain_patterns slots)) }
    ensures { (slots : List Slot) → IsPatternText slots text.now
        → MatchResult result (λ read. read.items ≡ plain_patterns slots)
        (λ e. e ≡ PatternError.Memory) }
{
    let mut read = Vec::with_capacity(alloc, plains)?;
    for number in 0..plains {
        read.push(Plain::new(expansion(alloc, text, number, plains)?))?;
    }
    Ok(read)
}
