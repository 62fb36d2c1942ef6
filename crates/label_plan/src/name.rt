//! The name of a match: `RELAY:SCOPE:INDEX`.

ghost use Rattle.std.specs.Prelude.{◌≡◌, ◌≢◌, ◌^◌, ◌<◌, ◌∷◌, ◌++◌, ℕ, List, IfOk, IfErr, IfSome, IfNone, MatchOption, decimal};
ghost use Rattle.label_plan.specs.Names.{joined, IsName, is_scope_word as is_word_of_scope};
ghost use Rattle.label_plan.specs.Reading.{AreFields, AreWords, HasNoColon};

use crate::error::NameError;
use crate::numeral::numeral;
use conf_values::is_label_name;
use std::fmt;

/// The name of a match, as `RELAY:SCOPE:INDEX`: in the words in which a plan's `reach` line names
/// it.
#[derive(Clone, Copy)]
pub struct DropName<'t> {
    /// The relay's number. Of relays with equal numbers the first is meant.
    pub relay: u32,
    /// The scope: `.` is the main scope, and any other is a label with its `@`.
    pub scope: &'t str,
    /// The place of the match in the scope, counted from 0.
    pub index: usize,
}

// As `RELAY:SCOPE:INDEX`.
impl fmt::Display for DropName<'_> {
    ghost use Rattle.std.specs.Prelude.{Some};
    ghost use Rattle.label_plan.specs.Names.{spelled};

    ghost output = { λ name. Some (spelled name.relay name.scope.now name.index) };

    fn fmt<W: fmt::Write>(&self, f: &mut fmt::Formatter<W>) -> fmt::Result {
        let DropName {
            relay,
            scope,
            index,
        } = self;
        write!(f, "{relay}:{scope}:{index}")
    }
}

impl<'t> DropName<'t> {
    /// Reads a name, whose scope it lends from the text. A text is read only where it is the very
    /// one that the name is printed as: its numbers have no sign and no zeros in front, the relay's
    /// is at most 4,294,967,295, and the scope is `.` or a label's name.
    pub fn read(text: &'t str) -> Result<DropName<'t>, NameError>
        ensures name { IfOk result (λ name. IsName text.now name.relay name.scope.now name.index) }
        ensures only { IfOk result
            (λ name. (relay : ℕ) (scope : List ℕ) (index : ℕ) → IsName text.now relay scope index
            → (relay ≡ name.relay) × (scope ≡ name.scope.now) × (index ≡ name.index)) }
        ensures none { IfErr result
            (λ _. (relay : ℕ) (scope : List ℕ) (index : ℕ) → ¬ IsName text.now relay scope index) }
    {
        match cut(text) {
            None => Err(NameError),
            Some(fields) => named(fields.relay, fields.scope, fields.index),
        }
    }
}

// The three fields of a name.
#[derive(Clone, Copy)]
struct Fields<'t> {
    relay: &'t str,
    scope: &'t str,
    index: &'t str,
}

// The name whose fields these are.
fn named<'t>(relay: &str, scope: &'t str, index: &str) -> Result<DropName<'t>, NameError>
    ensures name { IfOk result
        (λ name. AreWords relay.now scope.now index.now name.relay name.scope.now name.index) }
    ensures none { IfErr result
        (λ _. (number : ℕ) (word : List ℕ) (place : ℕ)
        → ¬ AreWords relay.now scope.now index.now number word place) }
{
    let Some(relay) = relay_numeral(relay) else {
        return Err(NameError);
    };
    let Some(index) = numeral(index) else {
        return Err(NameError);
    };
    if !is_scope_word(scope) {
        return Err(NameError);
    }
    Ok(DropName {
        relay,
        scope,
        index: index as usize,
    })
}

// The text in front of the first colon, that up to the second, and that behind it.
fn cut<'t>(text: &'t str) -> Option<Fields<'t>>
    ensures text { IfSome result
        (λ fields. text.now ≡ joined fields.relay.now fields.scope.now fields.index.now) }
    ensures only { (relay scope index : List ℕ) → AreFields text.now relay scope index
        → MatchOption result ⊥
        (λ fields. (fields.relay.now ≡ relay) × (fields.scope.now ≡ scope)
        × (fields.index.now ≡ index)) }
{
    match split_first(text) {
        None => None,
        Some(outer) => match split_first(outer.back) {
            None => None,
            Some(inner) => Some(Fields {
                relay: outer.front,
                scope: inner.front,
                index: inner.back,
            }),
        },
    }
}

// What stands in front of a colon, and behind it.
#[derive(Clone, Copy)]
struct Halves<'t> {
    front: &'t str,
    back: &'t str,
}

// The text in front of the first colon, and that behind it.
fn split_first<'t>(text: &'t str) -> Option<Halves<'t>>
    ensures text { IfSome result (λ found. text.now ≡ found.front.now ++ 58 ∷ found.back.now) }
    ensures only { (front back : List ℕ) → text.now ≡ front ++ 58 ∷ back → HasNoColon front
        → MatchOption result ⊥ (λ found. (found.front.now ≡ front) × (found.back.now ≡ back)) }
{
    match text.split_once(':') {
        None => None,
        Some((front, back)) => Some(Halves { front, back }),
    }
}

// The number of a relay whose digits these are.
fn relay_numeral(text: &str) -> Option<u32>
    ensures digits { IfSome result (λ n. decimal n ≡ text.now) }
    ensures none { IfNone result ((n : ℕ) → n < 2 ^ 32 → decimal n ≢ text.now) }
{
    match numeral(text) {
        None => None,
        Some(number) => match u32::try_from(number) {
            Ok(number) => Some(number),
            Err(_) => None,
        },
    }
}

// Whether the word names a scope: `.`, or a label.
fn is_scope_word(word: &str) -> bool
    ensures { result ≡ is_word_of_scope word.now }
{
    word == "." || is_label_name(word.as_bytes())
}
