//! Tags, prefixes and match patterns: which tags a pattern has, what it stands for, and why a text
//! is none.

use crate::codes::is_printed;
use std::alloc::{AllocError, Global};
use tag_pattern::{
    Pattern, PatternError, PatternItem, Plain, Prefix, PrefixError, Tag, TagError, apart, fits,
    matches,
};

// A pattern that stands for itself alone; none where it is none, or stands for many.
fn one(alloc: Global, text: &str) -> Option<Plain<Global>> {
    match Pattern::read(alloc, text) {
        Ok(mut plains) if plains.len() == 1 => plains.pop(),
        _ => None,
    }
}

fn show_item(text: &mut Vec<u8>, item: &PatternItem<Vec<u8>>) -> Result<(), AllocError> {
    match item {
        PatternItem::Literal(part) => text.extend_from_slice(part),
        PatternItem::AnyPart => text.extend_from_slice(b"*"),
        PatternItem::AnyParts => text.extend_from_slice(b"**"),
    }
}

fn show_plain(text: &mut Vec<u8>, plain: &Plain<Global>) -> Result<(), AllocError> {
    for item in plain.items() {
        show_item(text, item)?;
        text.push(b'.')?;
    }
    text.push(b' ')?;
    Ok(())
}

// The plain patterns with a blank behind each, and their items with a dot behind each.
fn shown(alloc: Global, plains: &[Plain<Global>]) -> Result<Vec<u8>, AllocError> {
    let mut text = Vec::new(alloc);
    for plain in plains {
        show_plain(&mut text, plain)?;
    }
    Ok(text)
}

// The first six rows are examples of Fluentd's documentation ("How Do Match Patterns Work?").
static TAGS: [(&str, &str, bool); 23] = [
    ("a.*", "a.b", true),
    ("a.*", "a", false),
    ("a.*", "a.b.c", false),
    ("a.**", "a", true),
    ("a.**", "a.b", true),
    ("a.**", "a.b.c", true),
    ("**", "a.b.c", true),
    ("a", "a", true),
    ("a", "b", false),
    ("a.**.c", "a.b.c", true),
    ("*.b", "a.b", true),
    ("a.**", "ab", false),
    ("a.*", "a.", true),
    ("**", "", true),
    ("*", "", true),
    ("", "", true),
    ("", "a", false),
    ("**.a", "a", true),
    ("**.a", "x.y.a", true),
    ("**.a", "a.x", false),
    ("**.**", "a", true),
    ("a.**.b", "a..b", true),
    ("a.**.b", "ab", false),
];

// Whether the tag is of the pattern; nothing where one of them is none.
fn matched(alloc: Global, pattern: &str, tag: &[u8]) -> Option<bool> {
    match (one(alloc, pattern), Tag::read(alloc, tag)) {
        (Some(plain), Ok(read)) => Some(matches(&plain, &read)),
        _ => None,
    }
}

fn are_matched(alloc: Global) -> bool {
    for (pattern, tag, want) in &TAGS {
        if matched(alloc, pattern, tag.as_bytes()) != Some(*want) {
            return false;
        }
    }
    true
}

#[test]
fn tags_of_patterns(rt: HostRuntime) {
    assert!(rt; are_matched(rt.alloc()));
}

// Patterns, and those without braces that they stand for.
static PLAINS: [(&str, &str); 8] = [
    ("a.{b,c.**}", "a.b. a.c.**. "),
    ("{a,b}.{c,d}", "a.c. a.d. b.c. b.d. "),
    ("{a,b.*}.x.{c}", "a.x.c. b.*.x.c. "),
    ("{a}", "a. "),
    ("", ". "),
    ("a..b", "a..b. "),
    ("a.", "a.. "),
    ("{.,a}.*", "..*. a.*. "),
];

fn are_shown_as(alloc: Global, plains: &[Plain<Global>], want: &str) -> bool {
    match shown(alloc, plains) {
        Ok(text) => text.as_slice() == want.as_bytes(),
        Err(AllocError) => false,
    }
}

fn is_shown(alloc: Global, text: &str, want: &str) -> bool {
    match Pattern::read(alloc, text) {
        Ok(plains) => are_shown_as(alloc, &plains, want),
        Err(_) => false,
    }
}

fn are_shown(alloc: Global) -> bool {
    for (text, want) in &PLAINS {
        if !is_shown(alloc, text, want) {
            return false;
        }
    }
    true
}

#[test]
fn plain_patterns(rt: HostRuntime) {
    assert!(rt; are_shown(rt.alloc()));
}

// Patterns at a limit, and how many plain ones there are, and items in the first.
static SIZES: [(&str, usize, usize); 4] = [
    ("a.*.**", 1, 3),
    ("", 1, 1),
    ("{a,b}.{a,b}.{a,b}.{a,b}.{a,b}.{a,b}", 64, 6),
    ("...............................", 1, 32),
];

// How many plain patterns there are, and how many items the first has.
fn sizes(plains: &[Plain<Global>]) -> Option<(usize, usize)> {
    let first = plains.get(0)?;
    Some((plains.len(), first.items().len()))
}

fn has_sizes(alloc: Global, text: &str, want: (usize, usize)) -> bool {
    match Pattern::read(alloc, text) {
        Ok(plains) => sizes(&plains) == Some(want),
        Err(_) => false,
    }
}

fn have_sizes(alloc: Global) -> bool {
    for (text, plains, items) in &SIZES {
        if !has_sizes(alloc, text, (*plains, *items)) {
            return false;
        }
    }
    true
}

#[test]
fn sizes_of_patterns(rt: HostRuntime) {
    assert!(rt; have_sizes(rt.alloc()));
}

// No patterns, and why.
static FAULTS: [(&str, PatternError); 20] = [
    ("a*", PatternError::PartialWildcard),
    ("***", PatternError::PartialWildcard),
    ("a.{b*,c}", PatternError::PartialWildcard),
    ("{a,{b}}", PatternError::BraceFault),
    ("{", PatternError::BraceFault),
    ("}", PatternError::BraceFault),
    ("{}", PatternError::BraceFault),
    ("{a", PatternError::BraceFault),
    ("a}", PatternError::BraceFault),
    ("a{b}", PatternError::BraceFault),
    ("{a}b", PatternError::BraceFault),
    ("{a}{b}", PatternError::BraceFault),
    ("{a,}", PatternError::BraceFault),
    ("{,a}", PatternError::BraceFault),
    ("a,b", PatternError::BraceFault),
    ("a*.{", PatternError::BraceFault),
    (
        "{a,b}.{a,b}.{a,b}.{a,b}.{a,b}.{a,b}.{a,b}",
        PatternError::TooMany,
    ),
    (
        "{a,b}.{a,b}.{a,b}.{a,b}.{a,b}.{a,b}.{a,b}.a*",
        PatternError::PartialWildcard,
    ),
    (
        "{a,b}.{a,b}.{a,b}.{a,b}.{a,b}.{a,b}.{a,b}.,",
        PatternError::BraceFault,
    ),
    (
        "1.2.3.4.5.6.7.8.9.10.11.12.13.14.15.16.17.18.19.20.21.22.23.24.25.26.27.28.29.30.31.{32,32.33}",
        PatternError::TooMany,
    ),
];

fn is_refused(alloc: Global, text: &str, want: PatternError) -> bool {
    match Pattern::read(alloc, text) {
        Ok(_) => false,
        Err(fault) => fault == want,
    }
}

fn are_refused(alloc: Global) -> bool {
    for (text, want) in &FAULTS {
        if !is_refused(alloc, text, *want) {
            return false;
        }
    }
    true
}

#[test]
fn faults_in_order(rt: HostRuntime) {
    assert!(rt; are_refused(rt.alloc()));
}

static LONGEST: [u8; 1_024] = [b'.'; 1_024];

static LONGER: [u8; 1_025] = [b'.'; 1_025];

// Whether a tag of this length is read, and one of that isn't.
fn are_tags_this_long(alloc: Global) -> bool {
    Tag::read(alloc, &LONGEST).is_ok()
        && Tag::read(alloc, &LONGER).err() == Some(TagError::TagTooLong)
}

#[test]
fn lengths_of_tags(rt: HostRuntime) {
    assert!(rt; are_tags_this_long(rt.alloc()));
}

// The copy of a tag behind a prefix.
fn copy_of(alloc: Global, tag: &Tag<Global>, prefix: &Prefix<Global>) -> Option<Tag<Global>> {
    match tag.prefixed(alloc, prefix) {
        Ok(longer) => longer.copied(alloc).ok(),
        Err(_) => None,
    }
}

// A tag behind a prefix, copied.
fn prefixed(alloc: Global, prefix: &[u8], tag: &[u8]) -> Option<Tag<Global>> {
    match (Prefix::read(alloc, prefix), Tag::read(alloc, tag)) {
        (Ok(prefix), Ok(tag)) => copy_of(alloc, &tag, &prefix),
        _ => None,
    }
}

fn is_prefixed(alloc: Global, prefix: &[u8], tag: &[u8], wanted: &[u8]) -> bool {
    match prefixed(alloc, prefix, tag) {
        None => false,
        Some(tag) => tag.as_bytes() == wanted,
    }
}

// Whether a prefix of one byte goes before a tag of 1,022 bytes, and before none of 1,023.
fn are_prefixed_up_to_the_limit(alloc: Global) -> bool {
    let (_, longest) = LONGEST.split_at(2);
    let (_, longer) = LONGEST.split_at(1);
    prefixed(alloc, b"x", longest).is_some() && prefixed(alloc, b"x", longer).is_none()
}

// No prefixes.
static WRONG: [&[u8]; 3] = [b"a*", b"", &[b'a'; 65]];

fn are_wrong(alloc: Global) -> bool {
    for text in &WRONG {
        if Prefix::read(alloc, text).err() != Some(PrefixError::BadPrefix) {
            return false;
        }
    }
    true
}

fn are_prefixes(alloc: Global) -> bool {
    is_prefixed(alloc, b"x.y", b"a", b"x.y.a")
        && are_prefixed_up_to_the_limit(alloc)
        && are_wrong(alloc)
}

#[test]
fn prefixes_of_tags(rt: HostRuntime) {
    assert!(rt; are_prefixes(rt.alloc()));
}

fn are_printed(alloc: Global) -> bool {
    is_printed(alloc, &TagError::TagTooLong, "P1")
        && is_printed(alloc, &PatternError::PartialWildcard, "P2")
        && is_printed(alloc, &PatternError::BraceFault, "P3")
        && is_printed(alloc, &PatternError::TooMany, "P4")
        && is_printed(alloc, &PrefixError::BadPrefix, "P5")
}

#[test]
fn faults_are_printed_so(rt: HostRuntime) {
    assert!(rt; are_printed(rt.alloc()));
}

// Two patterns, whether the first fits the second, and whether they are apart.
static PAIRS: [(&str, &str, bool, bool); 12] = [
    ("a.*", "a.**", true, false),
    ("**", "*", false, false),
    ("*.**", "**.*", false, false),
    ("a.*", "a.b.**", false, false),
    ("a.*", "a.*.c.**", false, true),
    ("a", "*", true, false),
    ("*", "a", false, false),
    ("**.a", "b.**", false, false),
    ("**.a", "**.b", false, true),
    ("a.**", "a", false, false),
    ("a", "b", false, true),
    ("**", "**.**", true, false),
];

// Whether the first pattern fits the second, and whether they are apart, the one way and the other.
fn are_compared_so(first: &Plain<Global>, second: &Plain<Global>, fit: bool, far: bool) -> bool {
    fits(first, second) == fit && apart(first, second) == far && apart(second, first) == far
}

fn are_so(alloc: Global, left: &str, right: &str, fit: bool, far: bool) -> bool {
    match (one(alloc, left), one(alloc, right)) {
        (Some(first), Some(second)) => are_compared_so(&first, &second, fit, far),
        _ => false,
    }
}

fn are_pairs(alloc: Global) -> bool {
    for (left, right, fit, far) in &PAIRS {
        if !are_so(alloc, left, right, *fit, *far) {
            return false;
        }
    }
    true
}

#[test]
fn pairs_of_patterns(rt: HostRuntime) {
    assert!(rt; are_pairs(rt.alloc()));
}

// Texts on which a search or a product without bounds wouldn't end.
static MANY: [&str; 2] = [
    "**.**.**.**.**.**.**.**.**.**.**.**.**.**.**.**.b",
    "**.**.**.**.**.**.**.**.**.**.**.**.**.**.**.**.c",
];

fn many_braces(alloc: Global) -> Result<String, AllocError> {
    let mut text = String::new(alloc);
    for _ in 0..10_000u32 {
        text.push_str("{a,a}.")?;
    }
    text.push_str("a")?;
    Ok(text)
}

fn are_too_many(alloc: Global) -> bool {
    match many_braces(alloc) {
        Ok(text) => is_refused(alloc, text.as_str(), PatternError::TooMany),
        Err(AllocError) => false,
    }
}

static DOTS: [u8; 500] = [b'.'; 500];

// Whether a search ends at once that goes through many parts.
fn ends(alloc: Global) -> bool {
    matched(alloc, MANY[0], &DOTS) == Some(false) && are_so(alloc, MANY[0], MANY[1], false, true)
}

#[test]
fn hostile_texts(rt: HostRuntime) {
    assert!(rt; are_too_many(rt.alloc()) && ends(rt.alloc()));
}
