//! Values of each form, and texts that are none.

use conf_values::{boolean, has_slash, is_host_name, is_label_name, is_path, port, seconds, size};

// Texts, and the size and the time of each.
static AMOUNTS: [(&str, Option<u64>, Option<u64>); 34] = [
    ("", None, None),
    ("0", Some(0), Some(0)),
    ("007", Some(7), Some(7)),
    ("60", Some(60), Some(60)),
    ("8k", Some(8_192), None),
    ("8K", Some(8_192), None),
    ("8m", Some(8_388_608), Some(480)),
    ("256M", Some(268_435_456), None),
    ("64g", Some(68_719_476_736), None),
    ("64G", Some(68_719_476_736), None),
    ("1t", Some(1_099_511_627_776), None),
    ("1T", Some(1_099_511_627_776), None),
    ("5s", None, Some(5)),
    ("72h", None, Some(259_200)),
    ("3d", None, Some(259_200)),
    ("5S", None, None),
    ("5H", None, None),
    ("5D", None, None),
    ("k", None, None),
    ("s", None, None),
    ("8kb", None, None),
    ("8 k", None, None),
    ("8kk", None, None),
    ("k8", None, None),
    ("+8", None, None),
    ("-8", None, None),
    ("1.5", None, None),
    ("8b", None, None),
    (
        "18446744073709551615",
        Some(18_446_744_073_709_551_615),
        Some(18_446_744_073_709_551_615),
    ),
    ("18446744073709551616", None, None),
    ("16777215t", Some(18_446_742_974_197_923_840), None),
    ("16777216t", None, None),
    ("213503982334601d", None, Some(18_446_744_073_709_526_400)),
    ("213503982334602d", None, None),
];

fn are_amounts() -> bool {
    for (text, bytes, time) in &AMOUNTS {
        if size(text.as_bytes()) != *bytes || seconds(text.as_bytes()) != *time {
            return false;
        }
    }
    true
}

#[test]
fn amounts_are_read(rt: HostRuntime) {
    assert!(rt; are_amounts());
}

// Texts, and the boolean and the port of each.
static WORDS: [(&str, Option<bool>, Option<u16>); 19] = [
    ("true", Some(true), None),
    ("yes", Some(true), None),
    ("", Some(true), None),
    ("false", Some(false), None),
    ("no", Some(false), None),
    ("True", None, None),
    ("YES", None, None),
    ("on", None, None),
    ("tru", None, None),
    ("truee", None, None),
    ("0", None, None),
    ("1", None, Some(1)),
    ("24224", None, Some(24_224)),
    ("065535", None, Some(65_535)),
    ("65535", None, Some(65_535)),
    ("65536", None, None),
    ("131073", None, None),
    ("-1", None, None),
    ("80k", None, None),
];

fn are_words() -> bool {
    for (text, truth, number) in &WORDS {
        if boolean(text.as_bytes()) != *truth || port(text.as_bytes()) != *number {
            return false;
        }
    }
    true
}

#[test]
fn words_are_read(rt: HostRuntime) {
    assert!(rt; are_words());
}

// 64 bytes.
const LONG: &str = "abcdefghijklmnopqrstuvwxyzABCDEFGHIJKLMNOPQRSTUVWXYZ0123456789_-";
// 65 bytes.
const TOO_LONG: &str = "abcdefghijklmnopqrstuvwxyzABCDEFGHIJKLMNOPQRSTUVWXYZ0123456789_-.";

// Texts, and whether each is a path, has a slash, and is a label's name.
static NAMES: [(&str, bool, bool, bool); 19] = [
    ("", false, false, false),
    ("a", true, false, false),
    ("a.b-c_9", true, false, false),
    ("-", true, false, false),
    ("a..", true, false, false),
    (".a", false, false, false),
    (".", false, false, false),
    ("a/b", false, true, false),
    ("/", false, true, false),
    ("a b", false, false, false),
    ("\u{e9}", false, false, false),
    (LONG, true, false, false),
    (TOO_LONG, false, false, false),
    ("@", false, false, false),
    ("@A", false, false, true),
    ("@a_9", false, false, true),
    ("@a-b", false, false, false),
    ("@@A", false, false, false),
    ("A@", false, false, false),
];

// Whether a text is a path, has a slash, and is a label's name.
fn is_name(text: &[u8], path: bool, slash: bool, label: bool) -> bool {
    is_path(text) == path && has_slash(text) == slash && is_label_name(text) == label
}

fn are_names() -> bool {
    for (text, path, slash, label) in &NAMES {
        if !is_name(text.as_bytes(), *path, *slash, *label) {
            return false;
        }
    }
    true
}

#[test]
fn names_are_told_apart(rt: HostRuntime) {
    assert!(rt; are_names());
}

static LONGEST: [u8; 1_024] = [b'a'; 1_024];

static LONGER: [u8; 1_025] = [b'a'; 1_025];

#[test]
fn hosts_are_short(rt: HostRuntime) {
    assert!(rt; is_host_name(b"") && is_host_name(&LONGEST) && !is_host_name(&LONGER));
}
