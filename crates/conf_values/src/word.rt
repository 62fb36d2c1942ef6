//! Booleans, and the forms of names.

ghost use Rattle.std.specs.Prelude.{◌≡◌, ◌≤◌, ◌↔◌, IsTrue, length};
ghost use Rattle.std.specs.List.{list_all};
ghost use Rattle.conf_values.specs.Words.{boolean_of, begins, is_path_byte, is_path, has_slash, is_label_byte, is_bare_label, is_label_name, most_host_bytes};

// The most bytes of a host's name.
const MOST_HOST_BYTES: usize = 1_024;

/// The boolean of a text: `true`, `yes` and the empty text are true, `false` and `no` are false.
/// `None`: it is none of these.
#[tactic(auto, unfolding(crate::specs::Words::boolean_of))]
pub fn boolean(text: &[u8]) -> Option<bool>
    ensures { result ≡ boolean_of text.now }
{
    match text {
        b"true" | b"yes" | b"" => Some(true),
        b"false" | b"no" => Some(false),
        _ => None,
    }
}

/// Whether the text can name files: 1 to 64 ASCII letters, digits, `_`, `-` or `.`, not `.` first.
#[tactic(auto, unfolding(crate::specs::Words::is_path))]
pub fn is_path(text: &[u8]) -> bool
    ensures { result ≡ is_path text.now }
{
    (1..=64).contains(&text.len()) && are_path_bytes(text) && !begins(text, b'.')
}

/// Whether a `/` stands in the text.
pub fn has_slash(text: &[u8]) -> bool
    ensures { result ≡ has_slash text.now }
{
    text.contains(&b'/')
}

/// Whether the text is the name of a label: `@` and one or more ASCII letters, digits or `_`.
#[tactic(auto, unfolding(crate::specs::Words::is_label_name))]
pub fn is_label_name(text: &[u8]) -> bool
    ensures { result ≡ is_label_name text.now }
{
    match text {
        [] => false,
        [first, name @ ..] => *first == b'@' && is_bare_label(name),
    }
}

/// Whether the text is short enough for the name of a host: at most 1,024 bytes.
pub fn is_host_name(text: &[u8]) -> bool
    ensures { IsTrue result ↔ (length text.now ≤ most_host_bytes) }
{
    text.len() <= MOST_HOST_BYTES
}

fn begins(text: &[u8], byte: u8) -> bool
    ensures { result ≡ begins byte text.now }
{
    match text {
        [] => false,
        [first, ..] => *first == byte,
    }
}

fn are_path_bytes(text: &[u8]) -> bool
    ensures { result ≡ list_all is_path_byte text.now }
{
    text.iter().all(|b| is_path_byte(*b))
}

#[tactic(auto, unfolding(crate::specs::Words::is_path_byte))]
fn is_path_byte(byte: u8) -> bool
    ensures { result ≡ is_path_byte byte }
{
    byte.is_ascii_alphanumeric() || matches!(byte, b'_' | b'-' | b'.')
}

#[tactic(auto, unfolding(crate::specs::Words::is_bare_label))]
fn is_bare_label(text: &[u8]) -> bool
    ensures { result ≡ is_bare_label text.now }
{
    !text.is_empty() && are_label_bytes(text)
}

fn are_label_bytes(text: &[u8]) -> bool
    ensures { result ≡ list_all is_label_byte text.now }
{
    text.iter().all(|b| is_label_byte(*b))
}

#[tactic(auto, unfolding(crate::specs::Words::is_label_byte))]
fn is_label_byte(byte: u8) -> bool
    ensures { result ≡ is_label_byte byte }
{
    byte.is_ascii_alphanumeric() || byte == b'_'
}
