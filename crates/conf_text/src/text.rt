//! Blanks, names and comments in the text of one line.

ghost use Rattle.std.specs.Prelude.{IsTrue, ◌≡◌, ◌-◌, ◌<◌, ◌&&◌, ◌==◌, length, slice_index, take, drop};
ghost use Rattle.std.specs.List.{prefix_len, suffix_len, position_or_len, list_all};
ghost use Rattle.conf_text.specs.Text.{is_blank, begins, ends_in, skip_blanks, drop_blanks, trimmed, first_word, after_word, without_comment, comment_at, is_name_byte, is_name, is_parameter_name};

/// Whether the text begins with this byte.
pub fn begins(text: &str, byte: u8) -> bool
    ensures value { result ≡ begins byte text.now }
    ensures first { IsTrue result → (0 < length text.now) × (slice_index text.now 0 ≡ byte) }
{
    match text.as_bytes() {
        [] => false,
        [first, ..] => *first == byte,
    }
}

/// Whether the text ends with this byte.
pub fn ends_in(text: &str, byte: u8) -> bool
    ensures value { result ≡ ends_in byte text.now }
    ensures last { IsTrue result
        → (0 < length text.now) × (slice_index text.now (length text.now - 1) ≡ byte) }
{
    let bytes = text.as_bytes();
    !bytes.is_empty() && bytes[bytes.len() - 1] == byte
}

/// The text behind its first byte, which is ASCII.
pub fn behind_first(text: &str) -> &str
    requires some { 0 < length text.now }
    requires ascii { slice_index text.now 0 < 128 }
    ensures { result.now ≡ drop 1 text.now }
{
    &text[1..]
}

/// The text before its last byte, which is ASCII.
pub fn before_last(text: &str) -> &str
    requires some { 0 < length text.now }
    requires ascii { slice_index text.now (length text.now - 1) < 128 }
    ensures { result.now ≡ take (length text.now - 1) text.now }
{
    &text[..text.len() - 1]
}

/// The text without the blanks at its front.
#[tactic(auto, unfolding(crate::specs::Text::skip_blanks))]
pub fn skip_blanks(text: &str) -> &str
    ensures { result.now ≡ skip_blanks text.now }
{
    &text[blanks_before(text.as_bytes())..]
}

/// The text without the blanks at its end.
#[tactic(auto, unfolding(crate::specs::Text::drop_blanks))]
pub fn drop_blanks(text: &str) -> &str
    ensures { result.now ≡ drop_blanks text.now }
{
    &text[..text.len() - blanks_behind(text.as_bytes())]
}

/// The text without the blanks at both ends.
#[tactic(auto, unfolding(crate::specs::Text::trimmed))]
pub fn trimmed(text: &str) -> &str
    ensures { result.now ≡ trimmed text.now }
{
    drop_blanks(skip_blanks(text))
}

/// The text up to its first blank, and the text from there on.
#[tactic(auto, unfolding(crate::specs::Text::first_word, crate::specs::Text::after_word))]
pub fn split_word(text: &str) -> (&str, &str)
    ensures word { result.0.now ≡ first_word text.now }
    ensures rest { result.1.now ≡ after_word text.now }
{
    text.split_at(word_end(text.as_bytes()))
}

/// The text up to its comment.
#[tactic(auto, unfolding(crate::specs::Text::without_comment))]
pub fn without_comment(text: &str) -> &str
    ensures { result.now ≡ without_comment text.now }
{
    &text[..comment_start(text.as_bytes())]
}

/// Whether the text is one or more letters, digits or `_`.
#[tactic(auto, unfolding(crate::specs::Text::is_name))]
pub fn is_name(text: &[u8]) -> bool
    ensures { result ≡ is_name text.now }
{
    !text.is_empty() && are_name_bytes(text)
}

/// Whether the text is such a name, or an `@` and such a name.
#[tactic(auto, unfolding(crate::specs::Text::is_parameter_name))]
pub fn is_parameter_name(text: &[u8]) -> bool
    ensures { result ≡ is_parameter_name text.now }
{
    match text {
        [] => false,
        [first, name @ ..] => is_name(if *first == b'@' { name } else { text }),
    }
}

fn is_blank(byte: u8) -> bool
    ensures { result ≡ is_blank byte }
{
    byte == b' ' || byte == b'\t'
}

// How many blanks stand at the front.
fn blanks_before(text: &[u8]) -> usize
    ensures { result ≡ prefix_len is_blank text.now }
{
    text.iter().take_while(|b| is_blank(**b)).count()
}

// How many blanks stand at the end.
fn blanks_behind(text: &[u8]) -> usize
    ensures { result ≡ suffix_len is_blank text.now }
{
    text.iter().rev().take_while(|b| is_blank(**b)).count()
}

// Where the first blank stands, or the length.
fn word_end(text: &[u8]) -> usize
    ensures { result ≡ position_or_len is_blank text.now }
{
    text.iter().take_while(|b| !is_blank(**b)).count()
}

// Whether two bytes in a row begin a comment.
fn is_comment(before: u8, byte: u8) -> bool
    ensures { result ≡ (is_blank before && byte == 35) }
{
    is_blank(before) && byte == b'#'
}

// Where the first `#` behind a blank stands, or the length.
fn comment_start(text: &[u8]) -> usize
    ensures { result ≡ comment_at text.now }
{
    for i in 1..text.len() {
        if is_comment(text[i - 1], text[i]) {
            return i;
        }
    }
    text.len()
}

fn are_name_bytes(text: &[u8]) -> bool
    ensures { result ≡ list_all is_name_byte text.now }
{
    text.iter().all(|b| is_name_byte(*b))
}

#[tactic(auto, unfolding(crate::specs::Text::is_name_byte))]
fn is_name_byte(byte: u8) -> bool
    ensures { result ≡ is_name_byte byte }
{
    byte.is_ascii_alphanumeric() || byte == b'_'
}
