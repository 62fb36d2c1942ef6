//! The forms of a plan's lines.

ghost use Rattle.std.specs.Prelude.{◌≡◌, ◌∷◌, [], map};
ghost use Rattle.std.specs.List.{list_all};
ghost use Rattle.plan_lines.specs.Forms.{is_folder_byte as is_byte, is_comment as is_remark, relay_form as relay_line, client_form as client_line, label_form as label_line, reach_form as reach_line, duty_form as duty_line, named_form as named_line, form_of as form_by, relay_number as number_by};
ghost use Rattle.plan_lines.specs.Views.{form_view};

use conf_values::whole_number;
use loss_rules::Duty as Asked;

/// What a line is by its fields.
#[derive(Clone, Copy)]
pub(crate) enum Form<'w, 't> {
    /// It is empty, or a comment.
    Nothing,
    /// `relay NUMBER HOST FOLDER CONF`
    Relay {
        number: &'t str,
        host: &'t str,
        folder: &'t str,
        conf: &'t str,
    },
    /// `client NUMBER PORT PATTERN ..`
    Client {
        number: &'t str,
        port: &'t str,
        patterns: &'w [&'t str],
    },
    /// `label NUMBER SCOPE PATTERN ..`
    Label {
        number: &'t str,
        scope: &'t str,
        patterns: &'w [&'t str],
    },
    /// `reach NUMBER SCOPE INDEX PATTERN ..`
    Reach {
        number: &'t str,
        scope: &'t str,
        index: &'t str,
        patterns: &'w [&'t str],
    },
    /// `duty any` or `duty every`
    Duty {
        duty: Asked,
    },
    /// It is none of these.
    Bad,
}

/// The form of a line of these fields.
pub(crate) fn form_of<'w, 't>(fields: &'w [&'t str]) -> Form<'w, 't>
    ensures { form_view result ≡ form_by (map (λ field. field.now) fields.now) }
{
    match fields {
        [] => Form::Nothing,
        [word, fields @ ..] => {
            if is_comment(word) {
                Form::Nothing
            } else {
                named_form(word, fields)
            }
        }
    }
}

// Whether the word begins a comment.
fn is_comment(word: &str) -> bool
    ensures { result ≡ is_remark word.now }
{
    match word.as_bytes() {
        [] => false,
        [first, ..] => *first == b'#',
    }
}

// The form of a line that begins with this word and goes on with these fields.
fn named_form<'w, 't>(word: &str, fields: &'w [&'t str]) -> Form<'w, 't>
    ensures { form_view result ≡ named_line word.now (map (λ field. field.now) fields.now) }
{
    match word {
        "relay" => relay_form(fields),
        "client" => client_form(fields),
        "label" => label_form(fields),
        "reach" => reach_form(fields),
        "duty" => duty_form(fields),
        _ => Form::Bad,
    }
}

fn relay_form<'w, 't>(fields: &'w [&'t str]) -> Form<'w, 't>
    ensures { form_view result ≡ relay_line (map (λ field. field.now) fields.now) }
{
    match fields {
        [number, host, folder, conf] if is_folder(folder) => Form::Relay {
            number,
            host,
            folder,
            conf,
        },
        _ => Form::Bad,
    }
}

fn client_form<'w, 't>(fields: &'w [&'t str]) -> Form<'w, 't>
    ensures { form_view result ≡ client_line (map (λ field. field.now) fields.now) }
{
    match fields {
        [number, port, patterns @ ..] if !patterns.is_empty() => Form::Client {
            number,
            port,
            patterns,
        },
        _ => Form::Bad,
    }
}

fn label_form<'w, 't>(fields: &'w [&'t str]) -> Form<'w, 't>
    ensures { form_view result ≡ label_line (map (λ field. field.now) fields.now) }
{
    match fields {
        [number, scope, patterns @ ..] if !patterns.is_empty() => Form::Label {
            number,
            scope,
            patterns,
        },
        _ => Form::Bad,
    }
}

fn reach_form<'w, 't>(fields: &'w [&'t str]) -> Form<'w, 't>
    ensures { form_view result ≡ reach_line (map (λ field. field.now) fields.now) }
{
    match fields {
        [number, scope, index, patterns @ ..] if !patterns.is_empty() => Form::Reach {
            number,
            scope,
            index,
            patterns,
        },
        _ => Form::Bad,
    }
}

fn duty_form<'w, 't>(fields: &'w [&'t str]) -> Form<'w, 't>
    ensures { form_view result ≡ duty_line (map (λ field. field.now) fields.now) }
{
    match fields {
        [word] => asked_form(word),
        _ => Form::Bad,
    }
}

fn asked_form<'w, 't>(word: &'t str) -> Form<'w, 't>
    ensures { form_view result ≡ duty_line (word.now ∷ []) }
{
    match word {
        "any" => Form::Duty { duty: Asked::Any },
        "every" => Form::Duty { duty: Asked::Every },
        _ => Form::Bad,
    }
}

// Whether the text can be a folder's name: letters, digits, `_` and `-`.
fn is_folder(text: &str) -> bool
    ensures { result ≡ list_all is_byte text.now }
{
    text.as_bytes().iter().all(|byte| is_folder_byte(*byte))
}

#[tactic(auto, unfolding(crate::specs::Forms::is_folder_byte))]
fn is_folder_byte(byte: u8) -> bool
    ensures { result ≡ is_byte byte }
{
    byte.is_ascii_alphanumeric() || matches!(byte, b'_' | b'-')
}

/// The relay's number that a field spells: decimal digits, whose value is at most 4,294,967,295.
pub fn relay_number(field: &str) -> Option<u32>
    ensures { result ≡ number_by field.now }
{
    match whole_number(field.as_bytes()) {
        Some(number) if number <= 4_294_967_295 => Some(number as u32),
        _ => None,
    }
}
