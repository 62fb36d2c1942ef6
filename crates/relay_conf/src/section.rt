//! The sections of a configuration, and what may stand in each.

ghost use Rattle.std.specs.Prelude.{◌≡◌, codes, None, Some, if◌then◌else◌};
ghost use Rattle.std.specs.Option.{option_map, option_map_or};
ghost use Rattle.std.specs.Str.{bytes_eq};
ghost use Rattle.relay_conf.specs.Forms.{value_fault};
ghost use Rattle.relay_conf.specs.Sections.{output_profile, profile_of, setting_fault, refusal};

use crate::buffer::BUFFER_ROWS;
use crate::fault::RelayFaultKind;
use crate::form::{Form, OutputType, value_fault};
use crate::rows::{Row, form_in};

/// A section, by its name and place, and where it has a type also by that.
#[derive(Clone, Copy)]
pub(crate) enum Section {
    /// The whole configuration.
    Top,
    /// What is passed over, with all that is in it.
    Passed,
    /// The parameters outside every section.
    Outside,
    Source,
    Label,
    Server,
    Security,
    Buffer,
    /// A match of this type, or of one that isn't known.
    Match(Option<OutputType>),
    /// A store of this type, or of one that isn't known.
    Store(Option<OutputType>),
}

/// A section, by its name and place alone.
#[derive(Clone, Copy)]
pub(crate) enum Opening {
    /// It is this section.
    Plain(Section),
    /// Its type says more.
    Match,
    /// Its type says more.
    Store,
}

static SOURCE_ROWS: [Row; 4] = [
    Row {
        name: "port",
        form: Form::Port,
    },
    Row {
        name: "bind",
        form: Form::Text,
    },
    Row {
        name: "@label",
        form: Form::Target,
    },
    Row {
        name: "add_tag_prefix",
        form: Form::Prefix,
    },
];

static SERVER_ROWS: [Row; 5] = [
    Row {
        name: "host",
        form: Form::Text,
    },
    Row {
        name: "port",
        form: Form::Port,
    },
    Row {
        name: "name",
        form: Form::Text,
    },
    Row {
        name: "weight",
        form: Form::Text,
    },
    Row {
        name: "standby",
        form: Form::Text,
    },
];

static SECURITY_ROWS: [Row; 2] = [
    Row {
        name: "self_hostname",
        form: Form::HostName,
    },
    Row {
        name: "shared_key",
        form: Form::Text,
    },
];

static FORWARD_ROWS: [Row; 5] = [
    Row {
        name: "require_ack_response",
        form: Form::Flag,
    },
    Row {
        name: "ack_response_timeout",
        form: Form::Time,
    },
    Row {
        name: "send_timeout",
        form: Form::Time,
    },
    Row {
        name: "recover_wait",
        form: Form::Time,
    },
    Row {
        name: "hard_timeout",
        form: Form::Time,
    },
];

static FILE_ROWS: [Row; 1] = [Row {
    name: "path",
    form: Form::Path,
}];

static RELABEL_ROWS: [Row; 1] = [Row {
    name: "@label",
    form: Form::Target,
}];

/// What is wrong with a parameter of this name and value in this section, if anything. What is
/// passed over isn't looked at.
pub(crate) fn setting_fault(section: Section, name: &str, value: &str) -> Option<RelayFaultKind>
    ensures { result ≡ setting_fault section name.now value.now }
{
    if let Section::Passed = section {
        return None;
    }
    if name == "@id" || name == "@log_level" {
        return None;
    }
    if name == "@include" {
        return Some(RelayFaultKind::OutOfProfile);
    }
    form_fault(form_of(section, name), value)
}

fn form_fault(form: Option<Form>, value: &str) -> Option<RelayFaultKind>
    ensures { result
        ≡ option_map_or (λ check. check value.now) (option_map value_fault form)
        (Some RelayFaultKind.UnknownParameter) }
{
    match form {
        None => Some(RelayFaultKind::UnknownParameter),
        Some(form) => value_fault(form, value),
    }
}

// What the value of this name must be, if the section has it.
fn form_of(section: Section, name: &str) -> Option<Form>
    ensures { option_map value_fault result
        ≡ (if bytes_eq name.now (codes "@type") then (profile_of section).type
        else (profile_of section).parameters name.now) }
{
    if name == "@type" {
        return type_form(section);
    }
    parameter_form(section, name)
}

// What the type of a section must be, if it has one.
fn type_form(section: Section) -> Option<Form>
    ensures { option_map value_fault result ≡ (profile_of section).type }
{
    match section {
        Section::Source => Some(Form::SourceType),
        Section::Buffer => Some(Form::BufferType),
        Section::Match(_) => Some(Form::MatchType),
        Section::Store(_) => Some(Form::StoreType),
        _ => None,
    }
}

// What the value of this name must be, if it is a parameter of the section beside its type.
fn parameter_form(section: Section, name: &str) -> Option<Form>
    ensures { option_map value_fault result ≡ (profile_of section).parameters name.now }
{
    match section {
        Section::Source => form_in(&SOURCE_ROWS, name),
        Section::Server => form_in(&SERVER_ROWS, name),
        Section::Security => form_in(&SECURITY_ROWS, name),
        Section::Buffer => form_in(&BUFFER_ROWS, name),
        Section::Match(Some(kind)) | Section::Store(Some(kind)) => output_form(kind, name),
        Section::Passed | Section::Match(None) | Section::Store(None) => Some(Form::Text),
        _ => None,
    }
}

// What the value of this name must be, if it is a parameter of the output beside its type.
fn output_form(kind: OutputType, name: &str) -> Option<Form>
    ensures { option_map value_fault result ≡ (output_profile kind).parameters name.now }
{
    match kind {
        OutputType::Forward => form_in(&FORWARD_ROWS, name),
        OutputType::File => form_in(&FILE_ROWS, name),
        OutputType::Relabel => form_in(&RELABEL_ROWS, name),
        OutputType::Copy | OutputType::Null => None,
    }
}

/// What a section of this name is in this one, if it may stand there.
pub(crate) fn opening_in(parent: Section, name: &str) -> Option<Opening>
    ensures { result ≡ (profile_of parent).sections name.now }
{
    match parent {
        Section::Top => top_opening(name),
        Section::Source => only(name, "security", Opening::Plain(Section::Security)),
        Section::Label => only(name, "match", Opening::Match),
        Section::Match(Some(kind)) | Section::Store(Some(kind)) => output_opening(kind, name),
        Section::Passed | Section::Match(None) | Section::Store(None) => {
            Some(Opening::Plain(Section::Passed))
        }
        _ => None,
    }
}

fn output_opening(kind: OutputType, name: &str) -> Option<Opening>
    ensures { result ≡ (output_profile kind).sections name.now }
{
    match kind {
        OutputType::Forward => forward_opening(name),
        OutputType::File => only(name, "buffer", Opening::Plain(Section::Buffer)),
        OutputType::Copy => only(name, "store", Opening::Store),
        OutputType::Relabel | OutputType::Null => None,
    }
}

fn top_opening(name: &str) -> Option<Opening>
    ensures { result ≡ (profile_of Section.Top).sections name.now }
{
    if name == "" {
        return Some(Opening::Plain(Section::Outside));
    }
    if name == "source" {
        return Some(Opening::Plain(Section::Source));
    }
    if name == "match" {
        return Some(Opening::Match);
    }
    if name == "label" {
        return Some(Opening::Plain(Section::Label));
    }
    only(name, "system", Opening::Plain(Section::Passed))
}

fn forward_opening(name: &str) -> Option<Opening>
    ensures { result ≡ (output_profile OutputType.Forward).sections name.now }
{
    if name == "server" {
        return Some(Opening::Plain(Section::Server));
    }
    if name == "buffer" {
        return Some(Opening::Plain(Section::Buffer));
    }
    only(name, "security", Opening::Plain(Section::Security))
}

// The opening, where the name is that one.
fn only(name: &str, wanted: &str, opening: Opening) -> Option<Opening>
    ensures { result ≡ (if bytes_eq name.now wanted.now then Some opening else None) }
{
    if name == wanted { Some(opening) } else { None }
}

/// Why a section of this name is refused where it may not stand.
pub(crate) fn refusal(name: &str) -> RelayFaultKind
    ensures { result ≡ refusal name.now }
{
    if name == "filter" || name == "worker" || name == "secondary" {
        return RelayFaultKind::OutOfProfile;
    }
    RelayFaultKind::UnknownSection
}
