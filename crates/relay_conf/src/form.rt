//! What a parameter's value must be.

ghost use Rattle.std.specs.Prelude.{◌≡◌, length, nat_le, None, Some, if◌then◌else◌};
ghost use Rattle.relay_conf.specs.Words.{output_type_of, store_type_of};
ghost use Rattle.relay_conf.specs.Forms.{value_fault, IsWordForm};
ghost use Rattle.relay_conf.specs.Checks.{path_fault, target_fault};
ghost use Rattle.conf_values.specs.Words.{most_host_bytes};

use crate::buffer::{flush_mode, is_file, overflow, threads};
use crate::fault::RelayFaultKind;
use conf_values::{
    boolean, has_slash, is_host_name, is_label_name, is_path, port, seconds, size, whole_number,
};
use tag_pattern::is_prefix;

/// What a parameter's value must be.
#[derive(Clone, Copy)]
pub(crate) enum Form {
    /// Any text.
    Text,
    /// A whole number.
    Number,
    /// A number of bytes.
    Size,
    /// A number of seconds.
    Time,
    /// A boolean.
    Flag,
    /// A port, from 1.
    Port,
    /// A number of threads.
    Threads,
    /// A name of files.
    Path,
    /// A name of a host.
    HostName,
    /// A label that events go to.
    Target,
    /// What is put in front of tags.
    Prefix,
    /// When a chunk is queued.
    FlushMode,
    /// How waits grow.
    RetryType,
    /// What follows where a buffer is full.
    Overflow,
    /// Where a buffer's chunks are.
    BufferType,
    /// What a source listens for.
    SourceType,
    /// What a match does.
    MatchType,
    /// What a store of a copy does.
    StoreType,
}

/// The types that a match or a store may have.
#[derive(Clone, Copy)]
pub enum OutputType {
    /// To further relays.
    Forward,
    /// Into a sink.
    File,
    /// To several outputs.
    Copy,
    /// To another scope.
    Relabel,
    /// To nowhere.
    Null,
}

/// The fault of a value that should be of this form, if it has one.
pub(crate) fn value_fault(form: Form, value: &str) -> Option<RelayFaultKind>
    ensures { result ≡ value_fault form value.now }
{
    let bytes = value.as_bytes();
    match form {
        Form::Text => None,
        Form::Number => bad_unless(whole_number(bytes).is_some()),
        Form::Size => bad_unless(size(bytes).is_some()),
        Form::Time => bad_unless(seconds(bytes).is_some()),
        Form::Flag => bad_unless(boolean(bytes).is_some()),
        Form::Port => bad_unless(port(bytes).is_some()),
        Form::Threads => bad_unless(threads(bytes).is_some()),
        Form::Path => path_fault(bytes),
        Form::HostName => bad_unless(is_short(bytes)),
        Form::Target => target_fault(value),
        Form::Prefix => bad_unless(is_prefix(bytes)),
        _ => word_fault(form, value),
    }
}

// The same for the forms that are lists of words.
fn word_fault(form: Form, value: &str) -> Option<RelayFaultKind>
    requires { IsWordForm form }
    ensures { result ≡ value_fault form value.now }
{
    match form {
        Form::FlushMode => outside_unless(flush_mode(value).is_some()),
        Form::RetryType => outside_unless(value == "exponential_backoff"),
        Form::Overflow => outside_unless(overflow(value).is_some()),
        Form::BufferType => outside_unless(is_file(value).is_some()),
        Form::SourceType => outside_unless(value == "forward"),
        Form::MatchType => outside_unless(output_type(value).is_some()),
        Form::StoreType => outside_unless(store_type(value).is_some()),
        _ => unreachable!(),
    }
}

// A bad value, unless it is a good one.
fn bad_unless(good: bool) -> Option<RelayFaultKind>
    ensures { result ≡ (if good then None else Some RelayFaultKind.BadValue) }
{
    if good {
        None
    } else {
        Some(RelayFaultKind::BadValue)
    }
}

// Out of the profile, unless it is in it.
fn outside_unless(known: bool) -> Option<RelayFaultKind>
    ensures { result ≡ (if known then None else Some RelayFaultKind.OutOfProfile) }
{
    if known {
        None
    } else {
        Some(RelayFaultKind::OutOfProfile)
    }
}

// The fault of a path, if it has one.
fn path_fault(path: &[u8]) -> Option<RelayFaultKind>
    ensures { result ≡ path_fault path.now }
{
    if has_slash(path) {
        return Some(RelayFaultKind::OutOfProfile);
    }
    bad_unless(is_path(path))
}

// The fault of a label that events go to, if it has one.
fn target_fault(label: &str) -> Option<RelayFaultKind>
    ensures { result ≡ target_fault label.now }
{
    if label == "@ROOT" || label == "@ERROR" {
        return Some(RelayFaultKind::OutOfProfile);
    }
    bad_unless(is_label_name(label.as_bytes()))
}

fn is_short(name: &[u8]) -> bool
    ensures { result ≡ nat_le (length name.now) most_host_bytes }
{
    is_host_name(name)
}

/// The type of a match that a word says, if it says one: a copy, or the type of a store.
pub fn output_type(value: &str) -> Option<OutputType>
    ensures { result ≡ output_type_of value.now }
{
    if value == "copy" {
        return Some(OutputType::Copy);
    }
    store_type(value)
}

/// The type of a store that a word says, if it says one.
pub(crate) fn store_type(value: &str) -> Option<OutputType>
    ensures { result ≡ store_type_of value.now }
{
    if value == "forward" {
        return Some(OutputType::Forward);
    }
    if value == "file" {
        return Some(OutputType::File);
    }
    if value == "relabel" {
        return Some(OutputType::Relabel);
    }
    if value == "null" {
        return Some(OutputType::Null);
    }
    None
}
