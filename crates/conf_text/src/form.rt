//! The form of one line.

ghost use Rattle.std.specs.Prelude.{◌≡◌, ◌<◌, ◌||◌, ◌==◌, length, IfOk};
ghost use Rattle.conf_text.specs.Text.{skip_blanks, without_comment};
ghost use Rattle.conf_text.specs.Quoted.{quoted};
ghost use Rattle.conf_text.specs.Form.{opening_form, end_form, inside_form, section_form, quoted_form, value_form, parameter_form, text_form, line_form};
ghost use Rattle.conf_text.specs.Views.{form_view};

use crate::quoted::quoted;
use crate::text::{
    before_last, begins, behind_first, drop_blanks, ends_in, is_name, is_parameter_name,
    skip_blanks, split_word, trimmed, without_comment,
};
use std::alloc::{AllocError, Allocator};

/// What a line is (Fluentd, "Config File Syntax").
#[derive(Drop)]
pub enum Form<'a, A: Allocator> {
    /// Nothing, or a comment.
    Ignored,
    /// `<name argument>`; the argument may be empty.
    Opens(&'a str, &'a str),
    /// `</name>`.
    Ends(&'a str),
    /// `name value`; the value may be empty.
    Parameter(&'a str, String<A>),
    /// A name that isn't one, or a section line that doesn't close.
    BadName,
    /// A value in quotes that doesn't close, or has something else than a comment behind it.
    BadQuote,
}

/// The form of a line, which holds no LF. The one error is that memory ran out.
#[tactic(auto, unfolding(crate::specs::Form::line_form))]
pub fn line_form<A: Allocator>(alloc: A, line: &str) -> Result<Form<'_, A>, AllocError>
    ensures { IfOk result (λ form. form_view form ≡ line_form line.now) }
{
    text_form(alloc, trimmed(line))
}

// A line without the blanks at its ends.
#[tactic(auto, unfolding(crate::specs::Form::text_form))]
fn text_form<A: Allocator>(alloc: A, text: &str) -> Result<Form<'_, A>, AllocError>
    ensures { IfOk result (λ form. form_view form ≡ text_form text.now) }
{
    if text.is_empty() || begins(text, b'#') {
        Ok(Form::Ignored)
    } else if begins(text, b'<') {
        Ok(section_form(behind_first(text)))
    } else {
        parameter_form(alloc, text)
    }
}

// What stands behind a line's `<`.
#[tactic(auto, unfolding(crate::specs::Form::section_form))]
fn section_form<A: Allocator>(text: &str) -> Form<'_, A>
    ensures { form_view result ≡ section_form text.now }
{
    let whole = drop_blanks(without_comment(text));
    if ends_in(whole, b'>') {
        inside_form(before_last(whole))
    } else {
        Form::BadName
    }
}

#[tactic(auto, unfolding(crate::specs::Form::inside_form))]
fn inside_form<A: Allocator>(inside: &str) -> Form<'_, A>
    ensures { form_view result ≡ inside_form inside.now }
{
    if begins(inside, b'/') {
        end_form(behind_first(inside))
    } else {
        opening_form(inside)
    }
}

// What stands between `<` and `>`, where that is an opening.
#[tactic(auto, unfolding(crate::specs::Form::opening_form))]
fn opening_form<A: Allocator>(inside: &str) -> Form<'_, A>
    ensures { form_view result ≡ opening_form inside.now }
{
    let (name, rest) = split_word(inside);
    if is_name(name.as_bytes()) {
        Form::Opens(name, trimmed(rest))
    } else {
        Form::BadName
    }
}

// What stands between `</` and `>`.
#[tactic(auto, unfolding(crate::specs::Form::end_form))]
fn end_form<A: Allocator>(inside: &str) -> Form<'_, A>
    ensures { form_view result ≡ end_form inside.now }
{
    if is_name(inside.as_bytes()) {
        Form::Ends(inside)
    } else {
        Form::BadName
    }
}

#[tactic(auto, unfolding(crate::specs::Form::parameter_form))]
fn parameter_form<A: Allocator>(alloc: A, text: &str) -> Result<Form<'_, A>, AllocError>
    ensures { IfOk result (λ form. form_view form ≡ parameter_form text.now) }
{
    let (name, rest) = split_word(text);
    if is_parameter_name(name.as_bytes()) {
        value_form(alloc, name, rest)
    } else {
        Ok(Form::BadName)
    }
}

// A parameter with this text behind its name.
#[tactic(auto, unfolding(crate::specs::Form::value_form))]
fn value_form<'a, A: Allocator>(
    alloc: A,
    name: &'a str,
    text: &str,
) -> Result<Form<'a, A>, AllocError>
    ensures { IfOk result (λ form. form_view form ≡ value_form name.now text.now) }
{
    let value = skip_blanks(text);
    if begins(value, b'"') || begins(value, b'\'') {
        return quoted_form(alloc, name, value.as_bytes()[0], behind_first(value));
    }
    let plain = trimmed(without_comment(text));
    Ok(Form::Parameter(name, String::from_str(alloc, plain)?))
}

// A parameter whose value is in quotes.
fn quoted_form<'a, A: Allocator>(
    alloc: A,
    name: &'a str,
    mark: u8,
    text: &str,
) -> Result<Form<'a, A>, AllocError>
    requires { mark < 128 }
    ensures { IfOk result (λ form. form_view form ≡ quoted_form name.now (quoted mark text.now)) }
{
    match quoted(alloc, mark, text)? {
        Some((value, behind)) if is_comment_alone(behind) => Ok(Form::Parameter(name, value)),
        _ => Ok(Form::BadQuote),
    }
}

// Whether nothing but a comment stands there.
fn is_comment_alone(text: &str) -> bool
    ensures { result ≡ (length (skip_blanks (without_comment text.now)) == 0) }
{
    skip_blanks(without_comment(text)).is_empty()
}
