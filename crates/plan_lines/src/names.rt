//! The configurations that a plan names.

ghost use Rattle.std.specs.Prelude.{◌≡◌, [], ◌∷◌, ◌++◌, map, length, IfOk, OnOk};
ghost use Rattle.std.specs.List.{filter_map};
ghost use Rattle.std.specs.Option.{option_copied};
ghost use Rattle.plan_lines.specs.Forms.{conf_field as field_of_conf, conf_named as named_conf, confs_named};

use relay_conf::words;
use std::alloc::{AllocError, Allocator};
use std::str;
use text_lines::lines;

/// The configurations that a plan names, lent from its text: the last field of each line of five
/// fields that is UTF-8 and begins with `relay`, in the order of the lines. The error is want of
/// memory.
pub fn conf_names<'t, A: Allocator + Copy>(
    alloc: A,
    net: &'t [u8],
) -> Result<Vec<&'t str, A>, AllocError>
    ensures names { IfOk result
        (λ names. map (λ name. name.now) names.items ≡ confs_named net.now) }
    ensures count { IfOk result (λ names. length names.items ≡ length (confs_named net.now)) }
{
    let lines = lines(alloc, net)?;
    let mut names = Vec::new(alloc);
    for line in &lines {
        push_conf(alloc, &mut names, line)?;
    }
    Ok(names)
}

// Adds the configuration that a line names.
fn push_conf<'t, A: Allocator + Copy>(
    alloc: A,
    names: &mut Vec<&'t str, A>,
    line: &'t [u8],
) -> Result<(), AllocError>
    ensures { OnOk result
        (map (λ name. name.now) names.new.items
        ≡ map (λ name. name.now) names.old.items ++ filter_map named_conf (line.now ∷ [])) }
{
    match conf_named(alloc, line)? {
        None => Ok(()),
        Some(name) => {
            names.push(name)?;
            Ok(())
        }
    }
}

// The configuration that a line names.
fn conf_named<'t, A: Allocator + Copy>(
    alloc: A,
    line: &'t [u8],
) -> Result<Option<&'t str>, AllocError>
    ensures { IfOk result (λ name. option_copied name ≡ named_conf line.now) }
{
    match str::from_utf8(line) {
        Ok(line) => Ok(conf_field(&words(alloc, line)?)),
        Err(_) => Ok(None),
    }
}

// The last of five fields, of which the first is `relay`.
fn conf_field<'t>(fields: &[&'t str]) -> Option<&'t str>
    ensures { option_copied result ≡ field_of_conf (map (λ field. field.now) fields.now) }
{
    match fields {
        [word, _number, _host, _folder, conf] if *word == "relay" => Some(conf),
        _ => None,
    }
}
