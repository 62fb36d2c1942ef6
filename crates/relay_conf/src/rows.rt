//! The tables of parameters that a section has one of.

ghost use Rattle.std.specs.Prelude.{◌≡◌};
ghost use Rattle.std.specs.Option.{option_map};
ghost use Rattle.relay_conf.specs.Forms.{value_fault};
ghost use Rattle.relay_conf.specs.Rows.{rows_of};
ghost use Rattle.relay_conf.specs.Checks.{among};

use crate::form::Form;

/// A parameter: its name, and what its value must be.
pub(crate) struct Row {
    pub name: &'static str,
    pub form: Form,
}

/// The form that the row of this name gives.
pub(crate) fn form_in(rows: &[Row], name: &str) -> Option<Form>
    ensures { option_map value_fault result ≡ among (rows_of rows.now) name.now }
{
    for row in rows {
        if name == row.name {
            return Some(row.form);
        }
    }
    None
}
