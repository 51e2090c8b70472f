//! How the cells of a field are kept.
ghost use Rattle.std.specs.Prelude.{◌≡◌, ◌≤◌, length, take, IfOk};
ghost use Rattle.index_segment.specs.Forms as spec;
ghost use Rattle.index_segment.specs.Forms.{widths};

use edge_face::NoMemory;
use row_cells::{FieldType, Role, Schema};
use sqlite_items::Items;
use std::alloc::Global;

/// How the cells of a field are kept in columns.
#[derive(Clone, Copy, Debug, PartialEq, Eq)]
pub enum Form {
    /// In no column: a dimension is in the key, and a time in the times.
    Bare,
    /// One column of whole numbers.
    Whole,
    /// One column of parts.
    Parts,
    /// Four columns of whole numbers: first value, last value, and the two halves of the increase.
    Rise,
    /// One column of lists of whole numbers.
    Numbers,
    /// One column of lists of truth values, as 0 and 1.
    Flags,
    /// One column of lists of texts.
    Words,
}

fn gauge_form(folded: bool, kind: FieldType) -> Form
    ensures { result ≡ spec.gauge_form folded kind }
{
    if folded {
        return Form::Parts;
    }
    match kind {
        FieldType::Aggregate => Form::Parts,
        _ => Form::Whole,
    }
}

fn counter_form(folded: bool, rises: bool) -> Form
    ensures { result ≡ spec.counter_form folded rises }
{
    if folded {
        if rises { Form::Rise } else { Form::Whole }
    } else {
        Form::Whole
    }
}

fn label_form(kind: FieldType) -> Form
    ensures { result ≡ spec.label_form kind }
{
    match kind {
        FieldType::Keyword => Form::Words,
        FieldType::Boolean => Form::Flags,
        _ => Form::Numbers,
    }
}

/// The form of a field of a schema that is folded or not, and rises or not.
pub fn form_of(folded: bool, rises: bool, kind: FieldType, role: Role) -> Form
    ensures { result ≡ spec.form_of folded rises kind role }
{
    match role {
        Role::Time | Role::Dimension => Form::Bare,
        Role::Gauge => gauge_form(folded, kind),
        Role::Counter => counter_form(folded, rises),
        Role::Label => label_form(kind),
    }
}

/// How many columns a field of the form has.
pub fn width_of(form: Form) -> usize
    ensures { result ≡ spec.width_of form }
{
    match form {
        Form::Bare => 0,
        Form::Rise => 4,
        _ => 1,
    }
}

/// The forms of a schema's fields.
pub fn forms_of(alloc: Global, schema: &Schema) -> Result<Items<Form>, NoMemory>
    ensures { IfOk result (λ forms. forms ≡ spec.forms_of schema.now) }
{
    let fields = schema.fields.as_slice();
    let mut forms = Vec::with_capacity(alloc, fields.len())?;
    for field in fields {
        forms.push(form_of(schema.folded, schema.rises, field.kind, field.role))?;
    }
    Ok(Items::from_vec(forms))
}

/// How many columns the fields before a place have.
pub fn columns_before(schema: &Schema, place: usize) -> usize
    requires { place ≤ length schema.now.fields }
    ensures { result ≡ widths (take place (spec.forms_of schema.now)) }
{
    let fields = schema.fields.as_slice();
    let mut columns = 0;
    for field in &fields[..place] {
        columns += width_of(form_of(schema.folded, schema.rises, field.kind, field.role));
    }
    columns
}
