//! Fields of two schemas that are compared one by one.
ghost use Rattle.std.specs.Prelude.{◌≡◌, IsTrue};
ghost use Rattle.row_cells.specs.Joining.{FieldsAgree};
ghost use Rattle.probe_rows.specs.Agreed.{AgreesWith, AreAgreed};

use row_cells::Field;

/// Whether two fields have two paths, or are one.
fn is_one(field: &Field, other: &Field) -> bool
    ensures { IsTrue result → field.now.path ≡ other.now.path → field.now ≡ other.now }
{
    if field.path != other.path {
        return true;
    }
    if field.kind != other.kind {
        return false;
    }
    field.role == other.role
}

/// Whether no field of the others has this one's path and another type or role.
fn agrees(field: &Field, others: &[Field]) -> bool
    ensures { IsTrue result → AgreesWith others.now field.now }
{
    for other in others {
        if !is_one(field, other) {
            return false;
        }
    }
    true
}

/// Whether each field agrees with each of the second list.
fn all_agree(first: &[Field], second: &[Field]) -> bool
    ensures { IsTrue result → AreAgreed second.now first.now }
{
    for field in first {
        if !agrees(field, second) {
            return false;
        }
    }
    true
}

/// Whether fields of one path are one field.
pub fn agree(first: &[Field], second: &[Field]) -> bool
    ensures { IsTrue result → FieldsAgree first.now second.now }
{
    all_agree(first, second)
}
