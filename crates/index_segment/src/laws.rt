//! Laws of segments.
ghost use Rattle.std.specs.Prelude.{◌≡◌, ℕ, List};
ghost use Rattle.row_cells.specs.Mapped.{IsMapped};
ghost use Rattle.row_cells.specs.declared.rows.Row.{Row};
ghost use Rattle.row_cells.specs.declared.schemas.Schema.{Schema};
ghost use Rattle.index_segment.specs.Spelling.{IsSegmentOf};

use column_block::{one_spelling, one_value};

/// The bytes of a segment tell its rows, and the rows tell the bytes.
pub fn bytes_tell_rows()
    ensures rows { (schema : Schema) (r s : List Row) (bytes : List ℕ) →
        IsMapped schema → IsSegmentOf schema r bytes → IsSegmentOf schema s bytes → r ≡ s }
    ensures bytes { (schema : Schema) (rows : List Row) (a b : List ℕ) →
        IsSegmentOf schema rows a → IsSegmentOf schema rows b → a ≡ b }
{
    one_spelling();
    one_value();
}
