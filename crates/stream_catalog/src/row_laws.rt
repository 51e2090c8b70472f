//! The laws on rows that code holds, for crates above.
ghost use Rattle.stream_catalog.specs.RowLaws.{KeptAreRows, SeenIsMade, ShownRows};

/// The rows of an index that is seen again itself fit its schema, in order, and are few; they stand in its window, or at buckets
/// of its interval that meet it. With sound facts and tasks under way that makes a catalogue one that is sound and seen again itself.
pub fn shown_rows()
    ensures rows { ShownRows }
    ensures made { SeenIsMade }
{}

/// What a task keeps are rows of the schema by which it folds, in order, few, and at buckets of its interval that meet the window.
pub fn kept_are_rows()
    ensures { KeptAreRows }
{}
