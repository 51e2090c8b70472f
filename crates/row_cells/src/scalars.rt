//! Single values.
use edge_face::Text;

/// A single value of a document: a whole number or an instant in milliseconds, a truth value, or a text.
#[derive(Debug, Drop)]
pub enum Scalar {
    Whole(i64),
    Flag(bool),
    Word(Text),
}
