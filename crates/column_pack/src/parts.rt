//! The fields in front of a block's residuals.

/// What the residuals of a block are.
#[derive(Clone, Copy, Debug, PartialEq, Eq)]
pub enum Kind {
    /// How far each value is above the least one.
    Plain,
    /// How far each step from one value to the next is above the least step.
    Rising,
    /// The same, where the values fall.
    Falling,
}

/// The fields of a block but for the number of its values.
#[derive(Clone, Copy, Debug, PartialEq, Eq)]
pub struct Header {
    pub kind: Kind,
    /// The first value in two's complement, or 0 where the block is plain.
    pub first: u64,
    /// The least value in two's complement, or the least step.
    pub offset: u64,
    /// What all differences from the offset are multiples of.
    pub factor: u64,
    /// The bits of a residual.
    pub width: u32,
}
