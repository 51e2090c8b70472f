//! Numbers of 128 bits as two of 64.
ghost use Rattle.std.specs.Prelude.{◌≡◌, ℤ, pos, ◌+ℤ◌, ◌*ℤ◌, ◌^◌, FitsSigned};
ghost use Rattle.std.specs.Int.{w64, w128};
ghost use Rattle.column_block.specs.Spelling.{high, low, whole_of};

/// The two halves of a number of 128 bits.
#[derive(Clone, Copy, Debug, PartialEq, Eq)]
pub struct Halves {
    /// How often 2^64 goes into the number, rounded down.
    pub high: i64,
    /// What is left, read as signed.
    pub low: i64,
}

/// The halves of a number.
pub fn halves_of(number: i128) -> Halves
    ensures high { result.high ≡ high number }
    ensures low { result.low ≡ low number }
{
    let high = number.div_euclid(1 << 64);
    let low = number.rem_euclid(1 << 64);
    Halves {
        high: high as i64,
        low: (low as u64).cast_signed(),
    }
}

/// The number of two halves.
pub fn join_halves(high: i64, low: i64) -> i128
    ensures { result ≡ whole_of high low }
{
    i128::from(high) * (1 << 64) + i128::from(low.cast_unsigned())
}

/// A number is that of its halves, and halves are those of their number.
pub fn halves_join()
    ensures joined { (s : ℤ) → whole_of (high s) (low s) ≡ s }
    ensures high { (h l : ℤ) → FitsSigned w64 l → high (whole_of h l) ≡ h }
    ensures low { (h l : ℤ) → FitsSigned w64 l → low (whole_of h l) ≡ l }
{}
