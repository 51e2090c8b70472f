//! The names of backing indices, and of what they are downsampled to.
ghost use Rattle.std.specs.Prelude.{◌≡◌, ◌+◌, ◌<◌, ◌≤◌, IfOk};
ghost use Rattle.std.specs.Str.{IsAscii};
ghost use Rattle.time_text.specs.Instant.{IsInstant};
ghost use Rattle.index_names.specs.Backing as spec;
ghost use Rattle.index_names.specs.Backing.{greatest_generation};

use edge_face::{NoMemory, Text};
use std::alloc::Global;
use time_text::{Interval, day_str, print_day};

/// The greatest generation of a stream.
pub const GREATEST_GENERATION: u32 = 999_999;

/// What the names of downsampled indices begin with; no other may.
pub const RESERVED_FRONT: &str = "downsample-";

// How many bytes a backing index's name has before those of its stream, and behind them.
pub(crate) const BEFORE_STREAM: usize = 4;

pub(crate) const BEHIND_STREAM: usize = 18;

fn digit(number: u32) -> u8
    requires { number < 10 }
    ensures { result ≡ 48 + number }
{
    b'0' + number as u8
}

pub(crate) fn six_digits(number: u32) -> [u8; 6]
    requires { number ≤ greatest_generation }
    ensures text { result ≡ spec.six_digits number }
    ensures ascii { IsAscii result }
{
    let (high, middle, low) = (number / 10_000, number / 100 % 100, number % 100);
    [
        digit(high / 10),
        digit(high % 10),
        digit(middle / 10),
        digit(middle % 10),
        digit(low / 10),
        digit(low % 10),
    ]
}

fn digits_str(printed: &[u8; 6]) -> &str
    requires { IsAscii printed.now }
    ensures { result.now ≡ printed.now }
{
    str::from_utf8(printed).unwrap()
}

/// The name of the backing index that a stream gets at a moment as its generation: `.ds-<stream>-<yyyy.MM.dd>-<generation>`,
/// with the UTC day and six digits.
#[tactic(auto, unfolding(crate::specs::Backing::backing_name))]
pub fn backing_name(
    alloc: Global,
    stream: &str,
    now: i64,
    generation: u32,
) -> Result<Text, NoMemory>
    requires now { IsInstant now }
    requires generation { generation ≤ greatest_generation }
    ensures { IfOk result (λ name. name ≡ spec.backing_name stream.now now generation) }
{
    let day = print_day(now);
    let digits = six_digits(generation);
    let mut name = String::with_capacity(alloc, stream.len() + BEFORE_STREAM + BEHIND_STREAM)?;
    name.push_str(".ds-")?;
    name.push_str(stream)?;
    name.push_str("-")?;
    name.push_str(day_str(&day))?;
    name.push_str("-")?;
    name.push_str(digits_str(&digits))?;
    Ok(Text::from_string(name))
}

/// The name of an index that is downsampled: `downsample-<interval>-<origin>`.
pub fn downsample_name(alloc: Global, by: &Interval, origin: &str) -> Result<Text, NoMemory>
    ensures { IfOk result (λ name. name ≡ spec.downsample_name by.now origin.now) }
{
    let name = format!(in alloc; "downsample-{by}-{origin}")?;
    Ok(Text::from_string(name))
}

/// Whether a name begins as only those of downsampled indices may.
pub fn is_reserved(name: &[u8]) -> bool
    ensures { result ≡ spec.is_reserved name.now }
{
    name.starts_with(RESERVED_FRONT.as_bytes())
}
