//! Whole numbers that leaves write.
ghost use Rattle.std.specs.Prelude.{◌≡◌, ◌<◌, ◌≤◌, ◌^◌, length, pos, IfSome, IsTrue, option_map, FitsSigned};
ghost use Rattle.std.specs.Int.{w64};
ghost use Rattle.std.specs.Str.{all_ascii_digits};
ghost use Rattle.std.specs.Str.Parse.{digits_value};
ghost use Rattle.serde_json.specs.View.{view};
ghost use Rattle.row_cells.specs.Fitting.{IsNumberOf};
ghost use Rattle.ts_mapping.specs.Readings as spec;

use row_cells::FieldType;
use serde_json::Value;

/// The most digits that a text of a whole number has.
const DIGITS_LIMIT: usize = 19;

pub fn are_digits(text: &[u8]) -> bool
    ensures { result ≡ all_ascii_digits text.now }
{
    for byte in text {
        if !byte.is_ascii_digit() {
            return false;
        }
    }
    true
}

/// The number that at most 19 decimal digits spell.
pub fn digits_value(digits: &[u8]) -> u64
    requires spelled { IsTrue (all_ascii_digits digits.now) }
    requires few { length digits.now ≤ 19 }
    ensures value { result ≡ digits_value 10 digits.now }
    ensures small { result < 10 ^ length digits.now }
{
    let mut number = 0;
    for digit in digits {
        number = number * 10 + u64::from(*digit - b'0');
    }
    number
}

/// The number of 1 to 19 digits.
#[tactic(auto, unfolding(crate::specs::Readings::natural_text))]
fn natural(text: &[u8]) -> Option<u64>
    ensures value { result ≡ spec.natural_text text.now }
{
    if are_digits(text) && 1 <= text.len() && text.len() <= DIGITS_LIMIT {
        Some(digits_value(text))
    } else {
        None
    }
}

/// The number of such digits, or of a minus sign and such digits.
fn whole_text(text: &[u8]) -> Option<i128>
    ensures { result ≡ spec.whole_text text.now }
{
    match text {
        [] => None,
        [b'-', digits @ ..] => natural(digits).map(|number| -i128::from(number)),
        digits => natural(digits).map(i128::from),
    }
}

fn whole_of(leaf: &Value) -> Option<i128>
    ensures { result ≡ spec.whole_of (view leaf.now) }
{
    match leaf {
        Value::Number(number) => number.as_i64().map(i128::from),
        Value::String(text) => whole_text(text.as_bytes()),
        _ => None,
    }
}

/// The number as one of the type, where it is in the type's range.
pub fn in_type(kind: FieldType, number: i128) -> Option<i64>
    ensures value { result ≡ spec.in_type kind number }
    ensures fits { IfSome result (IsNumberOf kind) }
{
    match kind {
        FieldType::Long => i64::try_from(number).ok(),
        FieldType::Integer => i32::try_from(number).ok().map(i64::from),
        FieldType::Short => i16::try_from(number).ok().map(i64::from),
        FieldType::Byte => i8::try_from(number).ok().map(i64::from),
        FieldType::Date | FieldType::Keyword | FieldType::Boolean | FieldType::Aggregate => None,
    }
}

/// The whole number of a type that a leaf writes.
pub fn number_of(kind: FieldType, leaf: &Value) -> Option<i64>
    ensures value { result ≡ spec.number_of kind (view leaf.now) }
    ensures fits { IfSome result (IsNumberOf kind) }
{
    let number = whole_of(leaf)?;
    in_type(kind, number)
}
