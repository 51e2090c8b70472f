//! What a leaf of a document is at a field of each type.
ghost use Rattle.std.specs.Prelude.{◌≡◌, ◌≢◌, ◌≤◌, length, pos, Some, IfOk, IfSome, option_and_then, IsUtf8};
ghost use Rattle.serde_json.specs.Find.{as_integer};
ghost use Rattle.serde_json.specs.View.{number_view, view};
ghost use Rattle.row_cells.specs.Fitting.{IsAggregate, IsValueOf};
ghost use Rattle.row_cells.specs.Limits.{longest_word};
ghost use Rattle.time_text.specs.Instant.{IsInstant, in_range as in_instants};
ghost use Rattle.ts_mapping.specs.Readings as spec;
ghost use Rattle.ts_mapping.specs.Readings.{aggregate_of, reading_of};
ghost use Rattle.row_cells.specs.declared.schemas.FieldType.TheVariants.{Aggregate};

use crate::numbers::{in_type, number_of};
use edge_face::{NoMemory, Text};
use fold_law::Parts;
use itoa::Buffer;
use json_walk::{has_names, whole};
use row_cells::{FieldType, LONGEST_WORD, Scalar};
use serde_json::{Number, Value};
use std::alloc::Global;
use time_text::{is_instant, read_instant};

fn date_of(leaf: &Value) -> Option<i64>
    ensures value { result ≡ spec.date_of (view leaf.now) }
    ensures fits { IfSome result IsInstant }
{
    match leaf {
        Value::Number(number) => in_range(number.as_i64()?),
        Value::String(text) => read_instant(text.as_str()).ok(),
        _ => None,
    }
}

fn in_range(time: i64) -> Option<i64>
    ensures value { result ≡ in_instants time }
    ensures fits { IfSome result IsInstant }
{
    if is_instant(time) { Some(time) } else { None }
}

fn flag_text(flag: bool) -> &'static str
    ensures { result.now ≡ spec.flag_text flag }
{
    if flag { "true" } else { "false" }
}

#[tactic(auto, using(crate::specs::ReadingLaws::natural_told))]
fn natural_word(alloc: Global, natural: u64) -> Result<Text, NoMemory>
    ensures value { IfOk result (λ t. Some t ≡ spec.number_word (pos natural)) }
    ensures fits { IfOk result (λ t. IsUtf8 t × (length t ≤ longest_word)) }
{
    let mut buffer = Buffer::new();
    Text::new(alloc, buffer.format(natural))
}

#[tactic(auto, using(crate::specs::ReadingLaws::signed_told))]
fn signed_word(alloc: Global, number: i64) -> Result<Text, NoMemory>
    ensures value { IfOk result (λ t. Some t ≡ spec.number_word number) }
    ensures fits { IfOk result (λ t. IsUtf8 t × (length t ≤ longest_word)) }
{
    let mut buffer = Buffer::new();
    Text::new(alloc, buffer.format(number))
}

fn number_text(alloc: Global, number: &Number) -> Result<Option<Text>, NoMemory>
    ensures value { IfOk result (λ read. read ≡ option_and_then spec.number_word (as_integer (number_view number.now))) }
    ensures fits { IfOk result (λ read. IfSome read (λ t. IsUtf8 t × (length t ≤ longest_word))) }
{
    if let Some(natural) = number.as_u64() {
        return Ok(Some(natural_word(alloc, natural)?));
    }
    match number.as_i64() {
        Some(negative) => Ok(Some(signed_word(alloc, negative)?)),
        None => Ok(None),
    }
}

/// The keyword that a text is, if it is short enough.
#[tactic(auto, using(crate::specs::ReadingLaws::word_taken, crate::specs::ReadingLaws::word_refused))]
fn text_word(alloc: Global, text: &str) -> Result<Option<Text>, NoMemory>
    ensures value { IfOk result (λ read. read ≡ spec.text_word text.now) }
    ensures fits { IfOk result (λ read. IfSome read (λ t. IsUtf8 t × (length t ≤ longest_word))) }
{
    if text.len() <= LONGEST_WORD {
        Ok(Some(Text::new(alloc, text)?))
    } else {
        Ok(None)
    }
}

/// The keyword that a leaf writes.
fn keyword_of(alloc: Global, leaf: &Value) -> Result<Option<Text>, NoMemory>
    ensures value { IfOk result (λ read. read ≡ spec.keyword_of (view leaf.now)) }
    ensures fits { IfOk result (λ read. IfSome read (λ t. IsUtf8 t × (length t ≤ longest_word))) }
{
    match leaf {
        Value::Bool(flag) => Ok(Some(Text::new(alloc, flag_text(*flag))?)),
        Value::Number(number) => number_text(alloc, number),
        Value::String(text) => text_word(alloc, text.as_str()),
        _ => Ok(None),
    }
}

fn named_flag(text: &str) -> Option<bool>
    ensures { result ≡ spec.named_flag text.now }
{
    if text == "true" {
        Some(true)
    } else if text == "false" || text == "" {
        Some(false)
    } else {
        None
    }
}

fn flag_of(leaf: &Value) -> Option<bool>
    ensures { result ≡ spec.flag_of (view leaf.now) }
{
    match leaf {
        Value::Bool(flag) => Some(*flag),
        Value::String(text) => named_flag(text.as_str()),
        _ => None,
    }
}

/// The reading of a leaf at a field of a type, or None where it has none.
///
/// Numbers are JSON whole numbers of signed 64 bits in the type's range, or texts of them with up to 19 digits. A keyword is a
/// text of at most 32,766 bytes, or the text of a whole number of 64 bits, signed or not, or of a truth value. A date is an
/// instant's text or its milliseconds since 1970. A truth value may be a text, of which the empty one is false.
pub fn read_scalar(alloc: Global, kind: FieldType, leaf: &Value) -> Result<Option<Scalar>, NoMemory>
    requires { kind ≢ Aggregate }
    ensures value { IfOk result (λ read. read ≡ reading_of kind (view leaf.now)) }
    ensures fits { IfOk result (λ read. IfSome read (IsValueOf kind)) }
{
    match kind {
        FieldType::Keyword => Ok(keyword_of(alloc, leaf)?.map(Scalar::Word)),
        FieldType::Boolean => Ok(flag_of(leaf).map(Scalar::Flag)),
        FieldType::Date => Ok(date_of(leaf).map(Scalar::Whole)),
        FieldType::Long
        | FieldType::Integer
        | FieldType::Short
        | FieldType::Byte
        | FieldType::Aggregate => Ok(number_of(kind, leaf).map(Scalar::Whole)),
    }
}

/// A member that is a whole number of signed 64 bits.
fn whole_at(leaf: &Value, name: &str) -> Option<i64>
    ensures { result ≡ spec.whole_at name.now (view leaf.now) }
{
    let number = leaf.get(name)?.as_i64()?;
    in_type(FieldType::Long, i128::from(number))
}

/// The parts of an aggregate's leaf, or None where it has no reading: an object with exactly `max`, `min`, `sum` and
/// `value_count`, each a JSON whole number of signed 64 bits, and a value count of at least 1.
pub fn read_aggregate(leaf: &Value) -> Option<Parts>
    ensures value { result ≡ aggregate_of (view leaf.now) }
    ensures fits { IfSome result IsAggregate }
{
    if !has_names(leaf, &["max", "min", "sum", "value_count"]) {
        return None;
    }
    let min = whole_at(leaf, "min")?;
    let max = whole_at(leaf, "max")?;
    let sum = whole_at(leaf, "sum")?;
    let count = whole_at(leaf, "value_count")?;
    if count < 1 {
        return None;
    }
    Some(Parts {
        min,
        max,
        sum: i128::from(sum),
        count: i128::from(count),
    })
}
