// The values of labels in order.
ghost use Rattle.std.specs.Prelude.{◌≡◌, ◌≤◌, List, [], ◌++◌, IfOk, length, map};
ghost use Rattle.std.specs.Ordering.{nat_cmp, int_cmp};
ghost use Rattle.row_cells.specs.declared.scalars.Scalar.TheVariants.{Flag, Whole, Word};
ghost use Rattle.row_cells.specs.declared.schemas.FieldType.TheVariants.{Boolean, Keyword};
ghost use Rattle.synthetic_source.specs.Readings.{AllValues, AreWhole};
ghost use Rattle.synthetic_source.specs.Sorts.{keys_after};
ghost use Rattle.synthetic_source.specs.Values.{ordered};

use edge_face::{NoMemory, Text};
use row_cells::{FieldType, Scalar};
use sqlite_items::Items;
use std::alloc::Global;
use std::collections::BTreeSet;

// Numbers by size.
fn wholes_in_order(alloc: Global, mut numbers: Vec<i64>) -> Result<Items<Scalar>, NoMemory>
    ensures { IfOk result (λ values. values ≡ ordered (map Whole numbers.items)) }
{
    numbers.sort()?;
    let mut values = Vec::with_capacity(alloc, numbers.len())?;
    for number in &numbers {
        values.push(Scalar::Whole(*number))?;
    }
    Ok(Items::from_vec(values))
}

// False before true.
fn flags_in_order(alloc: Global, mut flags: Vec<bool>) -> Result<Items<Scalar>, NoMemory>
    ensures { IfOk result (λ values. values ≡ ordered (map Flag flags.items)) }
{
    flags.sort()?;
    let mut values = Vec::with_capacity(alloc, flags.len())?;
    for flag in &flags {
        values.push(Scalar::Flag(*flag))?;
    }
    Ok(Items::from_vec(values))
}

fn set_of(alloc: Global, texts: Vec<Text>) -> Result<BTreeSet<Text>, NoMemory>
    ensures { IfOk result (λ set. set.keys ≡ keys_after [] texts.items) }
{
    let mut set = BTreeSet::new(alloc);
    for text in texts {
        let _ = set.insert(text)?;
    }
    Ok(set)
}

fn words_of(alloc: Global, set: BTreeSet<Text>) -> Result<Items<Scalar>, NoMemory>
    ensures { IfOk result (λ values. values ≡ map Word set.keys) }
{
    let mut values = Vec::with_capacity(alloc, set.len())?;
    for text in set {
        values.push(Scalar::Word(text))?;
    }
    Ok(Items::from_vec(values))
}

// Texts by bytes, each once.
#[tactic(auto, using(crate::proofs::Sorting::text_order))]
fn texts_in_order(alloc: Global, texts: Vec<Text>) -> Result<Items<Scalar>, NoMemory>
    ensures { IfOk result (λ values. values ≡ ordered (map Word texts.items)) }
{
    let set = set_of(alloc, texts)?;
    let values = words_of(alloc, set)?;
    Ok(values)
}

fn texts_of(alloc: Global, values: Vec<Scalar>) -> Result<Vec<Text>, NoMemory>
    requires { AllValues Keyword values.items }
    ensures { IfOk result (λ texts. map Word texts.items ≡ values.items) }
{
    let mut texts = Vec::with_capacity(alloc, values.len())?;
    for value in values {
        if let Scalar::Word(text) = value {
            texts.push(text)?;
        }
    }
    Ok(texts)
}

fn flags_of(alloc: Global, values: &[Scalar]) -> Result<Vec<bool>, NoMemory>
    requires { AllValues Boolean values.now }
    ensures { IfOk result (λ flags. map Flag flags.items ≡ values.now) }
{
    let mut flags = Vec::with_capacity(alloc, values.len())?;
    for value in values {
        if let Scalar::Flag(flag) = value {
            flags.push(*flag)?;
        }
    }
    Ok(flags)
}

fn wholes_of(alloc: Global, values: &[Scalar]) -> Result<Vec<i64>, NoMemory>
    requires { AreWhole values.now }
    ensures { IfOk result (λ numbers. map Whole numbers.items ≡ values.now) }
{
    let mut numbers = Vec::with_capacity(alloc, values.len())?;
    for value in values {
        if let Scalar::Whole(number) = value {
            numbers.push(*number)?;
        }
    }
    Ok(numbers)
}

fn numbers_in_order(alloc: Global, values: Vec<Scalar>) -> Result<Items<Scalar>, NoMemory>
    requires { AreWhole values.items }
    ensures { IfOk result (λ ordered_values. ordered_values ≡ ordered values.items) }
{
    let numbers = wholes_of(alloc, values.as_slice())?;
    let values = wholes_in_order(alloc, numbers)?;
    Ok(values)
}

fn truths_in_order(alloc: Global, values: Vec<Scalar>) -> Result<Items<Scalar>, NoMemory>
    requires { AllValues Boolean values.items }
    ensures { IfOk result (λ ordered_values. ordered_values ≡ ordered values.items) }
{
    let flags = flags_of(alloc, values.as_slice())?;
    let values = flags_in_order(alloc, flags)?;
    Ok(values)
}

fn keywords_in_order(alloc: Global, values: Vec<Scalar>) -> Result<Items<Scalar>, NoMemory>
    requires { AllValues Keyword values.items }
    ensures { IfOk result (λ ordered_values. ordered_values ≡ ordered values.items) }
{
    let texts = texts_of(alloc, values)?;
    let values = texts_in_order(alloc, texts)?;
    Ok(values)
}

#[tactic(auto, using(crate::proofs::Values::whole_else))]
fn many_in_order(
    alloc: Global,
    kind: FieldType,
    values: Vec<Scalar>,
) -> Result<Items<Scalar>, NoMemory>
    requires { AllValues kind values.items }
    ensures { IfOk result (λ ordered_values. ordered_values ≡ ordered values.items) }
{
    match kind {
        FieldType::Keyword => keywords_in_order(alloc, values),
        FieldType::Boolean => truths_in_order(alloc, values),
        _ => numbers_in_order(alloc, values),
    }
}

/// The values of a label in order: numbers by size, false before true, texts by bytes and each once.
#[tactic(auto, using(crate::proofs::Values::short_ordered))]
pub fn in_order(
    alloc: Global,
    kind: FieldType,
    values: Vec<Scalar>,
) -> Result<Items<Scalar>, NoMemory>
    requires { AllValues kind values.items }
    ensures { IfOk result (λ ordered_values. ordered_values ≡ ordered values.items) }
{
    if values.len() < 2 {
        return Ok(Items::from_vec(values));
    }
    many_in_order(alloc, kind, values)
}
