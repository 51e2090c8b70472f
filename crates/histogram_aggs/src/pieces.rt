//! Parts of answers: keys of buckets, and the lists that buckets stand in.
ghost use Rattle.std.specs.Prelude.{◌≡◌, ◌++◌, [], ◌∷◌, codes, pos, IfOk, OnOk};
ghost use Rattle.reply_json.specs.declared.out.Out.{Num as number, Word as text, List as list, Object as object};
ghost use Rattle.reply_json.specs.Trees.{member};
ghost use Rattle.time_text.specs.Instant.{IsInstant};
ghost use Rattle.time_text.specs.Printed.{instant_text};
ghost use Rattle.histogram_aggs.specs.Answers.{histogram_tree, start_members, terms_object, value_members};

use crate::starts::Start;
use edge_face::{NoMemory, Text};
use reply_json::{Member, Members, Out};
use row_cells::Scalar;
use std::alloc::Global;
use time_text::{print_instant, printed_str};

/// The text of an instant.
pub fn instant_word(alloc: Global, time: i64) -> Result<Out, NoMemory>
    requires { IsInstant time }
    ensures { IfOk result (λ out. out ≡ text (instant_text time)) }
{
    let printed = print_instant(time);
    let word = Out::word(alloc, printed_str(&printed))?;
    Ok(word)
}

/// The members in front of a bucket of an interval: its start, as a text and as a number.
pub fn start_key(alloc: Global, start: &Start) -> Result<Vec<Member>, NoMemory>
    ensures { IfOk result (λ key. key.items ≡ start_members start.now) }
{
    let time = start.ms();
    let word = instant_word(alloc, time)?;
    let mut key = Vec::with_capacity(alloc, 3)?;
    key.push(Member::fixed("key_as_string", word))?;
    key.push(Member::fixed("key", Out::Num(i128::from(time))))?;
    Ok(key)
}

fn flag_key(alloc: Global, flag: i128, word: &'static str) -> Result<Vec<Member>, NoMemory>
    ensures { IfOk result (λ key. key.items ≡ member (codes "key") (number flag) ∷ member (codes "key_as_string") (text word.now) ∷ []) }
{
    let mut key = Vec::with_capacity(alloc, 3)?;
    key.push(Member::fixed("key", Out::Num(flag)))?;
    key.push(Member::fixed("key_as_string", Out::fixed(word)))?;
    Ok(key)
}

fn single_key(alloc: Global, value: Out) -> Result<Vec<Member>, NoMemory>
    ensures { IfOk result (λ key. key.items ≡ member (codes "key") value ∷ []) }
{
    let mut key = Vec::with_capacity(alloc, 2)?;
    key.push(Member::fixed("key", value))?;
    Ok(key)
}

/// The members in front of a bucket of a value.
pub fn value_key(alloc: Global, value: Scalar) -> Result<Vec<Member>, NoMemory>
    ensures { IfOk result (λ key. key.items ≡ value_members value) }
{
    match value {
        Scalar::Whole(number) => single_key(alloc, Out::Num(i128::from(number))),
        Scalar::Word(word) => single_key(alloc, Out::Word(word)),
        Scalar::Flag(false) => flag_key(alloc, 0, "false"),
        Scalar::Flag(true) => flag_key(alloc, 1, "true"),
    }
}

/// The buckets of a histogram.
pub fn histogram_out(alloc: Global, buckets: Vec<Out>) -> Result<Out, NoMemory>
    ensures { IfOk result (λ out. out ≡ histogram_tree buckets.items) }
{
    let members = Members::with_capacity(alloc, 1)?.with("buckets", Out::list(buckets))?;
    Ok(members.object())
}

/// The buckets of values, and how many documents those have that were cut off.
pub fn terms_out(alloc: Global, other: i128, buckets: Vec<Out>) -> Result<Out, NoMemory>
    ensures { IfOk result (λ out. out ≡ terms_object other buckets.items) }
{
    let members = Members::with_capacity(alloc, 3)?
        .with("doc_count_error_upper_bound", Out::Num(0))?
        .with("sum_other_doc_count", Out::Num(other))?
        .with("buckets", Out::list(buckets))?;
    Ok(members.object())
}

/// Room for so many answers.
pub fn outs_for(alloc: Global, number: usize) -> Result<Vec<Out>, NoMemory>
    ensures { IfOk result (λ outs. outs.items ≡ []) }
{
    let outs = Vec::with_capacity(alloc, number)?;
    Ok(outs)
}

/// Room for so many members.
pub fn members_for(alloc: Global, number: usize) -> Result<Vec<Member>, NoMemory>
    ensures { IfOk result (λ members. members.items ≡ []) }
{
    let members = Vec::with_capacity(alloc, number)?;
    Ok(members)
}

pub fn put_out(outs: &mut Vec<Out>, out: Out) -> Result<(), NoMemory>
    ensures { OnOk result (outs.new.items ≡ outs.old.items ++ out ∷ []) }
{
    outs.push(out)?;
    Ok(())
}

pub fn put_named(
    alloc: Global,
    members: &mut Vec<Member>,
    name: &Text,
    value: Out,
) -> Result<(), NoMemory>
    ensures { OnOk result (members.new.items ≡ members.old.items ++ member name.now value ∷ []) }
{
    members.push(Member::new(alloc, name.as_str(), value)?)?;
    Ok(())
}

pub fn put_documents(members: &mut Vec<Member>, documents: u64) -> Result<(), NoMemory>
    ensures { OnOk result (members.new.items ≡ members.old.items ++ member (codes "doc_count") (number (pos documents)) ∷ []) }
{
    members.push(Member::fixed("doc_count", Out::Num(i128::from(documents))))?;
    Ok(())
}
