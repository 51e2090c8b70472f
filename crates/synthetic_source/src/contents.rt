// What a field shows, as replies.
ghost use Rattle.std.specs.Prelude.{◌≡◌, codes, IfOk};
ghost use Rattle.time_text.specs.Instant.{IsInstant};
ghost use Rattle.time_text.specs.Printed.{instant_text};
ghost use Rattle.reply_json.specs.declared.out.Out.{Word as word};
ghost use Rattle.serde_json.specs.Data.{member as pair, no_members, number as numeral, string};
ghost use Rattle.serde_json.specs.Find.{of_integer};
ghost use Rattle.synthetic_source.specs.Contents.{AreDated, IsDated, IsDatedNumber, IsShowable};
ghost use Rattle.synthetic_source.specs.Normal.{cell_data, list_data, parts_data, scalar_data, whole_data};
ghost use Rattle.synthetic_source.specs.Replies.{out_members, out_of};
ghost use Rattle.synthetic_source.specs.Seen.{content_data};

use crate::content::Content;
use crate::what::What;
use edge_face::NoMemory;
use fold_law::Parts;
use reply_json::{Members, Out};
use row_cells::{Cell, FieldType, Scalar};
use std::alloc::Global;
use time_text::{print_instant, printed_str};

fn instant_out(alloc: Global, time: i64) -> Result<Out, NoMemory>
    requires { IsInstant time }
    ensures { IfOk result (λ out. out ≡ word (instant_text time)) }
{
    let printed = print_instant(time);
    let out = Out::word(alloc, printed_str(&printed))?;
    Ok(out)
}

#[tactic(auto, using(crate::proofs::Numbers::number_shown))]
fn number_out(value: i128) -> Out
    ensures { result ≡ out_of (numeral (of_integer value)) }
{
    Out::Num(value)
}

fn whole_out(alloc: Global, kind: FieldType, number: i64) -> Result<Out, NoMemory>
    requires { IsDatedNumber kind number }
    ensures { IfOk result (λ out. out ≡ out_of (whole_data kind number)) }
{
    match kind {
        FieldType::Date => instant_out(alloc, number),
        _ => Ok(number_out(i128::from(number))),
    }
}

fn scalar_out(alloc: Global, kind: FieldType, value: &Scalar) -> Result<Out, NoMemory>
    requires { IsDated kind value.now }
    ensures { IfOk result (λ out. out ≡ out_of (scalar_data kind value.now)) }
{
    match value {
        Scalar::Whole(number) => whole_out(alloc, kind, *number),
        Scalar::Flag(flag) => Ok(Out::Flag(*flag)),
        Scalar::Word(text) => Ok(Out::Word(text.copy(alloc)?)),
    }
}

fn list_out(alloc: Global, kind: FieldType, values: &[Scalar]) -> Result<Out, NoMemory>
    requires { AreDated kind values.now }
    ensures { IfOk result (λ out. out ≡ out_of (list_data kind values.now)) }
{
    match values {
        [] => Ok(Out::Null),
        [value] => scalar_out(alloc, kind, value),
        _ => {
            let mut elements = Vec::with_capacity(alloc, values.len())?;
            for value in values {
                elements.push(scalar_out(alloc, kind, value)?)?;
            }
            Ok(Out::list(elements))
        }
    }
}

// The least and the greatest value, in the order of their names.
fn bounds_out(alloc: Global, parts: &Parts) -> Result<Members, NoMemory>
    ensures { IfOk result (λ members. members ≡ out_members (
        pair (codes "max") (numeral (of_integer parts.now.max)) (
        pair (codes "min") (numeral (of_integer parts.now.min)) no_members))) }
{
    let members = Members::new(alloc)
        .with("max", number_out(i128::from(parts.max)))?
        .with("min", number_out(i128::from(parts.min)))?;
    Ok(members)
}

fn parts_out(alloc: Global, parts: &Parts) -> Result<Out, NoMemory>
    ensures { IfOk result (λ out. out ≡ out_of (parts_data parts.now)) }
{
    let members = bounds_out(alloc, parts)?
        .with("sum", number_out(parts.sum))?
        .with("value_count", number_out(parts.count))?;
    Ok(members.object())
}

fn cell_out(alloc: Global, kind: FieldType, cell: &Cell) -> Result<Out, NoMemory>
    requires { IsShowable kind cell.now }
    ensures { IfOk result (λ out. out ≡ out_of (cell_data kind cell.now)) }
{
    match cell {
        Cell::Absent => Ok(Out::Null),
        Cell::One(value) => scalar_out(alloc, kind, value),
        Cell::Many(values) => list_out(alloc, kind, values.as_slice()),
        Cell::Gauge(parts) => parts_out(alloc, parts),
        Cell::Rise(rise) => whole_out(alloc, kind, rise.last),
    }
}

/// The reply tree of what a field shows.
pub fn content_out(alloc: Global, content: Content<'_>) -> Result<Out, NoMemory>
    ensures { IfOk result (λ out. out ≡ out_of (content_data content.entry)) }
{
    match content.what {
        What::Moment(time) => instant_out(alloc, time),
        What::Count(count) => Ok(number_out(i128::from(count))),
        What::Held(kind, cell) => cell_out(alloc, kind, cell),
    }
}
