//! Rows to documents.
ghost use Rattle.std.specs.Prelude.{◌≡◌, [], ◌++◌, false, IfOk, OnOk};
ghost use Rattle.row_cells.specs.Fitting.{Fits};
ghost use Rattle.ts_mapping.specs.Schemas.{IsTemplateSchema};
ghost use Rattle.time_text.specs.Instant.{IsInstant};
ghost use Rattle.serde_json.specs.View.{view};
ghost use Rattle.synthetic_source.specs.Contents.{AreShowable, IsShowable};
ghost use Rattle.synthetic_source.specs.Levels.{levels};
ghost use Rattle.synthetic_source.specs.Normal.{count_shown, norm, shown_cell, shown_field, shown_of, shown_row};
ghost use Rattle.synthetic_source.specs.Replies.{out_members, out_of};
ghost use Rattle.synthetic_source.specs.Seen.{seen_all, with_content};

use crate::content::Content;
use crate::contents::content_out;
use crate::groups::{Entry, groups_of};
use crate::tree_values::tree_value;
use crate::what::What;
use edge_face::{NoMemory, Text};
use reply_json::{Member, Out};
use row_cells::{Cell, Field, Role, Row, Schema};
use serde_json::Value;
use sqlite_items::Items;
use std::alloc::Global;

// The members of a level.
fn members_out(alloc: Global, entries: &[Entry<'_>]) -> Result<Vec<Member>, NoMemory>
    ensures { IfOk result (λ members. members.items ≡ out_members (levels (seen_all entries.now))) }
{
    let groups = groups_of(alloc, entries)?;
    let mut members = Vec::with_capacity(alloc, groups.len())?;
    for group in &groups {
        let value = match group.content {
            Some(content) => content_out(alloc, content)?,
            None => Out::Object(Items::from_vec(members_out(alloc, group.below.as_slice())?)),
        };
        let name = Text::new(alloc, group.name)?;
        members.push(Member { name, value })?;
    }
    Ok(members)
}

// The content of a field, where it has a value.
fn content_of<'a>(time: i64, field: &Field, cell: &'a Cell) -> Option<Content<'a>>
    requires instant { IsInstant time }
    requires dated { IsShowable field.now.kind cell.now }
    ensures { with_content field.now.path result [] ≡ shown_field time field.now cell.now [] }
{
    match field.role {
        Role::Time => Some(Content {
            what: What::Moment(time),
        }),
        _ => held(field, cell),
    }
}

fn held<'a>(field: &Field, cell: &'a Cell) -> Option<Content<'a>>
    requires { IsShowable field.now.kind cell.now }
    ensures { with_content field.now.path result [] ≡ shown_cell field.now.path field.now.kind cell.now [] }
{
    match cell {
        Cell::Absent => None,
        _ => Some(Content {
            what: What::Held(field.kind, cell),
        }),
    }
}

fn push_field<'a>(
    entries: &mut Vec<Entry<'a>>,
    time: i64,
    field: &'a Field,
    cell: &'a Cell,
) -> Result<(), NoMemory>
    requires instant { IsInstant time }
    requires dated { IsShowable field.now.kind cell.now }
    ensures { OnOk result (seen_all entries.new.items
        ≡ seen_all entries.old.items ++ shown_field time field.now cell.now []) }
{
    match content_of(time, field, cell) {
        None => Ok(()),
        Some(content) => {
            let path = field.path.as_str();
            entries.push(Entry { path, content })?;
            Ok(())
        }
    }
}

// The fields that have a value.
#[tactic(auto, using(crate::proofs::Rows::field_in_front))]
fn entries_of<'a>(
    alloc: Global,
    time: i64,
    fields: &'a [Field],
    cells: &'a [Cell],
) -> Result<Vec<Entry<'a>>, NoMemory>
    requires instant { IsInstant time }
    requires dated { AreShowable fields.now cells.now }
    ensures { IfOk result (λ entries. seen_all entries.items ≡ shown_of time fields.now cells.now) }
{
    let mut entries = Vec::with_capacity(alloc, fields.len())?;
    for i in 0..fields.len() {
        push_field(&mut entries, time, &fields[i], &cells[i])?;
    }
    Ok(entries)
}

fn push_count(entries: &mut Vec<Entry<'_>>, folded: bool, count: u64) -> Result<(), NoMemory>
    ensures { OnOk result (seen_all entries.new.items ≡ seen_all entries.old.items ++ count_shown folded count) }
{
    if !folded {
        return Ok(());
    }
    let content = Content {
        what: What::Count(count),
    };
    entries.push(Entry {
        path: "_doc_count",
        content,
    })?;
    Ok(())
}

#[tactic(auto, using(crate::proofs::Rows::cells_showable))]
fn all_entries<'a>(
    alloc: Global,
    schema: &'a Schema,
    row: &'a Row,
) -> Result<Vec<Entry<'a>>, NoMemory>
    requires { Fits schema.now row.now }
    ensures { IfOk result (λ entries. seen_all entries.items ≡ shown_row schema.now row.now) }
{
    let mut entries = entries_of(
        alloc,
        row.time,
        schema.fields.as_slice(),
        row.cells.as_slice(),
    )?;
    push_count(&mut entries, schema.folded, row.count)?;
    Ok(entries)
}

/// The document that a row stands for, as a reply: its normal form.
///
/// Names stand in byte order at each level. A field without value is left out, one value stands bare and more as a list. A date
/// is `YYYY-MM-DDThh:mm:ss.mmmZ`, an aggregate and a folded gauge an object of `max`, `min`, `sum` and `value_count`, and a rise
/// stands for its last value. A row of a folded schema has `_doc_count` besides.
#[tactic(auto, unfolding(crate::specs::Normal::norm))]
pub fn rebuild(alloc: Global, schema: &Schema, row: &Row) -> Result<Out, NoMemory>
    requires schema { IsTemplateSchema schema.now }
    requires fits { Fits schema.now row.now }
    ensures { IfOk result (λ out. out ≡ out_of (norm schema.now row.now)) }
{
    let entries = all_entries(alloc, schema, row)?;
    let members = members_out(alloc, entries.as_slice())?;
    Ok(Out::Object(Items::from_vec(members)))
}

/// The document that a row of a raw schema stands for, as a value: its normal form.
#[tactic(auto, using(crate::proofs::ValueTrees::row_value))]
pub fn rebuild_value(alloc: Global, schema: &Schema, row: &Row) -> Result<Value, NoMemory>
    requires schema { IsTemplateSchema schema.now }
    requires raw { schema.now.folded ≡ false }
    requires fits { Fits schema.now row.now }
    ensures { IfOk result (λ v. view v ≡ norm schema.now row.now) }
{
    let out = rebuild(alloc, schema, row)?;
    let value = tree_value(alloc, &out)?;
    Ok(value)
}
