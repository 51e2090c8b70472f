//! Bodies read as sorts.
ghost use Rattle.std.specs.Prelude.{◌≡◌, IfOk, IfErr};
ghost use Rattle.std.specs.declared.result.Result.TheVariants.{Ok};
ghost use Rattle.serde_json.specs.View.{view};
ghost use Rattle.hits_page.specs.Sorts as spec;
ghost use Rattle.hits_page.specs.Sorts.{IsSortCause, keys_of, sort_of};

use crate::counting::next_place;
use crate::entries::{Entry, entries_of};
use crate::pager::PageError;
use crate::sort_keys::SortKey;
use edge_face::NoMemory;
use row_cells::{Field, Role, Schema};
use serde_json::Value;
use sqlite_items::Items;
use std::alloc::Global;

fn is_sortable(role: Role) -> bool
    ensures { result ≡ spec.is_sortable role }
{
    match role {
        Role::Time | Role::Dimension | Role::Gauge | Role::Counter => true,
        Role::Label => false,
    }
}

/// The place of the field of a path, where rows can be sorted by it.
fn sort_place(fields: &[Field], path: &str) -> Result<Option<u32>, NoMemory>
    ensures { IfOk result (λ place. place ≡ spec.place_from 0 path.now fields.now) }
{
    let mut at = 0;
    for field in fields {
        if field.path.as_str() == path {
            if is_sortable(field.role) {
                return Ok(Some(at));
            }
            return Ok(None);
        }
        at = next_place(at)?;
    }
    Ok(None)
}

/// The key of an entry.
fn key_of(alloc: Global, fields: &[Field], entry: &Entry) -> Result<SortKey, PageError>
    ensures ok { IfOk result (λ key. spec.key_of fields.now entry.now ≡ Ok key) }
    ensures err { IfErr result (spec.IsCause (spec.key_of fields.now entry.now)) }
{
    let Ok(place) = sort_place(fields, entry.path.as_str()) else {
        return Err(PageError::NoMemory);
    };
    match place {
        Some(field) => Ok(SortKey {
            field,
            rising: entry.rising,
        }),
        None => match entry.path.copy(alloc) {
            Ok(path) => Err(PageError::BadSort { path }),
            Err(_) => Err(PageError::NoMemory),
        },
    }
}

#[tactic(auto, using(crate::proofs::Counted::keys_step))]
fn keys_in(alloc: Global, fields: &[Field], entries: &[Entry]) -> Result<Items<SortKey>, PageError>
    ensures ok { IfOk result (λ keys. keys_of fields.now entries.now ≡ Ok keys) }
    ensures err { IfErr result (IsSortCause (keys_of fields.now entries.now)) }
{
    let mut keys = Items::new(alloc);
    for entry in entries {
        let key = match key_of(alloc, fields, entry) {
            Ok(key) => key,
            Err(e) => return Err(e),
        };
        if keys.push(key).is_err() {
            return Err(PageError::NoMemory);
        }
    }
    Ok(keys)
}

/// Reads the sort of a search: one entry or a list of at most three, each a path, or an object with a path alone and under it
/// `asc`, `desc` or an object with that as `order` alone.
///
/// Rows are sorted by `@timestamp`, dimensions and metrics. A wrong shape is told before a path that is a label's or unmapped, and
/// of several such paths the first.
pub fn read_sort(alloc: Global, body: &Value, schema: &Schema) -> Result<Items<SortKey>, PageError>
    ensures ok { IfOk result (λ keys. sort_of schema.now (view body.now) ≡ Ok keys) }
    ensures err { IfErr result (IsSortCause (sort_of schema.now (view body.now))) }
{
    let Ok(entries) = entries_of(alloc, body) else {
        return Err(PageError::NoMemory);
    };
    match entries {
        None => Err(PageError::Shape),
        Some(entries) => keys_in(alloc, schema.fields.as_slice(), entries.as_slice()),
    }
}
