//! The rows of indices as a catalogue in memory holds them.
ghost use Rattle.std.specs.Prelude.{◌≡◌, ◌≤◌, [], IfOk};
ghost use Rattle.ts_mapping.specs.Schemas.{IsTemplateSchema};
ghost use Rattle.tsds_index.specs.Limits.{most_shards};
ghost use Rattle.tsds_index.specs.Spread.{rows_of};

use edge_face::{NoMemory, Text};
use row_cells::{Schema, copy_schema};
use std::alloc::Global;
use tsds_index::TsdsIndex;

/// The rows of an index, under its name.
#[derive(Debug, Drop)]
pub(crate) struct HeldRows {
    pub(crate) name: Text,
    pub(crate) index: TsdsIndex,
}

/// No rows, for a new index of 1 to 64 shards.
pub(crate) fn no_rows(
    alloc: Global,
    name: &Text,
    schema: &Schema,
    shards: u32,
) -> Result<HeldRows, NoMemory>
    requires schema { IsTemplateSchema schema.now }
    requires some { 1 ≤ shards }
    requires few { shards ≤ most_shards }
    ensures name { IfOk result (λ rows. rows.name ≡ name.now) }
    ensures schema { IfOk result (λ rows. rows.index.schema ≡ schema.now) }
    ensures empty { IfOk result (λ rows. rows_of rows.index ≡ []) }
{
    let name = name.copy(alloc)?;
    let schema = copy_schema(alloc, schema)?;
    let index = TsdsIndex::new(alloc, schema, shards)?;
    Ok(HeldRows { name, index })
}
