//! Shards of series.
ghost use Rattle.std.specs.Prelude.{◌≡◌, ◌<◌, ◌≤◌, List, length};
ghost use Rattle.row_cells.specs.Dimensions.{AreDimensions, Dimension, IsKey, key_bytes};
ghost use Rattle.row_cells.specs.Fitting.{FieldsAscend};
ghost use Rattle.shard_route.specs.Routing.{shard_of_key, shard_with};
ghost use Rattle.row_cells.specs.Mapped.{PlacesAscend};

use crate::routing::routing_hash;
use row_cells::{Key, Schema};

/// The shard of a series, from 0 to one below their number: FNV-1a of 64 bits over the bytes of the dimensions
/// whose paths are those of routing fields, modulo the number. A routing field that is no dimension of the series
/// adds nothing. Fields and routing fields ascend, so that one walk over the key beside them is enough.
pub fn shard_of(key: &Key, schema: &Schema, shards: u32) -> u32
    requires some { 1 ≤ shards }
    requires fields { FieldsAscend schema.now.fields }
    requires routing { PlacesAscend (length schema.now.fields) schema.now.routing }
    ensures is { result ≡ shard_of_key schema.now key.now shards }
    ensures shard { (ds : List Dimension) → AreDimensions ds → key_bytes ds ≡ key.now →
        result ≡ shard_with schema.now ds shards }
    ensures key { IsKey key.now }
    ensures within { result < shards }
{
    let hash = routing_hash(
        key.bytes(),
        schema.fields.as_slice(),
        schema.routing.as_slice(),
    );
    (hash % u64::from(shards)) as u32
}
