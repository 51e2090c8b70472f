//! The walk over the entries of a key and the paths of the routing fields, which both ascend.
ghost use Rattle.std.specs.Prelude.{◌≡◌, List};
ghost use Rattle.std.specs.List.{slice_get};
ghost use Rattle.row_cells.specs.Dimensions.{AreDimensions, Dimension, key_bytes};
ghost use Rattle.shard_route.specs.Routing as spec;
ghost use Rattle.shard_route.specs.Routing.{Ascend, Looked, is_among, routing_paths};

use crate::hashing::{OFFSET_BASIS, hash_on};
use edge_face::bytes_order;
use row_cells::{Field, read_entry};
use std::cmp::Ordering;

/// What a look for a path finds: the routing fields that later paths may be among, and whether it is one.
#[derive(Clone, Copy)]
struct Look<'a> {
    left: &'a [u32],
    routes: bool,
}

fn path_of(fields: &[Field], place: u32) -> &[u8]
    ensures { result.now ≡ spec.path_of (slice_get fields.now place) }
{
    match fields.get(place as usize) {
        Some(field) => field.path.as_bytes(),
        None => &[],
    }
}

/// Looks for a path among those of routing fields, and passes those before it.
fn look_for<'a>(fields: &[Field], places: &'a [u32], path: &[u8]) -> Look<'a>
    requires { Ascend (routing_paths fields.now places.now) }
    ensures routes { result.routes ≡ is_among path.now (routing_paths fields.now places.now) }
    ensures looked { Looked path.now (routing_paths fields.now result.left.now) (routing_paths fields.now places.now) }
{
    let mut left = places;
    while let Some((place, rest)) = left.split_first() {
        match bytes_order(path_of(fields, *place), path) {
            Ordering::Less => left = rest,
            Ordering::Equal => {
                return Look {
                    left: rest,
                    routes: true,
                };
            }
            Ordering::Greater => {
                return Look {
                    left,
                    routes: false,
                };
            }
        }
    }
    Look {
        left,
        routes: false,
    }
}

/// The hash of the entries whose paths are among those of routing fields.
pub fn routing_hash(bytes: &[u8], fields: &[Field], places: &[u32]) -> u64
    requires { Ascend (routing_paths fields.now places.now) }
    ensures { (ds : List Dimension) → AreDimensions ds → key_bytes ds ≡ bytes.now →
        result ≡ spec.routing_hash (routing_paths fields.now places.now) ds }
{
    let mut hash = OFFSET_BASIS;
    let mut left = places;
    let mut rest = bytes;
    while let Some(entry) = read_entry(rest) {
        let look = look_for(fields, left, entry.path);
        if look.routes {
            hash = hash_on(hash, entry.bytes);
        }
        left = look.left;
        rest = entry.rest;
    }
    hash
}
