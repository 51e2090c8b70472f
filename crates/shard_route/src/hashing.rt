//! FNV-1a of 64 bits, as Fowler, Noll and Vo give it.
ghost use Rattle.std.specs.Prelude.{◌≡◌};
ghost use Rattle.shard_route.specs.Routing.{fnv_from};

pub const OFFSET_BASIS: u64 = 14_695_981_039_346_656_037;

const PRIME: u64 = 1_099_511_628_211;

/// The hash goes on over more bytes.
pub fn hash_on(hash: u64, bytes: &[u8]) -> u64
    ensures { result ≡ fnv_from hash bytes.now }
{
    let mut hash = hash;
    for byte in bytes {
        hash = (hash ^ u64::from(*byte)).wrapping_mul(PRIME);
    }
    hash
}
