//! Query parameters (the URL Standard's `application/x-www-form-urlencoded`).
ghost use Rattle.std.specs.Prelude.{◌≡◌, IfOk};
ghost use Rattle.rest_request.specs.Query.{are_known as are_all_known, is_known as is_known_name};

use edge_face::NoMemory;
use form_urlencoded::{decode, raw_pairs};
use std::alloc::Global;

/// Whether an encoded name is one of a parameter that is taken.
#[tactic(auto, unfolding(crate::specs::Query::is_known))]
fn is_known(alloc: Global, name: &[u8]) -> Result<bool, NoMemory>
    ensures { IfOk result (λ known. known ≡ is_known_name name.now) }
{
    let text = decode(alloc, name)?;
    Ok(text.as_bytes() == b"refresh".as_slice() || text.as_bytes() == b"pretty".as_slice())
}

/// Whether all parameters of a query are `refresh` and `pretty`, each any number of times and with any value.
#[tactic(auto, unfolding(crate::specs::Query::are_known))]
pub fn are_known(alloc: Global, query: &str) -> Result<bool, NoMemory>
    ensures { IfOk result (λ known. known ≡ are_all_known query.now) }
{
    for (name, _) in raw_pairs(query.as_bytes()) {
        if !is_known(alloc, name)? {
            return Ok(false);
        }
    }
    Ok(true)
}
