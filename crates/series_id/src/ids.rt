//! Ids of documents.
ghost use Rattle.std.specs.Prelude.{◌≡◌, ℕ, ℤ, List, IfOk, IfSome, IsNone, IsSomeAnd};
ghost use Rattle.row_cells.specs.Dimensions.{IsKey};
ghost use Rattle.time_text.specs.Instant.{IsInstant};
ghost use Rattle.series_id.specs.Ids.{SameDocument, id_bytes, id_of};

use crate::base64url;
use edge_face::{LAST_INSTANT, NoMemory, Text};
use row_cells::Key;
use std::alloc::Global;

/// The id of the document of a series and an instant: base64 for URLs, without padding, of the key and of the
/// time in eight bytes with the highest first.
pub fn id_text(alloc: Global, key: &Key, time: i64) -> Result<Text, NoMemory>
    requires { IsInstant time }
    ensures { IfOk result (λ text. text ≡ id_of key.now time) }
{
    let series = key.bytes();
    let mut bytes = Vec::with_capacity(alloc, series.len() + 8)?;
    bytes.extend_from_slice(series)?;
    bytes.extend_from_slice(&time.unsigned_abs().to_be_bytes())?;
    base64url::encode(alloc, bytes.as_slice())
}

/// What an id names: the document of a series and an instant.
#[derive(Debug, Drop)]
pub struct Named {
    pub key: Key,
    /// Milliseconds since 1970 began, in UTC.
    pub time: i64,
}

/// The bytes of an id, cut before the time.
#[derive(Clone, Copy)]
struct Cut<'a> {
    key: &'a [u8],
    time: i64,
}

fn cut_time(bytes: &[u8]) -> Option<Cut<'_>>
    ensures some { IfSome result (λ cut. (bytes.now ≡ id_bytes cut.key.now cut.time) × IsInstant cut.time) }
    ensures none { IsNone result →
        (key : List ℕ) (time : ℤ) → IsInstant time → bytes.now ≡ id_bytes key time → ⊥ }
{
    let (key, time) = bytes.split_last_chunk::<8>()?;
    let time = u64::from_be_bytes(*time);
    if time > LAST_INSTANT as u64 {
        return None;
    }
    Some(Cut {
        key,
        time: time as i64,
    })
}

fn read_bytes(alloc: Global, bytes: &[u8]) -> Result<Option<Named>, NoMemory>
    ensures some { IfOk result (λ found. IfSome found (λ named.
        (bytes.now ≡ id_bytes named.key named.time) × IsKey named.key × IsInstant named.time)) }
    ensures none { IfOk result (λ found. IsNone found →
        (key : List ℕ) (time : ℤ) → IsKey key → IsInstant time → bytes.now ≡ id_bytes key time → ⊥) }
{
    let Some(cut) = cut_time(bytes) else {
        return Ok(None);
    };
    let Some(key) = Key::read(alloc, cut.key)? else {
        return Ok(None);
    };
    Ok(Some(Named {
        key,
        time: cut.time,
    }))
}

fn read_named(alloc: Global, text: &str) -> Result<Option<Named>, NoMemory>
    ensures some { IfOk result (λ found. IfSome found (λ named.
        (text.now ≡ id_of named.key named.time) × IsKey named.key × IsInstant named.time)) }
    ensures none { IfOk result (λ found. IsNone found →
        (key : List ℕ) (time : ℤ) → IsKey key → IsInstant time → text.now ≡ id_of key time → ⊥) }
{
    let Some(bytes) = base64url::decode(alloc, text)? else {
        return Ok(None);
    };
    let named = read_bytes(alloc, bytes.as_slice())?;
    Ok(named)
}

/// What the text names, or None exactly where it is the id of no key and instant. An id that was written is read as
/// what it was written of.
pub fn read_id(alloc: Global, text: &str) -> Result<Option<Named>, NoMemory>
    ensures some { IfOk result (λ found. IfSome found (λ named.
        (text.now ≡ id_of named.key named.time) × IsKey named.key × IsInstant named.time)) }
    ensures back { (key : List ℕ) (time : ℤ) → IsKey key → IsInstant time → text.now ≡ id_of key time →
        IfOk result (λ found. IsSomeAnd found (λ named. (named.key ≡ key) × (named.time ≡ time))) }
    ensures none { IfOk result (λ found. IsNone found →
        (key : List ℕ) (time : ℤ) → IsKey key → IsInstant time → text.now ≡ id_of key time → ⊥) }
{
    let found = read_named(alloc, text)?;
    Ok(found)
}

/// The law that an id tells its document: of two keys and instants with equal ids the keys are equal, and so are
/// the instants. So what is read from an id that was written is what it was written of.
pub fn ids_tell_documents()
    ensures { (k l : List ℕ) (t u : ℤ) → IsKey k → IsKey l → IsInstant t → IsInstant u →
        id_of k t ≡ id_of l u → SameDocument k l t u }
{}
