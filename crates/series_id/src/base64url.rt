//! Base64 with the alphabet for URLs and without padding, as in RFC 4648.
ghost use Rattle.std.specs.Prelude.{◌≡◌, ℕ, List, IfOk, IfSome, IsSomeAnd};
ghost use Rattle.series_id.specs.Ids.{AreBytes, base64url};

use base64::DecodeAllocError;
use base64::engine::general_purpose::URL_SAFE_NO_PAD;
use edge_face::{NoMemory, Text};
use std::alloc::Global;

pub fn encode(alloc: Global, bytes: &[u8]) -> Result<Text, NoMemory>
    ensures { IfOk result (λ text. text ≡ base64url bytes.now) }
{
    let text = URL_SAFE_NO_PAD.encode(alloc, bytes)?;
    Ok(Text::from_string(text))
}

/// The bytes that the text spells, or None exactly where it spells none.
pub fn decode(alloc: Global, text: &str) -> Result<Option<Vec<u8>>, NoMemory>
    ensures some { IfOk result (λ found. IfSome found (λ bytes. text.now ≡ base64url bytes.items)) }
    ensures back { (bytes : List ℕ) → AreBytes bytes → text.now ≡ base64url bytes →
        IfOk result (λ found. IsSomeAnd found (λ read. read.items ≡ bytes)) }
{
    match URL_SAFE_NO_PAD.decode(alloc, text.as_bytes()) {
        Ok(bytes) => Ok(Some(bytes)),
        Err(DecodeAllocError::OutOfMemory) => Err(NoMemory),
        Err(DecodeAllocError::DecodeError(_)) => Ok(None),
    }
}
