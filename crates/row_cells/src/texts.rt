//! Texts behind two bytes of their length.
ghost use Rattle.std.specs.Prelude.{◌≡◌, ℕ, List, ◌++◌, ◌<◌, ◌^◌, length, IfSome, IsNone, IsSomeAnd};
ghost use Rattle.row_cells.specs.Dimensions.{text_bytes};
ghost use Rattle.row_cells.specs.Texts.{Reads, text_at};

/// A text that bytes begin with, and what follows it.
#[derive(Clone, Copy)]
pub struct TextAt<'a> {
    pub text: &'a [u8],
    pub rest: &'a [u8],
}

/// The text that bytes begin with, of which two bytes in front give the length, the high one first. None where there
/// are fewer bytes than that.
#[tactic(auto, unfolding(crate::specs::Texts::text_at))]
pub fn read_text(bytes: &[u8]) -> Option<TextAt<'_>>
    ensures is { Reads (λ read. (read.text.now, read.rest.now)) result (text_at bytes.now) }
    ensures some { IfSome result (λ piece.
        (bytes.now ≡ text_bytes piece.text.now ++ piece.rest.now) × (length piece.text.now < 2 ^ 16)) }
    ensures none { IsNone result →
        (text rest : List ℕ) → length text < 2 ^ 16 → bytes.now ≡ text_bytes text ++ rest → ⊥ }
    ensures reads { (text rest : List ℕ) → length text < 2 ^ 16 → bytes.now ≡ text_bytes text ++ rest →
        IsSomeAnd result (λ piece. (piece.text.now ≡ text) × (piece.rest.now ≡ rest)) }
    ensures shorter { IfSome result (λ piece. length piece.rest.now < length bytes.now) }
{
    let (head, rest) = bytes.split_first_chunk::<2>()?;
    let count = u16::from_be_bytes(*head) as usize;
    if rest.len() < count {
        return None;
    }
    let (text, rest) = rest.split_at(count);
    Some(TextAt { text, rest })
}
