//! Lines of a body.
ghost use Rattle.std.specs.Prelude.{◌≡◌, ◌<◌, ◌≤◌, ◌+◌, length, take, drop};
ghost use Rattle.std.specs.Io.BufRead.{strip_last};
ghost use Rattle.edge_face.specs.Lines.{piece_of, after_piece, IsFirstNewline};
ghost use Rattle.bulk_json.specs.Lines.{line_in};

use memchr::memchr;

/// The first line of some bytes, and what follows it.
#[derive(Clone, Copy)]
pub struct Cut<'a> {
    pub line: &'a [u8],
    pub rest: &'a [u8],
}

fn newline(bytes: &[u8]) -> Option<usize>
    ensures { IsFirstNewline bytes.now result }
{
    memchr(b'\n', bytes)
}

/// How many bytes the first piece has, with its newline.
fn piece_len(bytes: &[u8]) -> usize
    ensures piece { take result bytes.now ≡ piece_of bytes.now }
    ensures after { drop result bytes.now ≡ after_piece bytes.now }
    ensures within { result ≤ length bytes.now }
    ensures some { 0 < length bytes.now → 0 < result }
{
    match newline(bytes) {
        Some(at) => at + 1,
        None => bytes.len(),
    }
}

/// The bytes without a carriage return at their end.
fn without_return(bytes: &[u8]) -> &[u8]
    ensures { result.now ≡ strip_last 13 bytes.now }
{
    match bytes.split_last() {
        Some((last, front)) if *last == b'\r' => front,
        _ => bytes,
    }
}

/// The line of a piece. A carriage return goes only where a newline follows it.
#[tactic(auto, unfolding(crate::specs::Lines::line_in))]
fn line_of(piece: &[u8]) -> &[u8]
    ensures { result.now ≡ line_in piece.now }
{
    match piece.split_last() {
        Some((last, front)) if *last == b'\n' => without_return(front),
        _ => piece,
    }
}

/// Cuts the first line off.
pub fn first_line(bytes: &[u8]) -> Cut<'_>
    ensures line { result.line.now ≡ line_in (piece_of bytes.now) }
    ensures rest { result.rest.now ≡ after_piece bytes.now }
    ensures short { 0 < length bytes.now → length result.rest.now < length bytes.now }
{
    let (piece, rest) = bytes.split_at(piece_len(bytes));
    Cut {
        line: line_of(piece),
        rest,
    }
}
