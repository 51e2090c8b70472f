//! Lines of a source, in whatever pieces its bytes come.
ghost use Rattle.std.specs.Prelude.{◌≡◌, ◌≢◌, ◌⊎◌, false, true, ℕ, ◌+◌, ◌<◌, ◌≤◌, List, [], length, take, drop, IfOk, IfErr, IfSome, IfNone, OnErr, OnOk, Ok, Err, None, Some};
ghost use Rattle.std.specs.Io.BufRead.{strip_last};
ghost use Rattle.edge_face.specs.Limits.{input_limit};
ghost use Rattle.edge_face.specs.Lines.{line_of, HasNoNewline};
ghost use Rattle.edge_face.specs.Waiting.{KnowsEnd, Grew};

use crate::device::Source;
use crate::limits::{INPUT_LIMIT, LINE_LIMIT};
use crate::text::{Bytes, NoMemory};
use crate::window::{NoPiece, Window};
use std::alloc::Global;
use std::marker::Model;
use thiserror::Error;

/// A window for lines: one byte more than a line may have before its newline.
const LINE_CAPACITY: usize = LINE_LIMIT as usize + 1;

/// Why a reader gives no line.
#[derive(Clone, Copy, Debug, PartialEq, Eq, Error)]
pub enum LineError {
    /// The source failed. Every later call answers the same.
    #[error("the source failed")]
    Read,
    /// The next line, or the input up to its end, has at least so many bytes. Every later call answers the same.
    #[error("the input is too long: {bytes} bytes")]
    TooLong { bytes: u64 },
    /// There was no memory for the line. Nothing is lost: the next call goes on.
    #[error("out of memory")]
    NoMemory,
}

impl From<NoMemory> for LineError {
    ghost use Rattle.std.specs.Prelude.{◌≡◌};
    ghost use Rattle.edge_face.specs.declared.reader.LineError.TheVariants.{NoMemory as OutOfMemory};

    ghost from_gives = { λ _ e. e ≡ OutOfMemory };

    fn from(_: NoMemory) -> LineError {
        LineError::NoMemory
    }
}

/// Reads lines: what lies between newlines, without one carriage return at a line's end.
///
/// All memory but that of the lines is taken when it is made.
#[derive(Drop)]
pub struct LineReader {
    window: Window,
    answered: u64,
    refused: Option<LineError>,
}

impl Model for LineReader {
    ghost use Rattle.std.specs.Prelude.{◌≡◌, ◌≢◌, ◌+◌, ◌≤◌, Some};
    ghost use Rattle.edge_face.specs.Limits.{line_limit, input_limit};
    ghost use Rattle.edge_face.specs.declared.reader.LineError.TheVariants.{NoMemory};
    ghost use Rattle.edge_face.specs.Reading.{Reading};

    ghost Value = { Reading };

    ghost view = { λ r. record { pending = r.window.bytes; answered = r.answered; refused = r.refused; ended = r.window.ended } };

    ghost invariant = { λ r. (r.answered ≤ input_limit) × (r.refused ≢ Some NoMemory) × (r.window.capacity ≡ line_limit + 1) };
}

/// The bytes without their last one, if that is `end`.
fn without(end: u8, bytes: &[u8]) -> &[u8]
    ensures { result.now ≡ strip_last end bytes.now }
{
    match bytes.split_last() {
        Some((last, front)) if *last == end => front,
        _ => bytes,
    }
}

impl LineReader {
    ghost use Rattle.edge_face.specs.Reading.{Reading, ShowsLine, TakesLine, HasEnded, CauseOf, left_of};

    pub fn new(alloc: Global) -> Result<LineReader, NoMemory>
        ensures { IfOk result (λ reader. reader ≡ record { pending = []; answered = 0; refused = None; ended = false }) }
    {
        Ok(LineReader {
            window: Window::new(alloc, LINE_CAPACITY)?,
            answered: 0,
            refused: None,
        })
    }

    /// Finds the next line, and answers how many bytes it has with its end: 0 where no line is left. It takes no memory.
    ///
    /// Where a newline waits already the source isn't asked, so that a peer's line is answered before its next one comes.
    ///
    /// `line` lends the line, and `pass` goes on behind it.
    #[tactic(auto, using(crate::proofs::ReadingLemmas::too_long_full))]
    pub fn find_line<S: Source>(&mut self, source: &mut S) -> Result<usize, LineError>
        requires { KnowsEnd self.old.ended (S.left source.old) }
        ensures kept { left_of self.new (S.left source.new) ≡ left_of self.old (S.left source.old) }
        ensures grew { Grew self.old.pending self.new.pending (S.left source.old) (S.left source.new) }
        ensures knows { KnowsEnd self.new.ended (S.left source.new) }
        ensures still { self.new.ended ≡ false → self.old.ended ≡ false }
        ensures asks_no_more { self.old.ended ≡ true → source.new ≡ source.old }
        ensures stays { self.old.ended ≡ true → self.new.pending ≡ self.old.pending }
        ensures counted { self.new.answered ≡ self.old.answered }
        ensures within { self.new.answered ≤ input_limit }
        ensures found { IfOk result (λ n. ShowsLine n self.new (S.left source.new)) }
        ensures refused { IfErr result (λ e. self.new.refused ≡ Some e) }
        ensures cause { self.old.refused ≡ None → IfErr result (λ e. CauseOf e self.new (S.left source.new) (S.faults source.old) (S.faults source.new)) }
        ensures again { IfSome self.old.refused (λ e. result ≡ Err e) }
        ensures untouched { IfSome self.old.refused (λ _. (self.new ≡ self.old) × (source.new ≡ source.old)) }
        ensures waits { HasNoNewline self.old.pending ⊎ (source.new ≡ source.old) }
        ensures memory { result ≢ Err LineError.NoMemory }
        ensures faults { S.faults source.old ≤ S.faults source.new }
        ensures beside { S.beside source.new ≡ S.beside source.old }
    {
        if let Some(refused) = self.refused {
            return Err(refused);
        }
        match self.window.next_piece(source) {
            Ok(piece) if self.answered + piece as u64 > INPUT_LIMIT => {
                self.refused = Some(LineError::TooLong {
                    bytes: INPUT_LIMIT + 1,
                });
                Err(LineError::TooLong {
                    bytes: INPUT_LIMIT + 1,
                })
            }
            Ok(piece) => Ok(piece),
            Err(NoPiece::Full) => {
                self.refused = Some(LineError::TooLong {
                    bytes: LINE_LIMIT + 1,
                });
                Err(LineError::TooLong {
                    bytes: LINE_LIMIT + 1,
                })
            }
            Err(NoPiece::Failed) => {
                self.refused = Some(LineError::Read);
                Err(LineError::Read)
            }
        }
    }

    /// The line in the first bytes that wait, without its newline and one carriage return.
    #[tactic(auto, unfolding(crate::specs::Lines::line_of))]
    pub fn line(&self, piece: usize) -> &[u8]
        requires { piece ≤ length self.now.pending }
        ensures { result.now ≡ line_of (take piece self.now.pending) }
    {
        without(b'\r', without(b'\n', self.window.front(piece)))
    }

    /// Lets a line go, with its end.
    pub fn pass(&mut self, piece: usize)
        requires inside { piece ≤ length self.old.pending }
        requires within { self.old.answered + piece ≤ input_limit }
        ensures { self.new ≡ record { pending = drop piece self.old.pending; answered = self.old.answered + piece; refused = self.old.refused; ended = self.old.ended } }
    {
        self.window.pass(piece);
        self.answered += piece as u64;
    }

    /// The next line, or none at the end of the input. A last line without newline is a line.
    pub fn next_line<S: Source>(
        &mut self,
        alloc: Global,
        source: &mut S,
    ) -> Result<Option<Bytes>, LineError>
        requires { KnowsEnd self.old.ended (S.left source.old) }
        ensures line { IfOk result (λ found. IfSome found (λ line. TakesLine line self.old self.new (S.left source.old) (S.left source.new))) }
        ensures end { IfOk result (λ found. IfNone found (HasEnded self.old self.new (S.left source.old) (S.left source.new))) }
        ensures lost { OnErr result (left_of self.new (S.left source.new) ≡ left_of self.old (S.left source.old)) }
        ensures grew { OnErr result (Grew self.old.pending self.new.pending (S.left source.old) (S.left source.new)) }
        ensures knows { KnowsEnd self.new.ended (S.left source.new) }
        ensures still { self.new.ended ≡ false → self.old.ended ≡ false }
        ensures asks_no_more { self.old.ended ≡ true → source.new ≡ source.old }
        ensures stays { self.old.ended ≡ true → OnErr result (self.new.pending ≡ self.old.pending) }
        ensures counted { OnErr result (self.new.answered ≡ self.old.answered) }
        ensures refused { IfErr result (λ e. e ≢ LineError.NoMemory → self.new.refused ≡ Some e) }
        ensures goes_on { result ≡ Err LineError.NoMemory → self.new.refused ≡ None }
        ensures cause { self.old.refused ≡ None → IfErr result (λ e. CauseOf e self.new (S.left source.new) (S.faults source.old) (S.faults source.new)) }
        ensures again { IfSome self.old.refused (λ e. result ≡ Err e) }
        ensures untouched { IfSome self.old.refused (λ _. (self.new ≡ self.old) × (source.new ≡ source.old)) }
        ensures waits { HasNoNewline self.old.pending ⊎ (source.new ≡ source.old) }
        ensures faults { S.faults source.old ≤ S.faults source.new }
        ensures beside { S.beside source.new ≡ S.beside source.old }
    {
        let piece = self.find_line(source)?;
        if piece == 0 {
            return Ok(None);
        }
        let line = Bytes::new(alloc, self.line(piece))?;
        self.pass(piece);
        Ok(Some(line))
    }
}
