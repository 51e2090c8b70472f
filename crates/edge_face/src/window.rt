//! A window of bytes that were taken from a source and not yet passed.
ghost use Rattle.std.specs.Prelude.{◌≡◌, ◌≢◌, ◌==◌, false, true, ℕ, ◌+◌, ◌-◌, ◌^◌, ◌<◌, ◌≤◌, ◌↔◌, ◌⊎◌, List, [], ◌++◌, length, take, drop, IsFalse, IfOk, IfErr, IfSome, OnErr, IsTrue, Ok, Err};
ghost use Rattle.std.specs.List.{slice_range};
ghost use Rattle.edge_face.specs.Contents.{preceded, Rose};
ghost use Rattle.edge_face.specs.Waiting.{Waiting, KnowsEnd, Grew};
ghost use Rattle.edge_face.specs.Lines.{NoNewlineBelow, HasNoNewline, IsFirstNewline, ShowsPiece};
ghost use Rattle.std.specs.Io.BufRead.{strip_last};

use crate::device::{Failed, Source};
use crate::text::NoMemory;
use memchr::memchr;
use std::alloc::Global;
use std::marker::Model;

/// The bytes that wait, in one buffer that never grows.
///
/// It holds what was taken and not yet used: lines, or heads and bodies of messages.
///
/// The bytes stand from `start` to `end`. The first `scanned` of them are known to hold no newline, so a line that comes in many
/// pieces is searched once.
#[derive(Drop)]
pub struct Window {
    buffer: Vec<u8>,
    start: usize,
    end: usize,
    scanned: usize,
    ended: bool,
}

/// Why a window shows no whole piece.
#[derive(Clone, Copy, Debug, PartialEq, Eq)]
pub enum NoPiece {
    /// It is full, and no newline stands in it.
    Full,
    /// The source failed, and no newline stands in the window.
    Failed,
}

impl Model for Window {
    ghost Value = { Waiting };

    ghost view = { λ w. record { bytes = slice_range w.buffer.items w.start w.end; ended = w.ended; capacity = length w.buffer.items } };

    ghost invariant = { λ w. (w.start ≤ w.end) × (w.end ≤ length w.buffer.items) × (w.start + w.scanned ≤ w.end)
        × NoNewlineBelow w.scanned (slice_range w.buffer.items w.start w.end) };
}

/// The place of the first newline, where the first `from` bytes hold none.
fn newline_from(bytes: &[u8], from: usize) -> Option<usize>
    requires inside { from ≤ length bytes.now }
    requires none { NoNewlineBelow from bytes.now }
    ensures { IsFirstNewline bytes.now result }
{
    let (_, rest) = bytes.split_at(from);
    let at = memchr(b'\n', rest)?;
    Some(from + at)
}

/// Where bytes stand in a buffer.
#[derive(Clone, Copy)]
struct Span {
    start: usize,
    end: usize,
}

/// Sees to room behind the bytes from `start` to `end`: moves them to the front where they reach the buffer's end.
///
/// Bytes of lines are moved only where they wait for the rest of their line, so each is moved at most once. Who passes other parts than
/// lines may have what waits moved once more whenever it reaches the buffer's end; never where nothing was passed since.
fn room_behind(buffer: &mut Vec<u8>, start: usize, end: usize) -> Span
    requires order { start ≤ end }
    requires inside { end ≤ length buffer.old.items }
    requires room { end - start < length buffer.old.items }
    ensures same { slice_range buffer.new.items result.start result.end ≡ slice_range buffer.old.items start end }
    ensures span { result.start + (end - start) ≡ result.end }
    ensures room { result.end < length buffer.old.items }
    ensures len { length buffer.new.items ≡ length buffer.old.items }
{
    if end < buffer.len() {
        return Span { start, end };
    }
    buffer.copy_within(start..end, 0);
    Span {
        start: 0,
        end: end - start,
    }
}

/// Takes bytes from the source into what stands after `end`.
fn take_after<S: Source>(source: &mut S, buffer: &mut Vec<u8>, end: usize) -> Result<usize, Failed>
    requires { end ≤ length buffer.old.items }
    ensures within { IfOk result (λ n. end + n ≤ length buffer.old.items) }
    ensures len { length buffer.new.items ≡ length buffer.old.items }
    ensures kept { take end buffer.new.items ≡ take end buffer.old.items }
    ensures taken { IfOk result (λ n. S.left source.old ≡ preceded (slice_range buffer.new.items end (end + n)) (S.left source.new)) }
    ensures end { result ≡ Ok 0 → end < length buffer.old.items → IfSome (S.left source.new) (λ rest. rest ≡ []) }
    ensures failed { OnErr result (S.left source.new ≡ S.left source.old) }
    ensures counted { S.faults source.old ≤ S.faults source.new }
    ensures caused { OnErr result (Rose (S.faults source.old) (S.faults source.new)) }
    ensures beside { S.beside source.new ≡ S.beside source.old }
{
    source.take(&mut buffer[end..])
}

impl Window {
    /// An empty window over at most so many bytes, with all the memory that it will ever take.
    pub fn new(alloc: Global, capacity: usize) -> Result<Window, NoMemory>
        ensures { IfOk result (λ window. window ≡ record { bytes = []; ended = false; capacity = capacity }) }
    {
        Ok(Window {
            buffer: vec![in alloc; 0; capacity]?,
            start: 0,
            end: 0,
            scanned: 0,
            ended: false,
        })
    }

    /// How many bytes wait.
    pub fn len(&self) -> usize
        ensures len { result ≡ length self.now.bytes }
        ensures within { result ≤ self.now.capacity }
    {
        self.end - self.start
    }

    /// Whether no byte waits.
    pub fn is_empty(&self) -> bool
        ensures { IsTrue result ↔ (self.now.bytes ≡ []) }
    {
        self.bytes().is_empty()
    }

    /// Whether there is no room for another byte.
    pub fn is_full(&self) -> bool
        ensures full { IsTrue result → length self.now.bytes ≡ self.now.capacity }
        ensures room { IsFalse result → length self.now.bytes < self.now.capacity }
    {
        self.len() == self.buffer.len()
    }

    /// The bytes that wait.
    pub fn bytes(&self) -> &[u8]
        ensures { result.now ≡ self.now.bytes }
    {
        &self.buffer[self.start..self.end]
    }

    /// The first bytes of those that wait.
    pub fn front(&self, n: usize) -> &[u8]
        requires { n ≤ length self.now.bytes }
        ensures { result.now ≡ take n self.now.bytes }
    {
        &self.buffer[self.start..self.start + n]
    }

    /// Lets the first bytes go.
    pub fn pass(&mut self, n: usize)
        requires { n ≤ length self.old.bytes }
        ensures { self.new ≡ record { bytes = drop n self.old.bytes; ended = self.old.ended; capacity = self.old.capacity } }
    {
        self.start += n;
        self.scanned = 0;
    }

    /// The place of the first newline.
    fn newline(&mut self) -> Option<usize>
        ensures kept { self.new ≡ self.old }
        ensures first { IsFirstNewline self.old.bytes result }
        ensures within { IfSome result (λ at. at < 2 ^ 64 - 1) }
        ensures held { length self.old.bytes ≤ self.old.capacity }
    {
        let found = newline_from(&self.buffer[self.start..self.end], self.scanned);
        if found.is_none() {
            self.scanned = self.end - self.start;
        }
        found
    }

    /// Whether the source has ended.
    pub fn has_ended(&self) -> bool
        ensures { result ≡ self.now.ended }
    {
        self.ended
    }

    /// Takes more bytes behind those that wait, and answers how many. None is the end of the input.
    ///
    /// The window has room for a byte at least. A source that has ended is asked no more.
    pub fn fill<S: Source>(&mut self, source: &mut S) -> Result<usize, Failed>
        requires room { length self.old.bytes < self.old.capacity }
        requires knows { KnowsEnd self.old.ended (S.left source.old) }
        ensures grew { Grew self.old.bytes self.new.bytes (S.left source.old) (S.left source.new) }
        ensures more { IfOk result (λ n. length self.new.bytes ≡ length self.old.bytes + n) }
        ensures end { result ≡ Ok 0 → IfSome (S.left source.new) (λ rest. rest ≡ []) }
        ensures same { result ≡ Ok 0 → self.new.bytes ≡ self.old.bytes }
        ensures failed { OnErr result (self.new ≡ self.old) }
        ensures ended { IfOk result (λ n. self.new.ended ≡ (n == 0)) }
        ensures asks_no_more { self.old.ended ≡ true → (result ≡ Ok 0) × (self.new ≡ self.old) × (source.new ≡ source.old) }
        ensures knows { KnowsEnd self.new.ended (S.left source.new) }
        ensures capacity { self.new.capacity ≡ self.old.capacity }
        ensures counted { S.faults source.old ≤ S.faults source.new }
        ensures caused { OnErr result (Rose (S.faults source.old) (S.faults source.new)) }
        ensures beside { S.beside source.new ≡ S.beside source.old }
    {
        if self.ended {
            return Ok(0);
        }
        let span = room_behind(&mut self.buffer, self.start, self.end);
        self.start = span.start;
        self.end = span.end;
        let taken = take_after(source, &mut self.buffer, self.end)?;
        self.end += taken;
        self.ended = taken == 0;
        Ok(taken)
    }

    /// The length of the first piece of what waits and is left, once it stands in the window; 0 where nothing is left.
    ///
    /// A source that has ended is asked no more, and none is asked where a newline waits already.
    pub fn next_piece<S: Source>(&mut self, source: &mut S) -> Result<usize, NoPiece>
        requires { KnowsEnd self.old.ended (S.left source.old) }
        ensures grew { Grew self.old.bytes self.new.bytes (S.left source.old) (S.left source.new) }
        ensures knows { KnowsEnd self.new.ended (S.left source.new) }
        ensures asks_no_more { self.old.ended ≡ true → (self.new ≡ self.old) × (source.new ≡ source.old) × (result ≢ Err NoPiece.Failed) }
        ensures waits { HasNoNewline self.old.bytes ⊎ ((self.new ≡ self.old) × (source.new ≡ source.old)) }
        ensures still { self.new.ended ≡ false → self.old.ended ≡ false }
        ensures shown { IfOk result (λ n. ShowsPiece n self.new.bytes self.new.ended (S.left source.new)) }
        ensures short { IfOk result (λ n. length (strip_last 10 (take n self.new.bytes)) < self.new.capacity) }
        ensures full { result ≡ Err NoPiece.Full → HasNoNewline self.new.bytes × (length self.new.bytes ≡ self.new.capacity) }
        ensures failed { result ≡ Err NoPiece.Failed → HasNoNewline self.new.bytes × (self.new.ended ≡ false) × Rose (S.faults source.old) (S.faults source.new)
            × (length self.new.bytes < self.new.capacity) }
        ensures capacity { self.new.capacity ≡ self.old.capacity }
        ensures counted { S.faults source.old ≤ S.faults source.new }
        ensures beside { S.beside source.new ≡ S.beside source.old }
    {
        loop {
            if let Some(at) = self.newline() {
                return Ok(at + 1);
            }
            if self.is_full() {
                return Err(NoPiece::Full);
            }
            if self.has_ended() {
                return Ok(self.len());
            }
            match self.fill(source) {
                Ok(0) => return Ok(self.len()),
                Ok(_) => {}
                Err(Failed) => return Err(NoPiece::Failed),
            }
        }
    }
}
