//! Scripts, read request by request.
ghost use Rattle.std.specs.Prelude.{◌≡◌, ◌≢◌, ℕ, ◌+◌, ◌^◌, ◌<◌, ◌≤◌, ◌++◌, ◌∷◌, [], List, Bool, true, false, length, drop, IfOk, IfErr, IfSome, IfNone, OnErr, OnOk, Ok, Err, None, Some};
ghost use Rattle.edge_face.specs.Contents.{Rose};
ghost use Rattle.edge_face.specs.Waiting.{KnowsEnd};
ghost use Rattle.edge_face.specs.Limits.{body_limit, input_limit};
ghost use Rattle.tsds_cli.specs.Script.{Request, is_skipped as skips, is_empty, is_moment, between, within, closes, next_place};
ghost use Rattle.tsds_cli.specs.Ahead.{Passed, IsAtEnd, Stopped, opened, opens, event_in};
ghost use Rattle.tsds_cli.specs.Limits.{IsShort};

use crate::errors::RunError;
use edge_face::{BODY_LIMIT, LineReader, NoMemory, Source};
use std::alloc::{AllocError, Global};

/// What a line between events opens.
#[derive(Clone, Copy, Debug, PartialEq, Eq)]
pub enum Opening {
    /// A moment line is an event by itself.
    Moment,
    /// A request line, whose body follows.
    Request,
}

/// An event of a script, in buffers that are used again for the next.
///
/// It is handed to the machine for good: what a machine keeps of it, as the body of a bulk request, it moves out, and no byte is
/// copied. The next event finds its buffers in whatever state the machine leaves them.
#[derive(Debug, Drop)]
pub struct Heard {
    pub opening: Opening,
    /// The text of a moment line behind its `@ `, or the request line.
    pub line: Vec<u8>,
    pub body: Vec<u8>,
}

impl Heard {
    pub fn new(alloc: Global) -> Heard {
        Heard {
            opening: Opening::Moment,
            line: Vec::new(alloc),
            body: Vec::new(alloc),
        }
    }
}

/// Whether a line between requests says nothing.
fn is_skipped(line: &[u8]) -> bool
    ensures { result ≡ skips line.now }
{
    match line {
        [] => true,
        [first, ..] => *first == b'#',
    }
}

/// The text of a moment line.
fn moment_text(line: &[u8]) -> Option<&[u8]>
    ensures text { IfSome result (λ text. text.now ≡ drop 2 line.now) }
    ensures some { IfSome result (λ _. is_moment line.now ≡ true) }
    ensures none { IfNone result (is_moment line.now ≡ false) }
{
    match line {
        [first, second, text @ ..] if *first == b'@' && *second == b' ' => Some(text),
        _ => None,
    }
}

/// What a line between events opens, where it isn't skipped. Its text is kept in `into`.
fn read_opening(line: &[u8], into: &mut Vec<u8>) -> Result<Opening, NoMemory>
    requires { skips line.now ≡ false }
    ensures events { IfOk result (λ o. opened o into.new.items ≡ closes between line.now) }
    ensures place { IfOk result (λ o. opens o into.new.items ≡ next_place between line.now) }
{
    into.clear();
    match moment_text(line) {
        Some(text) => {
            into.extend_from_slice(text)?;
            Ok(Opening::Moment)
        }
        None => {
            into.extend_from_slice(line)?;
            Ok(Opening::Request)
        }
    }
}

/// Reads over what stands between events, up to a line that opens one. None at the end of the script.
fn next_opening<S: Source>(
    reader: &mut LineReader,
    source: &mut S,
    into: &mut Vec<u8>,
) -> Result<Option<Opening>, RunError>
    requires fine { reader.old.refused ≡ None }
    requires knows { KnowsEnd reader.old.ended (S.left source.old) }
    ensures found { IfOk result (λ found. IfSome found (λ o. Passed between (opened o into.new.items) (opens o into.new.items) reader.old reader.new (S.left source.old) (S.left source.new))) }
    ensures none { IfOk result (λ found. IfNone found (IsAtEnd between between reader.old reader.new (S.left source.old) (S.left source.new))) }
    ensures stopped { IfErr result (λ e. Stopped between e reader.old reader.new (S.left source.old) (S.left source.new)) }
    ensures fine { OnOk result (reader.new.refused ≡ None) }
    ensures knows { KnowsEnd reader.new.ended (S.left source.new) }
    ensures onward { IfOk result (λ found. IfSome found (λ _. (reader.old.answered < reader.new.answered) × (reader.new.answered ≤ input_limit))) }
    ensures read { result ≡ Err RunError.Read → Rose (S.faults source.old) (S.faults source.new) }
    ensures faults { S.faults source.old ≤ S.faults source.new }
    ensures beside { S.beside source.new ≡ S.beside source.old }
{
    'lines: loop {
        let piece = reader.find_line(source)?;
        if piece == 0 {
            return Ok(None);
        }
        let line = reader.line(piece);
        if !is_skipped(line) {
            let opening = read_opening(line, into)?;
            reader.pass(piece);
            return Ok(Some(opening));
        }
        reader.pass(piece);
    }
}

/// Whether a line ends a body.
fn ends_body(line: &[u8]) -> bool
    ensures { result ≡ is_empty line.now }
{
    match line {
        [] => true,
        [_, ..] => false,
    }
}

/// Adds a line to a body, with its newline.
fn add_line(body: &mut Vec<u8>, line: &[u8]) -> Result<(), RunError>
    requires { length body.old.items ≤ body_limit }
    ensures ok { OnOk result (body.new.items ≡ body.old.items ++ (line.now ++ 10 ∷ [])) }
    ensures short { OnOk result (length body.new.items ≤ body_limit) }
    ensures long { result ≡ Err RunError.TooLong → body_limit < length (body.old.items ++ (line.now ++ 10 ∷ [])) }
    ensures others { (result ≢ Err RunError.Read) × ((result ≢ Err RunError.Write) × (result ≢ Err RunError.Store)) }
{
    if line.len() as u64 >= BODY_LIMIT - body.len() as u64 {
        return Err(RunError::TooLong);
    }
    body.extend_from_slice(line)?;
    body.push(b'\n').map_err(AllocError::from)?;
    Ok(())
}

/// Reads the body of a request line, up to an empty line or the end of the script.
fn read_body<S: Source>(
    reader: &mut LineReader,
    source: &mut S,
    heard: &mut Heard,
) -> Result<(), RunError>
    requires fine { reader.old.refused ≡ None }
    requires knows { KnowsEnd reader.old.ended (S.left source.old) }
    ensures event { OnOk result (Passed (within heard.old.line.items []) (Request heard.old.line.items heard.new.body.items ∷ []) between
        reader.old reader.new (S.left source.old) (S.left source.new)) }
    ensures kept { (heard.new.opening ≡ heard.old.opening) × (heard.new.line.items ≡ heard.old.line.items) }
    ensures held { OnOk result (length heard.new.body.items ≤ body_limit) }
    ensures stopped { IfErr result (λ e. Stopped (within heard.old.line.items []) e reader.old reader.new (S.left source.old) (S.left source.new)) }
    ensures fine { OnOk result (reader.new.refused ≡ None) }
    ensures knows { KnowsEnd reader.new.ended (S.left source.new) }
    ensures onward { OnOk result (reader.old.answered ≤ reader.new.answered) }
    ensures read { result ≡ Err RunError.Read → Rose (S.faults source.old) (S.faults source.new) }
    ensures faults { S.faults source.old ≤ S.faults source.new }
    ensures beside { S.beside source.new ≡ S.beside source.old }
{
    heard.body.clear();
    'lines: loop {
        let piece = reader.find_line(source)?;
        if piece == 0 {
            return Ok(());
        }
        let line = reader.line(piece);
        if ends_body(line) {
            reader.pass(piece);
            return Ok(());
        }
        add_line(&mut heard.body, line)?;
        reader.pass(piece);
    }
}

/// Reads the next event of a script, and answers whether there is one.
pub fn next_event<S: Source>(
    reader: &mut LineReader,
    source: &mut S,
    heard: &mut Heard,
) -> Result<bool, RunError>
    requires fine { reader.old.refused ≡ None }
    requires knows { KnowsEnd reader.old.ended (S.left source.old) }
    ensures event { result ≡ Ok true → Passed between (event_in heard.new ∷ []) between reader.old reader.new (S.left source.old) (S.left source.new) }
    ensures held { result ≡ Ok true → IsShort (event_in heard.new) }
    ensures none { result ≡ Ok false → IsAtEnd between between reader.old reader.new (S.left source.old) (S.left source.new) }
    ensures stopped { IfErr result (λ e. Stopped between e reader.old reader.new (S.left source.old) (S.left source.new)) }
    ensures fine { OnOk result (reader.new.refused ≡ None) }
    ensures knows { KnowsEnd reader.new.ended (S.left source.new) }
    ensures onward { result ≡ Ok true → (reader.old.answered < reader.new.answered) × (reader.old.answered < input_limit) }
    ensures read { result ≡ Err RunError.Read → Rose (S.faults source.old) (S.faults source.new) }
    ensures faults { S.faults source.old ≤ S.faults source.new }
    ensures beside { S.beside source.new ≡ S.beside source.old }
{
    match next_opening(reader, source, &mut heard.line)? {
        None => Ok(false),
        Some(Opening::Moment) => {
            heard.opening = Opening::Moment;
            Ok(true)
        }
        Some(Opening::Request) => {
            heard.opening = Opening::Request;
            read_body(reader, source, heard)?;
            Ok(true)
        }
    }
}
