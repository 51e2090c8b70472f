//! The machine: one list of documents.
ghost use Rattle.std.specs.Prelude.{◌≡◌, ◌∷◌, ◌++◌, [], List, Bool, Some, None, Option, IfOk, OnOk, map};
ghost use Rattle.std.specs.List.{list_any};
ghost use Rattle.std.specs.Prelude.{length, take};
ghost use Rattle.serde_json.specs.View.{view};
ghost use Rattle.tsds_cli.specs.Documents.{document_of, is_at, outcome_from, added_from, outcomes_of, documents_after, is_refused};
ghost use Rattle.tsds_cli.specs.Documents.{tree_document as document_in, whole_at as whole_number};

use edge_face::{NoMemory, Text};
use json_walk::{NotJson, has_names, read_line, whole};
use serde_json::Value;
use std::alloc::Global;
use std::marker::Model;
use time_text::is_instant;

/// A host's value at a time, in milliseconds since 1970.
#[derive(Debug, Drop)]
pub struct Document {
    pub host: Text,
    pub time: i64,
    pub v: i64,
}

/// What became of a source.
#[derive(Clone, Copy, Debug, PartialEq, Eq)]
pub enum Outcome {
    Created,
    /// A document of this host and time is there.
    Conflict,
    /// It is no document of the one mapping that there is.
    NotBuilt,
}

impl Outcome {
    pub fn is_refused(self) -> bool
        ensures { result ≡ is_refused self }
    {
        match self {
            Outcome::Created => false,
            Outcome::Conflict | Outcome::NotBuilt => true,
        }
    }
}

/// The documents that were accepted, in order of arrival.
#[derive(Debug, Drop)]
pub struct Documents {
    rows: Vec<Document>,
}

impl Model for Documents {
    ghost use Rattle.std.specs.Prelude.{List};
    ghost use Rattle.tsds_cli.specs.declared.documents.Document.{Document};

    ghost Value = { List Document };

    ghost view = { λ d. d.rows.items };
}

/// The document that a source is, or none.
fn read_document(alloc: Global, source: &[u8]) -> Result<Option<Document>, NoMemory>
    ensures { IfOk result (λ found. found ≡ document_of source.now) }
{
    match read_line(alloc, source) {
        Ok(tree) => tree_document(alloc, &tree),
        Err(NotJson::Bad) => Ok(None),
        Err(NotJson::NoMemory) => Err(NoMemory),
    }
}

fn tree_document(alloc: Global, tree: &Value) -> Result<Option<Document>, NoMemory>
    ensures { IfOk result (λ found. found ≡ document_in (view tree.now)) }
{
    if !has_names(tree, &["@timestamp", "host", "v"]) {
        return Ok(None);
    }
    let time = whole_at(tree, "@timestamp");
    let v = whole_at(tree, "v");
    let host = tree.get("host").and_then(Value::as_str);
    match (time, host, v) {
        (Some(time), Some(host), Some(v)) if is_instant(time) => Ok(Some(Document {
            host: Text::new(alloc, host)?,
            time,
            v,
        })),
        _ => Ok(None),
    }
}

fn whole_at(tree: &Value, name: &str) -> Option<i64>
    ensures { result ≡ whole_number name.now (view tree.now) }
{
    tree.get(name).and_then(|v| whole(v))
}

impl Documents {
    pub fn new(alloc: Global) -> Documents
        ensures { result ≡ [] }
    {
        Documents {
            rows: Vec::new(alloc),
        }
    }

    pub fn len(&self) -> usize
        ensures { result ≡ length self.now }
    {
        self.rows.len()
    }

    /// Lets all but the first documents go.
    pub fn keep_first(&mut self, count: usize)
        ensures { self.new ≡ take count self.old }
    {
        self.rows.truncate(count);
    }

    /// Whether a document of this host and time is there.
    fn holds(&self, document: &Document) -> bool
        ensures { result ≡ list_any (is_at document.now.host document.now.time) self.now }
    {
        self.rows.iter().any(|row| row.time == document.time && row.host == document.host)
    }

    /// Takes a source as a document, unless one of its host and time is there.
    pub fn put(&mut self, alloc: Global, source: &[u8]) -> Result<Outcome, NoMemory>
        ensures outcome { IfOk result (λ outcome. outcome ≡ outcome_from self.old (document_of source.now)) }
        ensures after { OnOk result (self.new ≡ added_from self.old (document_of source.now)) }
        ensures front { take (length self.old) self.new ≡ self.old }
    {
        let Some(document) = read_document(alloc, source)? else {
            return Ok(Outcome::NotBuilt);
        };
        if self.holds(&document) {
            return Ok(Outcome::Conflict);
        }
        self.rows.push(document)?;
        Ok(Outcome::Created)
    }
}
