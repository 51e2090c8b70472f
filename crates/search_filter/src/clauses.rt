//! Queries inside queries.
ghost use Rattle.std.specs.Prelude.{◌≡◌, ◌++◌, IfOk, OnOk};
ghost use Rattle.serde_json.specs.View.{items_view, members_view, view};
ghost use Rattle.time_text.specs.Instant.{IsInstant};
ghost use Rattle.search_filter.specs.Faults.{worst_with};
ghost use Rattle.search_filter.specs.Reading as spec;
ghost use Rattle.search_filter.specs.Reading.{clauses_joined, no_clauses};

use crate::faults::Faults;
use crate::leaves::read_leaf;
use crate::places::Reader;
use crate::query::Query;
use edge_face::NoMemory;
use json_walk::whole_between;
use serde_json::{Map, Value};
use sqlite_items::Items;
use std::alloc::Global;

/// What stands under `bool`: `must` has what stands under `filter` too.
#[derive(Drop)]
pub struct Clauses {
    must: Items<Query>,
    should: Items<Query>,
    must_not: Items<Query>,
    least: Option<u64>,
}

impl Clauses {
    fn new(alloc: Global) -> Clauses
        ensures { result ≡ no_clauses }
    {
        Clauses {
            must: Items::new(alloc),
            should: Items::new(alloc),
            must_not: Items::new(alloc),
            least: None,
        }
    }

    /// Reads how many of `should` have to match.
    fn read_least(&mut self, value: &Value, faults: &mut Faults)
        ensures clauses { self.new ≡ clauses_joined self.old (spec.least_in (view value.now)).value }
        ensures faults { faults.new ≡ worst_with faults.old (spec.least_in (view value.now)).faults }
    {
        match whole_between(value, 0, i64::MAX) {
            Some(least) => self.least = Some(least.unsigned_abs()),
            None => faults.note_shape(),
        }
    }

    fn least(&self) -> u64
        ensures { result ≡ spec.least_for self.now.least self.now.must self.now.should }
    {
        match self.least {
            Some(least) => least,
            None if self.must.is_empty() && !self.should.is_empty() => 1,
            None => 0,
        }
    }

    fn into_query(self) -> Query
        ensures { result ≡ (spec.finished (spec.good self)).value }
    {
        let least = self.least();
        let Clauses {
            must,
            should,
            must_not,
            ..
        } = self;
        Query::Bool {
            must,
            should,
            must_not,
            least,
        }
    }
}

/// Reads a query.
#[cycle(read)]
pub fn read_tree(reader: Reader<'_>, value: &Value, faults: &mut Faults) -> Result<Query, NoMemory>
    requires { IsInstant reader.present }
    ensures query { IfOk result (λ q. q ≡ (spec.query_at reader.entry.present reader.entry.fields.now (view value.now)).value) }
    ensures faults { OnOk result (faults.new ≡ worst_with faults.old (spec.query_at reader.entry.present reader.entry.fields.now (view value.now)).faults) }
{
    match value {
        Value::Object(members) => read_members(reader, members, faults),
        Value::Null | Value::Bool(_) | Value::Number(_) | Value::String(_) | Value::Array(_) => {
            faults.note_shape();
            Ok(Query::Nothing)
        }
    }
}

#[cycle(read)]
fn read_members(
    reader: Reader<'_>,
    members: &Map<String, Value>,
    faults: &mut Faults,
) -> Result<Query, NoMemory>
    requires { IsInstant reader.present }
    ensures query { IfOk result (λ q. q ≡ (spec.query_in reader.entry.present reader.entry.fields.now (members_view members.now.entries)).value) }
    ensures faults { OnOk result (faults.new ≡ worst_with faults.old (spec.query_in reader.entry.present reader.entry.fields.now (members_view members.now.entries)).faults) }
{
    let mut members = members.iter();
    let Some((name, value)) = members.next() else {
        faults.note_shape();
        return Ok(Query::Nothing);
    };
    if members.next().is_some() {
        faults.note_shape();
        return Ok(Query::Nothing);
    }
    if name.as_str() == "bool" {
        read_bool(reader, value, faults)
    } else {
        read_leaf(reader, name.as_str(), value, faults)
    }
}

/// Reads what stands under `bool`.
#[cycle(read)]
fn read_bool(reader: Reader<'_>, value: &Value, faults: &mut Faults) -> Result<Query, NoMemory>
    requires { IsInstant reader.present }
    ensures query { IfOk result (λ q. q ≡ (spec.bool_of reader.entry.present reader.entry.fields.now (view value.now)).value) }
    ensures faults { OnOk result (faults.new ≡ worst_with faults.old (spec.bool_of reader.entry.present reader.entry.fields.now (view value.now)).faults) }
{
    match value {
        Value::Object(members) => Ok(read_clauses(reader, members, faults)?.into_query()),
        Value::Null | Value::Bool(_) | Value::Number(_) | Value::String(_) | Value::Array(_) => {
            faults.note_shape();
            Ok(Query::Nothing)
        }
    }
}

#[cycle(read)]
#[tactic(auto, using(crate::specs::FaultLaws::worst_joined, crate::proofs::Grouped::clauses_grouped))]
fn read_clauses(
    reader: Reader<'_>,
    members: &Map<String, Value>,
    faults: &mut Faults,
) -> Result<Clauses, NoMemory>
    requires { IsInstant reader.present }
    ensures clauses { IfOk result (λ c. c ≡ (spec.clauses_in reader.entry.present reader.entry.fields.now (members_view members.now.entries)).value) }
    ensures faults { OnOk result (faults.new ≡ worst_with faults.old (spec.clauses_in reader.entry.present reader.entry.fields.now (members_view members.now.entries)).faults) }
{
    let mut clauses = Clauses::new(reader.alloc);
    for (name, value) in members.iter() {
        read_clause(reader, name.as_str(), value, &mut clauses, faults)?;
    }
    Ok(clauses)
}

#[cycle(read)]
fn read_clause(
    reader: Reader<'_>,
    name: &str,
    value: &Value,
    clauses: &mut Clauses,
    faults: &mut Faults,
) -> Result<(), NoMemory>
    requires { IsInstant reader.present }
    ensures clauses { OnOk result (clauses.new ≡ clauses_joined clauses.old (spec.clause_of reader.entry.present reader.entry.fields.now name.now (view value.now)).value) }
    ensures faults { OnOk result (faults.new ≡ worst_with faults.old (spec.clause_of reader.entry.present reader.entry.fields.now name.now (view value.now)).faults) }
{
    if name == "must" || name == "filter" {
        let queries = read_queries(reader, value, faults)?;
        clauses.must.append(queries)?;
    } else if name == "should" {
        let queries = read_queries(reader, value, faults)?;
        clauses.should.append(queries)?;
    } else if name == "must_not" {
        let queries = read_queries(reader, value, faults)?;
        clauses.must_not.append(queries)?;
    } else if name == "minimum_should_match" {
        clauses.read_least(value, faults);
    } else {
        faults.note_shape();
    }
    Ok(())
}

/// Reads a query, or a list of queries.
#[cycle(read)]
fn read_queries(
    reader: Reader<'_>,
    value: &Value,
    faults: &mut Faults,
) -> Result<Items<Query>, NoMemory>
    requires { IsInstant reader.present }
    ensures queries { IfOk result (λ qs. qs ≡ (spec.queries_of reader.entry.present reader.entry.fields.now (view value.now)).value) }
    ensures faults { OnOk result (faults.new ≡ worst_with faults.old (spec.queries_of reader.entry.present reader.entry.fields.now (view value.now)).faults) }
{
    match value {
        Value::Array(items) => read_list(reader, items.as_slice(), faults),
        Value::Object(members) => {
            let query = read_members(reader, members, faults)?;
            let mut queries = Items::new(reader.alloc);
            queries.push(query)?;
            Ok(queries)
        }
        Value::Null | Value::Bool(_) | Value::Number(_) | Value::String(_) => {
            faults.note_shape();
            Ok(Items::new(reader.alloc))
        }
    }
}

#[cycle(read)]
#[tactic(auto, using(crate::specs::FaultLaws::worst_joined))]
fn read_list(
    reader: Reader<'_>,
    items: &[Value],
    faults: &mut Faults,
) -> Result<Items<Query>, NoMemory>
    requires { IsInstant reader.present }
    ensures queries { IfOk result (λ qs. qs ≡ (spec.queries_in reader.entry.present reader.entry.fields.now (items_view items.now)).value) }
    ensures faults { OnOk result (faults.new ≡ worst_with faults.old (spec.queries_in reader.entry.present reader.entry.fields.now (items_view items.now)).faults) }
{
    let mut queries = Items::new(reader.alloc);
    for item in items {
        put_query(reader, item, &mut queries, faults)?;
    }
    Ok(queries)
}

/// Reads a query and puts it to the others.
#[cycle(read)]
fn put_query(
    reader: Reader<'_>,
    value: &Value,
    queries: &mut Items<Query>,
    faults: &mut Faults,
) -> Result<(), NoMemory>
    requires { IsInstant reader.present }
    ensures queries { OnOk result (queries.new
        ≡ queries.old ++ (spec.single (spec.query_at reader.entry.present reader.entry.fields.now (view value.now))).value) }
    ensures faults { OnOk result (faults.new ≡ worst_with faults.old (spec.query_at reader.entry.present reader.entry.fields.now (view value.now)).faults) }
{
    let query = read_tree(reader, value, faults)?;
    queries.push(query)?;
    Ok(())
}
