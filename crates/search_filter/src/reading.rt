//! Bodies read as queries.
ghost use Rattle.std.specs.Prelude.{◌≡◌, IfOk, IfErr};
ghost use Rattle.std.specs.declared.result.Result.TheVariants.{Ok};
ghost use Rattle.serde_json.specs.View.{view};
ghost use Rattle.time_text.specs.Instant.{IsInstant};
ghost use Rattle.search_filter.specs.Reading.{IsQueryCause, query_of};

use crate::clauses::read_tree;
use crate::faults::{Fault, Faults};
use crate::places::Reader;
use crate::query::Query;
use edge_face::Text;
use row_cells::Schema;
use serde_json::Value;
use std::alloc::Global;
use thiserror::Error;

/// Why a body is no query.
#[derive(Debug, Drop, Error)]
pub enum QueryError {
    #[error("the query has no shape that is known")]
    Shape,
    /// A value that the field of that path can't have.
    #[error("a value is none of the field {}", path.as_str())]
    WrongValue { path: Text },
    #[error("out of memory")]
    NoMemory,
}

/// Reads the query of a search, as Elasticsearch's query language has it: an object with one of `match_all`, `term`, `terms`,
/// `range`, `exists` and `bool`.
///
/// Values are read as in documents: whole numbers of each width, and gauges, with signed 64 bits, and the ends of ranges on dates as
/// moment expressions or milliseconds. At an unmapped path no value is read, and nothing matches. Of several faults a wrong shape is
/// told before the wrong values, and of these the one of the least path in byte order.
pub fn read_query(
    alloc: Global,
    body: &Value,
    schema: &Schema,
    now: i64,
) -> Result<Query, QueryError>
    requires { IsInstant now }
    ensures ok { IfOk result (λ query. query_of now schema.now (view body.now) ≡ Ok query) }
    ensures err { IfErr result (IsQueryCause (query_of now schema.now (view body.now))) }
{
    let mut faults = Faults::new();
    let reader = Reader {
        alloc,
        fields: schema.fields.as_slice(),
        present: now,
    };
    let Ok(query) = read_tree(reader, body, &mut faults) else {
        return Err(QueryError::NoMemory);
    };
    match faults.into_worst() {
        None => Ok(query),
        Some(Fault::Shape) => Err(QueryError::Shape),
        Some(Fault::WrongValue(path)) => Err(QueryError::WrongValue { path }),
    }
}
