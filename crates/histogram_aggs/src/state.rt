//! What aggregations have of the rows that were offered: a node for each, nested as they are.
ghost use Rattle.std.specs.Prelude.{◌≡◌, ℕ, [], IfOk};
ghost use Rattle.histogram_aggs.specs.Seen.{seen};
ghost use Rattle.histogram_aggs.specs.Stands.{OneStands, Stands};
ghost use Rattle.histogram_aggs.specs.Tallies.{tally_over};

use crate::aggs::{Agg, AggKind};
use crate::rises::Rises;
use crate::starts::Start;
use crate::tallies::{Tally, of_none};
use crate::value_keys::ValueKey;
use crate::wrongs::field_at;
use edge_face::NoMemory;
use fold_law::Gauge;
use row_cells::{Field, Role};
use std::alloc::Global;
use std::collections::BTreeMap;

/// What an aggregation has of the rows so far.
#[cycle(state)]
#[derive(Drop)]
pub enum Node {
    /// No field has its path, so there are no values.
    Unmapped,
    Metric(Tally),
    /// Buckets by their starts.
    Times(BTreeMap<Start, Bucket>),
    /// Buckets by their values.
    Values(BTreeMap<ValueKey, Bucket>),
    /// Of an increase: the rises of all series, moment by moment.
    Rises(Rises),
}

/// The documents of a bucket, and what the aggregations below have of its rows.
#[cycle(state)]
#[derive(Drop)]
pub struct Bucket {
    pub documents: u64,
    pub below: Vec<Node>,
}

/// The metric of no rows.
fn no_tally(kind: AggKind, role: Role) -> Tally
    ensures { (place : ℕ) → result ≡ tally_over kind role place [] }
{
    match role {
        Role::Gauge => Tally::Measured(Gauge(None)),
        Role::Time | Role::Dimension | Role::Counter | Role::Label => of_none(kind),
    }
}

/// What an aggregation has of no rows.
fn make_node(alloc: Global, agg: &Agg, fields: &[Field]) -> Node
    ensures { OneStands fields.now agg.now result [] }
{
    let Some(field) = field_at(fields, agg.field) else {
        return Node::Unmapped;
    };
    match agg.kind {
        AggKind::Min | AggKind::Max | AggKind::Sum | AggKind::ValueCount => {
            Node::Metric(no_tally(agg.kind, field.role))
        }
        AggKind::DateHistogram { .. } => Node::Times(BTreeMap::new(alloc)),
        AggKind::Terms { .. } => Node::Values(BTreeMap::new(alloc)),
        AggKind::Increase => Node::Rises(BTreeMap::new(alloc)),
    }
}

/// What aggregations have of no rows.
pub fn make_level(alloc: Global, aggs: &[Agg], fields: &[Field]) -> Result<Vec<Node>, NoMemory>
    ensures { IfOk result (λ nodes. Stands fields.now (seen aggs.now) nodes.items []) }
{
    let mut nodes = Vec::with_capacity(alloc, aggs.len())?;
    for agg in aggs {
        nodes.push(make_node(alloc, agg, fields))?;
    }
    Ok(nodes)
}
