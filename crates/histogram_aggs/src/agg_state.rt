//! Aggregations over rows that are offered one by one.
ghost use Rattle.std.specs.Prelude.{◌≡◌, List, ◌++◌, [], ◌∷◌, IfOk, IfErr, OnOk, OnErr, Ok, Err, true, false};
ghost use Rattle.time_text.specs.Instant.{IsInstant};
ghost use Rattle.row_cells.specs.declared.schemas.Field.{Field};
ghost use Rattle.histogram_aggs.specs.declared.errors.AggError.TheVariants.{NoMemory as OutOfMemory};
ghost use Rattle.histogram_aggs.specs.Answers.{agg_all};
ghost use Rattle.histogram_aggs.specs.Samples.{Sample};
ghost use Rattle.histogram_aggs.specs.Seen.{seen};
ghost use Rattle.histogram_aggs.specs.States.{StateStands};
ghost use Rattle.histogram_aggs.specs.Told.{IsRefusedBy};

use crate::aggs::Agg;
use crate::answers::finish_level;
use crate::errors::AggError;
use crate::merging::merge_level;
use crate::offers::offer_level;
use crate::rises::Window;
use crate::state::{Node, make_level};
use edge_face::NoMemory;
use reply_json::Out;
use row_cells::{Row, Schema};
use std::alloc::Global;
use std::mem;

/// What aggregations have of the rows that were offered: a bucket for each value or interval that rows have, at each
/// level, and nothing of a row itself but, for an increase, what it adds to the rise of its series.
#[derive(Drop)]
pub struct AggState {
    aggs: Vec<Agg>,
    nodes: Vec<Node>,
    /// Memory ran out within a row, which some nodes have and others haven't.
    spent: bool,
}

impl AggState {
    /// The state of aggregations to which no row was offered. All rows to come are of schemas with the same fields, with
    /// which the aggregations were read.
    pub fn new(alloc: Global, aggs: Vec<Agg>, schema: &Schema) -> Result<AggState, NoMemory>
        ensures stands { IfOk result (λ state. StateStands schema.now.fields state []) }
        ensures asked { IfOk result (λ state. state.aggs ≡ aggs) }
    {
        let nodes = make_level(alloc, aggs.as_slice(), schema.fields.as_slice())?;
        Ok(AggState {
            aggs,
            nodes,
            spent: false,
        })
    }

    /// One row more, raw or folded, of an index whose window starts then, in milliseconds since 1970 began: the state stands
    /// for the rows before and this one behind them, in whatever order rows come. Of any number of buckets none is refused
    /// here. After want of memory the state is spent: it stands for no rows any more, and refuses each row.
    pub fn add_row(
        &mut self,
        alloc: Global,
        start: i64,
        schema: &Schema,
        row: &Row,
    ) -> Result<(), NoMemory>
        requires { IsInstant row.now.time }
        ensures taken { OnOk result ((xs : List Sample) → StateStands schema.now.fields self.old xs
            → StateStands schema.now.fields self.new (xs ++ record { start = start; row = row.now } ∷ [])) }
        ensures asked { self.new.aggs ≡ self.old.aggs }
        ensures refused { OnErr result (self.new.spent ≡ true) }
        ensures spent { OnOk result (self.old.spent ≡ false) }
    {
        if self.spent {
            return Err(NoMemory);
        }
        let window = Window { start };
        // spent until each node has the row
        self.spent = true;
        offer_level(
            alloc,
            self.aggs.as_slice(),
            schema.fields.as_slice(),
            &mut self.nodes,
            &window,
            row,
        )?;
        self.spent = false;
        Ok(())
    }

    /// What another state of the same aggregations stands for, behind the rows of this one. The other is used up. Where the
    /// aggregations differ nothing is said of what the state stands for. After want of memory the state is spent, as it is
    /// where the other was.
    pub fn merge(&mut self, other: AggState) -> Result<(), NoMemory>
        ensures merged { OnOk result ((fields : List Field) (xs ys : List Sample) → seen self.old.aggs.items ≡ seen other.aggs.items
            → StateStands fields self.old xs → StateStands fields other ys → StateStands fields self.new (xs ++ ys)) }
        ensures asked { self.new.aggs ≡ self.old.aggs }
        ensures refused { OnErr result (self.new.spent ≡ true) }
        ensures spent { OnOk result ((self.old.spent ≡ false) × (other.spent ≡ false)) }
    {
        // spent until each node has the rows of both
        let was_spent = mem::replace(&mut self.spent, true);
        let mut other = other;
        if was_spent || other.spent {
            return Err(NoMemory);
        }
        merge_level(self.aggs.as_slice(), &mut self.nodes, &mut other.nodes)?;
        self.spent = false;
        Ok(())
    }

    /// `{NAME:ANSWER,..}`: what the aggregations answer of the rows that the state stands for, in their order. The state is
    /// used up. Refused with `TooManyBuckets` exactly where the answer would have more than `MOST_BUCKETS` buckets at all
    /// levels together, and for want of memory, as a spent state always is.
    pub fn finish(self, alloc: Global, schema: &Schema) -> Result<Out, AggError>
        ensures ok { IfOk result (λ out. (xs : List Sample) → StateStands schema.now.fields self xs
            → agg_all (seen self.aggs.items) schema.now.fields xs ≡ Ok out) }
        ensures refused { IfErr result (λ e. (xs : List Sample) → StateStands schema.now.fields self xs
            → IsRefusedBy (agg_all (seen self.aggs.items) schema.now.fields xs) e) }
        ensures spent { self.spent ≡ true → result ≡ Err OutOfMemory }
    {
        if self.spent {
            return Err(AggError::NoMemory);
        }
        let AggState { aggs, nodes, .. } = self;
        let mut nodes = nodes;
        finish_level(alloc, aggs.as_slice(), schema.fields.as_slice(), &mut nodes)
    }
}
