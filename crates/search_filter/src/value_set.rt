//! Values that are looked for.
ghost use Rattle.std.specs.Prelude.{◌≡◌, IfOk, OnOk};
ghost use Rattle.std.specs.List.Sorted.{IsSorted, IsStable};
ghost use Rattle.row_cells.specs.Sorted.{sorted};
ghost use Rattle.search_filter.specs.Matching.{is_one_of};
ghost use Rattle.search_filter.specs.ValueLaws.{AreInOrder};
ghost use Rattle.search_filter.specs.Values.{value_cmp};

use crate::values::value_order;
use edge_face::NoMemory;
use row_cells::{Scalar, copy_scalars};
use sqlite_items::Items;
use std::alloc::{AllocError, Global};
use std::cmp::Ordering;
use std::marker::Model;

/// Values in ascending order, so that one is found by halves.
#[derive(Debug, Drop)]
pub struct ValueSet {
    values: Items<Scalar>,
}

impl Model for ValueSet {
    ghost use Rattle.std.specs.Prelude.{List};
    ghost use Rattle.row_cells.specs.declared.scalars.Scalar.{Scalar};
    ghost use Rattle.search_filter.specs.ValueLaws.{AreInOrder};

    ghost Value = { List Scalar };

    ghost view = { λ set. set.values };

    ghost invariant = { λ set. AreInOrder set.values };
}

fn sort(values: &mut Vec<Scalar>) -> Result<(), AllocError>
    ensures sorted { OnOk result (IsSorted value_cmp values.new.items) }
    ensures stable { IsStable value_cmp values.old.items values.new.items }
{
    values.sort_by(|a, b| value_order(a, b))
}

/// Whether a value is one of these, where they ascend.
fn is_among(value: &Scalar, values: &[Scalar]) -> bool
    ensures { AreInOrder values.now → result ≡ is_one_of values.now value.now }
{
    let (front, rest) = values.split_at(values.len() / 2);
    match rest.split_first() {
        None => false,
        Some((middle, behind)) => match value_order(value, middle) {
            Ordering::Less => is_among(value, front),
            Ordering::Equal => true,
            Ordering::Greater => is_among(value, behind),
        },
    }
}

impl ValueSet {
    /// These values in ascending order.
    pub fn new(values: Vec<Scalar>) -> Result<ValueSet, NoMemory>
        ensures { IfOk result (λ set. set ≡ sorted value_cmp values.items) }
    {
        let mut values = values;
        sort(&mut values)?;
        Ok(ValueSet {
            values: Items::from_vec(values),
        })
    }

    /// The values in ascending order.
    pub fn as_slice(&self) -> &[Scalar]
        ensures { result.now ≡ self.now }
    {
        self.values.as_slice()
    }

    pub fn copy(&self, alloc: Global) -> Result<ValueSet, NoMemory>
        ensures { IfOk result (λ copy. copy ≡ self.now) }
    {
        Ok(ValueSet {
            values: copy_scalars(alloc, self.values.as_slice())?,
        })
    }

    /// Whether a value is one of them, by halves.
    pub fn has(&self, value: &Scalar) -> bool
        ensures { result ≡ is_one_of self.now value.now }
    {
        is_among(value, self.values.as_slice())
    }
}
