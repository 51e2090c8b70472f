//! Clocks.
ghost use Rattle.std.specs.Prelude.{ℕ, ℤ, List, Option, IfSome};
ghost use Rattle.edge_face.specs.Contents.{Rose};
ghost use Rattle.edge_face.specs.Moments.{IsMoment, GivesMoment};

/// What tells the present moment, in milliseconds since 1970.
///
/// Its meanings are the moments still to come, where it tells them, and the count of its calls, which never falls.
pub trait Clock {
    ghost left: { Self → Option (List ℤ) };

    ghost calls: { Self → ℕ };

    /// The present moment, from 0 to `LAST_INSTANT`.
    fn now(&mut self) -> i64
        ensures moment { IsMoment result }
        ensures told { IfSome (left self.old) (λ all. GivesMoment all result (left self.new)) }
        ensures called { Rose (calls self.old) (calls self.new) };
}
