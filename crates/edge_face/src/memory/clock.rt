//! Clocks in memory.
ghost use Rattle.std.specs.Prelude.{◌≡◌, All, Some, IfSome};
ghost use Rattle.edge_face.specs.Contents.{Rose};
ghost use Rattle.edge_face.specs.Memory.{one_more};
ghost use Rattle.edge_face.specs.Moments.{IsMoment, GivesMoment};

use crate::clock::Clock;
use std::marker::Model;

/// A clock that tells the moments of a list, and 0 behind them.
#[derive(Drop)]
pub struct MemoryClock {
    moments: Vec<i64>,
    told: usize,
    calls: u64,
}

impl Model for MemoryClock {
    ghost use Rattle.std.specs.Prelude.{◌≤◌, length, drop, All};
    ghost use Rattle.edge_face.specs.Memory.{ClockState};
    ghost use Rattle.edge_face.specs.Moments.{IsMoment};

    ghost Value = { ClockState };

    ghost view = { λ c. record { left = drop c.told c.moments.items; calls = c.calls } };

    ghost invariant = { λ c. (c.told ≤ length c.moments.items) × All IsMoment c.moments.items };
}

impl MemoryClock {
    pub fn new(left: Vec<i64>) -> MemoryClock
        requires { All IsMoment left.items }
        ensures { result ≡ record { left = left.items; calls = 0 } }
    {
        MemoryClock {
            moments: left,
            told: 0,
            calls: 0,
        }
    }
}

impl Clock for MemoryClock {
    ghost use Rattle.std.specs.Prelude.{Some};

    ghost left = { λ c. Some c.left };

    ghost calls = { λ c. c.calls };

    fn now(&mut self) -> i64
        ensures moment { IsMoment result }
        ensures told { IfSome (Some self.old.left) (λ all. GivesMoment all result (Some self.new.left)) }
        ensures called { Rose self.old.calls self.new.calls }

        ensures number { self.new.calls ≡ one_more self.old.calls }
    {
        self.calls = self.calls.saturating_add(1);
        if self.told == self.moments.len() {
            return 0;
        }
        let moment = self.moments[self.told];
        self.told += 1;
        moment
    }
}
