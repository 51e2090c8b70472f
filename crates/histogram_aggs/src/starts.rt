//! Starts of buckets of time.
ghost use Rattle.std.specs.Prelude.{◌≡◌, ◌+ℤ◌, ◌-ℤ◌, ◌<ℤ◌, ◌/◌, pos, unsigned_abs, IfOk};
ghost use Rattle.time_text.specs.Bucket.{bucket_start};
ghost use Rattle.time_text.specs.Instant.{IsInstant};
ghost use Rattle.time_text.specs.Interval.{ms_of};

use edge_face::NoMemory;
use std::cmp::Ordering;
use std::marker::Model;
use time_text::{Interval, is_instant};

/// The start of a bucket, which is an instant.
#[derive(Drop)]
pub struct Start {
    ms: i64,
}

impl Model for Start {
    ghost use Rattle.std.specs.Prelude.{ℤ};
    ghost use Rattle.time_text.specs.Instant.{IsInstant};

    ghost Value = { ℤ };

    ghost view = { λ start. start.ms };

    ghost invariant = { λ start. IsInstant start.ms };
}

impl Start {
    /// The start of the bucket that an instant is in.
    pub fn of(time: i64, by: Interval) -> Start
        requires { IsInstant time }
        ensures { result ≡ bucket_start (ms_of by) time }
    {
        let ms = by.start_of(time);
        Start { ms }
    }

    /// Milliseconds since 1970 began, in UTC.
    pub fn ms(&self) -> i64
        ensures is { result ≡ self.now }
        ensures instant { IsInstant self.now }
    {
        self.ms
    }

    pub fn copy(&self) -> Start
        ensures { result ≡ self.now }
    {
        let ms = self.ms;
        Start { ms }
    }

    /// The start behind it. Want of memory stands for a start that is no instant, behind which no bucket has rows.
    pub fn next(&self, by: Interval) -> Result<Start, NoMemory>
        ensures next { IfOk result (λ next. next ≡ self.now +ℤ pos (ms_of by)) }
        ensures behind { IfOk result (λ next. self.now <ℤ next) }
    {
        let Some(ms) = self.ms.checked_add(by.ms()) else {
            return Err(NoMemory);
        };
        if is_instant(ms) {
            Ok(Start { ms })
        } else {
            Err(NoMemory)
        }
    }

    /// How many buckets there are from it up to another start.
    pub fn gaps(&self, last: &Start, by: Interval) -> u64
        ensures { result ≡ unsigned_abs (last.now -ℤ self.now) / ms_of by }
    {
        last.ms.abs_diff(self.ms) / by.ms().unsigned_abs()
    }
}

impl PartialEq for Start {
    ghost use Rattle.std.specs.Cmp;
    ghost use Rattle.std.specs.Ordering.{eq_by_cmp, int_cmp};

    ghost eq = { eq_by_cmp int_cmp };

    ghost laws = { Cmp.partial_equiv_from_equiv (Cmp.eq_by_cmp_equiv Cmp.int_cmp_total) };

    fn eq(&self, other: &Start) -> bool {
        self.cmp(other).is_eq()
    }
}

impl Eq for Start {
    ghost use Rattle.std.specs.Cmp;

    ghost laws = { Cmp.eq_by_cmp_equiv Cmp.int_cmp_total };
}

impl PartialOrd for Start {
    ghost use Rattle.std.specs.Prelude.{Some};
    ghost use Rattle.std.specs.Cmp;
    ghost use Rattle.std.specs.Ordering.{int_cmp};

    ghost partial_cmp = { λ x y. Some (int_cmp x y) };

    ghost laws = { Cmp.partial_order_from_total Cmp.int_cmp_total };

    fn partial_cmp(&self, other: &Start) -> Option<Ordering> {
        Some(self.cmp(other))
    }
}

impl Ord for Start {
    ghost use Rattle.std.specs.Prelude.{refl};
    ghost use Rattle.std.specs.Cmp;
    ghost use Rattle.std.specs.Ordering.{int_cmp};

    ghost cmp = { int_cmp };

    ghost total = { Cmp.int_cmp_total };

    ghost matches_partial_cmp = { λ x y. refl };

    ghost matches_eq = { λ x y. refl };

    fn cmp(&self, other: &Start) -> Ordering {
        self.ms.cmp(&other.ms)
    }
}
