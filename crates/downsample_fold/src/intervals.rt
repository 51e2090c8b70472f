//! Which interval rows may be folded by.
ghost use Rattle.std.specs.Prelude.{◌≡◌, ◌↔◌, ◌≤ℤ◌, pos, unsigned_abs, Some, None, IsOk, IfErr};
ghost use Rattle.downsample_fold.specs.Intervals.{fault_after, interval_fault};

use thiserror::Error;
use time_text::Interval;

/// Why rows can't be folded by an interval. Both intervals are told in milliseconds.
#[derive(Clone, Copy, Debug, PartialEq, Eq, Error)]
pub enum IntervalError {
    #[error("{asked} ms must be greater than {had} ms")]
    NotGreater { had: i64, asked: i64 },
    #[error("{asked} ms must be a multiple of {had} ms")]
    NotMultiple { had: i64, asked: i64 },
}

/// Whether rows that were folded by `had`, or never, may be folded by `asked`: that must be greater, and else
/// a whole multiple.
pub fn check_interval(had: Option<Interval>, asked: Interval) -> Result<(), IntervalError>
    ensures ok { IsOk result ↔ (interval_fault had asked ≡ None) }
    ensures fault { IfErr result (λ error. interval_fault had asked ≡ Some error) }
{
    match had {
        None => Ok(()),
        Some(had) => check_lengths(had.ms(), asked.ms()),
    }
}

fn check_lengths(had: i64, asked: i64) -> Result<(), IntervalError>
    requires had { pos 1 ≤ℤ had }
    requires asked { pos 1 ≤ℤ asked }
    ensures ok { IsOk result ↔ (fault_after (unsigned_abs had) (unsigned_abs asked) ≡ None) }
    ensures fault { IfErr result (λ error. fault_after (unsigned_abs had) (unsigned_abs asked) ≡ Some error) }
{
    if asked <= had {
        Err(IntervalError::NotGreater { had, asked })
    } else if asked % had != 0 {
        Err(IntervalError::NotMultiple { had, asked })
    } else {
        Ok(())
    }
}
