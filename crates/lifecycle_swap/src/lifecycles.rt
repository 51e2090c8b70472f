//! Lifecycles of streams.
ghost use Rattle.std.specs.Prelude.{◌≡◌};
ghost use Rattle.lifecycle_swap.specs.Lifecycles as spec;

use downsample_fold::check_interval;
use sqlite_items::Items;
use time_text::Interval;

/// From which age on members are folded, and by which interval.
#[derive(Clone, Copy, Debug, PartialEq, Eq)]
pub struct Round {
    pub after: Interval,
    pub by: Interval,
}

/// What a stream does with members whose windows have ended. Ages count from the end of a window.
#[derive(Debug, Drop)]
pub struct Lifecycle {
    /// From this age on a member is deleted.
    pub retention: Option<Interval>,
    /// Each comes later than the one before, and folds by a greater multiple of its interval.
    pub rounds: Items<Round>,
}

const MOST_ROUNDS: usize = 10;

fn may_follow(first: Round, next: Round) -> bool
    ensures { result ≡ spec.may_follow first next }
{
    first.after.ms() < next.after.ms() && check_interval(Some(first.by), next.by).is_ok()
}

fn follow_after(first: Round, rounds: &[Round]) -> bool
    ensures { result ≡ spec.follow_after first rounds.now }
{
    let mut before = first;
    for round in rounds {
        if !may_follow(before, *round) {
            return false;
        }
        before = *round;
    }
    true
}

fn follow(rounds: &[Round]) -> bool
    ensures { result ≡ spec.follow rounds.now }
{
    match rounds.split_first() {
        None => true,
        Some((first, rest)) => follow_after(*first, rest),
    }
}

impl Lifecycle {
    /// Whether there are at most ten rounds, each of which may follow the one before.
    pub fn is_sound(&self) -> bool
        ensures { result ≡ spec.is_lifecycle self.now }
    {
        self.rounds.len() <= MOST_ROUNDS && follow(self.rounds.as_slice())
    }
}
