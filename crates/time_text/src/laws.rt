//! What holds of the definitions that the contracts of this crate cite.
ghost use Rattle.time_text.specs.Laws.{PrintedReadsBack, IntervalReadsBack, IntervalPrintsAsWritten, BucketIsGreatest, BucketOfInstant, BucketsNest, PrintedDatesAreCivil};

/// What `print_instant` prints, `read_instant` reads as the same instant.
pub fn printed_reads_back()
    ensures { PrintedReadsBack }
{}

/// What an interval prints, `Interval::read` reads as the same interval, and what it read, it prints.
pub fn interval_reads_back()
    ensures reads { IntervalReadsBack }
    ensures written { IntervalPrintsAsWritten }
{}

/// The date that is printed of an instant is the calendar's day with the instant's day number.
pub fn printed_dates_are_civil()
    ensures { PrintedDatesAreCivil }
{}

/// A bucket's start is the greatest multiple of the width that is at most the moment, and for an
/// instant it is an instant.
pub fn bucket_is_greatest()
    ensures greatest { BucketIsGreatest }
    ensures instant { BucketOfInstant }
{}

/// Buckets of a width lie within those of each multiple of it, so folding twice is folding once.
pub fn buckets_nest()
    ensures { BucketsNest }
{}
