//! Laws, as calls without effect.
ghost use Rattle.std.specs.Prelude.{◌≡◌};
ghost use Rattle.search_filter.specs.Aligned.{AlignedAlike, AlignedByBucket, AlignedByTest};
ghost use Rattle.search_filter.specs.Limits.{most_terms};
ghost use Rattle.search_filter.specs.SplitLaws.{RestByHead, RestByKey, SplitsMatch};
ghost use Rattle.search_filter.specs.declared.limits.TheConstants.{MOST_TERMS};

/// The constant is the limit of the definitions.
pub fn limits_are_told()
    ensures { MOST_TERMS ≡ most_terms }
{}

/// A query that splits takes exactly the rows in the range that the rest takes, where their times are instants.
pub fn splits_match()
    ensures { SplitsMatch }
{}

/// The rest of a query that splits takes all rows of a key or none, whatever their form, and exactly those whose key's head it takes.
pub fn rests_go_by_key()
    ensures keys { RestByKey }
    ensures heads { RestByHead }
{}

/// A query that asks for series and whole buckets alone takes a row exactly where it takes the row's series and the start of its
/// bucket. So of a series and a bucket it takes all rows and their fold, or none of them, and one test of series and buckets tells which
/// of many rows it takes.
pub fn aligned_go_by_bucket()
    ensures bucket { AlignedByBucket }
    ensures alike { AlignedAlike }
    ensures test { AlignedByTest }
{}
