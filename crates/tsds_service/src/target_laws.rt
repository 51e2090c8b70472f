//! The laws on the indices that a name stands for, for crates above.
ghost use Rattle.tsds_service.specs.TargetLaws.{TargetsAscend, TargetsStay};

use stream_catalog::{indices_are_sound, streams_are_found, tests_stay};

/// In what is seen a name stands for what is seen of the same indices.
pub fn targets_stay()
    ensures { TargetsStay }
{
    tests_stay();
}

/// The indices that a name stands for begin one after another.
pub fn targets_ascend()
    ensures { TargetsAscend }
{
    indices_are_sound();
    streams_are_found();
}
