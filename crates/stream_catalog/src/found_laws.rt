//! The laws on what is found by a name, for crates above.
ghost use Rattle.stream_catalog.specs.FoundLaws.{StreamsFound};

/// What is known of a sound catalogue's streams.
pub fn streams_are_found()
    ensures { StreamsFound }
{}
