//! What holds of the definitions that the contracts of this crate cite.
ghost use Rattle.index_names.specs.BackingLaws.{BackingNamesTell};
ghost use Rattle.index_names.specs.NameLaws.{BackingNamesNameIndices, FoldsNameTargets, FoldsOfBackingNameTargets, StreamsNameTargets, TargetsNameIndices};

/// A backing index's name tells its stream, its day and its generation.
pub fn backing_names_tell()
    ensures { BackingNamesTell }
{}

/// A stream's name is one that a target may have, a target's one that an index may have, and so is a backing index's.
pub fn names_of_indices()
    ensures streams { StreamsNameTargets }
    ensures targets { TargetsNameIndices }
    ensures backing { BackingNamesNameIndices }
{}

/// The name of what an index is downsampled to is a target's where it isn't too long, and that of a backing index's is always one.
pub fn names_of_folds()
    ensures few { FoldsNameTargets }
    ensures backing { FoldsOfBackingNameTargets }
{}
