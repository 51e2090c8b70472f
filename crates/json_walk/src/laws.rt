//! What holds of the definitions that the contracts of this crate cite.
ghost use Rattle.json_walk.specs.CountLaws.{LeavesAreFew};

/// A tree has no more leaves than the bytes that it was read from.
#[tactic(auto, using(crate::specs::CountLaws::few_leaves))]
pub fn leaves_are_few()
    ensures { LeavesAreFew }
{}
