//! What holds of the definitions that the contracts of this crate cite.
ghost use Rattle.lifecycle_swap.specs.BodyLaws.{BodiesAreLifecycles};

/// What a body gives is a lifecycle.
pub fn bodies_are_lifecycles()
    ensures { BodiesAreLifecycles }
{}
