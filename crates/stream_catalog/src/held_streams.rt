//! Streams as a catalogue in memory holds them.
use crate::facts::StreamFacts;
use lifecycle_swap::Lifecycle;
use std::marker::Model;

/// A stream, and its lifecycle if one was set.
#[derive(Debug, Drop)]
pub struct HeldStream {
    pub facts: StreamFacts,
    pub life: Option<Lifecycle>,
}

impl Model for HeldStream {
    ghost use Rattle.stream_catalog.specs.Plain.{PlainStream};

    ghost Value = { PlainStream };

    ghost view = { λ s. record { facts = s.facts; life = s.life } };
}
