//! Which index of a catalogue takes a document.
ghost use Rattle.std.specs.Prelude.{◌≡◌, Some, Ok, Err, IfOk, IfErr};
ghost use Rattle.stream_catalog.specs.Calls.{HasFacts};
ghost use Rattle.stream_catalog.specs.Lists.{stream_name, stream_named};
ghost use Rattle.stream_catalog.specs.Picks.{AreWindows, taken_by, window_at};
ghost use Rattle.stream_catalog.specs.Puts.{picked_by};

use crate::answers::PickError;
use crate::catalog::Catalog;
use crate::catalog_facts::CatalogFacts;
use crate::facts::HeldIndex;
use crate::held_streams::HeldStream;

impl CatalogFacts {
    /// The member that takes a document of a time.
    fn pick(&self, stream: &HeldStream, time: i64) -> Result<&HeldIndex, PickError>
        requires { AreWindows self.now.indices stream.now.facts.members }
        ensures found { IfOk result (λ i. taken_by (window_at self.now.indices time stream.now.facts.members) ≡ Ok i.now) }
        ensures refused { IfErr result (λ e. taken_by (window_at self.now.indices time stream.now.facts.members) ≡ Err e) }
    {
        match self.window_of(stream.facts.members.as_slice(), time) {
            None => Err(PickError::NoWindow),
            Some(index) => {
                if index.blocked {
                    Err(PickError::Blocked)
                } else {
                    Ok(index)
                }
            }
        }
    }
}

impl Catalog {
    /// The member of a stream of the catalogue that takes a document of a time, but for its rows. It is found in as many look-ups as
    /// the number of members has bits.
    pub fn pick(&self, stream: &HeldStream, time: i64) -> Result<&HeldIndex, PickError>
        requires { stream_named (stream_name stream.now) self.now.streams ≡ Some stream.now }
        ensures found { IfOk result (λ i. HasFacts (picked_by self.now stream.now time) i.now) }
        ensures refused { IfErr result (λ e. picked_by self.now stream.now time ≡ Err e) }
    {
        match self.facts.pick(stream, time) {
            Ok(index) => Ok(index),
            Err(error) => Err(error),
        }
    }
}
