//! What a body sends, and what the first looks find.
ghost use Rattle.std.specs.Prelude.{◌≡◌, None, Some, IfOk};
ghost use Rattle.serde_json.specs.View.{view};
ghost use Rattle.ts_mapping.specs.Faults.{first_of, leaves_of};
ghost use Rattle.ts_mapping.specs.Looks.{early_looks};
ghost use Rattle.ts_mapping.specs.Outcomes.{IsSentAs};
ghost use Rattle.ts_mapping.specs.Seen.{properties_seen, settings_seen};
ghost use Rattle.ts_mapping.specs.Settings.{settings_of};

use crate::faults::{Fault, shards, strict, type_fault};
use crate::kinds::MapKind;
use crate::properties::{PropertyAt, fields_sent};
use crate::sent_settings::settings;
use crate::settings::SettingAt;
use crate::shapes::shape_fault;
use edge_face::NoMemory;
use serde_json::Value;
use std::alloc::Global;

/// What a body sent, or the fault that the early looks find first.
#[derive(Drop)]
pub enum Gathered<'a> {
    /// The settings, and the properties that are fields.
    Sent(Vec<SettingAt<'a>>, Vec<PropertyAt<'a>>),
    Refused(Fault),
}

/// What the looks at the number of shards, at `dynamic`, and at the types and the number of the fields find first.
#[tactic(auto, unfolding(crate::specs::Faults::shards_in))]
fn early_fault(
    alloc: Global,
    body: &Value,
    settings: &[SettingAt<'_>],
    leaves: &[PropertyAt<'_>],
) -> Result<Option<Fault>, NoMemory>
    requires settings { settings_seen settings.now ≡ settings_of (view body.now) }
    requires leaves { properties_seen leaves.now ≡ leaves_of (view body.now) }
    ensures { IfOk result (λ fault. fault ≡ first_of (early_looks (view body.now))) }
{
    type_fault(alloc, shards(settings), strict(body), leaves)
}

/// Looks at the shape of the body, gathers what it sends, and looks at its types and numbers.
pub fn gather(alloc: Global, body: &Value) -> Result<Gathered<'_>, NoMemory>
    ensures { IfOk result (IsSentAs (view body.now)) }
{
    let settings = settings(alloc, body)?;
    if let Some(path) = shape_fault(alloc, body, &settings)? {
        return Ok(Gathered::Refused(Fault {
            kind: MapKind::Shape,
            path,
        }));
    }
    let fields = fields_sent(alloc, body)?;
    match early_fault(alloc, body, &settings, &fields)? {
        Some(fault) => Ok(Gathered::Refused(fault)),
        None => Ok(Gathered::Sent(settings, fields)),
    }
}
