//! Templates, and why a body is none.
ghost use Rattle.std.specs.Prelude.{◌≡◌, false, true, None, IfErr, IfOk};
ghost use Rattle.serde_json.specs.View.{view};
ghost use Rattle.ts_mapping.specs.Faults.{refusal_of};
ghost use Rattle.ts_mapping.specs.Ranges.{IsInRange, mapping_of};
ghost use Rattle.ts_mapping.specs.Schemas.{IsTemplateSchema};
ghost use Rattle.ts_mapping.specs.Templates.{IsRefusal, template_of};

use crate::kinds::MapKind;
use crate::making::{Outcome, read_body};
use edge_face::{NoMemory, Text};
use row_cells::{Schema, copy_schema};
use serde_json::Value;
use sqlite_items::Items;
use std::alloc::Global;
use thiserror::Error;

/// What new indices of the streams that match are made with.
#[derive(Debug, Drop)]
pub struct Template {
    pub name: Text,
    /// Each is a name, or `*` with nothing or a name before it. There are 1 to 16, in the order sent.
    pub patterns: Items<Text>,
    /// 0 to 2^31 - 1. Of the templates that match a stream the one of greatest priority is taken.
    pub priority: u32,
    /// A document with a path that isn't mapped is refused.
    pub strict: bool,
    /// 1 to 64.
    pub shards: u32,
    /// How far before the present a first index begins, in milliseconds: one minute to seven days.
    pub look_back: i64,
    /// How far after the present an index ends, in milliseconds: one minute to seven days.
    pub look_ahead: i64,
    /// Not folded, and rising.
    pub schema: Schema,
}

/// What of a template an index keeps for good.
#[derive(Debug, Drop)]
pub struct Mapping {
    /// A document with a path that isn't mapped is refused.
    pub strict: bool,
    /// 1 to 64.
    pub shards: u32,
    pub schema: Schema,
}

impl Template {
    /// What an index that is made with the template keeps of it.
    pub fn mapping(&self, alloc: Global) -> Result<Mapping, NoMemory>
        ensures { IfOk result (λ m. m ≡ mapping_of self.now) }
    {
        Ok(Mapping {
            strict: self.strict,
            shards: self.shards,
            schema: copy_schema(alloc, &self.schema)?,
        })
    }
}

impl Mapping {
    /// A copy of the mapping.
    pub fn copy(&self, alloc: Global) -> Result<Mapping, NoMemory>
        ensures { IfOk result (λ m. m ≡ self.now) }
    {
        Ok(Mapping {
            strict: self.strict,
            shards: self.shards,
            schema: copy_schema(alloc, &self.schema)?,
        })
    }
}

/// Why a body gives no template.
#[derive(Debug, Drop, Error)]
pub enum MapError {
    /// The first kind that has a fault, and the least path in byte order of those at fault.
    #[error("{kind:?} [{}]", path.as_str())]
    Refused { kind: MapKind, path: Text },
    #[error("out of memory")]
    NoMemory,
}

impl From<NoMemory> for MapError {
    ghost use Rattle.std.specs.Prelude.{◌≡◌};
    ghost use Rattle.ts_mapping.specs.declared.templates.MapError.TheVariants.{NoMemory as OutOfMemory};

    ghost from_gives = { λ _ e. e ≡ OutOfMemory };

    fn from(_: NoMemory) -> MapError {
        MapError::NoMemory
    }
}

/// Reads a template of a name from a body.
///
/// The body has `index_patterns` (a text or a list of 1 to 16), `data_stream` (an object) and `template` (an object with
/// `settings` and, if need be, `mappings`), and may have `priority`, `version`, `_meta` and an empty `composed_of`. Settings
/// are flattened by dots and may begin with `index.`; properties may be nested or have dotted names. `@timestamp` is added
/// where it is absent, and all dimensions route where no routing path is given. A body that isn't so is refused for the first
/// kind of fault that it has, in the order of `MapKind`, with the least path in byte order.
#[tactic(auto, unfolding(crate::specs::Templates::template_of, crate::specs::Templates::schema_of))]
pub fn read_template(alloc: Global, name: &Text, body: &Value) -> Result<Template, MapError>
    ensures ok { IfOk result (λ t. (refusal_of (view body.now) ≡ None) × (t ≡ template_of name.now (view body.now))) }
    ensures refused { IfErr result (IsRefusal (view body.now)) }
    ensures ranges { IfOk result IsInRange }
    ensures schema { IfOk result (λ t. IsTemplateSchema t.schema) }
    ensures raw { IfOk result (λ t. t.schema.folded ≡ false) }
    ensures rising { IfOk result (λ t. t.schema.rises ≡ true) }
{
    match read_body(alloc, name, body) {
        Ok(Outcome::Made(template)) => Ok(template),
        Ok(Outcome::Faulty(fault)) => Err(MapError::Refused {
            kind: fault.kind,
            path: fault.path,
        }),
        Err(NoMemory) => Err(MapError::NoMemory),
    }
}
