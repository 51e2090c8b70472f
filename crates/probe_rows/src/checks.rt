//! Templates and mappings in memory that are looked at, and fields on which two of them disagree.
use crate::rows::schema_at;
use edge_face::Text;
use probe_case::{Trial, has, is_set};
use serde_json::Value;
use std::alloc::Global;
use ts_mapping::{Mapping, Template, first_other, is_mapping, is_template, read_template};

/// A number without a sign.
fn plain(number: i64) -> u32 {
    number.unsigned_abs().min(4_294_967_295) as u32
}

/// Puts the numbers and flags that the case has into a template.
fn change(template: &mut Template, case: &Value, trial: &mut Trial) {
    let priority = trial.number_or(case, "priority", i64::from(template.priority));
    let shards = trial.number_or(case, "shards", i64::from(template.shards));
    template.priority = plain(priority);
    template.shards = plain(shards);
    template.look_back = trial.number_or(case, "look_back", template.look_back);
    template.look_ahead = trial.number_or(case, "look_ahead", template.look_ahead);
    template.schema.folded = is_set(case, "folded");
    template.schema.rises = !has(case, "rises") || is_set(case, "rises");
}

fn put_kept(template: &Template, mapping: &Mapping, trial: &mut Trial) -> Option<()> {
    trial.ok();
    trial.open("{");
    trial.flag_at("template", is_template(trial.alloc, template).ok()?);
    trial.flag_at("mapping", is_mapping(trial.alloc, mapping).ok()?);
    trial.close("}}");
    Some(())
}

fn put_changed(template: &Template, trial: &mut Trial) -> Option<()> {
    let mapping = template.mapping(trial.alloc).ok()?;
    put_kept(template, &mapping, trial)
}

/// Whether a template with other numbers is still one, and whether what an index keeps of it is a mapping.
pub fn kept(case: &Value, trial: &mut Trial) -> Option<()> {
    let body = case.get("template")?;
    let mut template = read_template(trial.alloc, &Text::fixed("t"), body).ok()?;
    change(&mut template, case, trial);
    put_changed(&template, trial)
}

/// The first path at which two templates have fields of another type or role, or null.
pub fn other(case: &Value, trial: &mut Trial) -> Option<()> {
    let schema = schema_at(trial.alloc, case, "template")?;
    let other = schema_at(trial.alloc, case, "other")?;
    match first_other(schema.fields.as_slice(), other.fields.as_slice()) {
        Some(field) => trial.ok_word(field.path.as_str()),
        None => trial.ok_null(),
    }
    Some(())
}
