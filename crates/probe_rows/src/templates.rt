//! Templates and the leaves of documents.
ghost use Rattle.std.specs.Prelude.{◌≢◌, IfSome};
ghost use Rattle.row_cells.specs.declared.schemas.FieldType.TheVariants.{Aggregate};

use crate::shown::{put_parts, put_scalar, put_schema};
use edge_face::Text;
use probe_case::Trial;
use row_cells::FieldType;
use serde_json::Value;
use ts_mapping::{MapError, Template, read_aggregate, read_scalar, read_template};

fn put_patterns(patterns: &[Text], trial: &mut Trial) {
    trial.open("[");
    for pattern in patterns {
        trial.word(pattern.as_str());
    }
    trial.close("]");
}

fn put_template(template: &Template, trial: &mut Trial) {
    trial.ok();
    trial.open("{");
    trial.name("patterns");
    put_patterns(template.patterns.as_slice(), trial);
    trial.name("priority");
    trial.wide(i128::from(template.priority));
    trial.flag_at("strict", template.strict);
    trial.name("shards");
    trial.wide(i128::from(template.shards));
    trial.name("look_back");
    trial.whole(template.look_back);
    trial.name("look_ahead");
    trial.whole(template.look_ahead);
    trial.name("schema");
    put_schema(&template.schema, trial);
    trial.close("}}");
}

/// A refusal that names a path.
pub fn put_refusal(kind: &str, path: &str, trial: &mut Trial) {
    trial.err(kind);
    trial.name("path");
    trial.word(path);
    trial.close("}");
}

/// The template of a body, or its refusal.
pub fn read(case: &Value, trial: &mut Trial) -> Option<()> {
    let body = trial.tree_at(case, "body", "text");
    match read_template(trial.alloc, &Text::fixed("t"), &body) {
        Ok(template) => put_template(&template, trial),
        Err(MapError::Refused { kind, path }) => {
            let kind = format!(in trial.alloc; "{kind:?}").ok()?;
            put_refusal(kind.as_str(), path.as_str(), trial);
        }
        Err(MapError::NoMemory) => return None,
    }
    Some(())
}

fn small_kind(name: &str) -> Option<FieldType>
    ensures { IfSome result (λ kind. kind ≢ Aggregate) }
{
    match name {
        "Long" => Some(FieldType::Long),
        "Integer" => Some(FieldType::Integer),
        "Short" => Some(FieldType::Short),
        "Byte" => Some(FieldType::Byte),
        _ => None,
    }
}

/// A type of single values.
fn kind_named(name: &str) -> Option<FieldType>
    ensures { IfSome result (λ kind. kind ≢ Aggregate) }
{
    match name {
        "Date" => Some(FieldType::Date),
        "Keyword" => Some(FieldType::Keyword),
        "Boolean" => Some(FieldType::Boolean),
        _ => small_kind(name),
    }
}

/// The value that a leaf is read as by a type, or null; aggregates have none.
pub fn scalar(case: &Value, trial: &mut Trial) -> Option<()> {
    let leaf = trial.tree_at(case, "leaf", "text");
    let name = trial.word_at(case, "type");
    if name == "Aggregate" {
        trial.ok_null();
        return Some(());
    }
    match read_scalar(trial.alloc, kind_named(name)?, &leaf).ok()? {
        Some(value) => {
            trial.ok();
            put_scalar(&value, trial);
            trial.close("}");
        }
        None => trial.ok_null(),
    }
    Some(())
}

/// Least, greatest, sum and number of the values that an aggregate stands for, or null.
pub fn aggregate(case: &Value, trial: &mut Trial) {
    match read_aggregate(&trial.tree_at(case, "leaf", "text")) {
        Some(parts) => {
            trial.ok();
            put_parts(&parts, trial);
            trial.close("}");
        }
        None => trial.ok_null(),
    }
}
