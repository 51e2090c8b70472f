//! JSON documents: names, leaves and paths.
use crate::values::put_texts;
use edge_face::Text;
use json_walk::{Leaf, has_names, has_no_other, is_object, leaves_at, only_member, paths};
use probe_case::{Trial, optional_list};
use serde_json::Value;
use std::alloc::Global;

fn texts_of(alloc: Global, case: &Value, name: &str) -> Option<Vec<Text>> {
    let mut texts = Vec::new(alloc);
    for element in optional_list(case, name)? {
        texts.push(Text::new(alloc, element.as_str()?).ok()?).ok()?;
    }
    Some(texts)
}

/// The paths at which a case asks to stop, or none.
fn stops_of(case: &Value, trial: &mut Trial) -> Vec<Text> {
    match texts_of(trial.alloc, case, "stops") {
        Some(stops) => stops,
        None => {
            trial.give_up();
            Vec::new(trial.alloc)
        }
    }
}

/// Whether a document has just these names.
pub fn names(case: &Value, trial: &mut Trial) {
    let names = trial.words(case, "names");
    let document = trial.parsed(case, "line");
    trial.ok_flag(has_names(&document, names.as_slice()));
}

fn put_text_of(value: &Value, trial: &mut Trial) {
    match value.to_string(trial.alloc) {
        Ok(text) => trial.word(text.as_str()),
        Err(_) => trial.give_up(),
    }
}

fn put_leaf(leaf: &Leaf, trial: &mut Trial) {
    if let Some(value) = leaf.value() {
        put_text_of(value, trial);
    }
}

fn put_leaves(leaves: &[Leaf], trial: &mut Trial) {
    trial.ok();
    trial.open("[");
    for leaf in leaves {
        put_leaf(leaf, trial);
    }
    trial.close("]}");
}

/// The texts of the leaves at a path.
pub fn at_path(case: &Value, trial: &mut Trial) {
    let stops = stops_of(case, trial);
    let document = trial.parsed(case, "line");
    let path = trial.text(case, "path");
    match leaves_at(trial.alloc, &document, path.as_str(), stops.as_slice()) {
        Ok(found) => put_leaves(found.as_slice(), trial),
        Err(_) => trial.give_up(),
    }
}

fn put_only(document: &Value, trial: &mut Trial) {
    match only_member(document) {
        Some((name, _)) => trial.word(name),
        None => trial.null(),
    }
}

/// Whether the document is an object, the name of its only member, and whether it has no names but those of the case.
pub fn shape(case: &Value, trial: &mut Trial) {
    let names = trial.words(case, "names");
    let document = trial.parsed(case, "line");
    trial.ok();
    trial.open("{");
    trial.flag_at("object", is_object(&document));
    trial.name("only");
    put_only(&document, trial);
    trial.flag_at("no_other", has_no_other(&document, names.as_slice()));
    trial.close("}}");
}

/// The paths of a document's leaves.
pub fn leaf_paths(case: &Value, trial: &mut Trial) {
    let stops = stops_of(case, trial);
    let document = trial.parsed(case, "line");
    match paths(trial.alloc, &document, stops.as_slice()) {
        Ok(paths) => put_texts(paths.as_slice(), trial),
        Err(_) => trial.give_up(),
    }
}
