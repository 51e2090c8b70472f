//! Names of streams and indices, and patterns of names.
ghost use Rattle.std.specs.Prelude.{◌≤◌};
ghost use Rattle.index_names.specs.Backing.{greatest_generation};

use crate::times::{instant_at, interval_at};
use edge_face::{NoMemory, Text};
use index_names::{
    BackingName, GREATEST_GENERATION, backing_name, downsample_name, is_backing_name,
    is_index_name, is_pattern, is_reserved, is_stream_name, is_target_name, pattern_takes,
    read_backing_name,
};
use probe_case::Trial;
use serde_json::Value;

/// Whether a name is one of a stream, of a target, and of an index.
pub fn kinds(case: &Value, trial: &mut Trial) {
    let name = trial.bytes(case, "name");
    trial.ok();
    trial.open("[");
    trial.flag(is_stream_name(name.as_slice()));
    trial.flag(is_target_name(name.as_slice()));
    trial.flag(is_index_name(name.as_slice()));
    trial.close("]}");
}

/// Whether a text is a pattern, whether it is reserved, and whether as a pattern it takes a name.
pub fn takes(case: &Value, trial: &mut Trial) {
    let pattern = trial.bytes(case, "pattern");
    let name = trial.bytes(case, "name");
    trial.ok();
    trial.open("{");
    trial.flag_at("pattern", is_pattern(pattern.as_slice()));
    trial.flag_at("reserved", is_reserved(pattern.as_slice()));
    trial.flag_at("takes", pattern_takes(pattern.as_slice(), name.as_slice()));
    trial.close("}}");
}

/// A generation of a stream's backing indices.
fn generation_at(case: &Value, trial: &mut Trial) -> u32
    ensures { result ≤ greatest_generation }
{
    let generation = trial.number(case, "generation");
    if 0 <= generation && generation <= i64::from(GREATEST_GENERATION) {
        generation as u32
    } else {
        trial.give_up();
        0
    }
}

fn put_made(made: Result<Text, NoMemory>, trial: &mut Trial) {
    match made {
        Ok(name) => trial.ok_word(name.as_str()),
        Err(_) => trial.give_up(),
    }
}

pub fn backing(case: &Value, trial: &mut Trial) {
    let now = instant_at(case, "now", trial);
    let generation = generation_at(case, trial);
    let stream = trial.word_at(case, "stream");
    put_made(backing_name(trial.alloc, stream, now, generation), trial);
}

fn put_backing(name: &BackingName, trial: &mut Trial) {
    trial.ok();
    trial.open("{");
    trial.name("stream");
    trial.word(name.stream);
    trial.name("day");
    trial.whole(name.day);
    trial.name("generation");
    trial.whole(i64::from(name.generation));
    trial.close("}}");
}

/// The stream, the day and the generation of a backing index's name, or null.
pub fn read_backing(case: &Value, trial: &mut Trial) {
    let name = trial.bytes(case, "name");
    let read = read_backing_name(name.as_slice());
    trial.need(is_backing_name(name.as_slice()) == read.is_some());
    match read {
        Some(read) => put_backing(&read, trial),
        None => trial.ok_null(),
    }
}

pub fn downsample(case: &Value, trial: &mut Trial) {
    let origin = trial.word_at(case, "origin");
    if let Some(by) = interval_at(case, "by", trial) {
        put_made(downsample_name(trial.alloc, &by, origin), trial);
    }
}
