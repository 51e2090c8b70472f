//! The settings of a template.
ghost use Rattle.std.specs.Prelude.{◌≡◌, ◌++◌, IfOk, OnOk, length, filter};
ghost use Rattle.serde_json.specs.View.{view};
ghost use Rattle.ts_mapping.specs.Least.{all_faults, fault_unless, least_with};
ghost use Rattle.ts_mapping.specs.Seen.{seen, setting_of, settings_seen};
ghost use Rattle.ts_mapping.specs.Walks.{known_settings, sent_faults};
ghost use Rattle.ts_mapping.specs.Settings as spec;

use crate::least::Least;
use crate::limits::{LONGEST_LOOK, MOST_SHARDS, SHORTEST_LOOK};
use crate::numbers::{are_digits, digits_value};
use crate::sent_settings::check_known;
use crate::trees::{is_text, texts};
use edge_face::{NoMemory, Text};
use serde_json::Value;
use std::alloc::Global;
use time_text::Interval;

/// What a setting is about.
#[derive(Clone, Copy, Debug, PartialEq, Eq)]
pub enum Key {
    Mode,
    RoutingPath,
    Shards,
    LookBack,
    LookAhead,
    Replicas,
}

/// A setting as it was sent: its path below `settings`, and its value, which is no object.
#[derive(Drop)]
pub struct SettingAt<'a> {
    pub path: Text,
    pub value: &'a Value,
}

const DIGITS_LIMIT: usize = 2;

fn short_path(path: &[u8]) -> &[u8]
    ensures { result.now ≡ spec.short_path path.now }
{
    if path.len() < 6 {
        return path;
    }
    let (front, rest) = path.split_at(6);
    if front == b"index.".as_slice() {
        rest
    } else {
        path
    }
}

impl Key {
    /// How the setting is called.
    fn name(self) -> &'static str
        ensures { result.now ≡ spec.key_name self }
    {
        match self {
            Key::Mode => "mode",
            Key::RoutingPath => "routing_path",
            Key::Shards => "number_of_shards",
            Key::LookBack => "look_back_time",
            Key::LookAhead => "look_ahead_time",
            Key::Replicas => "number_of_replicas",
        }
    }
}

/// Whether a path names some setting.
#[tactic(auto, unfolding(crate::specs::Settings::is_known))]
pub fn is_known(path: &str) -> bool
    ensures { result ≡ spec.is_known path.now }
{
    let name = short_path(path.as_bytes());
    name == b"mode".as_slice()
        || name == b"routing_path".as_slice()
        || name == b"number_of_shards".as_slice()
        || name == b"look_back_time".as_slice()
        || name == b"look_ahead_time".as_slice()
        || name == b"number_of_replicas".as_slice()
}

/// Whether a path names this setting.
#[tactic(auto, unfolding(crate::specs::Settings::is_named))]
fn is_named(key: Key, path: &Text) -> bool
    ensures { result ≡ spec.is_named key path.now }
{
    short_path(path.as_bytes()) == key.name().as_bytes()
}

fn times_given(key: Key, settings: &[SettingAt<'_>]) -> usize
    ensures { result ≡ spec.times_given key (settings_seen settings.now) }
{
    let mut times = 0;
    for setting in settings {
        if is_named(key, &setting.path) {
            times += 1;
        }
    }
    times
}

/// The value of a setting, the first that is given.
pub fn value_of<'a>(key: Key, settings: &[SettingAt<'a>]) -> Option<&'a Value>
    ensures { seen result ≡ spec.value_of key (settings_seen settings.now) }
{
    for setting in settings {
        if is_named(key, &setting.path) {
            return Some(setting.value);
        }
    }
    None
}

/// A time to look back or ahead: the text of an interval of one minute to seven days, in milliseconds.
pub fn look_of(value: &Value) -> Option<i64>
    ensures { result ≡ spec.look_of (view value.now) }
{
    let text = value.as_str()?;
    let Ok(interval) = Interval::read(text) else {
        return None;
    };
    let ms = interval.ms();
    if SHORTEST_LOOK <= ms && ms <= LONGEST_LOOK {
        Some(ms)
    } else {
        None
    }
}

fn in_shards(number: u64) -> Option<u32>
    ensures { result ≡ spec.in_shards number }
{
    if 1 <= number && number <= MOST_SHARDS {
        Some(number as u32)
    } else {
        None
    }
}

/// One or two digits without a leading zero.
fn shards_text(text: &[u8]) -> Option<u32>
    ensures { result ≡ spec.shards_text text.now }
{
    if text.is_empty() || text.len() > DIGITS_LIMIT || text[0] == b'0' || !are_digits(text) {
        return None;
    }
    in_shards(digits_value(text))
}

/// A number of shards: a JSON whole number from 1 to 64, or its digits.
pub fn shards_of(value: &Value) -> Option<u32>
    ensures { result ≡ spec.shards_of (view value.now) }
{
    match value {
        Value::Number(number) => in_shards(number.as_u64()?),
        Value::String(text) => shards_text(text.as_bytes()),
        Value::Null | Value::Bool(_) | Value::Array(_) | Value::Object(_) => None,
    }
}

fn is_formed(alloc: Global, key: Key, value: &Value) -> Result<bool, NoMemory>
    ensures { IfOk result (λ formed. formed ≡ spec.is_formed key (view value.now)) }
{
    match key {
        Key::Mode => Ok(is_text(value, "time_series")),
        Key::RoutingPath => {
            let entries = texts(alloc, value)?;
            Ok(entries.is_some())
        }
        Key::LookBack | Key::LookAhead => Ok(look_of(value).is_some()),
        Key::Shards | Key::Replicas => Ok(true),
    }
}

/// Where settings stand in a body.
pub const PLACE: &str = "template.settings";

fn check_setting(
    alloc: Global,
    key: Key,
    once: bool,
    setting: &SettingAt<'_>,
    least: &mut Least,
) -> Result<(), NoMemory>
    ensures { OnOk result (least.new ≡ least_with least.old (spec.key_fault key once (setting_of setting.now))) }
{
    if !is_named(key, &setting.path) {
        return Ok(());
    }
    let formed = is_formed(alloc, key, setting.value)?;
    least.note_under(alloc, once && formed, PLACE, setting.path.as_str())
}

/// Tells the places of one setting, if it is given more than once or its value is ill-formed.
fn check_key(
    alloc: Global,
    key: Key,
    settings: &[SettingAt<'_>],
    least: &mut Least,
) -> Result<(), NoMemory>
    ensures { OnOk result (least.new ≡ least_with least.old (spec.faults_at_key key (settings_seen settings.now))) }
{
    let once = times_given(key, settings) <= 1;
    for setting in settings {
        check_setting(alloc, key, once, setting, least)?;
    }
    Ok(())
}

/// Tells the settings at fault, of which those that have the name of one were sent.
#[tactic(auto, using(crate::proofs::LeastLemmas::least_with_append))]
fn check_sent(
    alloc: Global,
    body: &Value,
    sent: &[SettingAt<'_>],
    least: &mut Least,
) -> Result<(), NoMemory>
    ensures { OnOk result (least.new
        ≡ least_with least.old (sent_faults (spec.settings_of (view body.now)) (settings_seen sent.now))) }
{
    check_known(alloc, body, least)?;
    check_key(alloc, Key::Mode, sent, least)?;
    check_key(alloc, Key::RoutingPath, sent, least)?;
    check_key(alloc, Key::Shards, sent, least)?;
    check_key(alloc, Key::LookBack, sent, least)?;
    check_key(alloc, Key::LookAhead, sent, least)?;
    check_key(alloc, Key::Replicas, sent, least)?;
    let given = value_of(Key::Mode, sent).is_some();
    least.note_under(alloc, given, PLACE, "mode")
}

/// Tells the settings at fault: unknown, given twice or ill-formed, or no mode.
pub fn check_settings(
    alloc: Global,
    body: &Value,
    sent: &[SettingAt<'_>],
    least: &mut Least,
) -> Result<(), NoMemory>
    requires { settings_seen sent.now ≡ known_settings (spec.settings_of (view body.now)) }
    ensures { OnOk result (least.new ≡ least_with least.old (spec.settings_faults (spec.settings_of (view body.now)))) }
{
    check_sent(alloc, body, sent, least)
}
