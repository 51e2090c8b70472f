//! Requests of messages.
use edge_face::Text;
use probe_case::Trial;
use rest_request::{Request, RequestError, read_request};
use serde_json::Value;

fn put(kind: &str, trial: &mut Trial) -> bool {
    trial.word(kind);
    true
}

fn put_named(kind: &str, name: &Text, trial: &mut Trial) -> bool {
    trial.word(kind);
    put(name.as_str(), trial)
}

fn put_two(kind: &str, first: &Text, second: &Text, trial: &mut Trial) -> bool {
    put_named(kind, first, trial);
    put(second.as_str(), trial)
}

fn put_bulk(stream: &Option<Text>, trial: &mut Trial) -> bool {
    match stream {
        Some(stream) => put_named("bulk", stream, trial),
        None => put("bulk", trial),
    }
}

/// Requests about streams.
fn put_of_streams(request: &Request, trial: &mut Trial) -> bool {
    match request {
        Request::PutTemplate { name, .. } => put_named("put_template", name, trial),
        Request::PutStream { name } => put_named("put_stream", name, trial),
        Request::GetStream { name } => put_named("get_stream", name, trial),
        Request::DeleteStream { name } => put_named("delete_stream", name, trial),
        Request::Rollover { stream } => put_named("rollover", stream, trial),
        Request::PutLifecycle { stream, .. } => put_named("put_lifecycle", stream, trial),
        _ => false,
    }
}

/// Requests about indices and documents.
fn put_of_indices(request: &Request, trial: &mut Trial) -> bool {
    match request {
        Request::Block { index } => put_named("block", index, trial),
        Request::Downsample { source, target, .. } => put_two("downsample", source, target, trial),
        Request::DeleteIndex { index } => put_named("delete_index", index, trial),
        Request::Search { target, .. } => put_named("search", target, trial),
        Request::Count { target, .. } => put_named("count", target, trial),
        Request::GetDoc { index, id } => put_two("get_doc", index, id, trial),
        _ => false,
    }
}

/// Requests without a name, and bulk bodies.
fn put_plain(request: &Request, trial: &mut Trial) -> bool {
    match request {
        Request::Bulk { stream, .. } => put_bulk(stream, trial),
        Request::Modify { .. } => put("modify", trial),
        Request::RunLifecycle => put("run_lifecycle", trial),
        Request::Tasks => put("tasks", trial),
        Request::Flush => put("flush", trial),
        _ => false,
    }
}

fn put_request(request: &Request, trial: &mut Trial) {
    trial.ok();
    trial.open("[");
    let is_put = put_of_streams(request, trial)
        || put_of_indices(request, trial)
        || put_plain(request, trial);
    trial.need(is_put);
    trial.close("]}");
}

fn put_refusal(refusal: RequestError, trial: &mut Trial) {
    match refusal {
        RequestError::NoSuchPath => trial.refused("NoSuchPath"),
        RequestError::BadMethod => trial.refused("BadMethod"),
        RequestError::BadParameter => trial.refused("BadParameter"),
        RequestError::BadBody => trial.refused("BadBody"),
        RequestError::NoMemory => trial.give_up(),
    }
}

/// The request that a method, a target and a body are: its kind, and the names in it.
pub fn request(case: &Value, trial: &mut Trial) {
    let method = trial.text(case, "method");
    let target = trial.text(case, "target");
    let body = trial.bytes(case, "body");
    match read_request(
        trial.alloc,
        method.as_str(),
        target.as_str(),
        body.as_slice(),
    ) {
        Ok(request) => put_request(&request, trial),
        Err(refusal) => put_refusal(refusal, trial),
    }
}
