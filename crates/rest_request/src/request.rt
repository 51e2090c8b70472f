//! Requests.
ghost use Rattle.std.specs.Prelude.{◌≡◌, ◌≢◌, ◌≤◌, ℕ, List, length, IfOk, IfErr, Ok, Err};
ghost use Rattle.std.specs.Option.{option_map};
ghost use Rattle.serde_json.specs.View.{view};
ghost use Rattle.rest_request.specs.Target.{cut, split_target as split_target_at};
ghost use Rattle.rest_request.specs.Seen.{seen_cut};
ghost use Rattle.edge_face.specs.Limits.{body_limit};
ghost use Rattle.rest_request.specs.Asked.{IsAsked};
ghost use Rattle.rest_request.specs.Message.{seen};
ghost use Rattle.rest_request.specs.Steps.{bare_of, full_of, optional_of_form, message_of, request_by};
ghost use Rattle.rest_request.specs.Table.{on_message, request_of};

use crate::body::{is_nothing, object};
use crate::form::{Bare, Form, Full, Optional, form_of};
use crate::path::place_of;
use crate::query::are_known;
use edge_face::{Bytes, NoMemory, Text};
use serde_json::Value;
use std::alloc::{AllocError, Global};
use thiserror::Error;

/// A request, with the names in its path and its body where it has one.
#[derive(Debug, Drop)]
pub enum Request {
    PutTemplate {
        name: Text,
        body: Value,
    },
    PutStream {
        name: Text,
    },
    GetStream {
        name: Text,
    },
    DeleteStream {
        name: Text,
    },
    /// The body is handed on as it came.
    Bulk {
        stream: Option<Text>,
        body: Bytes,
    },
    Rollover {
        stream: Text,
    },
    Block {
        index: Text,
    },
    Downsample {
        source: Text,
        target: Text,
        body: Value,
    },
    Modify {
        body: Value,
    },
    DeleteIndex {
        index: Text,
    },
    PutLifecycle {
        stream: Text,
        body: Value,
    },
    RunLifecycle,
    Tasks,
    Search {
        target: Text,
        body: Option<Value>,
    },
    Count {
        target: Text,
        body: Option<Value>,
    },
    GetDoc {
        index: Text,
        id: Text,
    },
    Flush,
}

/// Why a message is no request. The first that applies is told, in this order.
#[derive(Clone, Copy, Debug, PartialEq, Eq, Error)]
pub enum RequestError {
    #[error("no handler found")]
    NoSuchPath,
    #[error("method not allowed")]
    BadMethod,
    #[error("unrecognized parameter")]
    BadParameter,
    #[error("bad body")]
    BadBody,
    #[error("out of memory")]
    NoMemory,
}

impl From<AllocError> for RequestError {
    ghost use Rattle.std.specs.Prelude.{◌≡◌};
    ghost use Rattle.rest_request.specs.declared.request.RequestError.TheVariants.{NoMemory as OutOfMemory};

    ghost from_gives = { λ _ e. e ≡ OutOfMemory };

    fn from(_: AllocError) -> RequestError {
        RequestError::NoMemory
    }
}

impl From<NoMemory> for RequestError {
    ghost use Rattle.std.specs.Prelude.{◌≡◌};
    ghost use Rattle.rest_request.specs.declared.request.RequestError.TheVariants.{NoMemory as OutOfMemory};

    ghost from_gives = { λ _ e. e ≡ OutOfMemory };

    fn from(_: NoMemory) -> RequestError {
        RequestError::NoMemory
    }
}

/// A target before and after its first `?`.
fn cut_at_mark(target: &str) -> Option<(&str, &str)>
    ensures { option_map seen_cut result ≡ cut 63 target.now }
{
    target.split_once('?')
}

/// The path of a target, and its query.
fn split_target(target: &str) -> (&str, &str)
    ensures { seen_cut result ≡ split_target_at (cut 63 target.now) target.now }
{
    match cut_at_mark(target) {
        None => (target, ""),
        Some((path, query)) => (path, query),
    }
}

fn bare_request(alloc: Global, form: Bare, first: &str, second: &str) -> Result<Request, NoMemory>
    ensures { IfOk result (λ r. seen r ≡ bare_of form first.now second.now) }
{
    let name = Text::new(alloc, first)?;
    match form {
        Bare::PutStream => Ok(Request::PutStream { name }),
        Bare::GetStream => Ok(Request::GetStream { name }),
        Bare::DeleteStream => Ok(Request::DeleteStream { name }),
        Bare::Rollover => Ok(Request::Rollover { stream: name }),
        Bare::Block => Ok(Request::Block { index: name }),
        Bare::DeleteIndex => Ok(Request::DeleteIndex { index: name }),
        Bare::RunLifecycle => Ok(Request::RunLifecycle),
        Bare::Tasks => Ok(Request::Tasks),
        Bare::GetDoc => Ok(Request::GetDoc {
            index: name,
            id: Text::new(alloc, second)?,
        }),
        Bare::Flush => Ok(Request::Flush),
    }
}

fn full_request(
    alloc: Global,
    form: Full,
    first: &str,
    second: &str,
    body: Value,
) -> Result<Request, NoMemory>
    ensures { IfOk result (λ r. seen r ≡ full_of form first.now second.now (view body)) }
{
    let name = Text::new(alloc, first)?;
    match form {
        Full::PutTemplate => Ok(Request::PutTemplate { name, body }),
        Full::Downsample => Ok(Request::Downsample {
            source: name,
            target: Text::new(alloc, second)?,
            body,
        }),
        Full::Modify => Ok(Request::Modify { body }),
        Full::PutLifecycle => Ok(Request::PutLifecycle { stream: name, body }),
    }
}

fn optional_request(
    alloc: Global,
    form: Optional,
    first: &str,
    body: Option<Value>,
) -> Result<Request, NoMemory>
    ensures { IfOk result (λ r. seen r ≡ optional_of_form form first.now (option_map view body)) }
{
    let target = Text::new(alloc, first)?;
    match form {
        Optional::Search => Ok(Request::Search { target, body }),
        Optional::Count => Ok(Request::Count { target, body }),
    }
}

/// The request of a form, or none where the body isn't one that the form takes. A bulk request has a copy of the body.
fn request_for(
    alloc: Global,
    form: Form,
    first: &str,
    second: &str,
    body: &[u8],
) -> Result<Option<Request>, NoMemory>
    ensures { IfOk result (λ found. option_map seen found ≡ message_of form first.now second.now body.now) }
{
    match form {
        Form::Bare(form) => {
            if !is_nothing(body) {
                return Ok(None);
            }
            Ok(Some(bare_request(alloc, form, first, second)?))
        }
        Form::Full(form) => {
            let Some(tree) = object(alloc, body)? else {
                return Ok(None);
            };
            Ok(Some(full_request(alloc, form, first, second, tree)?))
        }
        Form::Optional(form) => {
            if body.is_empty() {
                return Ok(Some(optional_request(alloc, form, first, None)?));
            }
            let Some(tree) = object(alloc, body)? else {
                return Ok(None);
            };
            Ok(Some(optional_request(alloc, form, first, Some(tree))?))
        }
        Form::Bulk => Ok(Some(Request::Bulk {
            stream: None,
            body: Bytes::new(alloc, body)?,
        })),
        Form::StreamBulk => Ok(Some(Request::Bulk {
            stream: Some(Text::new(alloc, first)?),
            body: Bytes::new(alloc, body)?,
        })),
    }
}

/// The same with a body that is moved: a bulk request has it as it is.
fn request_with(
    alloc: Global,
    form: Form,
    first: &str,
    second: &str,
    body: Vec<u8>,
) -> Result<Option<Request>, NoMemory>
    ensures { IfOk result (λ found. option_map seen found ≡ message_of form first.now second.now body.items) }
{
    match form {
        Form::Bulk => Ok(Some(Request::Bulk {
            stream: None,
            body: Bytes::from_vec(body),
        })),
        Form::StreamBulk => Ok(Some(Request::Bulk {
            stream: Some(Text::new(alloc, first)?),
            body: Bytes::from_vec(body),
        })),
        Form::Bare(_) | Form::Full(_) | Form::Optional(_) => {
            request_for(alloc, form, first, second, body.as_slice())
        }
    }
}

/// What a target is asked for by a method: the form, and the names in its path.
#[derive(Clone, Copy)]
struct Asked<'a> {
    form: Form,
    first: &'a str,
    second: &'a str,
}

// What a message asks for, before its body is looked at.
#[tactic(auto, unfolding(crate::specs::Steps::request_by))]
fn asked_of<'a>(alloc: Global, method: &str, target: &'a str) -> Result<Asked<'a>, RequestError>
    ensures asked { IfOk result (λ a. (body : List ℕ) → request_by method.now target.now body ≡ on_message (message_of a.form a.first.now a.second.now body)) }
    ensures refused { IfErr result (λ e. e ≢ RequestError.NoMemory → (body : List ℕ) → request_by method.now target.now body ≡ Err e) }
{
    let (path, query) = split_target(target);
    let Some(place) = place_of(path) else {
        return Err(RequestError::NoSuchPath);
    };
    let Some(form) = form_of(place.shape, method) else {
        return Err(RequestError::BadMethod);
    };
    if !are_known(alloc, query)? {
        return Err(RequestError::BadParameter);
    }
    Ok(Asked {
        form,
        first: place.first,
        second: place.second,
    })
}

// What a whole message is.
fn request_in(
    alloc: Global,
    method: &str,
    target: &str,
    body: Vec<u8>,
) -> Result<Request, RequestError>
    ensures request { IfOk result (λ request. request_by method.now target.now body.items ≡ Ok (seen request)) }
    ensures refused { IfErr result (λ e. e ≢ RequestError.NoMemory → request_by method.now target.now body.items ≡ Err e) }
{
    let asked = asked_of(alloc, method, target)?;
    match request_with(alloc, asked.form, asked.first, asked.second, body)? {
        Some(request) => Ok(request),
        None => Err(RequestError::BadBody),
    }
}

// The same of a body that is copied where the request has it.
fn request_over(
    alloc: Global,
    method: &str,
    target: &str,
    body: &[u8],
) -> Result<Request, RequestError>
    ensures request { IfOk result (λ request. request_by method.now target.now body.now ≡ Ok (seen request)) }
    ensures refused { IfErr result (λ e. e ≢ RequestError.NoMemory → request_by method.now target.now body.now ≡ Err e) }
{
    let asked = asked_of(alloc, method, target)?;
    match request_for(alloc, asked.form, asked.first, asked.second, body)? {
        Some(request) => Ok(request),
        None => Err(RequestError::BadBody),
    }
}

/// The request that a method, a target and a body are. The body is moved: that of a bulk request is handed on as it is.
///
/// A path of no known shape is refused first, then a method that its shape doesn't have, then a parameter other than
/// `refresh` and `pretty`, then a body of another kind than the request takes: none (blank and `{}` count as none), a JSON
/// object, an object or nothing at all, or the lines of a bulk request, which are handed on unread. The methods and the
/// segments of the path are taken as they stand; names of parameters are decoded as those of web forms.
pub fn read_body_request(
    alloc: Global,
    method: &str,
    target: &str,
    body: Vec<u8>,
) -> Result<Request, RequestError>
    ensures request { IfOk result (λ request. request_of method.now target.now body.items ≡ Ok (seen request)) }
    ensures asked { length body.items ≤ body_limit → IfOk result (λ request. IsAsked (seen request)) }
    ensures refused { IfErr result (λ e. e ≢ RequestError.NoMemory → request_of method.now target.now body.items ≡ Err e) }
{
    let request = request_in(alloc, method, target, body)?;
    Ok(request)
}

/// The request that a method, a target and a body are, as [`read_body_request`] gives it. The body is looked at last, and copied
/// for a bulk request alone.
pub fn read_request(
    alloc: Global,
    method: &str,
    target: &str,
    body: &[u8],
) -> Result<Request, RequestError>
    ensures request { IfOk result (λ request. request_of method.now target.now body.now ≡ Ok (seen request)) }
    ensures asked { length body.now ≤ body_limit → IfOk result (λ request. IsAsked (seen request)) }
    ensures refused { IfErr result (λ e. e ≢ RequestError.NoMemory → request_of method.now target.now body.now ≡ Err e) }
{
    let request = request_over(alloc, method, target, body)?;
    Ok(request)
}
