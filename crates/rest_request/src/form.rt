//! What a shape is asked for by which method.
ghost use Rattle.std.specs.Prelude.{◌≡◌};
ghost use Rattle.rest_request.specs.Form as spec;

use crate::path::Shape;

/// Requests without a body.
#[derive(Clone, Copy, Debug, PartialEq, Eq)]
pub enum Bare {
    PutStream,
    GetStream,
    DeleteStream,
    Rollover,
    Block,
    DeleteIndex,
    RunLifecycle,
    Tasks,
    GetDoc,
    Flush,
}

/// Requests with a body, which is an object.
#[derive(Clone, Copy, Debug, PartialEq, Eq)]
pub enum Full {
    PutTemplate,
    Downsample,
    Modify,
    PutLifecycle,
}

/// Requests whose body is an object, or empty.
#[derive(Clone, Copy, Debug, PartialEq, Eq)]
pub enum Optional {
    Search,
    Count,
}

/// The form of a request. The body of a bulk request isn't read here.
#[derive(Clone, Copy, Debug, PartialEq, Eq)]
pub enum Form {
    Bare(Bare),
    Full(Full),
    Optional(Optional),
    Bulk,
    StreamBulk,
}

fn only(method: &str, taken: &str, form: Form) -> Option<Form>
    ensures { result ≡ spec.only method.now taken.now form }
{
    if method == taken { Some(form) } else { None }
}

fn get_or_post(method: &str, form: Form) -> Option<Form>
    ensures { result ≡ spec.get_or_post method.now form }
{
    if method == "GET" || method == "POST" {
        Some(form)
    } else {
        None
    }
}

fn of_stream(method: &str) -> Option<Form>
    ensures { result ≡ spec.of_stream method.now }
{
    if method == "PUT" {
        Some(Form::Bare(Bare::PutStream))
    } else if method == "GET" {
        Some(Form::Bare(Bare::GetStream))
    } else if method == "DELETE" {
        Some(Form::Bare(Bare::DeleteStream))
    } else {
        None
    }
}

/// The form that a method has on a shape, or none. A method is taken as it stands.
pub fn form_of(shape: Shape, method: &str) -> Option<Form>
    ensures { result ≡ spec.form_of shape method.now }
{
    match shape {
        Shape::Template => only(method, "PUT", Form::Full(Full::PutTemplate)),
        Shape::Stream => of_stream(method),
        Shape::Modify => only(method, "POST", Form::Full(Full::Modify)),
        Shape::Lifecycle => only(method, "PUT", Form::Full(Full::PutLifecycle)),
        Shape::Bulk => only(method, "POST", Form::Bulk),
        Shape::StreamBulk => only(method, "POST", Form::StreamBulk),
        Shape::Rollover => only(method, "POST", Form::Bare(Bare::Rollover)),
        Shape::Block => only(method, "PUT", Form::Bare(Bare::Block)),
        Shape::Downsample => only(method, "POST", Form::Full(Full::Downsample)),
        Shape::Index => only(method, "DELETE", Form::Bare(Bare::DeleteIndex)),
        Shape::RunLifecycle => only(method, "POST", Form::Bare(Bare::RunLifecycle)),
        Shape::Tasks => only(method, "GET", Form::Bare(Bare::Tasks)),
        Shape::Search => get_or_post(method, Form::Optional(Optional::Search)),
        Shape::Count => get_or_post(method, Form::Optional(Optional::Count)),
        Shape::Document => only(method, "GET", Form::Bare(Bare::GetDoc)),
        Shape::Flush => only(method, "POST", Form::Bare(Bare::Flush)),
    }
}
