//! Causes of what other layers refuse. Want of memory has none, since nothing is replied then.
ghost use Rattle.std.specs.Prelude.{◌≡◌};
ghost use Rattle.tsds_service.specs.Causes as spec;
ghost use Rattle.tsds_service.specs.Requests as requests;

use crate::causes::{Cause, ItemCause};
use bulk_json::BulkError;
use downsample_fold::IntervalError;
use edge_face::Text;
use rest_request::RequestError;
use series_id::KeyError;
use stream_catalog::Refusal;

/// Why a message is no request.
pub(crate) fn request_cause(error: RequestError) -> Option<Cause>
    ensures { result ≡ spec.request_cause error }
{
    match error {
        RequestError::NoSuchPath => Some(Cause::NoSuchPath),
        RequestError::BadMethod => Some(Cause::BadMethod),
        RequestError::BadParameter => Some(Cause::BadParameter),
        RequestError::BadBody => Some(Cause::BadBody),
        RequestError::NoMemory => None,
    }
}

/// Why a bulk body gives no items.
pub(crate) fn bulk_cause(error: BulkError) -> Option<Cause>
    ensures { result ≡ spec.bulk_cause error }
{
    match error {
        BulkError::BadAction { line } => Some(Cause::BadAction { line }),
        BulkError::MissingSource { line } => Some(Cause::MissingSource { line }),
        BulkError::Empty => Some(Cause::NoItems),
        BulkError::NoMemory => None,
    }
}

/// Why cells have no key.
pub(crate) fn key_cause(error: KeyError) -> Option<ItemCause>
    ensures { result ≡ spec.key_cause error }
{
    match error {
        KeyError::NoRouting => Some(ItemCause::NoRouting),
        KeyError::KeyTooLong { bytes } => Some(ItemCause::LongKey { bytes }),
        KeyError::NoMemory => None,
    }
}

/// What a request is about, where the catalogue doesn't say it: the new name, the index that it changes, and the intervals as they
/// are written.
#[derive(Drop)]
pub(crate) struct About {
    pub(crate) name: Text,
    pub(crate) index: Text,
    pub(crate) by: Text,
    pub(crate) had: Text,
}

/// What a refusal of the catalogue is told as.
pub(crate) fn catalog_cause(about: About, refusal: Refusal) -> Cause
    ensures { result ≡ requests.catalog_cause about refusal }
{
    let About {
        name: asked,
        index: changed,
        by,
        had,
    } = about;
    match refusal {
        Refusal::NoSuchName { name } => Cause::NoSuchName { name },
        Refusal::NameTaken { name } => Cause::NameTaken { name },
        Refusal::NoTemplate => Cause::NoTemplate { stream: asked },
        Refusal::Reserved => Cause::Reserved { name: asked },
        Refusal::IsWriteIndex { stream, index } => Cause::IsWriteIndex { index, stream },
        Refusal::NotBlocked => Cause::NotBlocked { index: changed },
        Refusal::Interval(IntervalError::NotGreater { .. }) => Cause::NotGreater { asked: by, had },
        Refusal::Interval(IntervalError::NotMultiple { .. }) => Cause::NotMultiple {
            asked: by,
            had,
        },
        Refusal::NotMember { stream, index } => Cause::NotMember { index, stream },
        Refusal::IsMember { stream, index } => Cause::IsMember { index, stream },
        Refusal::OtherMapping { stream, index } => Cause::OtherMapping { index, stream },
        Refusal::BadWindow { stream, index } => Cause::BadWindow { index, stream },
        Refusal::Limit(what) => Cause::Limit { what },
        Refusal::TimeOver => Cause::TimeOver { index: changed },
        Refusal::ChangedField { path, index } => Cause::ChangedField { path, index },
    }
}
