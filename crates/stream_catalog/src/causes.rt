//! Refusals with the names that they tell. Where there is no memory for a name, that is the cause.
ghost use Rattle.std.specs.Prelude.{Some};
ghost use Rattle.stream_catalog.specs.Streams.{IsCause};

use crate::answers::{CatalogError, Refusal};
use edge_face::Text;
use std::alloc::Global;

pub(crate) fn no_such_name(alloc: Global, name: &str) -> CatalogError
    ensures { IsCause (Some (Refusal.NoSuchName name.now)) result }
{
    match Text::new(alloc, name) {
        Ok(name) => CatalogError::Refused(Refusal::NoSuchName { name }),
        Err(_) => CatalogError::NoMemory,
    }
}

pub(crate) fn name_taken(alloc: Global, name: &str) -> CatalogError
    ensures { IsCause (Some (Refusal.NameTaken name.now)) result }
{
    match Text::new(alloc, name) {
        Ok(name) => CatalogError::Refused(Refusal::NameTaken { name }),
        Err(_) => CatalogError::NoMemory,
    }
}

pub(crate) fn is_write_index(alloc: Global, stream: &str, index: &str) -> CatalogError
    ensures { IsCause (Some (Refusal.IsWriteIndex stream.now index.now)) result }
{
    let Ok(stream) = Text::new(alloc, stream) else {
        return CatalogError::NoMemory;
    };
    match Text::new(alloc, index) {
        Ok(index) => CatalogError::Refused(Refusal::IsWriteIndex { stream, index }),
        Err(_) => CatalogError::NoMemory,
    }
}

pub(crate) fn field_changed(alloc: Global, path: &str, index: &str) -> CatalogError
    ensures { IsCause (Some (Refusal.ChangedField path.now index.now)) result }
{
    let Ok(path) = Text::new(alloc, path) else {
        return CatalogError::NoMemory;
    };
    match Text::new(alloc, index) {
        Ok(index) => CatalogError::Refused(Refusal::ChangedField { path, index }),
        Err(_) => CatalogError::NoMemory,
    }
}

pub(crate) fn not_member(alloc: Global, stream: &str, index: &str) -> CatalogError
    ensures { IsCause (Some (Refusal.NotMember stream.now index.now)) result }
{
    let Ok(stream) = Text::new(alloc, stream) else {
        return CatalogError::NoMemory;
    };
    match Text::new(alloc, index) {
        Ok(index) => CatalogError::Refused(Refusal::NotMember { stream, index }),
        Err(_) => CatalogError::NoMemory,
    }
}

pub(crate) fn is_member(alloc: Global, stream: &str, index: &str) -> CatalogError
    ensures { IsCause (Some (Refusal.IsMember stream.now index.now)) result }
{
    let Ok(stream) = Text::new(alloc, stream) else {
        return CatalogError::NoMemory;
    };
    match Text::new(alloc, index) {
        Ok(index) => CatalogError::Refused(Refusal::IsMember { stream, index }),
        Err(_) => CatalogError::NoMemory,
    }
}

pub(crate) fn other_mapping(alloc: Global, stream: &str, index: &str) -> CatalogError
    ensures { IsCause (Some (Refusal.OtherMapping stream.now index.now)) result }
{
    let Ok(stream) = Text::new(alloc, stream) else {
        return CatalogError::NoMemory;
    };
    match Text::new(alloc, index) {
        Ok(index) => CatalogError::Refused(Refusal::OtherMapping { stream, index }),
        Err(_) => CatalogError::NoMemory,
    }
}

pub(crate) fn bad_window(alloc: Global, stream: &str, index: &str) -> CatalogError
    ensures { IsCause (Some (Refusal.BadWindow stream.now index.now)) result }
{
    let Ok(stream) = Text::new(alloc, stream) else {
        return CatalogError::NoMemory;
    };
    match Text::new(alloc, index) {
        Ok(index) => CatalogError::Refused(Refusal::BadWindow { stream, index }),
        Err(_) => CatalogError::NoMemory,
    }
}
