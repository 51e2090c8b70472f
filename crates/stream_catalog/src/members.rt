//! Names of a stream's members.
ghost use Rattle.std.specs.Prelude.{◌≡◌, ◌<◌, ◌≤◌, ◌+◌, ◌++◌, ◌∷◌, ℕ, List, bytes_eq, filter, length, not, refl, slice_index_or, IfOk, OnOk};
ghost use Rattle.std.specs.List.{list_any};
ghost use Rattle.stream_catalog.specs.Indices.{without_member};
ghost use Rattle.stream_catalog.specs.Places.{AllKept};
ghost use Rattle.stream_catalog.specs.Streams as spec;

use crate::held_streams::HeldStream;
use crate::named::{Change, EachChange};
use edge_face::{NoMemory, Text};
use sqlite_items::Items;
use std::alloc::Global;

fn is_among(names: &[Text], name: &[u8]) -> bool
    ensures { result ≡ list_any (bytes_eq name.now) names.now }
{
    for other in names {
        if name == other.as_bytes() {
            return true;
        }
    }
    false
}

/// Whether a stream has a member of a name.
pub(crate) fn has_member(stream: &HeldStream, name: &[u8]) -> bool
    ensures { result ≡ spec.has_member stream.now name.now }
{
    is_among(stream.facts.members.as_slice(), name)
}

fn stands_at(names: &[Text], at: usize, name: &[u8]) -> bool
    requires { at < length names.now }
    ensures { (d : List ℕ) → result ≡ bytes_eq (slice_index_or names.now at d) name.now }
{
    names[at].as_bytes() == name
}

/// Takes a name out of a place where it stands. Where it stands nowhere behind that, it stands no more from there on.
fn take_name_at(names: &mut Items<Text>, at: usize, name: &[u8])
    requires { at < length names.old }
    ensures same { filter (λ n. not (bytes_eq n name.now)) names.new ≡ filter (λ n. not (bytes_eq n name.now)) names.old }
    ensures kept { AllKept (λ n. not (bytes_eq n name.now)) names.old (at + 1) → AllKept (λ n. not (bytes_eq n name.now)) names.new at }
    ensures within { at ≤ length names.new }
{
    if stands_at(names.as_slice(), at, name) {
        names.remove(at);
    }
}

/// Takes a name out of others, wherever it stands.
fn take_name(names: &mut Items<Text>, name: &[u8])
    ensures { names.new ≡ filter (λ n. not (bytes_eq n name.now)) names.old }
{
    for at in (0..names.len()).rev() {
        take_name_at(names, at, name);
    }
}

/// A stream no longer has a member.
#[derive(Drop)]
pub(crate) struct WithoutMember<'a> {
    pub(crate) name: &'a [u8],
}

impl Change<HeldStream> for WithoutMember<'_> {
    ghost changed = { λ change stream. without_member change.name.now stream };

    fn apply(self, stream: &mut HeldStream) {
        take_name(&mut stream.facts.members, self.name);
    }

    ghost keeps_name = { λ _ _. refl };
}

impl EachChange<HeldStream> for WithoutMember<'_> {
    ghost each_changed = { λ change stream. without_member change.name.now stream };

    fn apply_to(&self, stream: &mut HeldStream) {
        take_name(&mut stream.facts.members, self.name);
    }

    ghost keeps_names = { λ _ _. refl };
}

fn push_copies(alloc: Global, names: &mut Vec<Text>, more: &[Text]) -> Result<(), NoMemory>
    ensures { OnOk result (names.new.items ≡ names.old.items ++ more.now) }
{
    for name in more {
        names.push(name.copy(alloc)?)?;
    }
    Ok(())
}

/// Copies of names, with one more between them.
pub(crate) fn join_names(
    alloc: Global,
    before: &[Text],
    name: &Text,
    behind: &[Text],
) -> Result<Items<Text>, NoMemory>
    ensures { IfOk result (λ names. names ≡ before.now ++ name.now ∷ behind.now) }
{
    let mut names = Vec::new(alloc);
    push_copies(alloc, &mut names, before)?;
    names.push(name.copy(alloc)?)?;
    push_copies(alloc, &mut names, behind)?;
    Ok(Items::from_vec(names))
}
