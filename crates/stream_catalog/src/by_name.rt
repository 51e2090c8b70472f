//! Things that have names, held in the order of their names.
ghost use Rattle.std.specs.Prelude.{◌≡◌, ◌<◌, ◌≤◌, [], filter, map, length, true, false, None, IfOk, IfErr, OnOk, OnErr};
ghost use Rattle.std.specs.Option.{option_copied, is_some};
ghost use Rattle.downsample_fold.specs.Laws.{KeysAscend};
ghost use Rattle.stream_catalog.specs.Lists.{found_by, inserted, updated, without};
ghost use Rattle.stream_catalog.specs.Places.{IsAbsentAt, IsHereAt, place_of};

use crate::copies::{Copied, copy_all};
use crate::named::{Change, EachChange, Named, Test};
use edge_face::{NoMemory, bytes_order};
use std::alloc::Global;
use std::marker::Model;

/// A list that stands by names, no two of which are alike. A look-up takes as many steps as the length has bits; what is put in
/// or taken out moves those behind it.
#[derive(Drop)]
pub(crate) struct ByName<T: Named> {
    pub(crate) items: Vec<T>,
}

impl<T: Named> Model for ByName<T> {
    ghost use Rattle.std.specs.Prelude.{List, map};
    ghost use Rattle.std.specs.Coded.{coded_list};
    ghost use Rattle.downsample_fold.specs.Laws.{KeysAscend};

    ghost Value = { List T };

    ghost coded = { coded_list T.code };

    ghost view = { λ b. b.items.items };

    ghost invariant = { λ b. KeysAscend (map T.name_of b.items.items) };
}

/// Whether the one at a place stands before a name. In that case the name has its place behind it, and else no further.
fn stands_before<T: Named>(items: &[T], at: usize, name: &[u8]) -> bool
    requires within { at < length items.now }
    requires ordered { KeysAscend (map T.name_of items.now) }
    ensures past { result ≡ true → at < place_of T.name_of name.now items.now }
    ensures upto { result ≡ false → place_of T.name_of name.now items.now ≤ at }
{
    bytes_order(items[at].name().as_bytes(), name).is_lt()
}

/// How many stand before a name, by halves.
fn find_place<T: Named>(items: &[T], name: &[u8]) -> usize
    requires { KeysAscend (map T.name_of items.now) }
    ensures place { result ≡ place_of T.name_of name.now items.now }
    ensures within { result ≤ length items.now }
{
    let mut low = 0;
    let mut high = items.len();
    while low < high {
        let middle = low + (high - low) / 2;
        if stands_before(items, middle, name) {
            low = middle + 1;
        } else {
            high = middle;
        }
    }
    low
}

/// Where the one of a name is, or else where one of that name would be put.
pub(crate) fn search<T: Named>(items: &[T], name: &[u8]) -> Result<usize, usize>
    requires { KeysAscend (map T.name_of items.now) }
    ensures here { IfOk result (IsHereAt T.name_of name.now items.now) }
    ensures absent { IfErr result (IsAbsentAt T.name_of name.now items.now) }
{
    let at = find_place(items, name);
    if at == items.len() {
        return Err(at);
    }
    let item = &items[at];
    if item.name().as_bytes() == name {
        Ok(at)
    } else {
        Err(at)
    }
}

/// Keeps those of which a test holds.
pub(crate) fn keep_where<T: Drop, P: Test<T>>(items: &mut Vec<T>, test: &P)
    ensures { items.new.items ≡ filter (P.test test.now) items.old.items }
{
    items.retain(|item| test.holds(item));
}

/// Changes each of some.
fn change_all<T: Named, C: EachChange<T>>(items: &mut Vec<T>, change: &C)
    ensures { items.new.items ≡ map (C.each_changed change.now) items.old.items }
{
    for at in 0..items.len() {
        change.apply_to(&mut items[at]);
    }
}

impl<T: Named> ByName<T> {
    pub(crate) fn new(alloc: Global) -> ByName<T>
        ensures { result ≡ [] }
    {
        ByName {
            items: Vec::new(alloc),
        }
    }

    pub(crate) fn len(&self) -> usize
        ensures { result ≡ length self.now }
    {
        self.items.len()
    }

    pub(crate) fn as_slice(&self) -> &[T]
        ensures items { result.now ≡ self.now }
        ensures ordered { KeysAscend (map T.name_of self.now) }
    {
        self.items.as_slice()
    }

    /// The one of a name.
    pub(crate) fn find(&self, name: &[u8]) -> Option<&T>
        ensures { option_copied result ≡ found_by T.name_of name.now self.now }
    {
        match search(self.items.as_slice(), name) {
            Ok(at) => Some(&self.items[at]),
            Err(_) => None,
        }
    }

    /// Puts one in, and lets go of the one of its name.
    pub(crate) fn put(&mut self, item: T) -> Result<(), NoMemory>
        ensures ok { OnOk result (self.new ≡ inserted T.name_of item (without T.name_of (T.name_of item) self.old)) }
        ensures fresh { OnOk result (found_by T.name_of (T.name_of item) self.old ≡ None → self.new ≡ inserted T.name_of item self.old) }
        ensures err { OnErr result (self.new ≡ self.old) }
    {
        match search(self.items.as_slice(), item.name().as_bytes()) {
            Ok(at) => self.items[at] = item,
            Err(at) => self.items.insert(at, item)?,
        }
        Ok(())
    }

    /// Takes out the one of a name.
    pub(crate) fn take_out(&mut self, name: &[u8]) -> Option<T>
        ensures taken { result ≡ found_by T.name_of name.now self.old }
        ensures left { self.new ≡ without T.name_of name.now self.old }
    {
        match search(self.items.as_slice(), name) {
            Ok(at) => Some(self.items.remove(at)),
            Err(_) => None,
        }
    }

    /// Changes the one of a name, and tells whether there is one.
    pub(crate) fn change<C: Change<T>>(&mut self, name: &[u8], change: C) -> bool
        ensures there { result ≡ is_some (found_by T.name_of name.now self.old) }
        ensures changed { self.new ≡ updated T.name_of name.now (C.changed change) self.old }
    {
        match search(self.items.as_slice(), name) {
            Ok(at) => {
                change.apply(&mut self.items[at]);
                true
            }
            Err(_) => false,
        }
    }

    /// Keeps those of which a test holds.
    pub(crate) fn keep<P: Test<T>>(&mut self, test: &P)
        ensures { self.new ≡ filter (P.test test.now) self.old }
    {
        keep_where(&mut self.items, test);
    }

    /// Changes each.
    pub(crate) fn change_each<C: EachChange<T>>(&mut self, change: &C)
        ensures { self.new ≡ map (C.each_changed change.now) self.old }
    {
        change_all(&mut self.items, change);
    }
}

impl<T: Named + Copied> ByName<T> {
    /// A copy of all.
    pub(crate) fn copied(&self, alloc: Global) -> Result<ByName<T>, NoMemory>
        ensures { IfOk result (λ copy. copy ≡ self.now) }
    {
        let items = copy_all(alloc, self.items.as_slice())?;
        Ok(ByName { items })
    }
}
