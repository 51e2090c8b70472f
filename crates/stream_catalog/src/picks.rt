//! Which member of a stream has a time in its window.
ghost use Rattle.std.specs.Prelude.{◌≡◌, ◌<◌, ◌≤◌, length, true, false};
ghost use Rattle.std.specs.Option.{option_copied};
ghost use Rattle.stream_catalog.specs.Lists.{facts_named};
ghost use Rattle.stream_catalog.specs.Picks as spec;
ghost use Rattle.stream_catalog.specs.Picks.{AreWindows, begun_of, window_at};

use crate::catalog_facts::CatalogFacts;
use crate::facts::HeldIndex;
use edge_face::Text;

impl CatalogFacts {
    /// Whether the window of an index has begun by a time.
    fn has_begun(&self, index: &Text, time: i64) -> bool
        ensures { result ≡ spec.has_begun time (facts_named index.now self.now.indices) }
    {
        match self.index(index.as_bytes()) {
            Some(index) => index.start <= time,
            None => false,
        }
    }

    /// Whether the window of the member at a place has begun. In that case more members' windows than the place have, and else no
    /// more.
    fn has_begun_at(&self, members: &[Text], at: usize, time: i64) -> bool
        requires within { at < length members.now }
        requires windows { AreWindows self.now.indices members.now }
        ensures past { result ≡ true → at < begun_of self.now.indices time members.now }
        ensures upto { result ≡ false → begun_of self.now.indices time members.now ≤ at }
    {
        self.has_begun(&members[at], time)
    }

    /// How many members' windows have begun, by halves.
    fn count_begun(&self, members: &[Text], time: i64) -> usize
        requires { AreWindows self.now.indices members.now }
        ensures count { result ≡ begun_of self.now.indices time members.now }
        ensures within { result ≤ length members.now }
    {
        let mut low = 0;
        let mut high = members.len();
        while low < high {
            let middle = low + (high - low) / 2;
            if self.has_begun_at(members, middle, time) {
                low = middle + 1;
            } else {
                high = middle;
            }
        }
        low
    }

    /// The index whose window has a time, if its window ends behind it.
    fn if_open(&self, index: &Text, time: i64) -> Option<&HeldIndex>
        ensures { option_copied result ≡ spec.open_at time (facts_named index.now self.now.indices) }
    {
        match self.index(index.as_bytes()) {
            Some(index) => { if time < index.end { Some(index) } else { None } }
            None => None,
        }
    }

    /// The member whose window has a time: the last one that has begun, unless it has ended.
    pub(crate) fn window_of(&self, members: &[Text], time: i64) -> Option<&HeldIndex>
        requires { AreWindows self.now.indices members.now }
        ensures { option_copied result ≡ window_at self.now.indices time members.now }
    {
        let begun = self.count_begun(members, time);
        if begun == 0 {
            return None;
        }
        self.if_open(&members[begun - 1], time)
    }
}
