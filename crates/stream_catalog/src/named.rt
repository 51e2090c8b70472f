//! What has a name.
ghost use Rattle.std.specs.Prelude.{◌≡◌, ℕ, Bool, List};
ghost use Rattle.stream_catalog.specs.Beside.{rows_name};
ghost use Rattle.stream_catalog.specs.Lists.{facts_name, stream_name, template_name};

use crate::facts::HeldIndex;
use crate::held_rows::HeldRows;
use crate::held_streams::HeldStream;
use edge_face::Text;
use ts_mapping::Template;

/// Something that has a name.
pub(crate) trait Named: Drop {
    ghost name_of: { Self → List ℕ };

    fn name(&self) -> &Text
        ensures { result.now ≡ name_of self.now };
}

/// A change of a thing that leaves its name.
pub(crate) trait Change<T: Named>: Drop {
    ghost changed: { Self → T → T };

    fn apply(self, item: &mut T)
        ensures { item.new ≡ changed self item.old };

    ghost keeps_name: { (change : Self) (x : T) → T.name_of (changed change x) ≡ T.name_of x };
}

/// A change of each of many things, which leaves their names.
pub(crate) trait EachChange<T: Named> {
    ghost each_changed: { Self → T → T };

    fn apply_to(&self, item: &mut T)
        ensures { item.new ≡ each_changed self.now item.old };

    ghost keeps_names: { (change : Self) (x : T) → T.name_of (each_changed change x) ≡ T.name_of x };
}

/// A test of things.
pub(crate) trait Test<T> {
    ghost test: { Self → T → Bool };

    fn holds(&self, item: &T) -> bool
        ensures { result ≡ test self.now item.now };
}

impl Named for Template {
    ghost name_of = { template_name };

    fn name(&self) -> &Text {
        &self.name
    }
}

impl Named for HeldStream {
    ghost name_of = { stream_name };

    fn name(&self) -> &Text {
        &self.facts.name
    }
}

impl Named for HeldIndex {
    ghost name_of = { facts_name };

    fn name(&self) -> &Text {
        &self.name
    }
}

impl Named for HeldRows {
    ghost name_of = { rows_name };

    fn name(&self) -> &Text {
        &self.name
    }
}
