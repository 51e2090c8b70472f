//! The laws on requests that are given up for want of memory, for crates above.
ghost use Rattle.tsds_service.specs.GivenUpLaws.{GivenUpKeepSeen, GivenUpKeepSound, GivenUpRefine, GivenUpStand};

use crate::laws::machines_are_seen;
use stream_catalog::{
    changes_go_through, changes_keep_sound, indices_are_sound, names_keep, tests_stay,
};
use synthetic_source::cells_of_documents_fit;
use ts_mapping::bodies_are_templates;

/// Wherever a request is given up, what is seen is left as what is seen of what the machine is left as; so is what code holds.
pub fn given_up_refine()
    ensures refine { GivenUpRefine }
    ensures stand { GivenUpStand }
{
    tests_stay();
    indices_are_sound();
    changes_go_through();
}

/// A request that is read leaves a sound machine sound wherever it is given up, and one that is seen again itself so too.
pub fn given_up_keep()
    ensures sound { GivenUpKeepSound }
    ensures seen { GivenUpKeepSeen }
{
    tests_stay();
    indices_are_sound();
    changes_go_through();
    bodies_are_templates();
    cells_of_documents_fit();
    changes_keep_sound();
    names_keep();
    machines_are_seen();
}
