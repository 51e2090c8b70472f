//! The laws that tie a plain machine to what is seen of it, for crates above.
ghost use Rattle.tsds_service.specs.Laws.{SamplesStay, MachinesSeenAgain, StepsRefine, StepsStand, UnitsRefine, UnitsStand};
ghost use Rattle.tsds_service.specs.Laws.{EmptyIsSeen, ManyUnitsKeepSeen, ManyUnitsKeepSound, ManyUnitsRefine, ManyUnitsStand, StepsKeepSeen, StepsKeepSound, OneUnitKeepsSeen, OneUnitKeepsSound};
ghost use Rattle.tsds_service.specs.Laws.{CausesStand, MessagesRefine, MomentsAreInstants, TargetsAgree, TurnsRefine, TurnsStand};

use stream_catalog::{
    changes_go_through, changes_keep_sound, indices_are_sound, names_keep, seen_again, tests_stay,
};
use synthetic_source::cells_of_documents_fit;
use ts_mapping::bodies_are_templates;

/// What is seen of a sound machine is sound, and seen again itself.
pub fn machines_are_seen()
    ensures { MachinesSeenAgain }
{
    names_keep();
    seen_again();
}

/// What is seen of a machine offers the rows that the machine offers, so a question has one answer.
pub fn samples_stay()
    ensures { SamplesStay }
{}

/// The indices that a name stands for map no path in two ways.
pub fn targets_agree()
    ensures { TargetsAgree }
{
    indices_are_sound();
}

/// What requests are told of readings, bulk bodies and keys is what the layers below answer, with causes in the place of errors.
pub fn causes_stand()
    ensures { CausesStand }
{}

/// The step of what is seen of a sound machine is what is seen of its step, and has the same reply; so is its unit.
pub fn steps_refine()
    ensures steps { StepsRefine }
    ensures units { UnitsRefine }
{
    tests_stay();
    indices_are_sound();
    changes_go_through();
}

/// The step of what code holds is what is seen of the plain step, and so is its unit.
pub fn steps_stand()
    ensures steps { StepsStand }
    ensures units { UnitsStand }
{
    tests_stay();
    indices_are_sound();
    changes_go_through();
}

/// What a machine begins as is sound, and seen again itself.
pub fn machines_begin()
    ensures { EmptyIsSeen }
{}

/// A unit leaves a sound machine sound, and one that is seen again itself so too.
pub fn units_keep()
    ensures sound { OneUnitKeepsSound }
    ensures seen { OneUnitKeepsSeen }
{
    names_keep();
    changes_keep_sound();
    machines_are_seen();
    steps_stand();
}

/// The laws on a unit, of any number of units.
pub fn many_units()
    ensures sound { ManyUnitsKeepSound }
    ensures seen { ManyUnitsKeepSeen }
    ensures refine { ManyUnitsRefine }
    ensures stand { ManyUnitsStand }
{
    units_keep();
    steps_refine();
}

/// A step of a request that is read leaves a sound machine sound, and one that is seen again itself so too.
pub fn steps_keep()
    ensures sound { StepsKeepSound }
    ensures seen { StepsKeepSeen }
{
    names_keep();
    bodies_are_templates();
    cells_of_documents_fit();
    indices_are_sound();
    changes_keep_sound();
    machines_are_seen();
    steps_stand();
}

/// A message and its unit are told alike, and leave a sound machine sound; a moment line leaves an instant.
pub fn messages()
    ensures refine { MessagesRefine }
    ensures moments { MomentsAreInstants }
{
    machines_are_seen();
    steps_refine();
    steps_keep();
    units_keep();
}

/// Over any list of requests, moment lines and units, what is seen of a sound machine replies what the machine replies and is left
/// as what is seen of what the machine is left as, which is sound. What code holds does so too, and is left seen again itself.
pub fn turns()
    ensures refine { TurnsRefine }
    ensures stand { TurnsStand }
{
    machines_are_seen();
    steps_refine();
    steps_keep();
    units_keep();
}
