//! The laws that tie a plain catalogue to what is seen of it, for crates above.
ghost use Rattle.stream_catalog.specs.Laws.{FoundIsSound, Keeps, LookupsStay, PutsKeepShowing, SoundShows, SeenAgain, FactsStay, ChangesGoThrough, RunsGoThrough, PutsGoThrough, RowTestsStay, SeriesStay, DownsamplesGoThrough, UnitsGoThrough, TasksKeep};
ghost use Rattle.stream_catalog.specs.FactChanges.{ChangesTellFacts};
ghost use Rattle.stream_catalog.specs.Laws.{FoundIsHeld, FoundAgree, UnitsGoOn, NamesKeep, UnitsEnd, UnitsCount, UnitsFinish, TaskRowsStay, FactsAreTested, NamesAreTested, RolloversJoin, RemovalsEndTasks};
ghost use Rattle.stream_catalog.specs.Laws.{BlocksKeepSound, CreationsKeepSound, DeletionsKeepSound, DownsamplesKeepSound, LivesKeepSound, MovesKeepSound, PutsKeepSound, RolloversKeepSound, RunsKeepSound, StreamDeletionsKeepSound, TemplatesKeepSound, UnitsKeepSound};

/// What is seen of a sound catalogue is sound, and seen again itself.
pub fn seen_again()
    ensures { SeenAgain }
{}

/// A change that goes through seeing, and keeps a catalogue sound, keeps what code holds: a catalogue that is sound and seen
/// again itself. The laws below say both of each change, so no other proof of such an invariant is needed.
pub fn seen_stays()
    ensures { Keeps }
{}

/// Seeing leaves facts, places and numbers of rows, and series; so tests answer alike.
pub fn tests_stay()
    ensures facts { FactsStay }
    ensures rows { RowTestsStay }
    ensures series { SeriesStay }
    ensures lookups { LookupsStay }
{}

/// What is known of a sound catalogue's indices.
pub fn indices_are_sound()
    ensures found { FoundIsSound }
    ensures held { FoundIsHeld }
    ensures agree { FoundAgree }
    ensures shows { SoundShows }
{}

/// Each change of what is seen is what is seen of the change.
pub fn changes_go_through()
    ensures changes { ChangesGoThrough }
    ensures runs { RunsGoThrough }
    ensures puts { PutsGoThrough }
    ensures shows { PutsKeepShowing }
    ensures downsamples { DownsamplesGoThrough }
    ensures units { UnitsGoThrough }
{}

/// What each change leaves of a catalogue's facts follows from its facts alone.
pub fn changes_tell_facts()
    ensures { ChangesTellFacts }
{}

/// What a task keeps of what is shown is what it keeps of all rows; and it keeps that whatever else is changed.
pub fn tasks_keep()
    ensures shown { TasksKeep }
    ensures stays { TaskRowsStay }
{}

/// A unit folds one series more of the oldest task's index; with the last one, or where there is none, its fold takes the
/// index's place.
pub fn units_go_on()
    ensures more { UnitsGoOn }
    ensures last { UnitsEnd }
    ensures counts { UnitsCount }
    ensures finishes { UnitsFinish }
{}

/// The windows of a stream's write indices join one another.
pub fn rollovers_join()
    ensures { RolloversJoin }
{}

/// An index that was taken out of its stream has no task.
pub fn removals_end_tasks()
    ensures { RemovalsEndTasks }
{}

/// Each change leaves names well formed.
pub fn names_keep()
    ensures { NamesKeep }
{}

/// A sound catalogue stays sound.
pub fn changes_keep_sound()
    ensures puts { PutsKeepSound }
    ensures blocks { BlocksKeepSound }
    ensures downsamples { DownsamplesKeepSound }
    ensures units { UnitsKeepSound }
    ensures lives { LivesKeepSound }
    ensures stream_deletions { StreamDeletionsKeepSound }
    ensures deletions { DeletionsKeepSound }
    ensures templates { TemplatesKeepSound }
    ensures creations { CreationsKeepSound }
    ensures rollovers { RolloversKeepSound }
    ensures moves { MovesKeepSound }
    ensures runs { RunsKeepSound }
{}

/// Facts are sound, and names well formed, exactly where the tests of this crate say so and those that the crates below have for each
/// template, each mapping and each origin.
pub fn facts_are_tested()
    ensures facts { FactsAreTested }
    ensures names { NamesAreTested }
{}
