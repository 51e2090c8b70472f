//! The top call of the program.
ghost use Rattle.std.specs.Prelude.{◌≡◌, ◌≢◌, ◌↔◌, ◌⊎◌, ◌∷◌, ◌++◌, [], List, ℕ, Bool, true, false, Some, None, Option, IfOk, IfErr, IfSome, OnOk, OnErr, Ok, Err};
ghost use Rattle.std.specs.Prelude.{map, codes, Contains, string_bytes, ◌≤◌};
ghost use Rattle.edge_face.specs.Contents.{Rose};
ghost use Rattle.tsds_cli.specs.Script.{events_of};
ghost use Rattle.tsds_cli.specs.Limits.{is_too_long};
ghost use Rattle.tsds_cli.specs.Play.{PutAll};
ghost use Rattle.tsds_cli.specs.Ends.{Ends, EndsWhole, Unseen};
ghost use Rattle.tsds_cli.specs.Documents.{script_play, empty_machine, empty_standing};
ghost use Rattle.tsds_cli.specs.Words.{is_run};

use crate::errors::RunError;
use crate::machine::Machine;
use crate::runs::run;
use crate::status::{DONE, NO_MEMORY, READ_FAULT, TOO_LONG, USAGE, WRITE_FAULT};
use edge_face::{Sink, Source, SteadyKeeper};
use std::alloc::Global;
use std::collections::BTreeMap;

/// Runs the script on the empty machine. It writes no records, and its keeper, which is never asked, never fails.
fn run_empty<S: Source, K: Sink>(
    alloc: Global,
    source: &mut S,
    sink: &mut K,
) -> Result<(), RunError>
    ensures whole { OnOk result (EndsWhole script_play empty_standing Unseen (S.left source.old) (S.left source.new) (K.given sink.old) (K.given sink.new)) }
    ensures done { OnOk result (IfSome (S.left source.old) (λ script. PutAll script_play empty_machine (K.given sink.old) (K.given sink.new) (events_of script))) }
    ensures short { OnOk result (IfSome (S.left source.old) (λ script. is_too_long script ≡ false)) }
    ensures drained { OnOk result (IfSome (S.left source.new) (λ rest. rest ≡ [])) }
    ensures refused { IfErr result (λ e. Ends script_play empty_standing Unseen e (S.left source.old) (S.left source.new) (K.given sink.old) (K.given sink.new)) }
    ensures read { result ≡ Err RunError.Read → Rose (S.faults source.old) (S.faults source.new) }
    ensures kept { result ≢ Err RunError.Store }
    ensures write { result ≡ Err RunError.Write → Rose (K.faults sink.old) (K.faults sink.new) }
    ensures faults { S.faults source.old ≤ S.faults source.new }
    ensures sink_faults { K.faults sink.old ≤ K.faults sink.new }
{
    let mut machine = Machine::new(alloc);
    let mut keeper = SteadyKeeper::new(BTreeMap::new(alloc));
    run(alloc, &mut machine, &mut keeper, source, sink)
}

/// Whether the words are `run` alone. The first word is the program's name.
fn are_run(words: &[String]) -> bool
    ensures { result ≡ is_run (map string_bytes words.now) }
{
    match words {
        [_, command] => command.as_str() == "run",
        _ => false,
    }
}

/// Runs the program's command on the devices, and answers the status that the program ends with.
///
/// `run` reads a script from the source and writes the replies to the sink. The status is 0 once all is done, 2 where the
/// words are no command, 3 where there was no memory, 4 where the source failed, 7 where the sink failed, and 8 where the
/// script passes one of its lengths.
pub fn top<S: Source, K: Sink>(alloc: Global, words: &[String], source: &mut S, sink: &mut K) -> u8
    ensures known { Contains (DONE ∷ USAGE ∷ NO_MEMORY ∷ READ_FAULT ∷ WRITE_FAULT ∷ TOO_LONG ∷ []) result }

    // Once all is done, the source is at its end and what was written is exactly the replies of the plain machine.
    ensures done { result ≡ DONE → IfSome (S.left source.old) (λ script. PutAll script_play empty_machine (K.given sink.old) (K.given sink.new) (events_of script)) }
    ensures drained { result ≡ DONE → IfSome (S.left source.new) (λ rest. rest ≡ []) }
    ensures whole { result ≡ DONE → EndsWhole script_play empty_standing Unseen (S.left source.old) (S.left source.new) (K.given sink.old) (K.given sink.new) }

    // Under any other status of a run, what was written is told by the events that were done.
    ensures memory { result ≡ NO_MEMORY → Ends script_play empty_standing Unseen RunError.NoMemory (S.left source.old) (S.left source.new) (K.given sink.old) (K.given sink.new) }
    ensures read { result ≡ READ_FAULT → Rose (S.faults source.old) (S.faults source.new)
        × Ends script_play empty_standing Unseen RunError.Read (S.left source.old) (S.left source.new) (K.given sink.old) (K.given sink.new) }
    ensures write { result ≡ WRITE_FAULT → Rose (K.faults sink.old) (K.faults sink.new)
        × Ends script_play empty_standing Unseen RunError.Write (S.left source.old) (S.left source.new) (K.given sink.old) (K.given sink.new) }
    ensures long { result ≡ TOO_LONG → Ends script_play empty_standing Unseen RunError.TooLong (S.left source.old) (S.left source.new) (K.given sink.old) (K.given sink.new) }
    ensures short { result ≡ DONE → IfSome (S.left source.old) (λ script. is_too_long script ≡ false) }

    // With the words of a run, a told source that holds its lengths and devices whose counts stay, the run is done unless memory is wanting.
    ensures complete { (script : List ℕ) → S.left source.old ≡ Some script → is_too_long script ≡ false → is_run (map string_bytes words.now) ≡ true
        → (Rose (S.faults source.old) (S.faults source.new) → ⊥) → (Rose (K.faults sink.old) (K.faults sink.new) → ⊥) → (result ≡ DONE) ⊎ (result ≡ NO_MEMORY) }

    // The counts of faults never fall.
    ensures faults { S.faults source.old ≤ S.faults source.new }
    ensures sink_faults { K.faults sink.old ≤ K.faults sink.new }

    ensures usage { (result ≡ USAGE) ↔ (is_run (map string_bytes words.now) ≡ false) }
    ensures untouched { result ≡ USAGE → (source.new ≡ source.old) × (sink.new ≡ sink.old) }
{
    if !are_run(words) {
        return USAGE;
    }
    match run_empty(alloc, source, sink) {
        Ok(()) => DONE,
        Err(error) => error.status(),
    }
}
