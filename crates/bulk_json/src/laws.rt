//! What holds of the definitions that the contracts of this crate cite.
ghost use Rattle.bulk_json.specs.Laws.{FaultsStayAhead};

/// Behind an item the same fault is ahead as before it, or none.
pub fn faults_stay_ahead()
    ensures { FaultsStayAhead }
{}
