//! The law of stores, messages and records.

ghost use Rattle.std.specs.Prelude.{ℕ, List};
ghost use Rattle.proof_agreement.specs.Deeds.{AllMayDo, Deed, run_all};
ghost use Rattle.proof_agreement.specs.Machine.{Setup};
ghost use Rattle.proof_agreement.specs.Stores.{empty};
ghost use Rattle.proof_agreement.specs.StoresExample.{GroupsMove, SnapshotInstalled};
ghost use Rattle.proof_agreement.specs.StoresLaws.{AppliedAgree, AppliedDecided, ChosenComplete, ChosenCompleteFixed, CommitsEnd};
ghost use Rattle.proof_agreement.specs.StoresLaws.{CommittedIsChosen, LeadersAppend, OwnEntriesAbove, StoresAgree, StoresComplete};
ghost use Rattle.proof_agreement.specs.StoresLaws.{StoresDecided, StoresMatch};

/// Nodes' stores agree, their logs match and their leaders are complete, whatever deeds the nodes do, each under its
/// condition: messages are lost, repeated and late, and nodes stop and restart.
pub fn stores_agree()
    ensures agree { (s : Setup ℕ) (deeds : List (Deed ℕ)) → AllMayDo s deeds (empty s) → StoresAgree s (run_all s deeds (empty s)) }
    ensures decided { (s : Setup ℕ) (deeds : List (Deed ℕ)) → AllMayDo s deeds (empty s) → StoresDecided s (run_all s deeds (empty s)) }
    ensures ends { (s : Setup ℕ) (deeds : List (Deed ℕ)) → AllMayDo s deeds (empty s) → CommitsEnd s (run_all s deeds (empty s)) }
    ensures complete { (s : Setup ℕ) (deeds : List (Deed ℕ)) → AllMayDo s deeds (empty s) → StoresComplete (run_all s deeds (empty s)) }
    ensures matching { (s : Setup ℕ) (deeds : List (Deed ℕ)) → AllMayDo s deeds (empty s) → StoresMatch s (run_all s deeds (empty s)) }
    ensures append_only { (s : Setup ℕ) (deeds : List (Deed ℕ)) → AllMayDo s deeds (empty s) → LeadersAppend (run_all s deeds (empty s)) }
    ensures applied { (s : Setup ℕ) (deeds : List (Deed ℕ)) → AllMayDo s deeds (empty s) → AppliedAgree (run_all s deeds (empty s)) }
    ensures applied_decided { (s : Setup ℕ) (deeds : List (Deed ℕ)) → AllMayDo s deeds (empty s) → AppliedDecided s (run_all s deeds (empty s)) }
    ensures reads { (s : Setup ℕ) (deeds : List (Deed ℕ)) → AllMayDo s deeds (empty s) → OwnEntriesAbove s (run_all s deeds (empty s)) }
    ensures chosen { (s : Setup ℕ) (deeds : List (Deed ℕ)) → AllMayDo s deeds (empty s) → ChosenComplete s deeds }
    ensures chosen_fixed { (s : Setup ℕ) (deeds : List (Deed ℕ)) → AllMayDo s deeds (empty s) → ChosenCompleteFixed s deeds }
    ensures committed { (s : Setup ℕ) (deeds : List (Deed ℕ)) → AllMayDo s deeds (empty s) → CommittedIsChosen s deeds }
{}

/// The conditions can be met: by a run that replaces its only node, and by one that installs a snapshot after a stop
/// between the truncation before it and the install.
pub fn stores_possible()
    ensures groups_move { GroupsMove }
    ensures snapshot_installed { SnapshotInstalled }
{}
