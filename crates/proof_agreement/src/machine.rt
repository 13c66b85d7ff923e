//! The law of the machine: nodes, leaders' histories, votes and acknowledgements.

ghost use Rattle.std.specs.Prelude.{ℕ, List};
ghost use Rattle.proof_agreement.specs.Example.{GroupsMove};
ghost use Rattle.proof_agreement.specs.FixedGroups.{AllFixed, fixed};
ghost use Rattle.proof_agreement.specs.HastyMembership.{HastyMembershipDiffers};
ghost use Rattle.proof_agreement.specs.LowTruncation.{HighTruncationInstalls, LowTruncationDiffers};
ghost use Rattle.proof_agreement.specs.Machine.{AllAllowed, Event, Setup, run, start};
ghost use Rattle.proof_agreement.specs.MachineLaws.{Agreed, CommittedBeginnings, DecidedChosen, DecidedCompleteness, LeaderCompleteness};
ghost use Rattle.proof_agreement.specs.MachineLaws.{LogMatching, MembershipKept, OwnAcknowledged};

/// State machine safety, log matching and leader completeness hold of every list of allowed events from the start, with
/// kept and with changing voter groups, whatever is lost, late or repeated, and whoever stops between two events (Raft
/// paper, sections 5 to 7).
pub fn runs_agree()
    ensures agreed { (s : Setup ℕ) (events : List (Event ℕ)) → AllAllowed s events (start s) → Agreed (run s events (start s)) }
    ensures log_matching { (s : Setup ℕ) (events : List (Event ℕ)) → AllAllowed s events (start s) → LogMatching (run s events (start s)) }
    ensures leader_completeness { (s : Setup ℕ) (events : List (Event ℕ)) → AllAllowed s events (start s) → LeaderCompleteness s (run s events (start s)) }
    ensures decided_completeness { (s : Setup ℕ) (events : List (Event ℕ)) → AllAllowed s events (start s) → DecidedCompleteness (run s events (start s)) }
    ensures decided_chosen { (s : Setup ℕ) (events : List (Event ℕ)) → AllAllowed s events (start s) → DecidedChosen s (run s events (start s)) }
    ensures committed_beginnings { (s : Setup ℕ) (events : List (Event ℕ)) → AllAllowed s events (start s) → CommittedBeginnings (run s events (start s)) }
    ensures own_acknowledged { (s : Setup ℕ) (events : List (Event ℕ)) → AllAllowed s events (start s) → OwnAcknowledged s (run s events (start s)) }
    ensures membership_kept { (s : Setup ℕ) (events : List (Event ℕ)) → AllAllowed s events (start s) → MembershipKept s (run s events (start s)) }
    ensures fixed_groups { (g : List ℕ) (gs : List (List ℕ)) (owner : ℕ → ℕ) (first : ℕ) (events : List (Event ℕ)) → AllFixed g gs (fixed g gs owner first) events (start (fixed g gs owner first)) → AllAllowed (fixed g gs owner first) events (start (fixed g gs owner first)) }
    ensures fixed_groups_agreed { (g : List ℕ) (gs : List (List ℕ)) (owner : ℕ → ℕ) (first : ℕ) (events : List (Event ℕ)) → AllFixed g gs (fixed g gs owner first) events (start (fixed g gs owner first)) → Agreed (run (fixed g gs owner first) events (start (fixed g gs owner first))) }
{}

/// The conditions can be met: by a run that replaces its only node, and by one that installs a snapshot while groups
/// change.
pub fn runs_possible()
    ensures groups_move { GroupsMove }
    ensures snapshot_installs { HighTruncationInstalls }
{}

/// Without one condition two different entries are executed at one index: if, while groups change, a log is truncated
/// below the entry that a snapshot contradicts; or if a leader proposes a membership before it has decided an entry of
/// its own.
pub fn conditions_needed()
    ensures low_truncation { LowTruncationDiffers }
    ensures hasty_membership { HastyMembershipDiffers }
{}
