//! The bridge from engines to agreement: what engines queue is done by the deeds of `proof_agreement`'s stores, so its
//! theorems hold of each run of a world. Definitions and proofs, on functions that do nothing.
#![tactic(auto)]

pub mod bare_starts;
pub mod elections;
pub mod followers;
pub mod leaders;
pub mod refusals;
pub mod snapshots;

ghost use Rattle.proof_deeds.specs.OwnReads.{WorldsReadOwn};
ghost use Rattle.proof_deeds.specs.WorldLaws.{WorldsAgree, WorldsAppendOnly, WorldsApply, WorldsApplyDecided, WorldsBegin};
ghost use Rattle.proof_deeds.specs.WorldLaws.{WorldsComplete, WorldsDecideChosen, WorldsEnd, WorldsExecuteDecided, WorldsKeepChosen};
ghost use Rattle.proof_deeds.specs.WorldLaws.{WorldsMatch, WorldsMayKeep, WorldsMirror, WorldsRead, WorldsRest, WorldsStandAbove};

/// Whatever happens in a world, and whatever its voters (Raft paper, section 5, figure 3): state machine safety, leader
/// completeness, log matching and leader append-only.
pub fn worlds_agree()
    ensures agree { WorldsAgree }
    ensures complete { WorldsComplete }
    ensures ends { WorldsEnd }
    ensures executed_decided { WorldsExecuteDecided }
    ensures matching { WorldsMatch }
    ensures append_only { WorldsAppendOnly }
    ensures applied { WorldsApply }
    ensures applied_decided { WorldsApplyDecided }
    ensures begins { WorldsBegin }
    ensures above { WorldsStandAbove }
    ensures reads { WorldsRead }
    ensures reads_own { WorldsReadOwn }
    ensures chosen { WorldsKeepChosen }
    ensures decided_chosen { WorldsDecideChosen }
    ensures mirrored { WorldsMirror }
    ensures resting { WorldsRest }
    ensures keeps { WorldsMayKeep }
{}
