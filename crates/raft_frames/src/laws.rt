//! What holds of logs, whatever a crash or damage makes of them.

ghost use Rattle.raft_frames.specs.Laws.{EndsWithoutHeads, GoesOn, ReadsBack, ReadsWhatIsThere, ReadsWhole, Recovers, RecoversFilled};
ghost use Rattle.raft_frames.specs.Laws.{RefusesOthers, TellsChanges, TellsDamage, ZerosAreDamage};

/// What is written is read, and nothing else is.
pub fn logs_read_back()
    ensures back { ReadsBack }
    ensures whole { ReadsWhole }
    ensures ends { EndsWithoutHeads }
    ensures spelled { ReadsWhatIsThere }
    ensures goes_on { GoesOn }
{}

/// Wherever a crash cuts a file, reading gives its first frames.
pub fn logs_recover()
    ensures cut { Recovers }
    ensures filled { RecoversFilled }
{}

/// Damage in front of a frame is told, and nothing is cut; so are files of others.
pub fn damage_is_told()
    ensures damage { TellsDamage }
    ensures changes { TellsChanges }
    ensures zeros { ZerosAreDamage }
    ensures others { RefusesOthers }
{}
