//! What a bare start gives up, on a function that does nothing.

ghost use Rattle.proof_deeds.specs.BareStarts.{BareStartsLeadAnew, BareStartsNeverLeadOn};
ghost use Rattle.proof_deeds.specs.WorldLaws.{OfEachWorld};

/// A node that leads after a bare start leads in a later term than that of the vote that it had stored before: right after it,
/// and in a run until it is started again. So it leads under no leader id that it had stored (Raft paper, section 5.2).
pub fn bare_starts_lead_anew()
    ensures starts { BareStartsLeadAnew }
    ensures since { OfEachWorld BareStartsNeverLeadOn }
{}
