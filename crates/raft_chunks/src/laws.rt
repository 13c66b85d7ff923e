//! What holds of chunks and their assembly.

ghost use Rattle.raft_chunks.specs.Laws.{Arrives, AssemblesByTitle, AssemblesWhatWasSent, KeepsWhatItHas, ReadsBack, ReadsWhatIsThere};

/// What is written is read, and nothing else is.
pub fn chunks_read_back()
    ensures back { ReadsBack }
    ensures spelled { ReadsWhatIsThere }
{}

/// Whatever chunks come, in whatever order: what is handed out has its title's length and sum, and if each chunk is a part of its
/// snapshot, it is the snapshot. A chunk that is refused loses nothing, but for the last of a damaged snapshot.
pub fn snapshots_assemble()
    ensures titled { AssemblesByTitle }
    ensures sent { AssemblesWhatWasSent }
    ensures kept { KeepsWhatItHas }
{}

/// From whatever part of a snapshot is there, the chunks at the receiver's answers complete it, and it is handed out once.
pub fn snapshots_arrive()
    ensures { Arrives }
{}
