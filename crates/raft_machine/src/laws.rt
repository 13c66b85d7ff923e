//! Laws of the definitions, for every state.

ghost use Rattle.std.specs.Prelude.{◌≡◌, List, ℕ, false, Some};
ghost use Rattle.std.specs.FinMap.{get};
ghost use Rattle.raft_machine.specs.declared.command.Command.{Command};
ghost use Rattle.raft_machine.specs.declared.command.Reply.TheVariants.{Bulk};
ghost use Rattle.raft_machine.specs.declared.command.Query.TheVariants.{Get};
ghost use Rattle.raft_machine.specs.declared.machine.Request.{Request};
ghost use Rattle.raft_machine.specs.declared.machine.Session.{Session};
ghost use Rattle.raft_machine.specs.Space.{Space};
ghost use Rattle.raft_machine.specs.Commands.{answer, run, set, plainly};
ghost use Rattle.raft_machine.specs.Machine.{State, apply};
ghost use Rattle.raft_machine.specs.Laws.{CursorsRise, ScansAnswerEachKeyOnce, ScansMissNoKey, names};
ghost use Rattle.raft_codec.specs.Codec.{IsCodec};
ghost use Rattle.raft_machine.specs.Bytes.{state};

/// A client's request that comes again, at whatever moment and with whatever commands, changes nothing and is answered as it was.
pub fn repeats_change_nothing()
    ensures { (st : State) (r q : Request) (s : Session) → r.session ≡ Some s → q.session ≡ Some s → apply (apply st r).0 q ≡ apply st r }
{}

/// What is set is what is read.
pub fn reads_see_what_is_set()
    ensures { (s : Space) (k v : List ℕ) → answer (set s k v plainly).0 (Get k) ≡ Bulk v }
{}

/// A command changes no key but those that it names.
pub fn other_keys_stay()
    ensures { (s : Space) (c : Command) (k : List ℕ) → names c k ≡ false → get (run s c).0.map k ≡ get s.map k }
{}

/// A state is read back from its bytes, whatever follows them, and what is read stood there so.
pub fn states_are_read_back()
    ensures { IsCodec state }
{}

/// Steps through keys that stay the same answer each key that is asked for exactly once, in order, and come to an end: in one step more than
/// there are keys at most, whatever the count.
pub fn scans_answer_each_key_once()
    ensures { ScansAnswerEachKeyOnce }
{}

/// However keys come and go between steps, a key that is asked for and there at each of them is answered before 0 is. A step answers a cursor
/// behind its own, or 0.
pub fn scans_miss_no_key()
    ensures each { ScansMissNoKey }
    ensures behind { CursorsRise }
{}
