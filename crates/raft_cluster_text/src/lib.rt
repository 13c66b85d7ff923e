//! A cluster as a text: reads its lines, draws them at random, plays each on a [`Cluster`](raft_cluster::Cluster), judges what clients
//! were told, and prints what came of it.
//!
//! # The text
//!
//! First the head of a schedule of the second language (docs/SCHEDULES.md): `language 2`, nodes, voters, learners and settings. Then
//! limits of the servers, if others than the usual ones are wanted: `limit NAME N` with `spread`, `heartbeat`, `patience`, `timeout`,
//! `catch-up`, `log`, `value`, `waiting`, `requests`, `batch`, `frame`, `part`, `snapshot`, `unwritten` or `jump` (in milliseconds, entries,
//! bytes or terms).
//! Then lines of what happens; a TOKEN is below 2^63 (each write of a load has its own one above):
//!
//! | Line | What happens |
//! |--|--|
//! | `start N` | server N opens on its disk; or its log is refused |
//! | `init N` | server N gets the first entry of a new cluster |
//! | `tick N MS R` | at server N so many milliseconds go by; R is a random number |
//! | `request N TOKEN V`, `read N TOKEN` | a client's request comes to server N: a write of bytes (`x` and hexadecimal digits, or a number as eight bytes), or a read |
//! | `ask N TOKEN` | a read comes to server N that needs no entry: it waits for a quorum's replies to requests that are sent later |
//! | `members N V V .. learners L ..` | server N is asked to change the members to these |
//! | `write N` | server N proposes what waits, and hands out the records that wait for the end of its log |
//! | `flush N` | they are on disk: what its steps say leaves the server |
//! | `deliver K` | the K-th frame that left a server is taken by its addressee: again, late, or never |
//! | `cut N`, `heal N` | frames from and to server N don't wait any more, or do again: `deliver all` and `run` leave them out |
//! | `crash N at B` | server N stops; of what was handed out and isn't flushed the first B bytes are on disk |
//! | `checkpoint N` | server N begins a new log beside the old one, if all of that is on disk, and long (`limit log`); `flush N` is for both then |
//! | `take-over N` | the new log takes the old one's place, if all of it is on disk |
//! | `give-up N` | or it is given up, as if it couldn't be written |
//! | `checkpoint N crash` | server N begins a new log, and stops before that has taken the old one's place: no start reads what was written of it |
//! | `receive N xHEX` | a stranger's bytes come to server N |
//! | `corrupt N B` | the lowest bit of byte B of server N's disk is turned |
//!
//! Some lines stand for many, and what they send isn't printed:
//!
//! | Line | What happens |
//! |--|--|
//! | `deliver all` | each frame that waits is taken by its addressee |
//! | `run MS` | in steps of ten milliseconds each server ticks; then, four times, all frames are delivered and each server writes and flushes |
//! | `load N COUNT BYTES WAITING` | so many writes come to server N, at most so many without an answer; without a tick |
//!
//! A text that is the line `random SEED STEPS` draws the head and so many lines, the same ones for each seed, and prints them; at the end
//! all servers are reached and started, and one is asked. `random SEED STEPS SEEDS` does so for many seeds, and prints those in which
//! something is wrong; `count SEED STEPS SEEDS` prints how much happened, too.
//!
//! # What is printed
//!
//! A text that plays the same way: each line with what came of it behind a `#`, and in comments below it the frames that left then, with
//! their numbers, and what clients are told, in the order in which it happened (of a load nothing). At the end each server's disk, and a
//! verdict on what clients were told, by that alone: `agree`; `disagree` with the least index at which two entries were executed; or an
//! answer that isn't true.
//!
//! A text with a line that is wrong in its place isn't played. The first such line is named by its number, as that of a schedule is: the one
//! behind the last, if that is all and there is no line `nodes`.
//!
//! # What is proved
//!
//! Unless a byte on a disk is changed by hand (`corrupt`), or a packet that no server sent is taken (`receive`), the verdict on a text is
//! never `disagree` ([`run_text`]): each line is played by [`Cluster::play`](raft_cluster::Cluster::play), after which the servers follow
//! the model's, so what clients were told agrees. The servers' state machine keeps each entry ([`Entries`]): so a snapshot that was
//! installed is compared entry by entry.
//!
//! What clients asked and were told is linearizable then, and no acknowledged write is lost (`raft_cluster`). That the verdict finds no
//! answer that isn't true is tested, and not proved. What is printed is not proved to be what came of the lines.
#![tactic(auto)]

mod entries;
mod error;
mod head;
mod judge;
mod plan;
mod print;
mod random;
mod run;

pub use entries::Entries;
pub use error::TextError;
pub use judge::{Verdict, verdict_of};
pub use plan::{Plan, read_plan};
pub use random::Drawer;
pub use run::{Played, run_text, simulate};
