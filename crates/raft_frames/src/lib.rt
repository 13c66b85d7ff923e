//! A log of frames in a file that survives torn writes: bytes in, bytes out, and no raft types.
//!
//! # The file
//!
//! All numbers are unsigned, their lowest byte first, and all sums are CRC-32C.
//!
//! | Bytes | Of the header |
//! |--|--|
//! | 8 | `wachelpo` |
//! | 4 | the format's version, 1 |
//! | 8, 8 | the cluster, and the node |
//! | 4 | the sum of these 28 bytes: the file's *seed* |
//!
//! | Bytes | Of each frame behind it |
//! |--|--|
//! | 4 | the payload's length, from 1 to [`MAX_FRAME`] |
//! | 4 | the *check*: the sum of the seed, the frame's position in the file (8 bytes), and the length |
//! | 4 | the sum of the sum before it (the header's for the first frame), the length, and the payload |
//! | length | the payload |
//!
//! Behind the last frame stand nothing, zeros (room that was filled ahead), or what a crash left.
//!
//! The sums are chained, so a frame counts only behind the frames that it was written behind. The check is there so
//! that a length can be believed by itself, at its place in its file. With the sum alone, a last frame that a crash
//! tore, and whose payload holds what looks like a frame, could not be told from damage in the middle; nor could a
//! damaged length from a torn end.
//!
//! # Reading
//!
//! [`read`] gives the payloads, how many bytes of the file are kept, and the [`Tail`] from which a writer goes on.
//! A frame that isn't whole ends the log, unless a frame begins behind it: then it was whole once, and
//! [`Fault::Damaged`] says where it stands. It takes no memory but for its list of payloads, whatever the lengths say.
//!
//! # Writing
//!
//! [`Tail::push`] writes a frame. Of a large payload [`front_sum`] and [`crc32c_append`] make the sum in steps; then [`Tail::push_head`] writes what
//! stands before it, and the payload itself is not copied.
//!
//! # What its caller does
//!
//! - A log that ends at byte 0 is new: write [`LogId::header`] first.
//! - Before anything is appended, what stands behind the end is cut off or zeroed, and that is synced.
//! - What one sync puts on the disk is one frame. Of two frames that aren't synced yet a crash may leave the second
//!   without the first, which reads as damage.
//! - A file with nothing but zeros is new. Only the caller knows whether there was to be a log in it.
#![tactic(auto)]

mod crc;
mod error;
mod header;
mod laws;
mod reading;
mod tables;
mod tail;

pub use crc::{crc32c, crc32c_append};
pub use error::{Fault, PushError, ReadError};
pub use header::{HEADER_LEN, LogId};
pub use laws::{damage_is_told, logs_read_back, logs_recover};
pub use reading::{Log, read};
pub use tail::{MAX_FRAME, Tail, front_sum};
