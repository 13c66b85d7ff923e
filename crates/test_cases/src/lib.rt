//! Cases as data: files of texts, each with what playing it must give, and a program's run over all of them.
//!
//! A file holds cases, parted by empty lines, and between them comments that begin with `#`; on top of them stands their
//! kind, where the program plays several:
//!
//! ```text
//! kind NAME
//!
//! case NAME
//! source WHERE ITS EXPECTATION COMES FROM
//! the text, line by line
//! ----
//! what playing it must give, up to the next empty line
//! ```
//!
//! In a text `\xHH` stands for the byte of two hexadecimal digits, and a line that ends with `\` has no line feed.
#![tactic(auto)]

mod playing;
mod reading;
mod sheet;

pub use playing::{Player, run};
pub use reading::{Case, Draft, unescape};
pub use sheet::{Lines, Sheet, play_lines};
