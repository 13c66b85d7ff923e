//! A service behind calls of numbers and bytes: what a caller in another language sends and gets.
//!
//! A call is the number of an input, two numbers, and bytes. What comes of it is read as bytes: outputs, one behind another, each
//! its kind (4 bytes), the number of bytes of its body (4), a number (8), and its body. All numbers have their lowest byte first.
//! The bytes of a new log, which may be many, are put out in pieces, each as it is asked for.
#![tactic(auto)]

mod bytes;
mod error;
mod frames;
mod host;
mod inputs;
mod pieces;
mod settings;

pub use error::HostError;
pub use frames::OutputKind;
pub use host::Host;
pub use inputs::{Input, input_of};
pub use settings::read_settings;
