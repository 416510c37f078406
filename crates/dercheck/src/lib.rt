//! Reads DER encodings in hex, one a line, and replies to each with the octets that its value is written as, or the
//! error. Cuts a stream of octets into its elements, a line for each, without allocating.
#![tactic(auto)]

mod answers;
mod frame_lines;
pub mod framing;
mod header;
mod hex_digits;
pub mod kinds;
pub mod laws;
mod lines;
pub mod memory;
mod modes;
pub mod own_types;
mod pending;
mod program;
mod replies;
pub mod stream;
pub mod system;
mod words;

pub use answers::{Fault, check};
pub use framing::frames;
pub use memory::{Held, Pieces};
pub use modes::Mode;
pub use program::{mode, status};
pub use stream::{Sink, Source};
pub use system::{Input, Output};
