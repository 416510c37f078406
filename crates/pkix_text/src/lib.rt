//! Shows the objects of `pkix` as text: a line for each field, with its location and its value.
#![tactic(auto)]

mod answers;
mod certificate;
mod common;
mod errors;
mod extensions;
mod forms;
mod general_names;
mod identifiers;
mod key_sizes;
mod keys;
mod kinds;
mod pem;
mod program;
mod show;
mod signatures;
mod timestamps;
mod transparency;

pub use answers::{Answer, Fault, Refusal, Report, answer_to, report_on};
pub use kinds::Kind;
pub use pem::PemError;
pub use program::{Asked, HELP, ask, status};
pub use show::Page;
