//! What no contract says of the program's library, and of a user's own types: values from outside, streams that fail,
//! and that calls succeed if there is memory.
#![tactic(auto)]

#[cfg(test)]
mod tests;
