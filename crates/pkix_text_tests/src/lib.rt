//! Tests of `pkix_text`: what the program doesn't print. The lines of objects, and other reasons why objects are
//! rejected, are in the cases of `pkix_cli`.
#![tactic(auto)]

#[cfg(test)]
mod refusals;
