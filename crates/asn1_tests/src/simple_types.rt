//! What no contract states about `asn1_values`: values from outside, and that calls succeed if there is memory.

mod bits;
mod identifiers;
mod integers;
mod laws;
mod made;
mod slow;
mod texts;
mod times;
