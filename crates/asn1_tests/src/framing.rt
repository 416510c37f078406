//! What no contract states of `asn1_core`: values from outside, and that calls succeed if there is memory.

mod elements;
mod errors;
mod integers;
mod known_octets;
mod octets;
mod reading;
mod refusals;
mod sets;
mod slow;
mod slow_integers;
mod tags;
mod writing;
