//! What no contract says of `asn1`: values from outside, and that calls succeed if there is memory.
#![tactic(auto)]

#[cfg(test)]
mod alternatives;
#[cfg(test)]
mod application;
#[cfg(test)]
mod callers;
#[cfg(test)]
mod changed;
#[cfg(test)]
mod date;
#[cfg(test)]
mod defaults;
#[cfg(test)]
mod error_octets;
#[cfg(test)]
mod examples;
#[cfg(test)]
mod framing;
#[cfg(test)]
mod headline;
#[cfg(test)]
mod large;
#[cfg(test)]
mod laws;
#[cfg(test)]
mod laws_of_octets;
#[cfg(test)]
mod laws_of_values;
#[cfg(test)]
mod lengths;
#[cfg(test)]
mod lifetimes;
#[cfg(test)]
mod lists;
#[cfg(test)]
mod memory;
#[cfg(test)]
mod nested;
#[cfg(test)]
mod numeric;
#[cfg(test)]
mod page;
#[cfg(test)]
mod readme;
#[cfg(test)]
mod refused_items;
#[cfg(test)]
mod relative_oid;
#[cfg(test)]
mod round_trips;
#[cfg(test)]
mod sets;
#[cfg(test)]
mod simple_types;
#[cfg(test)]
mod slow;
#[cfg(test)]
mod structures;
#[cfg(test)]
mod values;
#[cfg(test)]
mod wrappers;
#[cfg(test)]
mod written_sets;
