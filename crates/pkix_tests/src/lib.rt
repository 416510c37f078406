//! Tests of `pkix`: each type at its boundaries; real objects, made with throwaway keys, are read and written back;
//! what is cut, changed or not DER is rejected. The lines of objects are in the cases of `pkix_cli`.
#![tactic(auto)]

#[cfg(test)]
mod algorithm_parameters;
#[cfg(test)]
mod boundaries;
#[cfg(test)]
mod built;
#[cfg(test)]
mod built_objects;
#[cfg(test)]
mod changes;
#[cfg(test)]
mod extension_values;
#[cfg(test)]
mod identifiers;
#[cfg(test)]
mod keys;
#[cfg(test)]
mod named_bits;
#[cfg(test)]
mod objects;
#[cfg(test)]
mod readme;
#[cfg(test)]
mod walks;
