//! Types that `tools/derive` printed from the declarations in `declarations`, as it printed them, and their tests.
#![tactic(auto)]

#[cfg(test)]
mod ec_private_key;
#[cfg(test)]
mod items;
#[cfg(test)]
mod kerberos;
#[cfg(test)]
mod numbers;
#[cfg(test)]
mod page;
#[cfg(test)]
mod snmp;
#[cfg(test)]
mod spellings;
#[cfg(test)]
mod tags;
#[cfg(test)]
mod tests;
#[cfg(test)]
mod words;
