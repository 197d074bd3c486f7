//! The maps beside a plain list of entries, over many operations.
#![tactic(auto)]

#[cfg(test)]
mod beside_a_list;
#[cfg(test)]
mod changes;
#[cfg(test)]
mod large;
#[cfg(test)]
mod leaving;
#[cfg(test)]
mod prefixes;
#[cfg(test)]
mod table;
