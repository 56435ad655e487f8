//! Tests of single calls that no row of mg_rows makes. They try whole prefixes, and the nodes that may run, on one thread and
//! shared by several threads. They have a crate of their own, so that no other crate is proved a second time with its tests.
#![tactic(auto)]

#[cfg(test)]
mod levels;
#[cfg(test)]
mod ready;
#[cfg(test)]
mod sets;
