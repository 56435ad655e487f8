//! The tests of free nodes: graphs with free nodes as the check takes or refuses them, their cores, arrivals one by one, and rounds.
//! They have a crate of their own, so that no other crate is proved a second time with its tests.
#![tactic(auto)]

#[cfg(test)]
mod checks;
#[cfg(test)]
mod rounds;
#[cfg(test)]
mod splits;
#[cfg(test)]
mod states;
