//! The tests of nets: the cells of a whole graph, joined by its edges. They are driven at random to rest, by sweeps, and line by line
//! as the input comes. Some are taken apart on the way. There is nothing else here, so that no other crate is proved a second time
//! with its tests.
#![tactic(auto)]

#[cfg(test)]
mod carrying;
#[cfg(test)]
mod driving;
#[cfg(test)]
mod events;
#[cfg(test)]
mod lines;
#[cfg(test)]
mod looks;
#[cfg(test)]
mod orders;
#[cfg(test)]
mod parting;
#[cfg(test)]
mod pieces;
#[cfg(test)]
mod rest;
#[cfg(test)]
mod solutions;
#[cfg(test)]
mod sweeps;
#[cfg(test)]
mod ways;
