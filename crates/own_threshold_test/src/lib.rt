//! The tests of the threshold: rows of numbers and what comes of them, worked by hand. There is nothing else here, so that no other crate is
//! proved a second time with its tests.
#![tactic(auto)]

#[cfg(test)]
mod rows;
