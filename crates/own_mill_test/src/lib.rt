//! The tests of mills: graphs of mills have the same outcome for each number of workers, and workers share the calls of a chain. There is
//! nothing else here, so that no other crate is proved a second time with its tests.
#![tactic(auto)]

#[cfg(test)]
mod outcomes;
#[cfg(test)]
mod own;
#[cfg(test)]
mod running;
#[cfg(test)]
mod sleeping;
