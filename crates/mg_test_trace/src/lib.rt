//! The tests of single calls of recorded runs: the texts of events and of jobs. They also test packets that are made, which are shown
//! as jobs. There is nothing else here, so that no other crate is proved a second time with its tests.
#![tactic(auto)]

#[cfg(test)]
mod events;
#[cfg(test)]
mod jobs;
#[cfg(test)]
mod made;
