//! The tests of nets that threads share. Some make calls one after the other on two seats of one net. Others let two and four
//! threads work on one net, and their answers add up. There is nothing else here, so that no other crate is proved a second time
//! with its tests.
#![tactic(auto)]

#[cfg(test)]
mod nets;
#[cfg(test)]
mod rows;
#[cfg(test)]
mod threads;
