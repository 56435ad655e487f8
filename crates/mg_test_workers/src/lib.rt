//! The tests of nets that workers run. All is done before any sweep. Two Process calls meet, workers share calls that sleep, and each call
//! goes through the gate once. Full queues hold sources back, and few turns of workers are in vain. The outcome is the same for each number
//! of workers. There is nothing else here, so that no other crate is proved a second time with its tests.
#![tactic(auto)]

#[cfg(test)]
mod gates;
#[cfg(test)]
mod limits;
#[cfg(test)]
mod meeting;
#[cfg(test)]
mod outcomes;
#[cfg(test)]
mod running;
#[cfg(test)]
mod sleeping;
#[cfg(test)]
mod turns;
