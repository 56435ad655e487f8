//! The tests of cells: the first node of a graph with its intake and its engine, and the collector after it. Tables drive them
//! call by call. There are windows whose works are committed in any order, emissions that can't be laid, and cells that go on in
//! other threads. There is nothing else here, so that no other crate is proved a second time with its tests.
#![tactic(auto)]

#[cfg(test)]
mod cell;
#[cfg(test)]
mod laying;
#[cfg(test)]
mod rows;
#[cfg(test)]
mod scripted;
#[cfg(test)]
mod shown;
#[cfg(test)]
mod sink;
#[cfg(test)]
mod streams;
#[cfg(test)]
mod threads;
#[cfg(test)]
mod windows;
#[cfg(test)]
mod works;
