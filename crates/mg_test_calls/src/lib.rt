//! The tests of single calls that read and write a graph, a module for each crate under test. They use vectors from outside, texts
//! that are printed, and real files. What a row of mg_rows runs has no test here. There is nothing else here, so that no other crate
//! is proved a second time with its tests.
#![tactic(auto)]

#[cfg(test)]
mod edge;
#[cfg(test)]
mod gates;
#[cfg(test)]
mod index;
#[cfg(test)]
mod names;
#[cfg(test)]
mod payload;
#[cfg(test)]
mod text;
#[cfg(test)]
mod time;
