//! JSON values as payloads, and payloads as JSON values (RFC 8259). Answers to the definitions of `specs/Json.antt`.
#![tactic(auto)]

mod json;
pub mod laws;
mod value_fault;

pub use json::{from_json, to_json};
pub use value_fault::ValueFault;
