//! Tests of the gate at which two calls meet: calls at the same time do, and calls one after the other don't.
use mg_edge::{Gate, MeetGate};
use std::test::*;
use std::thread::join;

// Makes a call through a gate.
fn call(gate: &MeetGate, node: u32, number: u64) {
    gate.enter(node, number);
    gate.leave(node, number);
}

#[test]
fn two_calls_meet(rt: HostRuntime) -> Result<(), Fail> {
    let gate = MeetGate::new((0, 0), (1, 0), 200_000_000);
    let _ = join(&rt, || call(&gate, 0, 0), || call(&gate, 1, 0));
    assert_eq!(rt; gate.met(), true);
    Ok(())
}

#[test]
fn one_after_the_other_they_dont(rt: HostRuntime) -> Result<(), Fail> {
    let gate = MeetGate::new((0, 0), (1, 0), 1000);
    call(&gate, 0, 0);
    call(&gate, 1, 0);
    call(&gate, 0, 0);
    call(&gate, 1, 1);
    assert_eq!(rt; gate.met(), false);
    Ok(())
}
