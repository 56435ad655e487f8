//! Tests of payloads: from JSON values and back, and their kinds.

use mg_json::{from_json, to_json};
use mg_value::{Kind, Payload, has_kind};
use serde_json::Value;
use std::alloc::{AllocError, Global};
use std::process::Abort;
use std::test::Fail;

// Rows of the kind of a payload and what is written of it, or the first fault of the value, and after ` <- ` the value.
fn values() -> &'static str {
    r#"Flag true <- true
Flag false <- false
Int 0 <- 0
Int -3 <- -3
Int 9223372036854775807 <- 9223372036854775807
Int -9223372036854775808 <- -9223372036854775808
Text "" <- ""
Text "a" <- "a"
Text "é\n" <- "\u00e9\n"
Text "\"\\/" <- "\"\\\/"
Items [] <- [ ]
Items [true,-3,"a",[]] <- [ true , -3 , "a" , [ ] ]
Items [1,[2,[3]],{"k":[{}]}] <- [1,[2,[3]],{"k":[{}]}]
Record {} <- {}
Record {"a":1,"b":2} <- {"b":2,"a":1}
Record {"":{}} <- {"":{}}
Record {"B":1,"a":2,"é":3} <- {"é":3,"a":2,"B":1}
Record {"a":1,"aa":2,"b":3} <- {"aa":2,"b":3,"a":1}
Record {"a":2} <- {"a":1,"a":2}
Fraction <- 1.5
Fraction <- -0
Fraction <- 1e2
Fraction <- 1.0
Fraction <- 18446744073709551616
Fraction <- -9223372036854775809
TooWide <- 9223372036854775808
TooWide <- 18446744073709551615
Null <- null
Null <- [null]
Null <- [1,null,1.5]
Fraction <- [1,1.5,null]
Null <- {"a":null,"b":1.5}
Fraction <- {"b":null,"a":1.5}
TooWide <- [9223372036854775808,null]
Null <- [[],{"x":[null]},1.5]
Fraction <- {"a":{"b":0.1},"c":null}"#
}

fn nested_values() -> &'static str {
    r#"Items [[[[[[[[[[[[[[[[]]]]]]]]]]]]]]]] <- [[[[[[[[[[[[[[[[]]]]]]]]]]]]]]]]
Items [[[[[[[[[[[[[[[[7]]]]]]]]]]]]]]]] <- [[[[[[[[[[[[[[[[7]]]]]]]]]]]]]]]]
TooDeep <- [[[[[[[[[[[[[[[[[]]]]]]]]]]]]]]]]]
TooDeep <- [[[[[[[[[[[[[[[[[null]]]]]]]]]]]]]]]]]
TooDeep <- [[[[[[[[[[[[[[[[{}]]]]]]]]]]]]]]]]
Null <- [[[[[[[[[[[[[[[[null,[]]]]]]]]]]]]]]]]]
TooDeep <- [[[[[[[[[[[[[[[[[],null]]]]]]]]]]]]]]]]
Record {"a":[[[[[[[[[[[[[[[]]]]]]]]]]]]]]]} <- {"a":[[[[[[[[[[[[[[[]]]]]]]]]]]]]]]}
TooDeep <- {"a":[[[[[[[[[[[[[[[[]]]]]]]]]]]]]]]]}
Fraction <- {"a":0.5,"b":[[[[[[[[[[[[[[[[]]]]]]]]]]]]]]]]}
TooDeep <- {"b":0.5,"a":[[[[[[[[[[[[[[[[]]]]]]]]]]]]]]]]}
TooDeep <- {"a":{"a":{"a":{"a":{"a":{"a":{"a":{"a":{"a":{"a":{"a":{"a":{"a":{"a":{"a":{"a":{"a":1}}}}}}}}}}}}}}}}}
Record {"a":{"a":{"a":{"a":{"a":{"a":{"a":{"a":{"a":{"a":{"a":{"a":{"a":{"a":{"a":{"a":1}}}}}}}}}}}}}}}} <- {"a":{"a":{"a":{"a":{"a":{"a":{"a":{"a":{"a":{"a":{"a":{"a":{"a":{"a":{"a":{"a":1}}}}}}}}}}}}}}}}"#
}

fn read(alloc: Global, text: &str) -> Result<Value, Fail> {
    Ok(Value::from_str(alloc, text).map_err(|_| "no JSON")?)
}

// Returns the kinds that a payload is of, other than Any.
fn kinds_of(alloc: Global, payload: &Payload) -> Result<String, AllocError> {
    let mut names = String::new(alloc);
    for kind in [Kind::Flag, Kind::Int, Kind::Text, Kind::Items, Kind::Record] {
        if has_kind(payload, kind) {
            names.push_str(format!(in alloc; "{kind:?} ")?.as_str())?;
        }
    }
    Ok(names)
}

fn show(alloc: Global, text: &str) -> Result<String, Fail> {
    match from_json(alloc, &read(alloc, text)?) {
        Ok(payload) => {
            let kinds = kinds_of(alloc, &payload)?;
            let written = to_json(alloc, &payload)?.to_string(alloc)?;
            Ok(format!(in alloc; "{}{}", kinds.as_str(), written.as_str())?)
        }
        Err(fault) => Ok(format!(in alloc; "{fault:?}")?),
    }
}

fn assert_row(rt: &impl Abort, alloc: Global, row: &str) -> Result<(), Fail> {
    let (wanted, text) = row.split_once(" <- ").ok_or("no arrow")?;
    let shown = show(alloc, text)?;
    assert!(rt; shown.as_str() == wanted, "{row}: {shown}");
    Ok(())
}

#[test]
fn values_are_payloads_or_have_a_first_fault(rt: HostRuntime) -> Result<(), Fail> {
    for row in values().split('\n') {
        assert_row(&rt, rt.alloc(), row)?;
    }
    for row in nested_values().split('\n') {
        assert_row(&rt, rt.alloc(), row)?;
    }
    Ok(())
}
