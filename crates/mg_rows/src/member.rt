//! Reads members of a JSON object, each of its own type. A member of another type is an error.

use anyhow::{Result, bail, ensure};
use serde_json::Value;
use std::alloc::Global;

/// Refuses a value that is no object, or has a key that isn't among the names.
pub fn knows(object: &Value, names: &[&str]) -> Result<()> {
    let Value::Object(members) = object else {
        bail!("no object: {object}");
    };
    for key in members.keys() {
        let is_known = names.iter().any(|name| *name == key.as_str());
        ensure!(is_known, "no key is called {key:?}");
    }
    Ok(())
}

/// Returns the number at a key, if the object has the key.
pub fn number(object: &Value, name: &str) -> Result<Option<u64>> {
    let Some(value) = object.get(name) else {
        return Ok(None);
    };
    match value.as_u64() {
        Some(number) => Ok(Some(number)),
        None => bail!("{name}: no number: {value}"),
    }
}

/// Returns the text at a key, if the object has the key.
pub fn text<'a>(object: &'a Value, name: &str) -> Result<Option<&'a str>> {
    let Some(value) = object.get(name) else {
        return Ok(None);
    };
    match value.as_str() {
        Some(text) => Ok(Some(text)),
        None => bail!("{name}: no text: {value}"),
    }
}

/// Returns the list at a key, or an empty list if the object doesn't have the key.
pub fn list<'a>(object: &'a Value, name: &str) -> Result<&'a [Value]> {
    match object.get(name) {
        None => Ok(&[]),
        Some(Value::Array(items)) => Ok(items),
        Some(value) => bail!("{name}: no list: {value}"),
    }
}

/// Returns the list of numbers at a key, or an empty list if the object doesn't have the key.
pub fn numbers(alloc: Global, object: &Value, name: &str) -> Result<Vec<u64>> {
    let mut all = Vec::new(alloc);
    for item in list(object, name)? {
        let Some(number) = item.as_u64() else {
            bail!("{name}: no number: {item}");
        };
        all.push(number)?;
    }
    Ok(all)
}

/// Returns the truth value at a key, if the object has the key.
pub fn truth(object: &Value, name: &str) -> Result<Option<bool>> {
    let Some(value) = object.get(name) else {
        return Ok(None);
    };
    match value.as_bool() {
        Some(truth) => Ok(Some(truth)),
        None => bail!("{name}: no truth value: {value}"),
    }
}
