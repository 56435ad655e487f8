ghost use Rattle.std.specs.Prelude.{◌≡◌, ◌≢◌, ℕ, List, [], None, Some, OnOk, OnErr};
ghost use Rattle.std.specs.Option.{option_map};
ghost use Rattle.mg_edge.specs.Edge.{LoadsWithin, LoadGives, NotesLoad, LoadFaultCounts, KeepsFailedName, one_more};
ghost use Rattle.mg_edge.specs.MemoryStore.{stored, failing_load, loads_made, names_loaded, last_failed, store_faults, store_told, content_at};
ghost use Rattle.mg_edge.specs.MemoryStore.{KeepsCalls, AnswersLoad};
ghost use Rattle.mg_edge.specs.Code.{LooksUp, IsFrontOf};

use crate::loaded_names::push_name;
use crate::{Loaded, MOST_LOADED, Store};
use std::alloc::{AllocError, Global};
use std::collections::BTreeMap;

/// A store in memory, which fails at the load that it is told to.
#[derive(Drop)]
pub struct MemoryStore {
    alloc: Global,
    contents: BTreeMap<String, Vec<u8>>,
    failing: Option<u64>,
    loads: u64,
    loaded: Vec<String>,
    failed_name: Option<String>,
    faults: u64,
}

impl MemoryStore {
    /// Makes a store with no content.
    pub fn new(alloc: Global) -> MemoryStore
        ensures contents { (name : List ℕ) → stored result name ≡ None }
        ensures failing { failing_load result ≡ None }
        ensures loads { loads_made result ≡ 0 }
        ensures loaded { names_loaded result ≡ [] }
        ensures failed_name { last_failed result ≡ None }
        ensures faults { store_faults result ≡ 0 }
    {
        MemoryStore {
            alloc,
            contents: BTreeMap::new(alloc),
            failing: None,
            loads: 0,
            loaded: Vec::new(alloc),
            failed_name: None,
            faults: 0,
        }
    }

    /// Keeps a copy of `bytes` as the content of a name, in place of an earlier one. Out of memory: every content
    /// stays.
    pub fn put(&mut self, name: &str, bytes: &[u8]) -> Result<(), AllocError>
        ensures ok { OnOk result (stored self.new name.now ≡ Some bytes.now) }
        ensures others { OnOk result ((other : List ℕ) → other ≢ name.now → stored self.new other ≡ stored self.old other) }
        ensures err { OnErr result ((other : List ℕ) → stored self.new other ≡ stored self.old other) }
        ensures calls { KeepsCalls self.old self.new }
        ensures failing { failing_load self.new ≡ failing_load self.old }
    {
        let key = String::from_str(self.alloc, name)?;
        let content = bytes.to_vec(self.alloc)?;
        self.contents.insert(key, content)?;
        Ok(())
    }

    /// Makes the load with this number fail, counted from 0. It takes the place of the load that an earlier call named.
    pub fn fail_at(&mut self, call: u64)
        ensures failing { failing_load self.new ≡ Some call }
        ensures contents { (name : List ℕ) → stored self.new name ≡ stored self.old name }
        ensures calls { KeepsCalls self.old self.new }
    {
        self.failing = Some(call);
    }

    /// Returns how many loads there were. After 2^64 - 1 it goes on from 0.
    pub fn loads(&self) -> u64
        ensures { result ≡ loads_made self.now }
    {
        self.loads
    }

    /// Returns how many loads failed. After 2^64 - 1 it goes on from 0.
    pub fn faults(&self) -> u64
        ensures { result ≡ store_faults self.now }
    {
        self.faults
    }

    /// Returns the name of the load that failed last, or None if none failed.
    pub fn failed_name(&self) -> Option<&str>
        ensures { option_map (λ name. name.now) result ≡ last_failed self.now }
    {
        match &self.failed_name {
            Some(name) => Some(name.as_str()),
            None => None,
        }
    }
}

impl Store for MemoryStore {
    ghost told = { store_told };

    fn load(&mut self, alloc: Global, name: &str) -> Loaded
        ensures kept { (other : List ℕ) → Some (stored self.new other) ≡ Some (stored self.old other) }
        ensures bound { LoadsWithin result }
        ensures bytes { LoadGives (Some (stored self.old name.now)) result }
        ensures loaded { NotesLoad (names_loaded self.old) (names_loaded self.new) result name.now }
        ensures failed_name { KeepsFailedName (last_failed self.old) (last_failed self.new) result name.now }
        ensures fault { LoadFaultCounts (store_faults self.old) (store_faults self.new) result }
        ensures answer { AnswersLoad self.old name.now result }
        ensures loads { loads_made self.new ≡ one_more (loads_made self.old) }
        ensures failing { failing_load self.new ≡ failing_load self.old }
    {
        let number = self.loads;
        self.loads = number.wrapping_add(1);
        let Ok(copy) = String::from_str(alloc, name) else {
            return Loaded::OutOfMemory;
        };
        if push_name(alloc, &mut self.loaded, name).is_err() {
            return Loaded::OutOfMemory;
        }
        let fails = self.failing == Some(number);
        match look_up(alloc, &self.contents, name, fails) {
            Loaded::Failed => {
                self.failed_name = Some(copy);
                self.faults = self.faults.wrapping_add(1);
                Loaded::Failed
            }
            Loaded::Bytes(bytes) => Loaded::Bytes(bytes),
            Loaded::OutOfMemory => Loaded::OutOfMemory,
        }
    }
}

// Returns what a load of a name answers: the first bytes of its content. Returns `Failed` if the name has no content or the
// load is to fail.
fn look_up(alloc: Global, contents: &BTreeMap<String, Vec<u8>>, name: &str, fails: bool) -> Loaded
    ensures bound { LoadsWithin result }
    ensures answer { LooksUp fails (content_at contents.now name.now) result }
{
    match contents.get(name) {
        Some(content) if !fails => first_bytes(alloc, content),
        _ => Loaded::Failed,
    }
}

// Copies the first bytes of a content, `MOST_LOADED` at most.
fn first_bytes(alloc: Global, content: &[u8]) -> Loaded
    ensures bound { LoadsWithin result }
    ensures bytes { IsFrontOf content.now result }
{
    let most = MOST_LOADED.min(content.len());
    match Vec::from_slice(alloc, &content[..most]) {
        Ok(bytes) => Loaded::Bytes(bytes),
        Err(_) => Loaded::OutOfMemory,
    }
}
