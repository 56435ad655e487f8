ghost use Rattle.std.specs.Prelude.{◌≡◌, ◌∷◌, ◌++◌, [], length, ◌<◌, ◌^◌, Option, List, None, unwrap_or, slice_get, IfOk, IfErr, OnErr};
ghost use Rattle.mg_calc.specs.declared.call.Call.{Call as TheCall};
ghost use Rattle.mg_calc.specs.Told.{with_call as with_a_call, shown_calls, Logs};
ghost use Rattle.mg_batch.specs.Logged.{told_log};

use mg_calc::{CalcFault, Call, CallList, Emission};
use mg_settled::InputSet;
use mg_time::Timestamp;
use mg_value::{BlockList, Packet};
use std::alloc::{AllocError, AllocFailed, Global};
use std::marker::Model;
use std::mem;

/// A log of a calculator's calls, which is kept only if it is telling. Contracts see the list of calls, or none if the log isn't kept.
#[derive(Drop)]
pub struct CallLog {
    telling: bool,
    calls: CallList,
}

impl Model for CallLog {
    ghost use Rattle.std.specs.Prelude.{◌≡◌, false, [], List, Option};
    ghost use Rattle.std.specs.Coded.{coded_list, coded_option};
    ghost use Rattle.mg_calc.specs.declared.call.Call.{Call as TheCall};
    ghost use Rattle.mg_calc.specs.ToldCodes.{call_code};
    ghost use Rattle.mg_batch.specs.Logged.{told_log};

    ghost Value = { Option (List TheCall) };

    ghost coded = { coded_option (coded_list call_code) };

    ghost view = { λ l. told_log l.telling l.calls };

    ghost invariant = { λ l. l.telling ≡ false → l.calls ≡ [] };
}

impl CallLog {
    /// Returns an empty log, which is kept if `telling` is set. It allocates nothing.
    pub fn new(alloc: Global, telling: bool) -> CallLog
        ensures { result ≡ told_log telling [] }
    {
        CallLog {
            telling,
            calls: no_calls(alloc),
        }
    }

    /// Returns the calls in order, or an empty list if the log isn't kept.
    pub fn calls(&self) -> &CallList
        ensures { result.now ≡ shown_calls self.now }
    {
        &self.calls
    }

    /// Appends a call, if the log is kept. On an error the log stays.
    pub fn note(&mut self, alloc: Global, call: Call) -> Result<(), AllocError>
        ensures noted { IfOk result (λ _. self.new ≡ with_a_call self.old call) }
        ensures missed { OnErr result (self.new ≡ self.old) }
    {
        if !self.telling {
            return Ok(());
        }
        match with_call(mem::replace(&mut self.calls, no_calls(alloc)), call) {
            Ok(calls) => {
                self.calls = calls;
                Ok(())
            }
            Err(failed) => {
                self.calls = failed.value;
                Err(AllocError)
            }
        }
    }

    /// Appends the call that shows a set at a time, if the log is kept. The set's payloads are shared. On an error the log stays.
    pub fn note_set(
        &mut self,
        alloc: Global,
        at: Timestamp,
        set: &InputSet,
    ) -> Result<(), AllocError>
        ensures noted { IfOk result (λ _. self.new ≡ with_a_call self.old (Call.Shown at set.now)) }
        ensures missed { OnErr result (self.new ≡ self.old) }
    {
        if !self.telling {
            return Ok(());
        }
        let set = copied(alloc, set)?;
        self.note(alloc, Call::Shown { at, set })
    }

    /// Removes the last call if its answer is `OutOfMemory`; a call that gave an emission or failed stays.
    pub fn keep_answered(&mut self, alloc: Global, answer: &Result<Emission, CalcFault>)
        ensures { (before : Option (List TheCall)) (call : TheCall) → self.old ≡ with_a_call before call → Logs answer.now before self.new call }
    {
        match answer {
            Err(CalcFault::OutOfMemory) => self.take_back(alloc),
            Err(CalcFault::Fault(_)) => {}
            Ok(_) => {}
        }
    }

    /// Removes the last call, if there is one.
    pub fn take_back(&mut self, alloc: Global)
        ensures { (before : Option (List TheCall)) (call : TheCall) → self.old ≡ with_a_call before call → self.new ≡ before }
    {
        let mut calls = mem::replace(&mut self.calls, no_calls(alloc)).into_vec();
        let _ = calls.pop();
        self.calls = list_of(calls);
    }
}

// Returns the list of a vector's calls, fewer than 2^32.
fn list_of(calls: Vec<Call>) -> CallList
    requires { length calls.items < 2 ^ 32 }
    ensures { result ≡ calls.items }
{
    match BlockList::from_vec(calls) {
        Ok(list) => list,
        Err(_) => unreachable!(),
    }
}

// Returns the empty list. It allocates nothing.
fn no_calls(alloc: Global) -> CallList
    ensures { result ≡ [] }
{
    list_of(Vec::new(alloc))
}

// Returns a list with a further call. Out of memory: the error gives the list back as it was.
fn with_call(log: CallList, call: Call) -> Result<CallList, AllocFailed<CallList>>
    ensures more { IfOk result (λ now. now ≡ log ++ call ∷ []) }
    ensures same { IfErr result (λ e. e.value ≡ log) }
{
    if log.len() == u32::MAX {
        return Err(AllocFailed { value: log });
    }
    let mut calls = log.into_vec();
    match calls.push(call) {
        Ok(()) => Ok(list_of(calls)),
        Err(_) => Err(AllocFailed {
            value: list_of(calls),
        }),
    }
}

// Returns a copy of a set, which shares the payloads.
fn copied(alloc: Global, set: &InputSet) -> Result<InputSet, AllocError>
    ensures { IfOk result (λ copy. copy ≡ set.now) }
{
    let mut copy = InputSet::new(alloc, set.len())?;
    for port in 0..set.len() {
        copy.put(port, shared(set, port)?);
    }
    Ok(copy)
}

// Returns a copy of the packet at a port, if there is one. It shares the payload.
fn shared(set: &InputSet, port: u32) -> Result<Option<Packet>, AllocError>
    ensures { IfOk result (λ packet. packet ≡ unwrap_or (slice_get set.now port) None) }
{
    match set.get(port) {
        Some(packet) => Ok(Some(packet.try_clone()?)),
        None => Ok(None),
    }
}
