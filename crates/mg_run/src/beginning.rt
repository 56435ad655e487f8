//! How a call begins: all that it does but to use the graph of a plan. Nothing here needs a runtime.
ghost use Rattle.std.specs.Prelude.{◌≡◌, All, List, ◌⊎◌, IfOk, IfErr, map};
ghost use Rattle.mg_edge.specs.Edge.{StoreTold};
ghost use Rattle.mg_calc.specs.Rules.{Laws};
ghost use Rattle.mg_calc.specs.Told.{BoxTold};
ghost use Rattle.mg_words.specs.Command.{command};
ghost use Rattle.mg_words.specs.Words.{request_of};
ghost use Rattle.mg_words.specs.Request.{request_view};
ghost use Rattle.mg_answer.specs.Notes.{write_note};
ghost use Rattle.mg_files.specs.Reads.{HasFailed};
ghost use Rattle.mg_run.specs.Boxes.{outers_told, MayBeHandedIn};
ghost use Rattle.mg_run.specs.Invocation.{Invocation, invocation};
ghost use Rattle.mg_run.specs.Devices.{Device, device, told_by, SameDevices, Untouched, TookText, TookPart, TookNotes};
ghost use Rattle.mg_run.specs.Call.{IsDue, CallEnded, Called};
ghost use Rattle.mg_run.specs.Code.Action.{action_view, CanBeDone, FailedWith};
ghost use Rattle.mg_run.specs.Code.Begun.{IsBegun};

use crate::action::{Action, Use, action_of};
use crate::outers::outers_of;
use mg_answer::{Devices, Reporting, Status, note_out_of_memory, note_write_fault};
use mg_calc::{NodeCalculator, Plan};
use mg_edge::{Sink, Source, Store};
use mg_feed::put_all;
use mg_files::{Fault, load_all};
use mg_value::MgText;
use mg_words::{Instruction, Request, help_text, request_of, usage_text, version_text};
use std::alloc::Global;

/// How far a call has got before a graph is used.
#[derive(Drop)]
pub enum Begun {
    /// All is done, and the call ends with this status.
    Ended(Status),
    /// The graph of this plan is to be used in this way, with a report after the notes or without a report.
    Left(Use, Reporting, Plan),
}

/// Judges the words, and does what they ask for, up to the use of a graph.
pub fn begin_words<C: NodeCalculator, S: Source, K: Sink, E: Sink, T: Store>(
    alloc: Global,
    words: &[MgText],
    boxes: &Vec<C>,
    store: &mut T,
    devices: &mut Devices<'_, '_, '_, S, K, E>,
) -> Begun
    ensures begun { IsBegun C.laws (outers_told (map C.told boxes.now.items)) (CallEnded C.laws (outers_told (map C.told boxes.now.items)) (request_of words.now)) result
        (device (T.told store.old) (T.told store.new)) (told_by S.told K.told E.told devices.old devices.new) (map C.told boxes.now.items) }
    ensures same { SameDevices devices.old devices.new }
{
    match request_of(alloc, words) {
        Ok(request) => begin_request(alloc, request, boxes, store, devices),
        Err(_) => Begun::Ended(note_out_of_memory(devices.notes)),
    }
}

fn begin_request<C: NodeCalculator, S: Source, K: Sink, E: Sink, T: Store>(
    alloc: Global,
    request: Request,
    boxes: &Vec<C>,
    store: &mut T,
    devices: &mut Devices<'_, '_, '_, S, K, E>,
) -> Begun
    ensures begun { IsBegun C.laws (outers_told (map C.told boxes.now.items)) (CallEnded C.laws (outers_told (map C.told boxes.now.items)) (request_view request)) result
        (device (T.told store.old) (T.told store.new)) (told_by S.told K.told E.told devices.old devices.new) (map C.told boxes.now.items) }
    ensures same { SameDevices devices.old devices.new }
{
    match request {
        Request::Command(instruction, files) => {
            let ordered = Ordered {
                instruction,
                files: &files,
            };
            begin_command(alloc, &ordered, boxes, store, devices)
        }
        Request::Help => Begun::Ended(told(devices.output, devices.notes, help_text())),
        Request::Version => Begun::Ended(told(devices.output, devices.notes, version_text())),
        Request::Usage => {
            let _ = put_all(devices.notes, usage_text());
            Begun::Ended(Status::Usage)
        }
    }
}

// Writes a text, and no note. If a write of the text fails, the note says so.
fn told<K: Sink, E: Sink>(output: &mut K, notes: &mut E, text: &[u8]) -> Status
    ensures { ((result ≡ Status.Good) × TookText (device (K.told output.old) (K.told output.new)) text.now × Untouched (device (E.told notes.old) (E.told notes.new)))
        ⊎ ((result ≡ Status.WriteFault) × TookPart (device (K.told output.old) (K.told output.new)) text.now × TookNotes (device (E.told notes.old) (E.told notes.new)) write_note) }
{
    if put_all(output, text) {
        Status::Good
    } else {
        note_write_fault(notes)
    }
}

// A command: what is to be done, and the names of the files.
#[derive(Clone, Copy)]
struct Ordered<'a> {
    instruction: Instruction,
    files: &'a [MgText],
}

// Loads all files of a command, and does what it has to do with them, up to the use of a graph. `boxes` are the user-supplied calculators.
fn begin_command<C: NodeCalculator, S: Source, K: Sink, E: Sink, T: Store>(
    alloc: Global,
    ordered: &Ordered<'_>,
    boxes: &Vec<C>,
    store: &mut T,
    devices: &mut Devices<'_, '_, '_, S, K, E>,
) -> Begun
    ensures begun { IsBegun C.laws (outers_told (map C.told boxes.now.items)) (λ status all. Called C.laws (invocation (command ordered.now.instruction ordered.now.files.now) (outers_told (map C.told boxes.now.items))) all status) result
        (device (T.told store.old) (T.told store.new)) (told_by S.told K.told E.told devices.old devices.new) (map C.told boxes.now.items) }
    ensures same { SameDevices devices.old devices.new }
{
    match due_action(alloc, ordered, boxes.as_slice(), store) {
        Ok(action) => begin_action(action, devices),
        Err(fault) => Begun::Ended(failed(fault, devices.notes)),
    }
}

// Writes the note of a file that couldn't be loaded, or that memory ran out.
fn failed<E: Sink>(fault: Fault, notes: &mut E) -> Status
    ensures ended { FailedWith fault result (device (E.told notes.old) (E.told notes.new)) }
{
    match fault {
        Fault::Noted(note) => {
            let _ = put_all(notes, &note);
            Status::StoreFault
        }
        Fault::OutOfMemory => note_out_of_memory(notes),
    }
}

// Loads the files of a command, and returns what there is to do with them. `boxes` are the user-supplied calculators.
fn due_action<C: NodeCalculator, T: Store>(
    alloc: Global,
    ordered: &Ordered<'_>,
    boxes: &[C],
    store: &mut T,
) -> Result<Action, Fault>
    ensures due { IfOk result (λ action. IsDue (invocation (command ordered.now.instruction ordered.now.files.now) (outers_told (map C.told boxes.now))) (device (T.told store.old) (T.told store.new)) (action_view action)) }
    ensures can { IfOk result (λ action. CanBeDone (outers_told (map C.told boxes.now)) (action_view action)) }
    ensures lawful { IfOk result (λ action. All MayBeHandedIn (outers_told (map C.told boxes.now))) }
    ensures failed { IfErr result (λ fault. HasFailed fault ordered.now.files.now (device (T.told store.old) (T.told store.new))) }
{
    let outers = outers_of(alloc, boxes)?;
    let contents = load_all(alloc, store, ordered.files)?;
    let action = action_of(alloc, ordered.instruction, &outers, ordered.files, contents)?;
    Ok(action)
}

// Does an action, up to the use of a graph.
fn begin_action<S: Source, K: Sink, E: Sink>(
    action: Action,
    devices: &mut Devices<'_, '_, '_, S, K, E>,
) -> Begun
    ensures begun { (laws : Laws) (invocation : Invocation) (store : Device StoreTold) (boxes : List BoxTold) → IsDue invocation store (action_view action) → CanBeDone invocation.outers (action_view action) → All MayBeHandedIn invocation.outers
        → IsBegun laws invocation.outers (λ status all. Called laws invocation all status) result store (told_by S.told K.told E.told devices.old devices.new) boxes }
    ensures same { SameDevices devices.old devices.new }
{
    match action {
        Action::Refuse(note) => Begun::Ended(refused(devices.notes, &note)),
        Action::Show(text) => Begun::Ended(told(devices.output, devices.notes, &text)),
        Action::Graph(used, report, plan) => Begun::Left(used, report, plan),
    }
}

// Writes the note of a refusal.
fn refused<E: Sink>(notes: &mut E, note: &[u8]) -> Status
    ensures status { result ≡ Status.GraphRefused }
    ensures noted { TookNotes (device (E.told notes.old) (E.told notes.new)) note.now }
{
    let _ = put_all(notes, note);
    Status::GraphRefused
}
