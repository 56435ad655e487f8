//! What follows from the clause `came` of the top calls, which says what a call came to. The function does nothing, and its contract is the
//! law.
ghost use Rattle.std.specs.Prelude.{◌≡◌, ◌≢◌, ◌↔◌, ◌⊎◌, ℕ, List, ◌∷◌, [], false, true, IfSome, length};
ghost use Rattle.mg_calc.specs.Rules.{Laws};
ghost use Rattle.mg_calc.specs.declared.shape.OuterShape.{OuterShape};
ghost use Rattle.mg_words.specs.Command.{reads_input, calls_boxes};
ghost use Rattle.mg_words.specs.Words.{Request, asks_usage, asks_text, command_by};
ghost use Rattle.mg_answer.specs.Notes.{memory_note};
ghost use Rattle.mg_answer.specs.declared.status.Status.{Status};
ghost use Rattle.mg_answer.specs.declared.status.Status.TheVariants.{Good, StoreFault, Usage, GraphRefused, NodeFault, Stalled, ReadFault, WriteFault, OutOfMemory};
ghost use Rattle.mg_run.specs.Invocation.{invocation};
ghost use Rattle.mg_run.specs.Devices.{CallDevices, Untouched, InputHasEnded, HasRisen, TookNotes};
ghost use Rattle.mg_files.specs.Loads.{FailedAt};
ghost use Rattle.mg_files.specs.Notes.{store_note};
ghost use Rattle.mg_run.specs.Call.{DidNothing, WasUsage, WasTold, CallEnded, Called, IsOneOf};

/// States what a program that makes a call may rely on, by what the call came to. It says what each status means, and what was done to the
/// devices and to the user-supplied calculators.
pub fn what_a_call_came_to()
    // Whether the words are a command is judged first, and depends on no device.
    ensures usage { (laws : Laws) (outers : List OuterShape) (request : Request) (status : Status) (devices : CallDevices) → CallEnded laws outers request status devices
        → status ≢ OutOfMemory → (status ≡ Usage) ↔ (request ≡ asks_usage) }
    ensures usage_note { (laws : Laws) (outers : List OuterShape) (request : Request) (status : Status) (devices : CallDevices) → CallEnded laws outers request status devices
        → request ≡ asks_usage → WasUsage status devices }

    // The help and the version are texts that are only written.
    ensures told { (laws : Laws) (outers : List OuterShape) (request : Request) (status : Status) (devices : CallDevices) → CallEnded laws outers request status devices
        → (text : List ℕ) → request ≡ asks_text text → WasTold text status devices }

    // What a call with a command came to, by its status.
    ensures called { (laws : Laws) (outers : List OuterShape) (request : Request) (status : Status) (devices : CallDevices) → CallEnded laws outers request status devices
        → IfSome (command_by request) (λ command. Called laws (invocation command outers) devices status) }

    // If a file couldn't be loaded, the note names the first such file. Nothing was read from the input, written to the output or called.
    ensures unloaded { (laws : Laws) (outers : List OuterShape) (request : Request) (status : Status) (devices : CallDevices) → CallEnded laws outers request status devices
        → IfSome (command_by request) (λ command. status ≡ StoreFault → (file : List ℕ) × FailedAt command.files file devices.store × TookNotes devices.notes (store_note file) × DidNothing devices) }

    // If memory ran out, the notes say only that.
    ensures memory_noted { (laws : Laws) (outers : List OuterShape) (request : Request) (status : Status) (devices : CallDevices) → CallEnded laws outers request status devices
        → status ≡ OutOfMemory → TookNotes devices.notes memory_note }

    // A `check`, an `expand` and a `generate` leave the input as it was.
    ensures unread { (laws : Laws) (outers : List OuterShape) (request : Request) (status : Status) (devices : CallDevices) → CallEnded laws outers request status devices
        → IfSome (command_by request) (λ command. reads_input command.instruction.verb ≡ false → Untouched devices.input) }

    // A call that read the input and went well, or in which a node failed or a stream never closed, met the input's end.
    ensures ended { (laws : Laws) (outers : List OuterShape) (request : Request) (status : Status) (devices : CallDevices) → CallEnded laws outers request status devices
        → IfSome (command_by request) (λ command. reads_input command.instruction.verb ≡ true
        → IsOneOf status (Good ∷ NodeFault ∷ Stalled ∷ []) → InputHasEnded devices.input) }

    // No fault of a device hides behind another status.
    ensures store_rose { (laws : Laws) (outers : List OuterShape) (request : Request) (status : Status) (devices : CallDevices) → CallEnded laws outers request status devices
        → HasRisen devices.store.before.faults devices.store.now.faults → IsOneOf status (StoreFault ∷ OutOfMemory ∷ []) }
    ensures read_rose { (laws : Laws) (outers : List OuterShape) (request : Request) (status : Status) (devices : CallDevices) → CallEnded laws outers request status devices
        → HasRisen devices.input.before.faults devices.input.now.faults → IsOneOf status (ReadFault ∷ WriteFault ∷ OutOfMemory ∷ []) }
    ensures write_rose { (laws : Laws) (outers : List OuterShape) (request : Request) (status : Status) (devices : CallDevices) → CallEnded laws outers request status devices
        → HasRisen devices.output.before.faults devices.output.now.faults ⊎ HasRisen devices.notes.before.faults devices.notes.now.faults
        → IsOneOf status (Usage ∷ StoreFault ∷ GraphRefused ∷ WriteFault ∷ OutOfMemory ∷ []) }

    // As many calculators come back as the caller supplied. A command that doesn't run its graph calls none.
    ensures boxes { (laws : Laws) (outers : List OuterShape) (request : Request) (status : Status) (devices : CallDevices) → CallEnded laws outers request status devices
        → length devices.boxes.now ≡ length devices.boxes.before }
    ensures uncalled { (laws : Laws) (outers : List OuterShape) (request : Request) (status : Status) (devices : CallDevices) → CallEnded laws outers request status devices
        → IfSome (command_by request) (λ command. calls_boxes command.instruction.verb ≡ false → Untouched devices.boxes) }
{}
