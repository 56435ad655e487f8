//! Writes the line of each event of a run, in blocks, as the event is heard.
ghost use Rattle.std.specs.Prelude.{◌≡◌};
ghost use Rattle.mg_drive.specs.Recorded.{HasEvents};

use mg_answer::{BlockText, Puts};
use mg_calc::Event;
use mg_edge::Sink;
use mg_sched::Hears;
use mg_trace::push_event;
use std::alloc::AllocError;

// The line of an event.
#[derive(Drop)]
struct EventLine {
    event: Event,
}

impl Puts for EventLine {
    ghost use Rattle.mg_trace.specs.Event.{event_text};

    ghost says = { λ line. event_text line.event };

    fn put_at(&self, text: &mut Vec<u8>) -> Result<(), AllocError> {
        push_event(text, &self.event)?;
        Ok(())
    }
}

/// A text, and the sink to which the text is written; both are borrowed. The line of each event is added to the text as the event is heard.
/// Once memory has run out, no more lines are added.
#[derive(Drop)]
pub struct EventText<'b, 'o, K: Sink> {
    pub blocks: &'b mut BlockText,
    pub output: &'o mut K,
    pub out_of_memory: bool,
}

impl<'b, 'o, K: Sink> Hears for EventText<'b, 'o, K> {
    ghost has_heard = { λ began now events. (now.blocks.ghost_name ≡ began.blocks.ghost_name) × (now.output.ghost_name ≡ began.output.ghost_name)
        × HasEvents (K.told began.output.now) began.blocks.now now.out_of_memory (K.told now.output.now) now.blocks.now events };

    fn hear(&mut self, event: Event) {
        if self.out_of_memory {
            return;
        }
        let line = EventLine { event };
        self.out_of_memory = self.blocks.put(&line, self.output).is_err();
    }
}
