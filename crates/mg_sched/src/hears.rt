ghost use Rattle.std.specs.Prelude.{List, ◌∷◌, [], ◌++◌, ⊤};
ghost use Rattle.mg_calc.specs.declared.event.Event.{Event as AnEvent};

use mg_calc::Event;

/// A hearer of a net's events. The net tells it each event that does something, once the event has done it.
pub trait Hears {
    /// The hearer has come from the first value to the second by hearing these events.
    ghost has_heard: { Self → Self → List AnEvent → Type 0 };

    /// Hears one more event. No error comes back. A hearer that can't take the event in, for example because it is out of memory, may say
    /// so once all is heard.
    fn hear(&mut self, event: Event)
        ensures { (began : Self) (events : List AnEvent) → has_heard began self.old events → has_heard began self.new (events ++ event ∷ []) };
}

/// A hearer that ignores all events.
#[derive(Drop)]
pub struct Deaf;

impl Hears for Deaf {
    ghost has_heard = { λ began now events. ⊤ };

    fn hear(&mut self, event: Event) {
        let _ = event;
    }
}
