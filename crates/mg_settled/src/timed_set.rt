use crate::InputSet;
use mg_time::Timestamp;
use mg_value::BlockList;
use std::marker::Model;

/// An input set at its time.
#[derive(Debug, Drop)]
pub struct TimedSet {
    pub at: Timestamp,
    pub set: InputSet,
}

impl Model for TimedSet {
    ghost use Rattle.mg_value.specs.Payload.{Plain};
    ghost use Rattle.mg_settled.specs.Settled.{TimedSet as SetAtTime};
    ghost use Rattle.mg_settled.specs.Codes.{timed_set_code};

    ghost Value = { SetAtTime Plain };

    ghost coded = { timed_set_code };

    ghost view = { λ e. record { at = e.at; set = e.set } };
}

/// A list of input sets in the order of their times.
pub type TimedSetList = BlockList<TimedSet>;
