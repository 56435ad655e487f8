ghost use Rattle.std.specs.Prelude.{◌≡◌};
ghost use Rattle.mg_calc.specs.Shape as shape;

use crate::computations::keeps_nothing;
use crate::{Computation, Emission, EmissionList, State, TryClone};
use mg_time::Timestamp;
use mg_value::Kind;
use std::alloc::{AllocError, Global};

/// Which numbers `Law::Filter` keeps.
#[derive(Clone, Copy, Debug, PartialEq, Eq)]
pub enum Keep {
    /// Even numbers.
    Even,
    /// Odd numbers.
    Odd,
    /// Numbers below 0.
    Negative,
    /// Numbers from 0 on.
    NonNegative,
}

/// What a calculator computes: from its state and what it is shown at a time, the new state and what it emits, or a cause.
#[derive(Debug, Drop)]
pub enum Law {
    /// Each packet goes on at its own port.
    Pass,
    /// The packets of a set go on if the flag at the last port allows it.
    Gate {
        /// How many data ports there are, from 1 to 64; the control port follows them.
        lanes: u32,
        /// Whether true at the control port closes the gate, and false opens it.
        disallow: bool,
        /// Whether the gate is open if the control port has no packet.
        empty_as_allow: bool,
    },
    /// The packet of one data port goes on: of the port whose number stands at the last port.
    Mux {
        /// How many data ports there are, from 1 to 64; the port that selects follows them.
        lanes: u32,
    },
    /// At each packet of the last port the newest payloads of the others are emitted again.
    Cloner {
        /// How many data ports there are, from 1 to 64; the port that asks for copies follows them.
        lanes: u32,
    },
    /// The packet at the lowest port that has one goes on.
    Merge {
        /// How many inputs there are, from 1 to 64.
        lanes: u32,
    },
    /// A packet goes on if it comes at least a period after the last one that did.
    Thin {
        /// The least time from a packet that goes on to the next, in units of timestamps, 1 or more.
        period: i64,
    },
    /// Emits what a built-in computation makes of a set.
    Compute(Computation),
    /// The numbers that `keep` names go on. If `raise` is set, the output is raised past each number, whether it goes on or not.
    Filter {
        keep: Keep,
        raise: bool,
    },
    /// Packets go on at a timestamp moved by the offset.
    Shift {
        offset: i64,
    },
    /// A source of the numbers from 0 on, `count` of them: the first at `start`, and each further one `step` after the one before.
    Count {
        /// How many numbers are emitted, at most 1000000.
        count: u32,
        /// The number of the first packet's timestamp, which is in the range.
        start: i64,
        /// The time from a number to the next, in units of timestamps, 1 or more.
        step: i64,
    },
    /// A source of one packet at `at`, which is PreStream, 0 or PostStream. Its payload is a side packet.
    SideOnce {
        at: Timestamp,
    },
    /// Gives side packets that stand in the graph. It has no streams.
    Constants,
    /// Each packet of MAIN is answered with what LOOP had at the packet of MAIN before it.
    Loopback,
    /// Emits at each set how many sets there were so far, with this one.
    Tally,
    /// Emits what is written down: `first` in Open, one of `steps` at each of the first sets, and `last` in Close.
    Scripted {
        /// The offset that the law promises, in units of timestamps, if it promises one.
        offset: Option<i64>,
        first: Emission,
        steps: EmissionList,
        last: Emission,
    },
    /// The items of a list go on one by one, at inner times of their own. A copy of the packet of each CLONE goes on with each item.
    BeginLoop {
        /// How many ports CLONE there are, at most 64; ITERABLE follows them.
        clones: u32,
        /// Whether the end of a batch is also told at a set without a list, as at an empty list.
        always_end: bool,
    },
    /// Items are gathered into a list. When BATCH_END has a packet, the list goes on at the time that the packet tells.
    EndLoop {
        /// Whether the output is raised past that time, in place of an empty list.
        empty_as_bound: bool,
    },
    /// Packets go on as they arrive, and are dropped if the output's order doesn't allow them. A free node's law: no set is shown to
    /// it.
    FirstCome {
        /// How many inputs there are, from 1 to 64.
        lanes: u32,
    },
    /// At most `most` packets are on their way at once, and others are dropped. A free node's law: no set is shown to it.
    Limiter {
        /// How many packets may be on their way, from 1 to 2147483647.
        most: u32,
    },
    /// What an author states of a user-supplied calculator of the author's own.
    Stated {
        /// The number of the calculator among those of its program.
        number: u32,
        /// What tells several of this calculator apart, as limits and lengths do.
        parameters: State,
        /// The offset that the law promises, in units of timestamps, if it promises one.
        offset: Option<i64>,
    },
}

impl TryClone for Law {
    fn try_clone(&self, alloc: Global) -> Result<Law, AllocError> {
        match self {
            Law::Pass => Ok(Law::Pass),
            Law::Gate {
                lanes,
                disallow,
                empty_as_allow,
            } => Ok(Law::Gate {
                lanes: *lanes,
                disallow: *disallow,
                empty_as_allow: *empty_as_allow,
            }),
            Law::Mux { lanes } => Ok(Law::Mux { lanes: *lanes }),
            Law::Cloner { lanes } => Ok(Law::Cloner { lanes: *lanes }),
            Law::Merge { lanes } => Ok(Law::Merge { lanes: *lanes }),
            Law::Thin { period } => Ok(Law::Thin { period: *period }),
            Law::Compute(computation) => Ok(Law::Compute(*computation)),
            Law::Filter { keep, raise } => Ok(Law::Filter {
                keep: *keep,
                raise: *raise,
            }),
            Law::Shift { offset } => Ok(Law::Shift { offset: *offset }),
            Law::Count { count, start, step } => Ok(Law::Count {
                count: *count,
                start: *start,
                step: *step,
            }),
            Law::SideOnce { at } => Ok(Law::SideOnce { at: *at }),
            Law::Constants => Ok(Law::Constants),
            Law::Loopback => Ok(Law::Loopback),
            Law::Tally => Ok(Law::Tally),
            Law::Scripted {
                offset,
                first,
                steps,
                last,
            } => {
                let first = first.try_clone(alloc)?;
                let steps = steps.try_clone(alloc)?;
                let last = last.try_clone(alloc)?;
                Ok(Law::Scripted {
                    offset: *offset,
                    first,
                    steps,
                    last,
                })
            }
            Law::BeginLoop { clones, always_end } => Ok(Law::BeginLoop {
                clones: *clones,
                always_end: *always_end,
            }),
            Law::EndLoop { empty_as_bound } => Ok(Law::EndLoop {
                empty_as_bound: *empty_as_bound,
            }),
            Law::FirstCome { lanes } => Ok(Law::FirstCome { lanes: *lanes }),
            Law::Limiter { most } => Ok(Law::Limiter { most: *most }),
            Law::Stated {
                number,
                parameters,
                offset,
            } => {
                let parameters = parameters.try_clone(alloc)?;
                Ok(Law::Stated {
                    number: *number,
                    parameters,
                    offset: *offset,
                })
            }
        }
    }
}

/// Returns the kind of packets that a law takes at the input of a number, from 0 on.
pub fn input_kind(law: &Law, port: u32) -> Kind
    ensures { result ≡ shape.input_kind law.now port }
{
    match law {
        Law::Gate { lanes, .. } => {
            if port == *lanes {
                Kind::Flag
            } else {
                Kind::Any
            }
        }
        Law::Mux { lanes } => { if port == *lanes { Kind::Int } else { Kind::Any } }
        Law::BeginLoop { clones, .. } => {
            if port == *clones {
                Kind::Items
            } else {
                Kind::Any
            }
        }
        Law::EndLoop { .. } => { if port == 0 { Kind::Int } else { Kind::Any } }
        Law::Compute(computation) => computation.takes,
        Law::Filter { .. } => Kind::Int,
        _ => Kind::Any,
    }
}

/// Whether a law keeps no state, so that several of its sets may be worked on at once.
pub fn is_stateless(law: &Law) -> bool
    ensures { result ≡ shape.is_stateless law.now }
{
    match law {
        Law::Pass
        | Law::Gate { .. }
        | Law::Mux { .. }
        | Law::Merge { .. }
        | Law::Filter { .. }
        | Law::Shift { .. } => true,
        Law::Compute(computation) => keeps_nothing(computation.formula),
        _ => false,
    }
}

/// Returns the offset that a law promises, in units of timestamps, if it promises one.
pub fn offset_of(law: &Law) -> Option<i64>
    ensures { result ≡ shape.offset_of law.now }
{
    match law {
        Law::Shift { offset } => Some(*offset),
        Law::Scripted { offset, .. } | Law::Stated { offset, .. } => *offset,
        Law::Thin { .. }
        | Law::Filter { .. }
        | Law::Count { .. }
        | Law::SideOnce { .. }
        | Law::Constants
        | Law::Loopback
        | Law::BeginLoop { .. }
        | Law::EndLoop { .. }
        | Law::FirstCome { .. }
        | Law::Limiter { .. } => None,
        _ => Some(0),
    }
}
