ghost use Rattle.std.specs.Prelude.{◌≡◌, ◌∷◌, [], Some, IfOk};
ghost use Rattle.std.specs.Option.{option_to_list};
ghost use Rattle.mg_value.specs.Payload.{int};
ghost use Rattle.mg_calc.specs.Answer.{emission_of};

use crate::ShortList;
use mg_time::Timestamp;
use mg_value::{BlockList, Packet, Payload};
use std::alloc::{AllocError, Global};
use std::sync::Arc;

/// What a call emits at one output: packets in order, and perhaps a bound to which the output is raised after them.
#[derive(Debug, Drop)]
pub struct Laid {
    /// The packets, in order.
    pub packets: LaidPackets,
    /// The bound to which the output is raised after the packets, if there is one.
    pub bound: Option<Timestamp>,
}

/// Packets that a call emits at one output, in order.
pub type LaidPackets = ShortList<Packet>;

/// What a call emits: an entry for each output, or the empty list if nothing is emitted at any.
pub type Emission = ShortList<Laid>;

/// Emissions in order.
pub type EmissionList = BlockList<Emission>;

impl Laid {
    /// Returns an entry of at most one packet, and then a bound, if there is one. It allocates nothing.
    pub fn new(
        alloc: Global,
        packet: Option<Packet>,
        bound: Option<Timestamp>,
    ) -> Result<Laid, AllocError>
        ensures packets { IfOk result (λ laid. laid.packets ≡ option_to_list packet) }
        ensures bound { IfOk result (λ laid. laid.bound ≡ bound) }
    {
        let packets = match packet {
            Some(packet) => ShortList::one(packet),
            None => ShortList::from_vec(Vec::new(alloc))?,
        };
        Ok(Laid { packets, bound })
    }
}

/// Returns the emission that emits nothing. It allocates nothing.
pub fn no_emission(alloc: Global) -> Result<Emission, AllocError>
    ensures { IfOk result (λ emission. emission ≡ []) }
{
    Ok(ShortList::from_vec(Vec::new(alloc))?)
}

/// Returns the emission of a calculator with one output, at which `laid` is emitted.
pub fn one_output(laid: Laid) -> Emission
    ensures { result ≡ laid ∷ [] }
{
    ShortList::one(laid)
}

/// Returns the emission of one packet by a calculator with one output.
pub fn one_packet(packet: Packet) -> Emission
    ensures { result ≡ emission_of (Some packet ∷ []) }
{
    one_output(Laid {
        packets: ShortList::one(packet),
        bound: None,
    })
}

/// Returns the emission of a number at a time by a calculator with one output.
pub fn one_number(alloc: Global, at: Timestamp, number: i64) -> Result<Emission, AllocError>
    ensures { IfOk result (λ emission. emission ≡ emission_of (Some (record { at = at; value = int number }) ∷ [])) }
{
    let payload = Arc::new(alloc, Payload::Int(number))?;
    Ok(one_packet(Packet { at, payload }))
}
