ghost use Rattle.std.specs.Prelude.{◌≡◌, true, false, IfOk, IfErr};
ghost use Rattle.mg_calc.specs.Values.{number_of, place_at, total as the_total, fits, number_at};
ghost use Rattle.mg_calc.specs.declared.cause.CalcFault.TheVariants.{Fault};
ghost use Rattle.mg_calc.specs.declared.cause.Cause.TheVariants.{Overflow};

use crate::{CalcFault, Cause};
use mg_settled::InputSet;
use mg_value::{Packet, Payload};

/// Returns the number of a packet, or 0 if its payload isn't a number.
pub fn number_of_packet(packet: &Packet) -> i64
    ensures { result ≡ number_of packet.now.value }
{
    match &*packet.payload {
        Payload::Int(number) => *number,
        _ => 0,
    }
}

/// Returns the number at a port of a set, or 0 if the port has none.
fn number_at_port(set: &InputSet, port: u32) -> i64
    ensures { result ≡ number_at (place_at set.now port) }
{
    match set.get(port) {
        Some(packet) => number_of_packet(packet),
        None => 0,
    }
}

/// Returns the exact sum of the numbers of a set.
pub fn total(set: &InputSet) -> i128
    ensures { result ≡ the_total set.now }
{
    let mut sum: i128 = 0;
    for port in 0..set.len() {
        sum += i128::from(number_at_port(set, port));
    }
    sum
}

/// Returns a number as one of 64 signed bits, or `Overflow` if it doesn't fit.
pub fn narrowed(number: i128) -> Result<i64, CalcFault>
    ensures ok { IfOk result (λ n. n ≡ number) }
    ensures fits { IfOk result (λ n. fits number ≡ true) }
    ensures overflow { IfErr result (λ fault. fault ≡ Fault Overflow) }
    ensures wide { IfErr result (λ fault. fits number ≡ false) }
{
    if i128::from(i64::MIN) <= number && number <= i128::from(i64::MAX) {
        Ok(number as i64)
    } else {
        Err(CalcFault::Fault(Cause::Overflow))
    }
}
