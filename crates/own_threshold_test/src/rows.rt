//! Rows of numbers, and what comes of them, worked by hand.
ghost use Rattle.std.specs.Prelude.{◌≡◌, length, IfOk};

use mg_calc::{CalcFault, Calculator, Cause, Emission, GivenList};
use mg_settled::InputSet;
use mg_time::Timestamp;
use mg_value::{MgText, Packet, Payload};
use own_threshold::{Threshold, parameters};
use std::alloc::Global;
use std::sync::Arc;
use std::test::Fail;

// Reads a word of a row: a number, `-` where there is no packet, and a text otherwise.
fn payload_of(alloc: Global, word: &str) -> Result<Option<Payload>, Fail> {
    if word == "-" {
        return Ok(None);
    }
    match word.parse::<i64>() {
        Ok(number) => Ok(Some(Payload::Int(number))),
        Err(_) => Ok(Some(Payload::Text(MgText::new(alloc, word)?))),
    }
}

// Makes the set at a time, with a payload or none.
fn set_of(alloc: Global, at: Timestamp, payload: Option<Payload>) -> Result<InputSet, Fail>
    ensures { IfOk result (λ set. length set ≡ 1) }
{
    let mut set = InputSet::new(alloc, 1)?;
    if let Some(payload) = payload {
        let payload = Arc::new(alloc, payload)?;
        set.put(0, Some(Packet { at, payload }));
    }
    Ok(set)
}

// Writes an emission at a time: `t` or `f` for one flag, and `-` for nothing.
fn shown(emission: &Emission, at: Timestamp) -> char {
    let Some(laid) = emission.get(0) else {
        return '-';
    };
    match laid.packets.as_slice() {
        [packet] if packet.at == at => match *packet.payload {
            Payload::Flag(true) => 't',
            Payload::Flag(false) => 'f',
            _ => '?',
        },
        _ => '?',
    }
}

// Shows a threshold the set of a word of a row. Writes its emission, or `!` if the payload is of the wrong kind.
fn step(alloc: Global, threshold: &mut Threshold, at: Timestamp, word: &str) -> Result<char, Fail> {
    let set = set_of(alloc, at, payload_of(alloc, word)?)?;
    Ok(match threshold.process(alloc, at, &set) {
        Ok(emission) => shown(&emission, at),
        Err(CalcFault::Fault(Cause::WrongKind)) => '!',
        Err(_) => '?',
    })
}

// Opens a threshold, shows it the words of a row, and writes what comes of each.
fn flags(alloc: Global, n: u32, limit: i64, row: &str) -> Result<String, Fail> {
    let mut threshold = Threshold::new(alloc, n, limit)?;
    let sides = GivenList::from_vec(Vec::new(alloc))?;
    if threshold.begin(alloc, &sides).is_err() {
        return Err(Fail::from("not opened"));
    }
    let mut flags = String::new(alloc);
    let mut at = Timestamp::MIN;
    for word in row.split(' ') {
        flags.push(step(alloc, &mut threshold, at, word)?)?;
        at = at.next_allowed();
    }
    Ok(flags)
}

#[test]
fn flags_of_numbers(rt: HostRuntime) -> Result<(), Fail> {
    for (n, limit, row, want) in [
        (3, 10, "11 12 13 10 14 15 16 17", "tttffftt"),
        (2, 0, "- 1 - 0 - 1 2", "-t-f-ft"),
        (1, -1, "0 -1 -2 5", "tfft"),
        (0, 5, "1 9", "tt"),
        (
            1,
            i64::MIN,
            "-9223372036854775808 -9223372036854775807",
            "ft",
        ),
    ] {
        let got = flags(rt.alloc(), n, limit, row)?;
        assert_eq!(rt; got.as_str(), want, "of {row}");
    }
    Ok(())
}

// The engine shows a calculator that failed no further set; by itself a threshold keeps its row.
#[test]
fn a_text_is_of_the_wrong_kind(rt: HostRuntime) -> Result<(), Fail> {
    let got = flags(rt.alloc(), 2, 0, "1 hot 1 0 hot 1 1")?;
    assert_eq!(rt; got.as_str(), "t!tf!ft");
    Ok(())
}

#[test]
fn parameters_are_places(rt: HostRuntime) -> Result<(), Fail> {
    let parameters = parameters(rt.alloc(), 3, -10)?;
    for (place, want) in [(0, 3), (1, -10)] {
        let got = match parameters.place(place) {
            Some(payload) => match **payload {
                Payload::Int(number) => number,
                _ => 0,
            },
            None => 0,
        };
        assert_eq!(rt; got, want, "at {place}");
    }
    Ok(())
}
