//! Puts the lines of a summary at a text's end.
ghost use Rattle.std.specs.Prelude.{◌≡◌, ◌++◌, length, OnOk};
ghost use Rattle.std.specs.Fmt.{signed_decimal};
ghost use Rattle.mg_answer.specs.Summary.{time_or_dash, total_line};
ghost use Rattle.mg_answer.specs.Code.Adding.{total_lines};

use crate::pieces::{put, put_number, put_time};
use crate::shown::put_shown;
use crate::total::Total;
use itoa::Buffer;
use mg_time::Timestamp;
use mg_value::MgText;
use std::alloc::AllocError;

/// Puts the line of each output at a text's end, in order.
pub fn put_totals(text: &mut Vec<u8>, names: &[MgText], totals: &[Total]) -> Result<(), AllocError>
    requires { length totals.now ≡ length names.now }
    ensures { OnOk result (text.new.items ≡ text.old.items ++ total_lines names.now totals.now) }
{
    for (place, name) in names.iter().enumerate() {
        put_total(text, name, &totals[place])?;
    }
    Ok(())
}

// Puts the line of an output: its name and its totals.
fn put_total(text: &mut Vec<u8>, name: &MgText, total: &Total) -> Result<(), AllocError>
    ensures { OnOk result (text.new.items ≡ text.old.items ++ total_line name.now total.now) }
{
    put_shown(text, name.as_bytes())?;
    put(text, b" packets=")?;
    put_number(text, total.packets)?;
    put(text, b" first=")?;
    put_time_or_dash(text, total.first)?;
    put(text, b" last=")?;
    put_time_or_dash(text, total.last)?;
    put(text, b" sum=")?;
    put_sum(text, total.sum)?;
    put(text, b"\n")
}

// Puts a timestamp, or a dash if there is none.
fn put_time_or_dash(text: &mut Vec<u8>, time: Option<Timestamp>) -> Result<(), AllocError>
    ensures { OnOk result (text.new.items ≡ text.old.items ++ time_or_dash time) }
{
    match time {
        Some(time) => put_time(text, time),
        None => put(text, b"-"),
    }
}

// Puts a number's digits, after a minus sign if the number is negative.
fn put_sum(text: &mut Vec<u8>, sum: i128) -> Result<(), AllocError>
    ensures { OnOk result (text.new.items ≡ text.old.items ++ signed_decimal sum) }
{
    let mut digits = Buffer::new();
    put(text, digits.format(sum).as_bytes())
}
