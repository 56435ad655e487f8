//! The words by which notes say why a line was refused or a node failed.
ghost use Rattle.std.specs.Prelude.{◌≡◌};
ghost use Rattle.mg_answer.specs.Notes as notes;

use mg_calc::Cause;
use mg_feed::LineFault;
use mg_json::ValueFault;

/// Returns the words for why a line was refused, or no words if memory ran out.
pub fn line_refusal(fault: LineFault) -> &'static str
    ensures { result.now ≡ notes.line_fault_text fault }
{
    match fault {
        LineFault::NotJson => "NotJson",
        LineFault::BadShape => "BadShape",
        LineFault::UnknownStream => "UnknownStream",
        LineFault::BadTimestamp => "BadTimestamp",
        LineFault::NotAscending => "NotAscending",
        LineFault::Closed => "Closed",
        LineFault::KindMismatch => "KindMismatch",
        LineFault::BadValue(cause) => value_refusal(cause),
        LineFault::TooLong => "TooLong",
        LineFault::TooManyLines => "TooManyLines",
        LineFault::SideLate => "SideLate",
        LineFault::SideTwice => "SideTwice",
        LineFault::NotAlone => "NotAlone",
        LineFault::OutOfMemory => "",
    }
}

// Returns the words for why a value in a line is no payload.
fn value_refusal(fault: ValueFault) -> &'static str
    ensures { result.now ≡ notes.line_fault_text (LineFault.BadValue fault) }
{
    match fault {
        ValueFault::Fraction => "BadValue Fraction",
        ValueFault::Null => "BadValue Null",
        ValueFault::TooDeep => "BadValue TooDeep",
        ValueFault::TooWide => "BadValue TooWide",
        ValueFault::OutOfMemory => "BadValue ",
    }
}

/// Returns the word for why a node failed.
pub fn cause_name(cause: Cause) -> &'static str
    ensures { result.now ≡ notes.cause_name cause }
{
    match cause {
        Cause::Overflow => "Overflow",
        Cause::BadSelect => "BadSelect",
        Cause::WrongKind => "WrongKind",
        Cause::NoSide => "NoSide",
        Cause::NotAllowed => "NotAllowed",
        Cause::NotAscending => "NotAscending",
        Cause::NotAlone => "NotAlone",
        Cause::BelowOffset => "BelowOffset",
        Cause::EmitsInClose => "EmitsInClose",
        Cause::TooDeep => "TooDeep",
    }
}
