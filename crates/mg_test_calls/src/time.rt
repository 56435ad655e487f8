//! Tests of timestamps: their numbers and texts, what may follow a packet at each, and shifts.

use mg_tables::{Calls, assert_rows, text_of, time_of};
use mg_time::Timestamp;
use std::alloc::Global;
use std::test::Fail;

// Rows of the special values, as the framework's page on timestamps has them. Each row has the value's number, and the number of
// the time that may follow a packet there. Then it has whether the value is in the range, and whether a packet may stand there.
fn special_values() -> &'static str {
    "Unset=-9223372036854775808 -9223372036854775807 false false
Unstarted=-9223372036854775807 -9223372036854775806 false false
PreStream=-9223372036854775806 9223372036854775806 false true
-9223372036854775805=-9223372036854775805 -9223372036854775804 true true
9223372036854775804=9223372036854775804 9223372036854775806 true true
PostStream=9223372036854775805 9223372036854775806 false true
OneOverPostStream=9223372036854775806 9223372036854775806 false false
Done=9223372036854775807 9223372036854775806 false false"
}

// Rows of a timestamp and an offset, and after `=` the timestamp that the shift gives.
fn shifts() -> &'static str {
    "10 -5=5
-3 3=0
-9223372036854775805 -1=-9223372036854775805
-9223372036854775803 -5=-9223372036854775805
9223372036854775802 5=9223372036854775804
0 -9223372036854775808=-9223372036854775805
0 9223372036854775807=9223372036854775804
PreStream 7=PreStream
PostStream -7=PostStream
Done -7=Done"
}

// Rows of a text, and after `=` the number of the timestamp that it is read as, if it is read as a timestamp.
fn texts() -> &'static str {
    "PreStream=-9223372036854775806
PostStream=9223372036854775805
0=0
7=7
-7=-7
10=10
-10=-10
33333=33333
1000000000000000000=1000000000000000000
-1000000000000000000=-1000000000000000000
9223372036854775803=9223372036854775803
9223372036854775804=9223372036854775804
-9223372036854775804=-9223372036854775804
-9223372036854775805=-9223372036854775805
9223372036854775805=
9223372036854775807=
9223372036854775808=
-9223372036854775806=
-9223372036854775808=
-9223372036854775809=
9999999999999999999=
-9999999999999999999=
10000000000000000000=
18446744073709551616=
99999999999999999999=
-99999999999999999999=
=
-=
+=
-0=
+0=
+1=
00=
01=
-01=
007=
 1=
1 =
- 1=
--1=
1.0=
1e3=
0x1=
1_000=
١=
Unset=
Unstarted=
Min=
Max=
OneOverPostStream=
Done=
prestream=
PreStream =
 PostStream=
PostStream1=
Timestamp::PreStream()="
}

#[derive(Drop)]
struct SpecialValue;

impl Calls for SpecialValue {
    fn answer(&mut self, alloc: Global, call: &str) -> Result<String, Fail> {
        let time = time_of(alloc, call)?;
        let (number, next) = (time.raw(), time.next_allowed().raw());
        let (is_range, is_allowed) = (time.is_range(), time.is_allowed());
        Ok(format!(in alloc; "{number} {next} {is_range} {is_allowed}")?)
    }
}

#[derive(Drop)]
struct Shift;

impl Calls for Shift {
    fn answer(&mut self, alloc: Global, call: &str) -> Result<String, Fail> {
        let (time, offset) = call.split_once(' ').ok_or("no offset")?;
        text_of(alloc, time_of(alloc, time)?.shift(offset.parse::<i64>()?))
    }
}

#[derive(Drop)]
struct Reading;

impl Calls for Reading {
    fn answer(&mut self, alloc: Global, call: &str) -> Result<String, Fail> {
        match Timestamp::read_text(call.as_bytes()) {
            None => Ok(String::new(alloc)),
            Some(time) if text_of(alloc, time)?.as_str() != call => Err(Fail::from("another text")),
            Some(time) => Ok(format!(in alloc; "{}", time.raw())?),
        }
    }
}

#[test]
fn timestamps_answer(rt: HostRuntime) -> Result<(), Fail> {
    let alloc = rt.alloc();
    assert_rows(alloc, &mut SpecialValue, special_values())?;
    assert_rows(alloc, &mut Shift, shifts())?;
    assert_rows(alloc, &mut Reading, texts())
}
