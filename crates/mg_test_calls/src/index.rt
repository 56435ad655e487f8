//! Tests of tables of names: the names by number with the place at which each stands first, and the first name that stands
//! again.

use mg_index::NameTable;
use mg_tables::{Calls, assert_rows};
use std::alloc::{AllocError, Global};
use std::borrow::CowStr;
use std::test::Fail;

// The texts of a row have blanks between them. After `=` stand the names in the order of their numbers, each with its place.
// After a bar stands the place of the first name that stands again, or `-`.
fn tables() -> &'static str {
    "c a b=c 0 a 1 b 2 |-
a b a c b=a 0 b 1 c 3 |0
a b b a=a 0 b 1 |0
a b c c b=a 0 b 1 c 2 |1
aa a aaa a=aa 0 a 1 aaa 2 |1"
}

// Returns a name that is lent to its table, or that the table owns.
fn kept<'a>(alloc: Global, name: &'a str, lent: bool) -> Result<CowStr<'a>, AllocError> {
    if lent {
        return Ok(CowStr::Borrowed(name));
    }
    Ok(CowStr::Owned(String::from_str(alloc, name)?))
}

// Makes the table of the texts of a row. Each name at an even place is lent to the table, and the table owns the other
// names.
fn table_of<'a>(alloc: Global, texts: &'a str) -> Result<NameTable<'a>, AllocError> {
    let mut table = NameTable::new(alloc);
    for (place, text) in texts.split(' ').enumerate() {
        table.insert(kept(alloc, text, place % 2 == 0)?, place)?;
    }
    Ok(table)
}

fn show_place(shown: &mut String, place: Option<usize>) -> Result<(), AllocError> {
    match place {
        Some(place) => write!(shown, "{place}"),
        None => shown.push_str("-"),
    }
}

fn show_names(alloc: Global, table: &NameTable) -> Result<String, AllocError> {
    let mut shown = String::new(alloc);
    for number in 0..table.len() {
        if let Some(name) = table.name(number) {
            write!(shown, "{name} ")?;
            show_place(&mut shown, table.get(name))?;
            shown.push_str(" ")?;
        }
    }
    Ok(shown)
}

#[derive(Drop)]
struct Names;

impl Calls for Names {
    fn answer(&mut self, alloc: Global, call: &str) -> Result<String, Fail> {
        let table = table_of(alloc, call)?;
        let mut shown = show_names(alloc, &table)?;
        shown.push_str("|")?;
        show_place(&mut shown, table.again())?;
        Ok(shown)
    }
}

#[test]
fn names_stand_in_their_order(rt: HostRuntime) -> Result<(), Fail> {
    assert_rows(rt.alloc(), &mut Names, tables())
}
