//! Tests of ports: their spellings, the ports of lists of texts, and the texts of ports.

use mg_names::{Port, PortMap, print_port, read_port};
use mg_tables::{Calls, assert_rows};
use mg_value::MgText;
use std::alloc::{AllocError, Global};
use std::test::Fail;

// Rows of a text, and after `=` its tag, its index or `-`, and its name, or the fault.
fn spellings() -> &'static str {
    "a=|-|a
_=|-|_
z9_=|-|z9_
__0=|-|__0
A:a=A|-|a
_:_=_|-|_
Z_9:x=Z_9|-|x
_9:x=_9|-|x
A:0:a=A|0|a
A:9:a=A|9|a
A:10:a=A|10|a
A:63:a=A|63|a
INPUT:1:x=INPUT|1|x
=BadName
A=BadName
aB=BadName
9a=BadName
a b=BadName
 a=BadName
a-b=BadName
A:=BadName
A:B=BadName
A:1:B=BadName
A:1:=BadName
A:1:a:=BadName
A:1:a:b=BadName
a:x:B:c=BadName
:::=BadName
:=BadTag
:a=BadTag
::a=BadTag
a:b=BadTag
In:x=BadTag
9:a=BadTag
A :a=BadTag
a:99:B=BadTag
a:B=BadTag
A::a=BadIndex
A:00:a=BadIndex
A:01:a=BadIndex
A:64:a=BadIndex
A:99:a=BadIndex
A:100:a=BadIndex
A:-1:a=BadIndex
A:+1:a=BadIndex
A:1 :a=BadIndex
A:x:a=BadIndex
A:6a:a=BadIndex
A:64:B=BadIndex
A::=BadIndex"
}

// The texts of a row have blanks between them, and after `=` stand the ports, or the fault.
fn lists() -> &'static str {
    "a T:b c=|0|a T|0|b |1|c 
T:1:a T:0:b=T|1|a T|0|b 
T:a T:1:b T:2:c=T|0|a T|1|b T|2|c 
A:x B:x x=A|0|x B|0|x |0|x 
U:2:c a U:0:a V:b U:1:b=U|2|c |0|a U|0|a V|0|b U|1|b 
T:0:a T:2:b=Gap
T:1:a=Gap
T:1:a T:2:b=Gap
T:63:a=Gap
A:0:a B:1:b=Gap
T:a T:b=Twice
T:a T:0:b=Twice
T:5:a T:5:b=Twice
U:7:x T:a T:b=Twice
T:a T:b c:d=BadTag
T:1:a T:64:b=BadIndex
T:1:a T:1:a T:1:a:a=BadName
A:64:a a:b=BadIndex
a:b A:64:a=BadTag"
}

// Rows of a tag and an index, and after `=` the text of the port of that tag and index with the name `b`.
fn ports() -> &'static str {
    " 7=b
T 0=T:b
T 1=T:1:b
T 63=T:63:b
T 255=T:255:b"
}

fn show_spelling(alloc: Global, text: &str) -> Result<String, AllocError> {
    match read_port(alloc, text.as_bytes()) {
        Err(fault) => format!(in alloc; "{fault:?}"),
        Ok(port) => match port.index {
            None => format!(in alloc; "{}|-|{}", port.tag.as_str(), port.name.as_str()),
            Some(index) => format!(in alloc;
                "{}|{index}|{}",
                port.tag.as_str(),
                port.name.as_str()
            ),
        },
    }
}

#[derive(Drop)]
struct OneText;

impl Calls for OneText {
    fn answer(&mut self, alloc: Global, call: &str) -> Result<String, Fail> {
        Ok(show_spelling(alloc, call)?)
    }
}

fn show_port(shown: &mut String, port: &Port) -> Result<(), AllocError> {
    shown.push_str(port.tag.as_str())?;
    write!(shown, "|{}|", port.index)?;
    shown.push_str(port.name.as_str())?;
    shown.push_str(" ")
}

fn show_ports(alloc: Global, map: &PortMap) -> Result<String, AllocError> {
    let mut shown = String::new(alloc);
    for i in 0..map.len() {
        if let Some(port) = map.get(i) {
            show_port(&mut shown, port)?;
        }
    }
    Ok(shown)
}

fn show_list(alloc: Global, texts: &[MgText]) -> Result<String, AllocError> {
    match PortMap::read(alloc, texts) {
        Ok(map) => show_ports(alloc, &map),
        Err(fault) => format!(in alloc; "{fault:?}"),
    }
}

fn texts_of(alloc: Global, spelled: &str) -> Result<Vec<MgText>, AllocError> {
    let mut texts = Vec::new(alloc);
    for text in spelled.split(' ') {
        texts.push(MgText::new(alloc, text)?)?;
    }
    Ok(texts)
}

#[derive(Drop)]
struct ManyTexts;

impl Calls for ManyTexts {
    fn answer(&mut self, alloc: Global, call: &str) -> Result<String, Fail> {
        Ok(show_list(alloc, texts_of(alloc, call)?.as_slice())?)
    }
}

// Returns `count` copies of `a`, and then another text, with blanks between.
fn untagged_and(alloc: Global, count: u32, last: &str) -> Result<String, AllocError> {
    let mut spelled = String::new(alloc);
    for _ in 0..count {
        spelled.push_str("a ")?;
    }
    spelled.push_str(last)?;
    Ok(spelled)
}

fn show_text(alloc: Global, tag: &str, index: u8) -> Result<MgText, AllocError> {
    let port = Port {
        tag: MgText::new(alloc, tag)?,
        index,
        name: MgText::new(alloc, "b")?,
    };
    print_port(alloc, &port)
}

#[derive(Drop)]
struct Printing;

impl Calls for Printing {
    fn answer(&mut self, alloc: Global, call: &str) -> Result<String, Fail> {
        let (tag, index) = call.split_once(' ').ok_or("no index")?;
        let text = show_text(alloc, tag, index.parse::<u8>()?)?;
        Ok(String::from_str(alloc, text.as_str())?)
    }
}

#[test]
fn texts_are_read_and_printed(rt: HostRuntime) -> Result<(), Fail> {
    let alloc = rt.alloc();
    assert_rows(alloc, &mut OneText, spellings())?;
    assert_rows(alloc, &mut ManyTexts, lists())?;
    assert_rows(alloc, &mut Printing, ports())?;
    // The 65th untagged port has no index, whatever its name.
    let longer = untagged_and(alloc, 64, "a=BadIndex")?;
    assert_rows(alloc, &mut ManyTexts, longer.as_str())?;
    let longer = untagged_and(alloc, 64, "A=BadIndex")?;
    assert_rows(alloc, &mut ManyTexts, longer.as_str())
}
