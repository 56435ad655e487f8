//! Tests of the text form: where a text stops being in the text form, and the text that is written of it.

use mg_tables::{Calls, assert_rows};
use mg_text::{TextFault, parse, print};
use percent_encoding::percent_decode;
use std::alloc::{AllocError, Global};
use std::test::Fail;

// Rows of a text, and after `=` the place where it stops being the start of a text in the text form, or `ok`. A byte that can't stand
// here is written `%` and its two digits.
fn files() -> &'static str {
    r#"=ok
 %09%0d%0a%0b%0c=ok
# only=ok
# a%0a=ok
a:1=ok
a:1,=ok
a:1;b:2=ok
a:1,b:2;=ok
a{}=ok
a<>=ok
a:{}=ok
a : < b : x > ;=ok
a[]=ok
a:[]=ok
a:[1,x,"s" 't']=ok
a[{},<>]=ok
a:[{b:1},{b:2}]=ok
a{b{}}=ok
[a.b.C.ext]{}=ok
[type.googleapis.com/a.B]{x:1}=ok
a:"\n\t\r\\\'\"\000\177"=ok
a:-1 b:-.5 c:1.5e-3f d:0x1F e:017 f:1F g:.5E+2=ok
a:"x"b:'y'=ok
a:1#c=ok
a:"é"=ok
#€=ok
a:"%00"=ok
a:-0x1=ok
a:00=ok
a:0f=ok
a:1e5f=ok
a:"x" # c%0a 'y'=ok
a#c%0a:1=ok
a:inf b:nan=ok
a:["x",'y' 'z']=ok"#
}

fn fields_that_do_not_go_on() -> &'static str {
    r#"a{>=2
a=1
a:=2
a 1=2
a::1=2
1=0
"x"=0
a:1 2=4
a:1,,b:2=4
a:1;,=4
,a:1=0
a{,}=2
a:{,}=3
}=0
a{}}=3
a<}=2
a:1}=3
a{b:1>=5
a{b}=3
a:b:c=3"#
}

fn numbers_that_do_not_go_on() -> &'static str {
    r#"a:1b=3
a:1x=3
a:1e=4
a:1e+=5
a:1e+x=5
a:1.=4
a:1. =4
a:1.5.2=5
a:0x=4
a:0xg=4
a:1f2=4
a:-=3
a:-x=3
a:- 1=3
a:--1=3
a:.=3
a:.x=3
a:+1=2
a:x.y=3
a:-inf=3"#
}

fn strings_that_do_not_go_on() -> &'static str {
    r#"a:"x=4
a:"x%0a"=4
a:'x"=5
a:"\q"=4
a:"\200"=4
a:"\18"=5
a:"\400"=4
a:"\1"=5
a:"\x41"=4
a:"\=4
a:"x""y=7
a:x"y"=3
node { calculator: "Pass=24"#
}

fn bytes_that_are_no_text() -> &'static str {
    r#"a:"%ff"=3
a:"%c3"=4
a:"%c0%80"=3
a:"%ed%a0%80"=4
a:"%f4%90%80%80"=4
a:"%e0%80%80"=4
a:"%e2%82=5
é=0
a%c3=1
a:%c3=2
#%ff=1
# %80=2
%00=0
a:1%00=3"#
}

fn lists_and_names_that_do_not_go_on() -> &'static str {
    r#"a[1]=2
a:[1,]=5
a[{},]=5
a:[1,{}]=5
a:[{},1]=6
a:[,]=3
a:[1 2]=5
a:[1;2]=4
a:[[1]]=3
a:[=3
a:[1=4
a:[1}=4
[a/b/c]{}=4
[a.]{}=3
[.a]{}=1
[]{}=1
[a b]{}=2
[ a]{}=1
[a=2
[1]=1
[a/]=3
a#c=3
a:1 -=4
a-1=1"#
}

// Rows of two pieces and a number: the text is so many copies of the first piece, and then of the second. A piece `-` is left
// out. After `=` stands what the text is read as.
fn depths() -> &'static str {
    "a{ - 65=TooDeep@129
a{ } 64=ok
a{ } 65=TooDeep@129
a:[< >] 64=ok
a[{ }] 65=TooDeep@194
a{b:1} - 65=ok
a{ $ 64=128"
}

// Rows of a text, and after `=` its canonical text.
fn canonical_texts() -> &'static str {
    r#"a:1 b<c:"x">=a: 1%0ab {%0a  c: "x"%0a}%0a
=
a:[1,x,'y']b[]=a: 1%0aa: x%0aa: "y"%0a
a[{},<b:-.5>]=a {%0a}%0aa {%0a  b: -.5%0a}%0a
a:'x' "y" # and%0a 'z'=a: "xyz"%0a
a:'"' b:"'" c:'\\'=a: "\""%0ab: "'"%0ac: "\\"%0a
a:'\n\t\r\000\001\037\177'=a: "\n\t\r\000\001\037\177"%0a
a:'é€🙂'=a: "é€🙂"%0a
[a.b/c.d]{[e.f]:0X1F}=[a.b/c.d] {%0a  [e.f]: 0X1F%0a}%0a"#
}

// Returns a text that has each kind of value, in a message too.
fn every_kind() -> &'static str {
    "w:inf n:-0X1f q:'a\"b' 'c\\n' m{w:[x,y] m<n:.5e1 m{}>} [e.f]{q:\"\"} q:'\\177'"
}

fn every_kind_written() -> &'static str {
    "w: inf
n: -0X1f
q: \"a\\\"bc\\n\"
m {
  w: x
  w: y
  m {
    n: .5e1
    m {
    }
  }
}
[e.f] {
  q: \"\"
}
q: \"\\177\"
"
}

// Returns the bytes that a text of a row stands for.
fn bytes_of(alloc: Global, text: &str) -> Result<Vec<u8>, AllocError> {
    let mut bytes = Vec::new(alloc);
    percent_decode(text.as_bytes()).append_to(&mut bytes)?;
    Ok(bytes)
}

fn show(alloc: Global, text: &[u8]) -> Result<String, AllocError> {
    match parse(alloc, text) {
        Ok(_) => String::from_str(alloc, "ok"),
        Err(TextFault::Syntax { at }) => format!(in alloc; "{at}"),
        Err(TextFault::TooDeep { at }) => format!(in alloc; "TooDeep@{at}"),
        Err(TextFault::TooLong) => String::from_str(alloc, "TooLong"),
        Err(TextFault::OutOfMemory) => Err(AllocError),
    }
}

#[derive(Drop)]
struct Reading;

impl Calls for Reading {
    fn answer(&mut self, alloc: Global, call: &str) -> Result<String, Fail> {
        Ok(show(alloc, bytes_of(alloc, call)?.as_slice())?)
    }
}

fn push_copies(text: &mut Vec<u8>, piece: &str, count: usize) -> Result<(), AllocError> {
    if piece != "-" {
        for _ in 0..count {
            text.extend_from_slice(piece.as_bytes())?;
        }
    }
    Ok(())
}

#[derive(Drop)]
struct Nesting;

impl Calls for Nesting {
    fn answer(&mut self, alloc: Global, call: &str) -> Result<String, Fail> {
        let (first, rest) = call.split_once(' ').ok_or("no piece")?;
        let (second, count) = rest.split_once(' ').ok_or("no second piece")?;
        let count = count.parse::<usize>()?;
        let mut text = Vec::new(alloc);
        push_copies(&mut text, first, count)?;
        push_copies(&mut text, second, count)?;
        Ok(show(alloc, text.as_slice())?)
    }
}

#[test]
fn texts_are_read_up_to_their_first_fault(rt: HostRuntime) -> Result<(), Fail> {
    let alloc = rt.alloc();
    assert_rows(alloc, &mut Reading, files())?;
    assert_rows(alloc, &mut Reading, fields_that_do_not_go_on())?;
    assert_rows(alloc, &mut Reading, numbers_that_do_not_go_on())?;
    assert_rows(alloc, &mut Reading, strings_that_do_not_go_on())?;
    assert_rows(alloc, &mut Reading, bytes_that_are_no_text())?;
    assert_rows(alloc, &mut Reading, lists_and_names_that_do_not_go_on())?;
    assert_rows(alloc, &mut Nesting, depths())
}

// Reads a text, and writes a copy of its tree.
fn written(alloc: Global, text: &[u8]) -> Result<Vec<u8>, TextFault> {
    let tree = parse(alloc, text)?;
    Ok(print(alloc, &tree.try_clone()?)?)
}

// Returns a text with `%0a` for each line feed, as a row has it.
fn in_one_line(alloc: Global, text: &str) -> Result<String, AllocError> {
    let mut shown = String::new(alloc);
    for (i, line) in text.split('\n').enumerate() {
        if i > 0 {
            shown.push_str("%0a")?;
        }
        shown.push_str(line)?;
    }
    Ok(shown)
}

#[derive(Drop)]
struct Writing;

impl Calls for Writing {
    // Writes a text, and fails if the written text isn't written the same again once it is read.
    fn answer(&mut self, alloc: Global, call: &str) -> Result<String, Fail> {
        let once = written(alloc, bytes_of(alloc, call)?.as_slice())?;
        if written(alloc, once.as_slice())?.as_slice() != once.as_slice() {
            return Err(Fail::from("written otherwise again"));
        }
        Ok(in_one_line(alloc, String::from_utf8(once)?.as_str())?)
    }
}

#[test]
fn canonical_texts_are_written(rt: HostRuntime) -> Result<(), Fail> {
    assert_rows(rt.alloc(), &mut Writing, canonical_texts())?;
    let written = written(rt.alloc(), every_kind().as_bytes())?;
    assert_eq!(rt; written.as_slice(), every_kind_written().as_bytes());
    Ok(())
}
