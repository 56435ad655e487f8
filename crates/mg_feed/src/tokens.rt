ghost use Rattle.std.specs.Prelude.{◌≡◌, ◌<◌, [], ◌∷◌, ◌++◌, length, Some, IfSome, option_map};
ghost use Rattle.json.specs.Token.{begin_object, begin_array};
ghost use Rattle.json.specs.Json.{value as json_at, items as items_at, members as members_at, read_key};
ghost use Rattle.json.specs.Reads.{token_of};
ghost use Rattle.serde_json.specs.Data.{no_members, put as with_member};
ghost use Rattle.serde_json.specs.Read.{of_json, of_items, of_members, converted};
ghost use Rattle.serde_json.specs.View.{view, items_view, members_view};
ghost use Rattle.mg_feed.specs.Form.{json_value};
ghost use Rattle.mg_feed.specs.Code.PacketLines.{scalar_of};

use crate::whole::whole_by;
use json::{Reader, Scratch, Token};
use serde_json::{Map, Value, push, put};
use std::alloc::Global;

/// The most arrays and objects that may lie inside one another in a line, as `serde_json` has it.
pub const MAX_DEPTH: usize = 127;

/// Reads the JSON value of a text from its tokens, with a scratch that is kept. Returns None if the text isn't JSON, if a number
/// isn't whole or doesn't fit in 64 bits, or if memory runs out.
pub fn text_by_tokens(alloc: Global, text: &[u8], scratch: &mut Scratch) -> Option<Value>
    ensures { IfSome result (λ v. json_value text.now ≡ Some (view v)) }
{
    let Ok(text) = simdutf8::compat::from_utf8(text) else {
        return None;
    };
    let Ok(mut reader) = Reader::new(text, scratch) else {
        return None;
    };
    let value = value_by_tokens(alloc, &mut reader, MAX_DEPTH)?;
    over(&mut reader)?;
    Some(value)
}

/// Reads the JSON value that comes next, with at most `depth` arrays and objects inside one another.
#[cycle(tokens)]
pub fn value_by_tokens(alloc: Global, reader: &mut Reader<'_>, depth: usize) -> Option<Value>
    ensures value { IfSome result (λ v. converted of_json (json_at depth reader.old) ≡ Some (view v, reader.new)) }
    ensures shorter { IfSome result (λ _. length reader.new < length reader.old) }
{
    let token = reader.next()?;
    match token {
        Token::BeginArray => array_by(alloc, reader, depth),
        Token::BeginObject => object_by(alloc, reader, depth),
        _ => Some(scalar_by(alloc, token)?),
    }
}

// Reads the rest of an array that has begun.
#[cycle(tokens)]
fn array_by(alloc: Global, reader: &mut Reader<'_>, depth: usize) -> Option<Value>
    ensures value { IfSome result (λ v. converted of_json (json_at depth (begin_array ∷ reader.old)) ≡ Some (view v, reader.new)) }
    ensures shorter { IfSome result (λ _. length reader.new < length reader.old) }
{
    if depth == 0 {
        return None;
    }
    let items = items_by(alloc, reader, depth - 1)?;
    Some(Value::from(items))
}

// Reads the rest of an object that has begun.
#[cycle(tokens)]
fn object_by(alloc: Global, reader: &mut Reader<'_>, depth: usize) -> Option<Value>
    ensures value { IfSome result (λ v. converted of_json (json_at depth (begin_object ∷ reader.old)) ≡ Some (view v, reader.new)) }
    ensures shorter { IfSome result (λ _. length reader.new < length reader.old) }
{
    if depth == 0 {
        return None;
    }
    let members = members_by(alloc, reader, depth - 1)?;
    Some(Value::from(members))
}

// Reads the items of an array, up to its end.
#[cycle(tokens)]
fn items_by(alloc: Global, reader: &mut Reader<'_>, depth: usize) -> Option<Vec<Value>>
    ensures items { IfSome result (λ v. converted of_items (items_at (json_at depth) (length reader.old) reader.old)
        ≡ Some (items_view v.items, reader.new)) }
    ensures shorter { IfSome result (λ _. length reader.new < length reader.old) }
{
    let mut found = Vec::new(alloc);
    'items: while !reader.take_end_array() {
        let item = value_by_tokens(alloc, reader, depth)?;
        add_item(&mut found, item)?;
    }
    Some(found)
}

// Reads the members of an object, up to its end. Of equal names the last stays.
#[cycle(tokens)]
fn members_by(alloc: Global, reader: &mut Reader<'_>, depth: usize) -> Option<Map<String, Value>>
    ensures members { IfSome result (λ m. converted (λ ms. of_members ms no_members) (members_at (json_at depth) (length reader.old) reader.old)
        ≡ Some (members_view m.entries, reader.new)) }
    ensures shorter { IfSome result (λ _. length reader.new < length reader.old) }
{
    let mut found = Map::new(alloc);
    'members: while let Some(name) = name_by(reader)? {
        let member = value_by_tokens(alloc, reader, depth)?;
        add_member(alloc, &mut found, name, member)?;
    }
    Some(found)
}

// Returns None if a further token comes.
fn over(reader: &mut Reader<'_>) -> Option<()>
    ensures { IfSome result (λ _. reader.old ≡ []) }
{
    match reader.next() {
        Some(_) => None,
        None => Some(()),
    }
}

// Appends an item to a list, if memory suffices.
fn add_item(items: &mut Vec<Value>, item: Value) -> Option<()>
    ensures { IfSome result (λ _. items.new.items ≡ items.old.items ++ item ∷ []) }
{
    match push(items, item) {
        Ok(()) => Some(()),
        Err(_) => None,
    }
}

// Puts a member under its name, if memory suffices.
fn add_member(
    alloc: Global,
    members: &mut Map<String, Value>,
    name: &str,
    member: Value,
) -> Option<()>
    ensures { IfSome result (λ _. members_view members.new.entries ≡ with_member name.now (view member) (members_view members.old.entries)) }
{
    match put(members, alloc, name, member) {
        Ok(()) => Some(()),
        Err(_) => None,
    }
}

// Reads the name of the next member: `Some(None)` at the end of the object, and None at a fault.
fn name_by<'a>(reader: &mut Reader<'a>) -> Option<Option<&'a str>>
    ensures { IfSome result (λ name. read_key reader.old ≡ Some (option_map (λ s. s.now) name, reader.new)) }
{
    match reader.next_key() {
        Ok(name) => Some(name),
        Err(_) => None,
    }
}

// Returns the value of a token that is a value by itself, if memory suffices.
fn scalar_by(alloc: Global, token: Token<'_>) -> Option<Value>
    ensures { IfSome result (λ v. scalar_of (token_of token.entry) ≡ Some (view v)) }
{
    match token {
        Token::Number(text) => Some(Value::from(whole_by(text)?)),
        Token::Bool(flag) => Some(Value::from(flag)),
        Token::Null => Some(Value::from(())),
        Token::String(text) => Value::try_from_str(alloc, text).ok(),
        _ => None,
    }
}
