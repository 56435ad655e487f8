ghost use Rattle.std.specs.Prelude.{◌≡◌, IfOk, OnOk, length, Some, IsUtf8};
ghost use Rattle.mg_text.specs.Code.Clean.{IsCleanPlace};
ghost use Rattle.std.specs.Option.{option_map};
ghost use Rattle.mg_text.specs.Tree.{none, scalar, message};
ghost use Rattle.mg_text.specs.View.{fields_view, value_view, simple, inner};
ghost use Rattle.mg_text.specs.Code.Machine.{resumed, moves, settled, settled_place, opens_at, closes_at, begin, with_scalar};
ghost use Rattle.mg_text.specs.Grammar.{message_slot, after};
ghost use Rattle.mg_text.specs.Code.Running.{state_of, frames_of, place_of, spot_of, kind_view, frame_of, Stepped};

use crate::between::same_mark;
use crate::parts::{Mark, Slot};
use crate::state::{Between, Kind, Reading};
use crate::tree::{Field, Scalar, Tree, TreeValue};
use mg_value::MgText;
use std::alloc::{AllocError, Global};
use std::{mem, str};

/// A message that is open: the fields before it, its name, where it stands and its mark.
#[derive(Drop)]
pub struct Frame {
    pub before: Vec<Field>,
    pub name: MgText,
    pub slot: Slot,
    pub mark: Mark,
}

/// The reader of a text. It has the fields of the innermost open message so far, the messages around it, and what is
/// being read. It also has the name of the field and the bytes of the token so far.
#[derive(Drop)]
pub struct Machine {
    pub done: Vec<Field>,
    pub frames: Vec<Frame>,
    pub reading: Reading,
    pub name: MgText,
    pub token: Vec<u8>,
}

/// Returns a text with a copy of bytes that are UTF-8.
pub fn text_of(alloc: Global, bytes: &[u8]) -> Result<MgText, AllocError>
    requires { IsUtf8 bytes.now }
    ensures { IfOk result (λ text. text ≡ bytes.now) }
{
    // The bytes needn't be judged again: the classes of the bytes have done it, as `requires` says.
    let text = unsafe { str::from_utf8_unchecked(bytes) };
    MgText::new(alloc, text)
}

fn scalar_of(kind: Kind, text: MgText) -> TreeValue
    ensures { value_view result ≡ simple (kind_view kind) text }
{
    match kind {
        Kind::Word => TreeValue::Scalar(Scalar::Word(text)),
        Kind::Number => TreeValue::Scalar(Scalar::Number(text)),
        Kind::Quoted => TreeValue::Scalar(Scalar::Quoted(text)),
    }
}

fn message_of(alloc: Global, fields: Vec<Field>) -> Result<TreeValue, AllocError>
    ensures { IfOk result (λ value. value_view value ≡ inner (fields_view fields.items)) }
{
    let tree = Tree::new(alloc, fields)?;
    Ok(TreeValue::Message(tree))
}

impl Machine {
    /// Returns a machine that has read nothing.
    pub fn new(alloc: Global) -> Machine
        ensures { state_of result ≡ begin }
    {
        Machine {
            done: Vec::new(alloc),
            frames: Vec::new(alloc),
            reading: Reading::At(Between::Start(false)),
            name: MgText::from_string(String::new(alloc)),
            token: Vec::new(alloc),
        }
    }
}

impl Machine {
    /// How many messages are open.
    pub fn depth(&self) -> usize
        ensures { result ≡ length (frames_of self.now.frames.items) }
    {
        self.frames.len()
    }

    /// Returns the name of the field for a value in this slot. In a list, the name stays for the other elements too.
    fn take_name(&mut self, alloc: Global, slot: Slot) -> Result<MgText, AllocError>
        ensures name { IfOk result (λ t. t ≡ self.old.name) }
        ensures place { after self.new.name slot ≡ after self.old.name slot }
        ensures same { self.new ≡ record self.old { name = self.new.name } }
    {
        match slot {
            Slot::One => {
                let none = MgText::from_string(String::new(alloc));
                Ok(mem::replace(&mut self.name, none))
            }
            Slot::Scalars | Slot::Messages => self.name.try_clone(alloc),
        }
    }

    /// Adds the scalar that has been read, and goes to the place after it.
    pub fn emit(&mut self, alloc: Global, slot: Slot, kind: Kind) -> Result<Between, AllocError>
        requires { IsUtf8 self.old.token.items }
        ensures state { OnOk result (state_of self.new
            ≡ with_scalar (state_of self.old) self.old.name slot (kind_view kind) self.old.token.items) }
        ensures place { IfOk result (λ q. place_of q self.new.name self.new.token.items ≡ after self.old.name slot) }
    {
        let name = self.take_name(alloc, slot)?;
        let value = scalar_of(kind, text_of(alloc, &self.token)?);
        self.done.push(Field { name, value })?;
        let place = Between::after(slot);
        self.reading = Reading::At(place);
        Ok(place)
    }

    /// Goes on to what is read next, if anything may be, and returns whether anything may be.
    pub fn moves(&mut self, next: Option<Reading>) -> bool
        ensures { Stepped (moves (state_of self.old)
            (option_map (λ r. spot_of r self.old.name self.old.token.items) next)) result (state_of self.new) }
    {
        match next {
            Some(reading) => {
                self.reading = reading;
                true
            }
            None => false,
        }
    }

    /// Ends the string at a place, if one stands there, since no further piece follows. Returns the place after the string, or else `p`.
    pub fn settle(&mut self, alloc: Global, p: Between) -> Result<Between, AllocError>
        requires { IsCleanPlace (place_of p self.old.name self.old.token.items) }
        ensures state { OnOk result (state_of self.new
            ≡ settled (state_of self.old) (place_of p self.old.name self.old.token.items)) }
        ensures place { IfOk result (λ q. place_of q self.new.name self.new.token.items
            ≡ settled_place (place_of p self.old.name self.old.token.items)) }
    {
        match p {
            Between::Joined(slot) => self.emit(alloc, slot, Kind::Quoted),
            _ => {
                self.reading = Reading::At(p);
                Ok(p)
            }
        }
    }

    /// Opens a message, and returns whether one may stand here.
    pub fn open(&mut self, alloc: Global, p: Between, mark: Mark) -> Result<bool, AllocError>
        ensures { IfOk result (λ taken. Stepped (opens_at (state_of self.old) mark
            (message_slot (place_of p self.old.name self.old.token.items))) taken (state_of self.new)) }
    {
        match p.message_slot() {
            None => Ok(false),
            Some(slot) => {
                let before = mem::replace(&mut self.done, Vec::new(alloc));
                let none = MgText::from_string(String::new(alloc));
                let name = mem::replace(&mut self.name, none);
                let frame = Frame {
                    before,
                    name,
                    slot,
                    mark,
                };
                self.frames.push(frame)?;
                self.reading = Reading::At(Between::Start(false));
                Ok(true)
            }
        }
    }

    /// Adds a message that is closed to the fields before it, and goes to the place after it.
    fn resume(&mut self, alloc: Global, frame: Frame) -> Result<(), AllocError>
        ensures { OnOk result (state_of self.new
            ≡ resumed (fields_view self.old.done.items) (frame_of frame) (frames_of self.old.frames.items)) }
    {
        let Frame {
            before,
            name,
            slot,
            mark: _,
        } = frame;
        let fields = mem::replace(&mut self.done, before);
        self.name = name;
        let name = self.take_name(alloc, slot)?;
        let value = message_of(alloc, fields)?;
        self.done.push(Field { name, value })?;
        self.reading = Reading::At(Between::after(slot));
        Ok(())
    }

    /// Closes the innermost message, and returns whether it may end here by this mark.
    pub fn close(&mut self, alloc: Global, p: Between, mark: Mark) -> Result<bool, AllocError>
        ensures { IfOk result (λ taken. Stepped (closes_at (state_of self.old) mark
            (place_of p self.old.name self.old.token.items)) taken (state_of self.new)) }
    {
        let Between::Start(_) = p else {
            return Ok(false);
        };
        match self.frames.pop() {
            None => Ok(false),
            Some(frame) => {
                if same_mark(frame.mark, mark) {
                    self.resume(alloc, frame)?;
                    Ok(true)
                } else {
                    Ok(false)
                }
            }
        }
    }
}
