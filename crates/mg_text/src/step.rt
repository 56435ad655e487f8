ghost use Rattle.std.specs.Prelude.{◌≡◌, ◌++◌, ◌∷◌, [], IfOk, OnOk, is_some, IsUtf8};
ghost use Rattle.mg_text.specs.Code.Clean.{CharsTo, IsClean, IsCleanPlace};
ghost use Rattle.std.specs.Option.{option_map};
ghost use Rattle.mg_text.specs.Byte.{class_of};
ghost use Rattle.mg_text.specs.Code.Machine.{step, step_at, step_settled, step_naming, step_token, moves, bracket_spot, token_spot, letter_spot, quote_spot, piece_spot, accepts, name_next, scalar_next, moved, kind_of, final};
ghost use Rattle.mg_text.specs.Grammar.{scalar_slot, piece_slot, named};
ghost use Rattle.mg_text.specs.Code.Running.{state_of, place_of, spot_of, frames_of, kind_view, spelled, Stepped};
ghost use Rattle.mg_text.specs.View.{view, fields_view};

use crate::between::comment_next;
use crate::class::class_of;
use crate::inside::{inside_next, is_closing_quote};
use crate::machine::{Machine, text_of};
use crate::next::{is_whole_name, is_whole_scalar, name_next, scalar_next};
use crate::parts::{Class, Mark, Quote, Slot, Tail};
use crate::state::{Between, Inside, Kind, NamePart, Reading, ScalarPart};
use crate::tree::Tree;
use std::alloc::{AllocError, Global};

impl Machine {
    /// Begins a token with its first byte, and sets what is being read.
    fn begin(&mut self, b: u8, reading: Reading) -> Result<(), AllocError>
        ensures token { OnOk result (self.new.token.items ≡ b ∷ []) }
        ensures done { self.new.done ≡ self.old.done }
        ensures frames { self.new.frames ≡ self.old.frames }
        ensures name { self.new.name ≡ self.old.name }
        ensures reading { OnOk result (self.new.reading ≡ reading) }
    {
        self.token.clear();
        self.token.push(b)?;
        self.reading = reading;
        Ok(())
    }

    /// Adds a byte to the token, and sets what is being read.
    fn add(&mut self, b: u8, reading: Reading) -> Result<(), AllocError>
        ensures token { OnOk result (self.new.token.items ≡ self.old.token.items ++ b ∷ []) }
        ensures done { self.new.done ≡ self.old.done }
        ensures frames { self.new.frames ≡ self.old.frames }
        ensures name { self.new.name ≡ self.old.name }
        ensures reading { OnOk result (self.new.reading ≡ reading) }
    {
        self.token.push(b)?;
        self.reading = reading;
        Ok(())
    }

    fn scalar(&mut self, p: Between, part: ScalarPart, b: u8) -> Result<bool, AllocError>
        ensures { IfOk result (λ taken. Stepped (moves (state_of self.old)
            (token_spot part b (scalar_slot (place_of p self.old.name self.old.token.items)))) taken (state_of self.new)) }
    {
        match p.scalar_slot() {
            Some(slot) => {
                self.begin(b, Reading::Scalar(slot, part))?;
                Ok(true)
            }
            None => Ok(false),
        }
    }

    fn letter(&mut self, p: Between, b: u8) -> Result<bool, AllocError>
        ensures { IfOk result (λ taken. Stepped (moves (state_of self.old)
            (letter_spot (place_of p self.old.name self.old.token.items) b)) taken (state_of self.new)) }
    {
        match p {
            Between::Start(_) => {
                self.begin(b, Reading::Name(NamePart::Word))?;
                Ok(true)
            }
            _ => self.scalar(p, ScalarPart::Word, b),
        }
    }

    fn bracket(&mut self, p: Between, b: u8) -> Result<bool, AllocError>
        ensures { IfOk result (λ taken. Stepped (moves (state_of self.old)
            (bracket_spot (place_of p self.old.name self.old.token.items) b)) taken (state_of self.new)) }
    {
        match p {
            Between::Start(_) => {
                self.begin(b, Reading::Name(NamePart::Begins))?;
                Ok(true)
            }
            _ => match p.list_slot() {
                Some(colon) => {
                    self.reading = Reading::At(Between::Opened(colon));
                    Ok(true)
                }
                None => Ok(false),
            },
        }
    }

    fn quote(&mut self, p: Between, q: Quote) -> bool
        ensures { Stepped (moves (state_of self.old)
            (quote_spot q (piece_slot (place_of p self.old.name self.old.token.items)))) result (state_of self.new) }
    {
        let plain = Inside::Plain(Tail::Whole);
        match p {
            Between::Joined(slot) => {
                self.reading = Reading::Piece(slot, q, plain);
                true
            }
            _ => match p.scalar_slot() {
                Some(slot) => {
                    self.token.clear();
                    self.reading = Reading::Piece(slot, q, plain);
                    true
                }
                None => false,
            },
        }
    }

    fn step_settled(
        &mut self,
        alloc: Global,
        p: Between,
        c: Class,
        b: u8,
    ) -> Result<bool, AllocError>
        ensures { IfOk result (λ taken. Stepped (step_settled (state_of self.old)
            (place_of p self.old.name self.old.token.items) c b) taken (state_of self.new)) }
    {
        match c {
            Class::Colon => Ok(self.moves(p.colon())),
            Class::Comma => Ok(self.moves(p.comma())),
            Class::Semicolon => Ok(self.moves(p.semicolon())),
            Class::BraceOpen => self.open(alloc, p, Mark::Brace),
            Class::AngleOpen => self.open(alloc, p, Mark::Angle),
            Class::BraceClose => self.close(alloc, p, Mark::Brace),
            Class::AngleClose => self.close(alloc, p, Mark::Angle),
            Class::BracketOpen => self.bracket(p, b),
            Class::BracketClose => Ok(self.moves(p.list_end())),
            Class::Minus => self.scalar(p, ScalarPart::Minus, b),
            Class::Dot => self.scalar(p, ScalarPart::Point, b),
            Class::Zero => self.scalar(p, ScalarPart::Zero, b),
            Class::One | Class::OctalDigit | Class::Digit => self.scalar(p, ScalarPart::Whole, b),
            Class::LetterE
            | Class::LetterF
            | Class::HexLetter
            | Class::LetterX
            | Class::LetterN
            | Class::LetterR
            | Class::LetterT
            | Class::Letter => self.letter(p, b),
            _ => Ok(false),
        }
    }

    fn step_at(&mut self, alloc: Global, p: Between, c: Class, b: u8) -> Result<bool, AllocError>
        requires { IsCleanPlace (place_of p self.old.name self.old.token.items) }
        ensures { IfOk result (λ taken. Stepped (step_at (state_of self.old)
            (place_of p self.old.name self.old.token.items) c b) taken (state_of self.new)) }
    {
        match c {
            Class::Blank | Class::LineFeed => {
                self.reading = Reading::At(p);
                Ok(true)
            }
            Class::Hash => {
                self.reading = Reading::Comment(p, Tail::Whole);
                Ok(true)
            }
            Class::SingleQuote => Ok(self.quote(p, Quote::Single)),
            Class::DoubleQuote => Ok(self.quote(p, Quote::Double)),
            _ => {
                let p = self.settle(alloc, p)?;
                self.step_settled(alloc, p, c, b)
            }
        }
    }

    fn step_name(
        &mut self,
        alloc: Global,
        part: NamePart,
        c: Class,
        b: u8,
    ) -> Result<bool, AllocError>
        requires { CharsTo Tail.Whole self.old.token.items }
        ensures { IfOk result (λ taken. Stepped (step_naming (state_of self.old) part self.old.token.items c b
            (name_next part c)) taken (state_of self.new)) }
    {
        match name_next(part, c) {
            Some(next) => {
                self.add(b, Reading::Name(next))?;
                Ok(true)
            }
            None => {
                if is_whole_name(part) && !c.joins() {
                    self.end_name(alloc)?;
                    self.step_at(alloc, Between::Named, c, b)
                } else {
                    Ok(false)
                }
            }
        }
    }

    /// Keeps the name that has been read, and goes to the place after it.
    fn end_name(&mut self, alloc: Global) -> Result<(), AllocError>
        requires { IsUtf8 self.old.token.items }
        ensures state { OnOk result (state_of self.new ≡ moved (state_of self.old) (named self.old.token.items)) }
        ensures name { OnOk result (self.new.name ≡ self.old.token.items) }
    {
        self.name = text_of(alloc, &self.token)?;
        self.reading = Reading::At(Between::Named);
        Ok(())
    }

    fn step_scalar(
        &mut self,
        alloc: Global,
        slot: Slot,
        part: ScalarPart,
        c: Class,
        b: u8,
    ) -> Result<bool, AllocError>
        requires { CharsTo Tail.Whole self.old.token.items }
        ensures { IfOk result (λ taken. Stepped (step_token (state_of self.old) self.old.name slot part self.old.token.items c b
            (scalar_next part c)) taken (state_of self.new)) }
    {
        match scalar_next(part, c) {
            Some(next) => {
                self.add(b, Reading::Scalar(slot, next))?;
                Ok(true)
            }
            None => {
                if is_whole_scalar(part) && !c.joins() {
                    let p = self.emit(alloc, slot, part.kind())?;
                    self.step_at(alloc, p, c, b)
                } else {
                    Ok(false)
                }
            }
        }
    }

    fn spell(&mut self, b: Option<u8>) -> Result<(), AllocError>
        ensures token { OnOk result (self.new.token.items ≡ self.old.token.items ++ spelled b) }
        ensures same { self.new ≡ record self.old { token = self.new.token } }
    {
        if let Some(b) = b {
            self.token.push(b)?;
        }
        Ok(())
    }

    fn step_piece(
        &mut self,
        slot: Slot,
        q: Quote,
        i: Inside,
        c: Class,
        b: u8,
    ) -> Result<bool, AllocError>
        ensures { IfOk result (λ taken. Stepped (moves (state_of self.old)
            (piece_spot self.old.name slot self.old.token.items q i c b)) taken (state_of self.new)) }
    {
        if is_closing_quote(q, i, c) {
            self.reading = Reading::At(Between::Joined(slot));
            return Ok(true);
        }
        match inside_next(q, i, c, b) {
            Some((next, spelled)) => {
                self.spell(spelled)?;
                self.reading = Reading::Piece(slot, q, next);
                Ok(true)
            }
            None => Ok(false),
        }
    }

    /// Reads one more byte. Returns whether a text may have it here.
    pub fn step(&mut self, alloc: Global, b: u8) -> Result<bool, AllocError>
        requires { IsClean (spot_of self.old.reading self.old.name self.old.token.items) }
        ensures { IfOk result (λ taken. Stepped (step (state_of self.old) b) taken (state_of self.new)) }
    {
        let c = class_of(b);
        match self.reading {
            Reading::At(p) => self.step_at(alloc, p, c, b),
            Reading::Comment(p, t) => Ok(self.moves(comment_next(p, t, c, b))),
            Reading::Name(part) => self.step_name(alloc, part, c, b),
            Reading::Scalar(slot, part) => self.step_scalar(alloc, slot, part, c, b),
            Reading::Piece(slot, q, i) => self.step_piece(slot, q, i, c, b),
        }
    }

    /// Whether a text may end at this place, if nothing is being read.
    fn may_end(&self, p: Between) -> bool
        ensures { result ≡ is_some (final (fields_view self.now.done.items) (frames_of self.now.frames.items)
            (place_of p self.now.name self.now.token.items)) }
    {
        match p {
            Between::Start(_) => self.frames.is_empty(),
            _ => false,
        }
    }

    /// Returns the fields of the text that ends here, or none if no text may end here.
    pub fn finish(mut self, alloc: Global) -> Result<Option<Tree>, AllocError>
        requires { IsClean (spot_of self.reading self.name self.token.items) }
        ensures { IfOk result (λ tree. option_map view tree ≡ accepts (state_of self)) }
    {
        let p = match self.reading {
            Reading::At(p) => self.settle(alloc, p)?,
            Reading::Scalar(slot, part) => {
                if !is_whole_scalar(part) {
                    return Ok(None);
                }
                self.emit(alloc, slot, part.kind())?
            }
            _ => return Ok(None),
        };
        if !self.may_end(p) {
            return Ok(None);
        }
        Ok(Some(self.into_tree(alloc)?))
    }

    fn into_tree(self, alloc: Global) -> Result<Tree, AllocError>
        ensures { IfOk result (λ tree. view tree ≡ fields_view self.done.items) }
    {
        let Machine {
            done,
            frames: _,
            reading: _,
            name: _,
            token: _,
        } = self;
        Tree::new(alloc, done)
    }
}

impl ScalarPart {
    /// Returns which kind of scalar is being read: a word or a number.
    pub fn kind(self) -> Kind
        ensures { kind_view result ≡ kind_of self }
    {
        match self {
            ScalarPart::Word => Kind::Word,
            _ => Kind::Number,
        }
    }
}
