ghost use Rattle.std.specs.Prelude.{◌≡◌, ◌<◌, ◌≤◌, ◌^◌, [], vec_len, vec_capacity};
ghost use Rattle.mg_feed.specs.Accepted.{most_lines};

use crate::due::{Due, lay, make_room};
use crate::feed_stream::FeedStream;
use crate::form::{Form, form_by};
use crate::graph::Graph;
use crate::judge::{packet_by, payload_by};
use crate::limits::{LONGEST_LINE, MOST_LINES};
use crate::line_json::{is_blank_line, json_by};
use crate::packet_line::packet_line_of;
use crate::sides::put_at;
use crate::streams::{append_at, close_at, raise_at, standing_at};
use crate::times::time_by;
use crate::{LineFault, Standing};
use json::Scratch;
use mg_settled::Prefix;
use mg_time::Timestamp;
use mg_value::{Kind, Packet, Payload};
use serde_json::{Map, Value};
use std::alloc::{AllocError, Global};
use std::sync::Arc;

/// What the accepted lines gave a graph's inputs, without the packets that were taken.
#[derive(Drop)]
pub struct InputBuffer {
    pub graph: Graph,
    pub streams: Vec<FeedStream>,
    pub sides: Vec<Option<Arc<Payload>>>,
    // Whether a line named a stream.
    pub named: bool,
    // How many lines were accepted.
    pub lines: u64,
    // An empty list with room for a prefix of each stream.
    pub room: Vec<Prefix>,
    ghost few: { vec_len streams < 2 ^ 32 },
    ghost few_sides: { vec_len sides < 2 ^ 32 },
    ghost empty: { room.items ≡ [] },
    ghost enough: { vec_len streams ≤ vec_capacity room },
    ghost few_lines: { lines ≤ most_lines },
}

impl InputBuffer {
    ghost use Rattle.std.specs.Prelude.{◌≡◌, ◌≢◌, [], ◌∷◌, OnOk, OnErr, IfOk, IfErr, None, Some, unwrap_or, is_some, slice_get, length, vec_len, option_and_then};
    ghost use Rattle.std.specs.List.{list_all};
    ghost use Rattle.std.specs.Arc.{arc_value};
    ghost use Rattle.serde_json.specs.View.{view, members_view};
    ghost use Rattle.mg_value.specs.Payload.{plain};
    ghost use Rattle.mg_value.specs.declared.kind.Kind.TheVariants.{Any};
    ghost use Rattle.mg_settled.specs.Prefix.{appended, raised, closed};
    ghost use Rattle.mg_calc.specs.Given.{given};
    ghost use Rattle.mg_feed.specs.Form.{packets, bound, close, side, listed, time_of, form_of, json_value};
    ghost use Rattle.mg_feed.specs.Accepted.{stepped, no_stream, placed, is_stream, several_refusals, with_form, with_said, with_line, form_names, names_stream, words_refusal, first_refusal, form_refusals, shape_refusal, json_refusal, line_refusal};
    ghost use Rattle.mg_feed.specs.Code.Forms.{form_view};
    ghost use Rattle.mg_feed.specs.View.{before_seen, with_streams, with_side};
    ghost use Rattle.mg_feed.specs.Seen.{input_buffer};
    ghost use Rattle.mg_feed.specs.Code.Due.{AreDue, AllRoom, with_due};
    ghost use Rattle.mg_feed.specs.Code.Heard.{Heard, Took};

    /// Takes the next line and returns whether it names a stream, or why it isn't good.
    pub fn line(
        &mut self,
        alloc: Global,
        scratch: &mut Scratch,
        text: &[u8],
    ) -> Result<bool, LineFault>
        ensures named { IfOk result (λ named. named ≡ names_stream text.now) }
        ensures took { Took (input_buffer self.old) (input_buffer self.new) result (line_refusal (before_seen (input_buffer self.old)) text.now)
            (with_line (input_buffer self.old).graph (input_buffer self.old).given text.now) }
    {
        if text.len() > LONGEST_LINE {
            return Err(LineFault::TooLong);
        }
        if self.lines >= MOST_LINES {
            return Err(LineFault::TooManyLines);
        }
        let named = self.words(alloc, scratch, text)?;
        self.lines += 1;
        Ok(named)
    }

    /// Takes a line of any length, after any number of lines, and doesn't count it. Returns whether it names a stream, or why it isn't
    /// good. A line of blanks alone gives nothing.
    pub fn words(
        &mut self,
        alloc: Global,
        scratch: &mut Scratch,
        text: &[u8],
    ) -> Result<bool, LineFault>
        ensures named { IfOk result (λ named. named ≡ names_stream text.now) }
        ensures heard { Heard (input_buffer self.old) (input_buffer self.new) result (words_refusal (before_seen (input_buffer self.old)) text.now)
            (with_line (input_buffer self.old).graph (input_buffer self.old).given text.now) }
    {
        if is_blank_line(text) {
            return Ok(false);
        }
        let named = self.json(alloc, scratch, text)?;
        Ok(named)
    }

    // Takes a line that isn't blank. A packet line of the usual form is read from its tokens, any other line as a JSON value.
    fn json(&mut self, alloc: Global, scratch: &mut Scratch, text: &[u8]) -> Result<bool, LineFault>
        ensures named { IfOk result (λ named. named ≡ form_names (option_and_then form_of (json_value text.now))) }
        ensures heard { Heard (input_buffer self.old) (input_buffer self.new) result (json_refusal (before_seen (input_buffer self.old)) (json_value text.now))
            (with_said (input_buffer self.old).graph (input_buffer self.old).given (option_and_then form_of (json_value text.now))) }
    {
        if let Some(line) = packet_line_of(alloc, text, scratch) {
            self.packet(alloc, line.stream, &line.time, &line.value)?;
            return Ok(true);
        }
        let named = self.tree(alloc, scratch, text)?;
        Ok(named)
    }

    // Takes a line by its JSON value.
    fn tree(&mut self, alloc: Global, scratch: &mut Scratch, text: &[u8]) -> Result<bool, LineFault>
        ensures named { IfOk result (λ named. named ≡ form_names (option_and_then form_of (json_value text.now))) }
        ensures heard { Heard (input_buffer self.old) (input_buffer self.new) result (json_refusal (before_seen (input_buffer self.old)) (json_value text.now))
            (with_said (input_buffer self.old).graph (input_buffer self.old).given (option_and_then form_of (json_value text.now))) }
    {
        let value = json_by(alloc, text, scratch)?;
        let named = self.value(alloc, &value)?;
        Ok(named)
    }

    // Takes a line's JSON value by its form.
    fn value(&mut self, alloc: Global, value: &Value) -> Result<bool, LineFault>
        ensures named { IfOk result (λ named. named ≡ form_names (form_of (view value.now))) }
        ensures heard { Heard (input_buffer self.old) (input_buffer self.new) result (shape_refusal (before_seen (input_buffer self.old)) (form_of (view value.now)))
            (with_said (input_buffer self.old).graph (input_buffer self.old).given (form_of (view value.now))) }
    {
        let Some(form) = form_by(value) else {
            return Err(LineFault::BadShape);
        };
        let named = self.form(alloc, form)?;
        Ok(named)
    }

    // Takes a line in one of the five forms, and returns whether it names a stream.
    fn form(&mut self, alloc: Global, form: Form<'_>) -> Result<bool, LineFault>
        ensures named { IfOk result (λ named. named ≡ form_names (Some (form_view form.entry))) }
        ensures heard { Heard (input_buffer self.old) (input_buffer self.new) result (first_refusal (form_refusals (before_seen (input_buffer self.old)) (form_view form.entry)))
            (with_form (input_buffer self.old).graph (input_buffer self.old).given (form_view form.entry)) }
    {
        match form {
            Form::Packet(name, time, value) => self.packet(alloc, name, time, value)?,
            Form::Packets(time, members) => self.packets(alloc, time, members)?,
            Form::Bound(name, time) => self.bound(name, time)?,
            Form::Close(name) => self.close(name)?,
            Form::Side(name, value) => {
                self.side(alloc, name, value)?;
                return Ok(false);
            }
        }
        Ok(true)
    }

    // Takes a packet.
    fn packet(
        &mut self,
        alloc: Global,
        name: &str,
        time: &Value,
        value: &Value,
    ) -> Result<(), LineFault>
        ensures { let form = packets (view time.now) (record { name = name.now; value = view value.now } ∷ []) in
            Heard (input_buffer self.old) (input_buffer self.new) result (first_refusal (form_refusals (before_seen (input_buffer self.old)) form))
            (with_form (input_buffer self.old).graph (input_buffer self.old).given form) }
    {
        let Some(place) = self.graph.streams.find(name) else {
            return Err(LineFault::UnknownStream);
        };
        let packet = packet_by(
            alloc,
            self.kind(place),
            self.standing(place),
            time_by(time),
            value,
        )?;
        self.append(place, packet)?;
        Ok(())
    }

    // Takes packets of several streams.
    fn packets(
        &mut self,
        alloc: Global,
        time: &Value,
        members: &Map<String, Value>,
    ) -> Result<(), LineFault>
        ensures { let form = packets (view time.now) (listed (members_view members.now.entries)) in
            Heard (input_buffer self.old) (input_buffer self.new) result (first_refusal (form_refusals (before_seen (input_buffer self.old)) form))
            (with_form (input_buffer self.old).graph (input_buffer self.old).given form) }
    {
        if !self.knows_all(members) {
            return Err(LineFault::UnknownStream);
        }
        let due = self.due(alloc, time, members)?;
        self.make_room(&due)?;
        self.lay(due);
        Ok(())
    }

    // Makes room for packets, so that they can be laid without memory.
    fn make_room(&mut self, due: &[Due]) -> Result<(), AllocError>
        ensures kept { input_buffer self.new ≡ input_buffer self.old }
        ensures room { OnOk result (AllRoom (length due.now) self.new.streams.items due.now) }
    {
        make_room(&mut self.streams, due)?;
        Ok(())
    }

    // Puts packets at the ends of their streams, which have room.
    fn lay(&mut self, due: Vec<Due>)
        requires { AllRoom (vec_len due) self.old.streams.items due.items }
        ensures { input_buffer self.new ≡ with_streams (input_buffer self.old) (with_due due.items (input_buffer self.old).given.streams) }
    {
        lay(&mut self.streams, due);
        self.named = true;
    }

    // Returns whether the name of each member is that of an input stream.
    fn knows_all(&self, members: &Map<String, Value>) -> bool
        ensures { result ≡ list_all (λ v. is_stream (before_seen (input_buffer self.now)) v.name) (listed (members_view members.now.entries)) }
    {
        for (name, _value) in members.iter() {
            if self.graph.streams.find(name.as_str()).is_none() {
                return false;
            }
        }
        true
    }

    // Makes the packets of a line that names several streams, each with its stream's place, or returns why a packet isn't good.
    fn due(
        &self,
        alloc: Global,
        time: &Value,
        members: &Map<String, Value>,
    ) -> Result<Vec<Due>, LineFault>
        ensures good { IfOk result (λ due. first_refusal (several_refusals (before_seen (input_buffer self.now)) (time_of (view time.now)) (listed (members_view members.now.entries))) ≡ None) }
        ensures due { IfOk result (λ due. AreDue (input_buffer self.now).graph (time_of (view time.now)) (listed (members_view members.now.entries)) due.items) }
        ensures fault { IfErr result (λ fault. fault ≢ LineFault.OutOfMemory
            → first_refusal (several_refusals (before_seen (input_buffer self.now)) (time_of (view time.now)) (listed (members_view members.now.entries))) ≡ Some fault) }
    {
        let mut due = Vec::with_capacity(alloc, members.len())?;
        for (name, value) in members.iter() {
            let place = self.graph.streams.find(name.as_str());
            let packet = packet_by(
                alloc,
                self.kind_of(place),
                self.standing_of(place),
                time_by(time),
                value,
            )?;
            due.push(Due { place, packet })?;
        }
        Ok(due)
    }

    // Returns the kind of the stream at a place, or Any if there is none.
    fn kind_of(&self, place: Option<u32>) -> Kind
        ensures { result ≡ unwrap_or (placed place (input_buffer self.now).graph.kinds) Any }
    {
        match place {
            Some(place) => self.kind(place),
            None => Kind::Any,
        }
    }

    // Returns the standing of the stream at a place, or that of a closed stream if there is none.
    fn standing_of(&self, place: Option<u32>) -> Standing
        ensures { result ≡ unwrap_or (placed place (before_seen (input_buffer self.now)).streams) no_stream }
    {
        match place {
            Some(place) => self.standing(place),
            None => Standing {
                bound: Timestamp::DONE,
                begun: true,
            },
        }
    }

    // Takes a bound.
    fn bound(&mut self, name: &str, time: &Value) -> Result<(), LineFault>
        ensures { let form = bound name.now (view time.now) in
            Heard (input_buffer self.old) (input_buffer self.new) result (first_refusal (form_refusals (before_seen (input_buffer self.old)) form))
            (with_form (input_buffer self.old).graph (input_buffer self.old).given form) }
    {
        let Some(place) = self.graph.streams.find(name) else {
            return Err(LineFault::UnknownStream);
        };
        let Some(at) = time_by(time) else {
            return Err(LineFault::BadTimestamp);
        };
        if self.standing(place).bound == Timestamp::DONE {
            return Err(LineFault::Closed);
        }
        self.raise(place, at);
        Ok(())
    }

    // Takes a close.
    fn close(&mut self, name: &str) -> Result<(), LineFault>
        ensures { let form = close name.now in
            Heard (input_buffer self.old) (input_buffer self.new) result (first_refusal (form_refusals (before_seen (input_buffer self.old)) form))
            (with_form (input_buffer self.old).graph (input_buffer self.old).given form) }
    {
        let Some(place) = self.graph.streams.find(name) else {
            return Err(LineFault::UnknownStream);
        };
        if self.standing(place).bound == Timestamp::DONE {
            return Err(LineFault::Closed);
        }
        self.shut(place);
        Ok(())
    }

    // Takes a side packet.
    fn side(&mut self, alloc: Global, name: &str, value: &Value) -> Result<(), LineFault>
        ensures { let form = side name.now (view value.now) in
            Heard (input_buffer self.old) (input_buffer self.new) result (first_refusal (form_refusals (before_seen (input_buffer self.old)) form))
            (with_form (input_buffer self.old).graph (input_buffer self.old).given form) }
    {
        let Some(place) = self.graph.sides.find(name) else {
            return Err(LineFault::UnknownStream);
        };
        if self.named {
            return Err(LineFault::SideLate);
        }
        if self.has_side(place) {
            return Err(LineFault::SideTwice);
        }
        let payload = payload_by(alloc, value)?;
        self.put_side(place, payload);
        Ok(())
    }

    /// Returns the kind of the stream at a place, or Any if there is none.
    pub fn kind(&self, place: u32) -> Kind
        ensures { result ≡ unwrap_or (slice_get (input_buffer self.now).graph.kinds place) Any }
    {
        match self.graph.kinds.get(place as usize) {
            Some(kind) => *kind,
            None => Kind::Any,
        }
    }

    // Returns the standing of the stream at a place, by which its next packet is judged.
    fn standing(&self, place: u32) -> Standing
        ensures { result ≡ unwrap_or (slice_get (before_seen (input_buffer self.now)).streams place) no_stream }
    {
        standing_at(&self.streams, place)
    }

    // Returns whether the side packet at a place came already.
    fn has_side(&self, place: u32) -> bool
        ensures { result ≡ is_some (unwrap_or (slice_get (input_buffer self.now).given.sides place) None) }
    {
        match self.sides.get(place as usize) {
            Some(side) => side.is_some(),
            None => false,
        }
    }

    /// Puts a packet at the end of the stream at a place.
    pub fn append(&mut self, place: u32, packet: Packet) -> Result<(), AllocError>
        ensures good { OnOk result (input_buffer self.new ≡ with_streams (input_buffer self.old) (stepped place (λ s. appended s packet) (input_buffer self.old).given.streams)) }
        ensures unchanged { OnErr result (input_buffer self.new ≡ input_buffer self.old) }
    {
        append_at(&mut self.streams, place, packet)?;
        self.named = true;
        Ok(())
    }

    // Raises the bound of the stream at a place.
    fn raise(&mut self, place: u32, bound: Timestamp)
        ensures { input_buffer self.new ≡ with_streams (input_buffer self.old) (stepped place (λ s. raised s bound) (input_buffer self.old).given.streams) }
    {
        raise_at(&mut self.streams, place, bound);
        self.named = true;
    }

    // Closes the stream at a place.
    fn shut(&mut self, place: u32)
        ensures { input_buffer self.new ≡ with_streams (input_buffer self.old) (stepped place closed (input_buffer self.old).given.streams) }
    {
        close_at(&mut self.streams, place);
        self.named = true;
    }

    // Puts a side packet at its place.
    fn put_side(&mut self, place: u32, payload: Arc<Payload>)
        ensures { input_buffer self.new ≡ with_side (input_buffer self.old) place (plain (arc_value payload)) }
    {
        put_at(&mut self.sides, place, payload);
    }
}
