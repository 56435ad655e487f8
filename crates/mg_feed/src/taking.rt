ghost use Rattle.std.specs.Prelude.{◌≡◌, ◌<◌, ◌≤◌, ◌^◌, [], IfOk, None, false, map, replicate, length, vec_len, vec_capacity};
ghost use Rattle.mg_settled.specs.Prefix.{empty_prefix};
ghost use Rattle.mg_calc.specs.Given.{given};
ghost use Rattle.mg_feed.specs.Code.Streams.{waiting, was_taken};

use crate::feed_stream::FeedStream;
use crate::graph::{Graph, graph_of};
use crate::input_buffer::InputBuffer;
use crate::streams::take_prefixes;
use mg_calc::{GivenList, Inputs, Plan};
use mg_settled::Prefix;
use mg_time::Timestamp;
use mg_value::{BlockList, Payload};
use std::alloc::{AllocError, Global};
use std::sync::Arc;

impl InputBuffer {
    ghost use Rattle.std.specs.Prelude.{◌≡◌, IfOk, OnOk, OnErr, false, replicate, length};
    ghost use Rattle.mg_feed.specs.Graph.{inputs_of};
    ghost use Rattle.mg_feed.specs.Accepted.{fresh};
    ghost use Rattle.mg_feed.specs.Given.{ended_streams};
    ghost use Rattle.mg_feed.specs.Code.Graphs.{graph_view};
    ghost use Rattle.mg_feed.specs.View.{after_taking};
    ghost use Rattle.mg_feed.specs.Seen.{input_buffer};

    /// Makes the inputs of a plan's graph, to which no line gave anything yet.
    pub fn new(alloc: Global, plan: &Plan) -> Result<InputBuffer, AllocError>
        ensures { IfOk result (λ c. input_buffer c ≡ record {
          graph = inputs_of plan.now;
          given = fresh (inputs_of plan.now);
          taken = replicate (length (inputs_of plan.now).kinds) false;
          lines = 0;
        }) }
    {
        let graph = graph_of(alloc, plan)?;
        InputBuffer::of_graph(alloc, graph)
    }

    fn of_graph(alloc: Global, graph: Graph) -> Result<InputBuffer, AllocError>
        ensures { IfOk result (λ c. input_buffer c ≡ record {
          graph = graph_view graph;
          given = fresh (graph_view graph);
          taken = replicate (length (graph_view graph).kinds) false;
          lines = 0;
        }) }
    {
        let empty = empty_inputs(alloc, graph.kinds.len(), graph.sides.len())?;
        Ok(InputBuffer {
            graph,
            streams: empty.streams,
            sides: empty.sides,
            named: false,
            lines: 0,
            room: empty.room,
        })
    }

    /// Takes the packets that came since the last taking, and all side packets. Each stream has its bound, or Done if the input
    /// ended. An `Err` means out of memory: nothing was taken.
    pub fn take_inputs(&mut self, alloc: Global, ended: bool) -> Result<Inputs, AllocError>
        ensures streams { IfOk result (λ inputs. inputs.streams ≡ ended_streams ended (input_buffer self.old).given.streams) }
        ensures sides { IfOk result (λ inputs. inputs.sides ≡ (input_buffer self.old).given.sides) }
        ensures ended { IfOk result (λ inputs. inputs.ended ≡ ended) }
        ensures taken { OnOk result (input_buffer self.new ≡ after_taking (input_buffer self.old)) }
        ensures unchanged { OnErr result (input_buffer self.new ≡ input_buffer self.old) }
    {
        let sides = copy_sides(alloc, &self.sides)?;
        let room = Vec::with_capacity(alloc, self.streams.len())?;
        let prefixes = take_prefixes(alloc, &mut self.streams, ended, room);
        Ok(inputs_by(prefixes, sides, ended))
    }

    /// Takes the packets that came since the last taking, and all side packets. Each stream has its bound, or Done if the input
    /// ended. The function takes no memory.
    pub fn into_inputs(self, alloc: Global, ended: bool) -> Inputs
        ensures streams { result.streams ≡ ended_streams ended (input_buffer self).given.streams }
        ensures sides { result.sides ≡ (input_buffer self).given.sides }
        ensures ended { result.ended ≡ ended }
    {
        let InputBuffer {
            graph,
            mut streams,
            sides,
            named: _,
            lines: _,
            room,
        } = self;
        drop(graph);
        let prefixes = take_prefixes(alloc, &mut streams, ended, room);
        inputs_by(prefixes, given_list(sides), ended)
    }
}

// Inputs to which nothing came, and an empty list with room for a prefix of each stream.
#[derive(Drop)]
struct EmptyInputs {
    streams: Vec<FeedStream>,
    sides: Vec<Option<Arc<Payload>>>,
    room: Vec<Prefix>,
}

// Returns the inputs of a graph with this many streams and side packets, to which nothing came.
fn empty_inputs(alloc: Global, streams: usize, sides: usize) -> Result<EmptyInputs, AllocError>
    ensures streams { IfOk result (λ e. map waiting e.streams.items ≡ replicate streams empty_prefix) }
    ensures taken { IfOk result (λ e. map was_taken e.streams.items ≡ replicate streams false) }
    ensures sides { IfOk result (λ e. map given e.sides.items ≡ replicate sides None) }
    ensures few { IfOk result (λ e. vec_len e.streams < 2 ^ 32) }
    ensures few_sides { IfOk result (λ e. vec_len e.sides < 2 ^ 32) }
    ensures empty { IfOk result (λ e. e.room.items ≡ []) }
    ensures enough { IfOk result (λ e. vec_len e.streams ≤ vec_capacity e.room) }
{
    let open = open_streams(alloc, streams)?;
    let absent = no_sides(alloc, sides)?;
    let room = Vec::with_capacity(alloc, open.len())?;
    Ok(EmptyInputs {
        streams: open,
        sides: absent,
        room,
    })
}

// Returns `count` streams without packets, with the bound PreStream.
fn open_streams(alloc: Global, count: usize) -> Result<Vec<FeedStream>, AllocError>
    ensures streams { IfOk result (λ streams. map waiting streams.items ≡ replicate count empty_prefix) }
    ensures taken { IfOk result (λ streams. map was_taken streams.items ≡ replicate count false) }
    ensures few { IfOk result (λ streams. vec_len streams < 2 ^ 32) }
{
    if count >= 1 << 32 {
        return Err(AllocError);
    }
    let mut streams = Vec::with_capacity(alloc, count)?;
    for _ in 0..count {
        streams.push(FeedStream {
            packets: Vec::new(alloc),
            bound: Timestamp::PRE_STREAM,
            taken: false,
        })?;
    }
    Ok(streams)
}

// Returns `count` places of side packets. No side packet came yet.
fn no_sides(alloc: Global, count: usize) -> Result<Vec<Option<Arc<Payload>>>, AllocError>
    ensures sides { IfOk result (λ sides. map given sides.items ≡ replicate count None) }
    ensures few { IfOk result (λ sides. vec_len sides < 2 ^ 32) }
{
    if count >= 1 << 32 {
        return Err(AllocError);
    }
    let mut sides = Vec::with_capacity(alloc, count)?;
    for _ in 0..count {
        sides.push(None)?;
    }
    Ok(sides)
}

// Returns a list that shares the side packets.
fn copy_sides(alloc: Global, sides: &[Option<Arc<Payload>>]) -> Result<GivenList, AllocError>
    ensures { IfOk result (λ list. list ≡ map given sides.now) }
{
    let mut copies = Vec::with_capacity(alloc, sides.len())?;
    for side in sides {
        copies.push(copy_side(side)?)?;
    }
    Ok(GivenList::from_vec(copies)?)
}

// Shares a side packet, if it came.
fn copy_side(side: &Option<Arc<Payload>>) -> Result<Option<Arc<Payload>>, AllocError>
    ensures { IfOk result (λ copy. given copy ≡ given side.now) }
{
    match side {
        Some(payload) => Ok(Some(Arc::try_clone(payload)?)),
        None => Ok(None),
    }
}

// Makes a list of side packets, which are fewer than 2^32.
fn given_list(sides: Vec<Option<Arc<Payload>>>) -> GivenList
    requires { vec_len sides < 2 ^ 32 }
    ensures { result ≡ map given sides.items }
{
    match GivenList::from_vec(sides) {
        Ok(list) => list,
        Err(_) => unreachable!(),
    }
}

// Puts the inputs of a graph together from prefixes and side packets.
fn inputs_by(prefixes: Vec<Prefix>, sides: GivenList, ended: bool) -> Inputs
    requires { vec_len prefixes < 2 ^ 32 }
    ensures { result ≡ record { streams = prefixes.items; sides = sides; ended = ended } }
{
    match BlockList::from_vec(prefixes) {
        Ok(streams) => Inputs {
            streams,
            sides,
            ended,
        },
        Err(_) => unreachable!(),
    }
}
