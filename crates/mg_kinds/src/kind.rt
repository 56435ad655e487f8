//! The table of the calculators that are built in: their names, their options and their ports.
ghost use Rattle.std.specs.Prelude.{◌≡◌, ◌==◌, not, length};
ghost use Rattle.mg_config.specs.Config.{node_view};
ghost use Rattle.mg_config.specs.Values.{entries};
ghost use Rattle.mg_names.specs.Ports.{has_port as has_it};
ghost use Rattle.mg_kinds.specs.Kinds as table;
ghost use Rattle.mg_kinds.specs.Tags.{tag_text};

use crate::ports::has_port;
use crate::row::{EndPort, Row};
use crate::tag::Tag;
use mg_calc::{ComputationKind, computation_named};
use mg_config::{NodeConfig, is};
use mg_names::PortMap;
use mg_value::Kind;

/// The calculators that are built in (MediaPipe, Calculators).
#[derive(Clone, Copy, Debug, PartialEq, Eq)]
pub enum CalculatorKind {
    /// PassThroughCalculator
    PassThrough,
    /// GateCalculator
    Gate,
    /// MuxCalculator
    Mux,
    /// PacketClonerCalculator
    Cloner,
    /// MergeCalculator
    Merge,
    /// PacketThinnerCalculator
    Thinner,
    /// A calculator that computes numbers, of the list of mg_calc
    Compute(ComputationKind),
    /// IntFilterCalculator
    Filter,
    /// TimestampShiftCalculator
    Shift,
    /// CountingSourceCalculator
    Counting,
    /// SidePacketToStreamCalculator
    SideToStream,
    /// ConstantSidePacketCalculator
    Constants,
    /// PreviousLoopbackCalculator
    Loopback,
    /// FlowLimiterCalculator
    FlowLimiter,
    /// BeginLoopCalculator
    BeginLoop,
    /// EndLoopCalculator
    EndLoop,
}

fn passing(name: &[u8]) -> Option<CalculatorKind>
    ensures { result ≡ table.named_in table.passing name.now }
{
    if is(name, b"PassThroughCalculator") {
        Some(CalculatorKind::PassThrough)
    } else if is(name, b"GateCalculator") {
        Some(CalculatorKind::Gate)
    } else if is(name, b"MuxCalculator") {
        Some(CalculatorKind::Mux)
    } else if is(name, b"PacketClonerCalculator") {
        Some(CalculatorKind::Cloner)
    } else if is(name, b"MergeCalculator") {
        Some(CalculatorKind::Merge)
    } else if is(name, b"PacketThinnerCalculator") {
        Some(CalculatorKind::Thinner)
    } else if is(name, b"TimestampShiftCalculator") {
        Some(CalculatorKind::Shift)
    } else if is(name, b"PreviousLoopbackCalculator") {
        Some(CalculatorKind::Loopback)
    } else if is(name, b"FlowLimiterCalculator") {
        Some(CalculatorKind::FlowLimiter)
    } else if is(name, b"IntFilterCalculator") {
        Some(CalculatorKind::Filter)
    } else {
        None
    }
}

fn beginning(name: &[u8]) -> Option<CalculatorKind>
    ensures { result ≡ table.named_in table.beginning name.now }
{
    if is(name, b"CountingSourceCalculator") {
        Some(CalculatorKind::Counting)
    } else if is(name, b"SidePacketToStreamCalculator") {
        Some(CalculatorKind::SideToStream)
    } else if is(name, b"ConstantSidePacketCalculator") {
        Some(CalculatorKind::Constants)
    } else {
        None
    }
}

fn looping(name: &[u8]) -> Option<CalculatorKind>
    ensures { result ≡ table.named_in table.looping name.now }
{
    if is(name, b"BeginLoopCalculator") {
        Some(CalculatorKind::BeginLoop)
    } else if is(name, b"EndLoopCalculator") {
        Some(CalculatorKind::EndLoop)
    } else {
        None
    }
}

// Returns the built-in calculator that has a name at every node, if there is one.
fn kind_named(name: &[u8]) -> Option<CalculatorKind>
    ensures { result ≡ table.kind_named name.now }
{
    match computation_named(name) {
        Some(computation) => Some(CalculatorKind::Compute(computation)),
        None => passing(name).or(beginning(name)),
    }
}

// Whether a node has options.
fn has_options(node: &NodeConfig) -> bool
    ensures { result ≡ not (length (entries (node_view node.now).options) == 0) }
{
    !node.options.as_slice().is_empty()
}

// Whether a node has options, or a stream at an input CLONE.
fn asks_more(node: &NodeConfig) -> bool
    ensures { result ≡ table.asks_more (node_view node.now) }
{
    has_options(node) || has_tag(&node.inputs, Tag::Clone)
}

/// Returns the built-in calculator of a node, if there is one. The calculators of loops over lists are built in only at nodes that have
/// options or an input CLONE.
pub fn kind_at(node: &NodeConfig) -> Option<CalculatorKind>
    ensures { result ≡ table.kind_at (node_view node.now) }
{
    let name = node.calculator.as_bytes();
    match kind_named(name) {
        Some(kind) => Some(kind),
        None => { if asks_more(node) { looping(name) } else { None } }
    }
}

/// Returns the names of a calculator's options that may be set at most once.
pub fn single_options(kind: CalculatorKind) -> &'static [&'static str]
    ensures { table.names_of result.now ≡ table.single_options kind }
{
    match kind {
        CalculatorKind::Gate => &["empty_packets_as_allow"],
        CalculatorKind::Thinner => &["thinner_type", "period"],
        CalculatorKind::Compute(computation) => computation.options(),
        CalculatorKind::Filter => &["keep", "raise_bound"],
        CalculatorKind::Shift => &["offset"],
        CalculatorKind::FlowLimiter => &["max_in_flight"],
        CalculatorKind::BeginLoop => &["always_end"],
        CalculatorKind::EndLoop => &["empty_as_bound"],
        CalculatorKind::Counting => &["count", "start", "step"],
        _ => &[],
    }
}

/// Returns the names of all options that a calculator has.
pub fn all_options(kind: CalculatorKind) -> &'static [&'static str]
    ensures { table.names_of result.now ≡ table.all_options kind }
{
    match kind {
        CalculatorKind::Constants => &["packet"],
        _ => single_options(kind),
    }
}

fn has_tag(ports: &PortMap, tag: Tag) -> bool
    ensures { result ≡ has_it (tag_text tag) 0 ports.now }
{
    has_port(ports, tag.text().as_bytes(), 0)
}

fn many(tag: Tag, kind: Kind, count: u32) -> Row
    ensures { result ≡ table.many tag kind count }
{
    Row {
        tag,
        kind,
        count,
        first: None,
        last: None,
    }
}

fn many_and(tag: Tag, kind: Kind, count: u32, last_tag: Tag, last_kind: Kind) -> Row
    ensures { result ≡ table.many_and tag kind count last_tag last_kind }
{
    let last = EndPort {
        tag: last_tag,
        kind: last_kind,
    };
    Row {
        tag,
        kind,
        count,
        first: None,
        last: Some(last),
    }
}

fn after_one(tag: Tag, kind: Kind, row: Row) -> Row
    ensures { result ≡ table.after_one tag kind row }
{
    Row {
        first: Some(EndPort { tag, kind }),
        ..row
    }
}

/// Returns how many lanes a node has: inputs that are treated alike, or side packets that it writes.
pub fn lanes_of(kind: CalculatorKind, node: &NodeConfig) -> u32
    ensures { result ≡ table.lanes_of kind (node_view node.now) }
{
    match kind {
        CalculatorKind::Gate | CalculatorKind::Mux | CalculatorKind::Cloner => {
            node.inputs.len().saturating_sub(1)
        }
        CalculatorKind::Merge => node.inputs.len(),
        CalculatorKind::Compute(computation) => {
            if computation.wiring().many {
                node.inputs.len()
            } else {
                1
            }
        }
        CalculatorKind::Constants => node.output_sides.len(),
        _ => 1,
    }
}

/// Returns how many ports CLONE a BeginLoop has at a node.
pub fn clones_of(node: &NodeConfig) -> u32
    ensures { result ≡ table.clones_of (node_view node.now) }
{
    node.inputs.len().saturating_sub(1)
}

/// Returns whether a gate's control port is DISALLOW.
pub fn disallows(node: &NodeConfig) -> bool
    ensures { result ≡ table.disallows (node_view node.now) }
{
    has_tag(&node.inputs, Tag::Disallow)
}

fn control_of(node: &NodeConfig) -> Tag
    ensures { result ≡ table.control_of (node_view node.now) }
{
    if disallows(node) {
        Tag::Disallow
    } else {
        Tag::Allow
    }
}

/// Returns the output tag of a SidePacketToStreamCalculator. The tag says at what time the calculator's only packet stands.
pub fn moment_of(node: &NodeConfig) -> Tag
    ensures { result ≡ table.moment_of (node_view node.now) }
{
    if has_tag(&node.outputs, Tag::AtPreStream) {
        Tag::AtPreStream
    } else if has_tag(&node.outputs, Tag::AtZero) {
        Tag::AtZero
    } else {
        Tag::AtPostStream
    }
}

/// Returns the input ports that a calculator has at a node. PassThroughCalculator has none here: it takes those of the node.
pub fn inputs_of(kind: CalculatorKind, node: &NodeConfig) -> Row
    ensures { result ≡ table.inputs_of kind (node_view node.now) }
{
    let lanes = lanes_of(kind, node);
    match kind {
        CalculatorKind::Gate => {
            many_and(
                Tag::Untagged,
                Kind::Any,
                lanes,
                control_of(node),
                Kind::Flag,
            )
        }
        CalculatorKind::Mux => many_and(Tag::Input, Kind::Any, lanes, Tag::Select, Kind::Int),
        CalculatorKind::Cloner => many_and(Tag::Untagged, Kind::Any, lanes, Tag::Tick, Kind::Any),
        CalculatorKind::Loopback => many_and(Tag::Loop, Kind::Any, 1, Tag::Main, Kind::Any),
        CalculatorKind::FlowLimiter => {
            many_and(Tag::Untagged, Kind::Any, 1, Tag::Finished, Kind::Any)
        }
        CalculatorKind::BeginLoop => {
            many_and(
                Tag::Clone,
                Kind::Any,
                clones_of(node),
                Tag::Iterable,
                Kind::Items,
            )
        }
        CalculatorKind::EndLoop => many_and(Tag::BatchEnd, Kind::Int, 1, Tag::Item, Kind::Any),
        CalculatorKind::Merge | CalculatorKind::Thinner | CalculatorKind::Shift => {
            many(Tag::Untagged, Kind::Any, lanes)
        }
        CalculatorKind::Compute(computation) => {
            many(Tag::Untagged, computation.wiring().takes, lanes)
        }
        CalculatorKind::Filter => many(Tag::Untagged, Kind::Int, lanes),
        CalculatorKind::PassThrough
        | CalculatorKind::Counting
        | CalculatorKind::SideToStream
        | CalculatorKind::Constants => many(Tag::Untagged, Kind::Any, 0),
    }
}

/// Returns the output ports that a calculator has at a node. PassThroughCalculator has none here: it takes those of the node.
pub fn outputs_of(kind: CalculatorKind, node: &NodeConfig) -> Row
    ensures { result ≡ table.outputs_of kind (node_view node.now) }
{
    match kind {
        CalculatorKind::Gate | CalculatorKind::Cloner => {
            many(Tag::Untagged, Kind::Any, lanes_of(kind, node))
        }
        CalculatorKind::Mux => many(Tag::Output, Kind::Any, 1),
        CalculatorKind::BeginLoop => {
            let items = many_and(Tag::Clone, Kind::Any, clones_of(node), Tag::Item, Kind::Any);
            after_one(Tag::BatchEnd, Kind::Int, items)
        }
        CalculatorKind::EndLoop => many(Tag::Iterable, Kind::Items, 1),
        CalculatorKind::Loopback => many(Tag::PrevLoop, Kind::Any, 1),
        CalculatorKind::SideToStream => many(moment_of(node), Kind::Any, 1),
        CalculatorKind::Merge
        | CalculatorKind::Thinner
        | CalculatorKind::Shift
        | CalculatorKind::FlowLimiter => many(Tag::Untagged, Kind::Any, 1),
        CalculatorKind::Compute(computation) => {
            many(Tag::Untagged, computation.wiring().gives, 1)
        }
        CalculatorKind::Filter | CalculatorKind::Counting => many(Tag::Untagged, Kind::Int, 1),
        CalculatorKind::PassThrough | CalculatorKind::Constants => {
            many(Tag::Untagged, Kind::Any, 0)
        }
    }
}

/// Returns the ports of the side packets that a calculator takes.
pub fn sides_of(kind: CalculatorKind) -> Row
    ensures { result ≡ table.sides_of kind }
{
    match kind {
        CalculatorKind::SideToStream => many(Tag::Untagged, Kind::Any, 1),
        _ => many(Tag::Untagged, Kind::Any, 0),
    }
}

/// Returns the ports of the side packets that a calculator writes at a node.
pub fn side_outputs_of(kind: CalculatorKind, node: &NodeConfig) -> Row
    ensures { result ≡ table.side_outputs_of kind (node_view node.now) }
{
    match kind {
        CalculatorKind::Constants => many(Tag::Packet, Kind::Any, lanes_of(kind, node)),
        _ => many(Tag::Untagged, Kind::Any, 0),
    }
}
