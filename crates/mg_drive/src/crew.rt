use mg_calc::{Law, Plan, PlanNode, Producer};
use mg_edge::Gate;
use mg_settled::PrefixList;

// How many packets a net with loops over lists has to get before workers are called, if no calculator's law is stated. Each packet may be a
// list, but nobody knows whether fewer packets are worth the start of threads.
const LEAST: u64 = 256;

// The least number of sets with which a part of a graph is worth a worker: some half a millisecond of work.
const WORTH: u64 = 4096;

// The most nodes of a plan.
const NODES: usize = 4096;

// One more than the most parts of a graph that are told apart. It is also the number of what several parts lead to.
const MIXED: u8 = 65;

/// What workers need: a runtime that starts threads and may wait for them, and the gate round each Process call.
#[derive(Drop)]
pub struct Crew<'a, R, G: Gate> {
    pub rt: &'a R,
    pub gate: &'a G,
}

// Whether a node's calculator is one of its author's own. A call of it may take long. Each law of the table does a set in less than a
// microsecond, also in a box. To hand the set to another thread takes about as long.
fn is_own(node: &PlanNode) -> bool {
    matches!(node.law, Law::Stated { .. })
}

// Returns how many nodes of a plan have calculators of their authors' own.
fn own_nodes(plan: &Plan) -> u32 {
    let mut own: u32 = 0;
    for node in plan.nodes.as_slice() {
        if is_own(node) {
            own = own.saturating_add(1);
        }
    }
    own
}

// Whether a plan has loops over lists.
fn has_list_loops(plan: &Plan) -> bool {
    for node in plan.nodes.as_slice() {
        if let Law::BeginLoop { .. } = node.law {
            return true;
        }
    }
    false
}

// Whether several sets of some node may be worked on at once. Workers take such a node in turn, each for one set, which costs more than a
// cheap set does.
fn has_flights(plan: &Plan) -> bool {
    for node in plan.nodes.as_slice() {
        if node.in_flight > 1 {
            return true;
        }
    }
    false
}

// The parts of a graph. A part begins at a source of numbers, or at the begin of a loop over lists to which no part leads. It has all nodes
// to which it leads alone.
#[derive(Drop)]
struct Parts {
    // The part of each node, counted from 1. It is 0 if no part leads there, and `MIXED` if several do.
    of: [u8; NODES],
    // How many packets begin each part, as far as that is known, and how many sets its nodes have then.
    packets: [u64; MIXED as usize],
    sets: [u64; MIXED as usize],
    // How many parts there are.
    count: u8,
    // How many nodes are in some part, and how many aren't.
    inside: u32,
    outside: u32,
}

// Returns the part to which two others lead.
fn joined(one: u8, other: u8) -> u8 {
    if one == 0 || one == other {
        other
    } else if other == 0 {
        one
    } else {
        MIXED
    }
}

impl Parts {
    fn new() -> Parts {
        Parts {
            of: [0; NODES],
            packets: [0; MIXED as usize],
            sets: [0; MIXED as usize],
            count: 0,
            inside: 0,
            outside: 0,
        }
    }

    // Returns the part of what writes a stream.
    fn before(&self, plan: &Plan, stream: u32) -> u8 {
        let Some(stream) = plan.streams.as_slice().get(stream as usize) else {
            return 0;
        };
        match stream.producer {
            Producer::Node { node, .. } => self.of.get(node as usize).copied().unwrap_or(0),
            Producer::Input(_) => 0,
        }
    }

    // Returns the part that leads to a node, by the nodes whose parts are known.
    fn leading(&self, plan: &Plan, node: &PlanNode) -> u8 {
        let mut part = 0;
        for stream in node.inputs.as_slice() {
            part = joined(part, self.before(plan, *stream));
        }
        part
    }

    // Returns the number of a new part, which so many packets begin, or `MIXED` if there are too many.
    fn begin(&mut self, packets: u64) -> u8 {
        if self.count >= MIXED - 1 {
            return MIXED;
        }
        self.count += 1;
        if let Some(place) = self.packets.get_mut(self.count as usize) {
            *place = packets;
        }
        self.count
    }

    // Returns the part of a node, by the part that leads to it.
    fn part_of(&mut self, node: &PlanNode, leading: u8) -> u8 {
        match node.law {
            Law::Count { count, .. } => self.begin(u64::from(count)),
            Law::BeginLoop { .. } if leading == 0 => self.begin(WORTH),
            _ => leading,
        }
    }

    // Notes the part of the node of a number.
    fn note(&mut self, number: u32, part: u8) {
        if let Some(place) = self.of.get_mut(number as usize) {
            *place = part;
        }
        let packets = self.packets.get(part as usize).copied().unwrap_or(0);
        if packets == 0 {
            self.outside = self.outside.saturating_add(1);
            return;
        }
        self.inside = self.inside.saturating_add(1);
        if let Some(sets) = self.sets.get_mut(part as usize) {
            *sets = sets.saturating_add(packets);
        }
    }

    // Notes the parts of all nodes. A node that a back edge leads to goes by its other edges.
    fn note_all(&mut self, plan: &Plan) {
        for number in plan.order.as_slice() {
            if let Some(node) = plan.nodes.as_slice().get(*number as usize) {
                let leading = self.leading(plan, node);
                let part = self.part_of(node, leading);
                self.note(*number, part);
            }
        }
    }

    // Whether a back edge leads from one part to another one. The two then wait for one another.
    fn are_tied(&self, plan: &Plan) -> bool {
        for edge in plan.edges.as_slice() {
            if edge.back && self.before(plan, edge.stream) != self.part_at(edge.node) {
                return true;
            }
        }
        false
    }

    fn part_at(&self, node: u32) -> u8 {
        self.of.get(node as usize).copied().unwrap_or(0)
    }

    // Returns how many parts are worth a worker.
    fn worth(&self) -> u32 {
        let mut worth: u32 = 0;
        for sets in self.sets {
            if sets >= WORTH {
                worth = worth.saturating_add(1);
            }
        }
        worth
    }
}

// Returns how many parts of a graph are worth a worker each. The result is 0 if several sets of some node may be worked on at once, or if a
// part waits for another part. It is also 0 if fewer than half of the nodes are in parts.
fn parts_in(plan: &Plan) -> u32 {
    if has_flights(plan) {
        return 0;
    }
    let mut parts = Parts::new();
    parts.note_all(plan);
    if parts.inside < parts.outside || parts.are_tied(plan) {
        return 0;
    }
    parts.worth()
}

/// Returns how many workers are called for a plan: as many as it asks for, but no more than have something to do for long. Each calculator
/// of its author's own counts as one. So does each part of the graph that is worth a worker. All other nodes beside a calculator of its
/// author's own count as one if no part does. A single worker would do no more than a sweep does, so the result is 0 in place of 1.
pub(crate) fn workers_for(plan: &Plan) -> u32 {
    if plan.workers < 2 {
        return 0;
    }
    let own = own_nodes(plan);
    let rest = if own < plan.nodes.len() { 1 } else { 0 };
    let parts = parts_in(plan);
    let worth = if own > 0 {
        own.saturating_add(parts.max(rest))
    } else {
        parts
    };
    let workers = worth.min(plan.workers);
    if workers > 1 { workers } else { 0 }
}

/// Returns how many packets the net of a plan has to get before workers are called. One is enough if some calculator is its author's own,
/// and `LEAST` if there are loops over lists. Otherwise only sources are worth workers, which have no packets to wait for.
pub(crate) fn least_for(plan: &Plan) -> u64 {
    if own_nodes(plan) > 0 {
        1
    } else if has_list_loops(plan) {
        LEAST
    } else {
        u64::MAX
    }
}

/// Whether a plan has sources, so that its net may have something to do before any packet came.
pub(crate) fn has_sources(plan: &Plan) -> bool {
    for node in plan.nodes.as_slice() {
        if node.inputs.is_empty() {
            return true;
        }
    }
    false
}

/// Returns how many packets some pieces have together.
pub(crate) fn packets_in(pieces: &PrefixList) -> u64 {
    let mut packets: u64 = 0;
    for stream in pieces.as_slice() {
        packets = packets.saturating_add(u64::from(stream.packets.len()));
    }
    packets
}
