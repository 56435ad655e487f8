//! The nodes that may run: what is taken out, and in what order.

ghost use Rattle.std.specs.Prelude.{◌≡◌, ◌≢◌, ℕ, ◌<◌, true, false, AllPairs, length, slice_index};

use mg_ready::Ready;
use mg_tables::{Calls, assert_rows};
use mg_value::BlockList;
use std::alloc::Global;
use std::test::Fail;

// Rows of a call each, all of one set of nodes. After `=` stands the answer: for `take` the node, or `-` if there is none. `all`
// puts in each node, first the nodes at every fifth place. `rest` takes nodes until there is none.
fn three() -> &'static str {
    "put 1=ok
put 2=ok
put 1=ok
take=2
take=1
take=-"
}

fn one() -> &'static str {
    "take=-
put 7=ok
put 7=ok
take=7
take=-
drop 7=ok
put 7=ok
drop 7=ok
take=-"
}

// Priority is the place in the order, and not the number.
fn by_place() -> &'static str {
    "all=ok
take=4
put 9=ok
drop 0=ok
rest=2 9 5
all=ok
drop 4=ok
drop 5=ok
rest=2 0 9"
}

// One bucket. Its last place, its first place and a place between them are dropped.
fn one_bucket() -> &'static str {
    "all=ok
drop 31=ok
drop 0=ok
drop 16=ok
drop 16=ok
take=30
put 31=ok
put 0=ok
rest=31 29 28 27 26 25 24 23 22 21 20 19 18 17 15 14 13 12 11 10 9 8 7 6 5 4 3 2 1 0
take=-"
}

// Two buckets, the second with a single place.
fn two_buckets() -> &'static str {
    "all=ok
take=32
drop 31=ok
drop 1=ok
put 32=ok
drop 32=ok
rest=30 29 28 27 26 25 24 23 22 21 20 19 18 17 16 15 14 13 12 11 10 9 8 7 6 5 4 3 2 0
put 0=ok
put 32=ok
rest=32 0"
}

// Many buckets, and two words of bits. `falls` takes nodes as long as they come in falling order, and answers how many did.
fn many() -> &'static str {
    "all=ok
falls=4096
put 31=ok
put 4095=ok
put 2048=ok
put 2047=ok
put 32=ok
drop 2048=ok
rest=4095 2047 32 31
all=ok
drop 4095=ok
take=4094"
}

// Nodes in an order, and those of them that may run.
#[derive(Drop)]
struct Nodes {
    order: Vec<u32>,
    ready: Ready,
    ghost same: { ready.order ≡ order.items },
}

// Returns whether the number at a place stands at an earlier place too.
fn stands_before(order: &[u32], place: usize) -> bool
    requires { place < length order.now }
    ensures { result ≡ false → (i : ℕ) → i < place → slice_index order.now i ≢ slice_index order.now place }
{
    for i in 0..place {
        if order[i] == order[place] {
            return true;
        }
    }
    false
}

/// Returns whether no number stands twice.
pub(crate) fn is_distinct(order: &[u32]) -> bool
    ensures { result ≡ true → AllPairs (λ a b. a ≢ b) order.now }
{
    for place in 0..order.len() {
        if stands_before(order, place) {
            return false;
        }
    }
    true
}

fn nodes_in(alloc: Global, order: Vec<u32>) -> Result<Nodes, Fail> {
    if !is_distinct(order.as_slice()) {
        return Err(Fail::from("a node stands twice"));
    }
    let list = BlockList::from_vec(order).map_err(|_| "too many nodes")?;
    let ready = Ready::new(alloc, &list)?;
    Ok(Nodes {
        order: list.into_vec(),
        ready,
    })
}

// Returns the nodes 0, 1 and so on, as many as `count`, in this order.
fn counted(alloc: Global, count: u32) -> Result<Nodes, Fail> {
    let mut order = Vec::new(alloc);
    for node in 0..count {
        order.push(node)?;
    }
    nodes_in(alloc, order)
}

impl Nodes {
    fn put(&mut self, node: u32) {
        if self.order.contains(&node) {
            self.ready.put(node);
        }
    }

    fn drop_node(&mut self, node: u32) {
        if self.order.contains(&node) {
            self.ready.drop_node(node);
        }
    }

    fn put_each_fifth(&mut self, first: usize) {
        for place in 0..self.order.len() {
            if place % 5 == first {
                let node = self.order[place];
                self.ready.put(node);
            }
        }
    }

    fn rest(&mut self, alloc: Global) -> Result<String, Fail> {
        let mut shown = String::new(alloc);
        for taken in 0..self.order.len() {
            match self.ready.take() {
                None => return Ok(shown),
                Some(node) if taken == 0 => write!(shown, "{node}")?,
                Some(node) => write!(shown, " {node}")?,
            }
        }
        Ok(shown)
    }

    fn falls(&mut self) -> usize {
        for place in (0..self.order.len()).rev() {
            let node = self.order[place];
            if self.ready.take() != Some(node) {
                return self.order.len() - 1 - place;
            }
        }
        self.order.len()
    }

    fn take(&mut self, alloc: Global) -> Result<String, Fail> {
        match self.ready.take() {
            None => Ok(String::from_str(alloc, "-")?),
            Some(node) => Ok(format!(in alloc; "{node}")?),
        }
    }

    // Makes a call that has no answer: `put` or `drop` of a node, or `all`.
    fn change(&mut self, name: &str, node: &str) -> Result<(), Fail> {
        if name == "put" {
            self.put(node.parse::<u32>()?);
        } else if name == "drop" {
            self.drop_node(node.parse::<u32>()?);
        } else {
            for first in 0..5 {
                self.put_each_fifth(first);
            }
        }
        Ok(())
    }
}

impl Calls for Nodes {
    fn answer(&mut self, alloc: Global, call: &str) -> Result<String, Fail> {
        let (name, node) = call.split_once(' ').unwrap_or((call, ""));
        if name == "take" {
            self.take(alloc)
        } else if name == "rest" {
            self.rest(alloc)
        } else if name == "falls" {
            Ok(format!(in alloc; "{}", self.falls())?)
        } else {
            self.change(name, node)?;
            Ok(String::from_str(alloc, "ok")?)
        }
    }
}

// Checks that each row of calls of these nodes is answered as it says.
fn expect_rows(alloc: Global, nodes: Nodes, rows: &str) -> Result<(), Fail> {
    let mut nodes = nodes;
    let answered = assert_rows(alloc, &mut nodes, rows);
    drop(nodes);
    answered
}

// Returns five nodes whose order isn't that of their numbers.
fn five_places(alloc: Global) -> Result<Nodes, Fail> {
    nodes_in(alloc, vec![in alloc; 5, 9, 0, 2, 4]?)
}

// Returns one node, whose number isn't 0.
fn one_place(alloc: Global) -> Result<Nodes, Fail> {
    nodes_in(alloc, vec![in alloc; 7]?)
}

#[test]
fn the_last_in_the_order_goes_first(rt: HostRuntime) -> Result<(), Fail> {
    let alloc = rt.alloc();
    expect_rows(alloc, counted(alloc, 3)?, three())?;
    expect_rows(alloc, one_place(alloc)?, one())?;
    expect_rows(alloc, five_places(alloc)?, by_place())?;
    expect_rows(alloc, counted(alloc, 32)?, one_bucket())?;
    expect_rows(alloc, counted(alloc, 33)?, two_buckets())?;
    expect_rows(alloc, counted(alloc, 4096)?, many())
}
