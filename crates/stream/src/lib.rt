// Streams: which bytes are one. A stream may be longer and deeper than any stack, so nothing here recurses. A place is counted from the
// stream's start, and no rest is passed on as a slice: where a node ends is what is asked, and a full window is looked at from an earlier
// place. A window that is lent, of any length, has room for some levels; what it holds before and afterwards does not matter.
#![tactic(auto)]

ghost use Rattle.std.specs.Prelude.{◌≡◌, ◌+◌, ◌≤◌, length, drop};
ghost use Rattle.definitions.specs.Limits.{max32};
ghost use Rattle.definitions.specs.Usage.{nodes, nodes_of, top_nodes, all_nodes};
ghost use Rattle.definitions.specs.Stream.{read_node, read_nodes, whole, top_of, memory_of, list_of};
ghost use Rattle.qptr.specs.Values.{part_of};
ghost use Rattle.stream.specs.Found.{type_bound, bound_of, top_bound, all_bound, opaque_of, told, Spans};
ghost use Rattle.stream.specs.Walk.{own_bound};

use maps::{Maps, entered};
use numbers::number;
use own_part::{outline, sized};
use qptr::{BUFFER, Command, Kind, LIST, MEMORY, Node, OPAQUE};
use walk::{Next, past};

mod maps;
mod own_part;
mod walk;

pub use own_part::{HeaderAt, header};

// What acceptance tells of a stream: its nodes, and one more than its largest type (0 for no type), as the definitions count.
#[derive(Clone, Copy)]
pub struct Found {
    pub nodes: usize,
    pub types: u64,
}

// The node at a place: where it ends, and what it tells.
#[derive(Clone, Copy)]
pub struct Span {
    pub end: usize,
    pub nodes: usize,
    pub types: u64,
}

// One more than the type of a leaf.
fn bound(node: Node) -> u64
    ensures { (result ≡ own_bound (part_of node)) × (result ≤ max32 + 1) }
{
    let kind = node.kind;
    match kind {
        Kind::StrictlyTyped | Kind::DirectAccess => u64::from(node.argument) + 1,
        _ => 0,
    }
}

// The node at `from`, with every rule of acceptance.
pub fn node(s: &[u8], from: usize, window: &mut [u8]) -> Option<Span>
    requires { from ≤ length s.now }
    ensures { Spans s.now from result }
{
    let mut at = from;
    let mut owed: usize = 0;
    let mut maps = Maps::NONE;
    let mut nodes: usize = 0;
    let mut types: u64 = 0;
    loop {
        let HeaderAt { node, end } = sized(s, at, outline(s, at))?;
        nodes += 1;
        types = types.max(bound(node));
        match past(s, node, end, owed)? {
            Next::Element => {
                at = end;
            }
            Next::Entry(owing) => {
                maps = entered(s, at, node, end, maps, window)?;
                at = end + 4;
                owed = owing;
            }
            Next::End => return Some(Span { end, nodes, types }),
        }
    }
}

// What the node from `at` on tells, with nothing left over.
fn alone(s: &[u8], at: usize, window: &mut [u8]) -> Option<Found>
    requires { at ≤ length s.now }
    ensures { result ≡ told nodes type_bound (whole (read_node (drop at s.now))) }
{
    let Span { end, nodes, types } = node(s, at, window)?;
    if end == s.len() {
        Some(Found { nodes, types })
    } else {
        None
    }
}

// What an Opaque tells, of its type behind the command, with nothing left over.
fn opaque(s: &[u8]) -> Option<Found>
    requires { 1 ≤ length s.now }
    ensures { result ≡ told top_nodes top_bound (opaque_of (drop 1 s.now)) }
{
    let width = Command::of(OPAQUE).argument;
    if s.len() != 1 + width {
        return None;
    }
    let ty = number(s, 1, width);
    Some(Found {
        nodes: 0,
        types: u64::from(ty) + 1,
    })
}

// `count` nodes from `from` on, with nothing left over.
fn several(s: &[u8], from: usize, count: u32, window: &mut [u8]) -> Option<Found>
    requires { from ≤ length s.now }
    ensures { result ≡ told nodes_of bound_of (whole (read_nodes count (drop from s.now))) }
{
    let mut at = from;
    let mut nodes: usize = 0;
    let mut types: u64 = 0;
    for _ in 0..count {
        let span = node(s, at, window)?;
        at = span.end;
        nodes += span.nodes;
        types = types.max(span.types);
    }
    if at == s.len() {
        Some(Found { nodes, types })
    } else {
        None
    }
}

// A Memory: 0A and a node.
pub fn memory(s: &[u8], window: &mut [u8]) -> Option<Found>
    ensures { result ≡ told nodes type_bound (memory_of s.now) }
{
    match s {
        [MEMORY, ..] => alone(s, 1, window),
        _ => None,
    }
}

// A top: 08 and a type, or 09 or 0A and a node. Which of them it is, the first byte says.
pub fn top(s: &[u8], window: &mut [u8]) -> Option<Found>
    ensures { result ≡ told top_nodes top_bound (top_of s.now) }
{
    match s {
        [OPAQUE, ..] => opaque(s),
        [BUFFER | MEMORY, ..] => alone(s, 1, window),
        _ => None,
    }
}

// A list: 0B, a count of at least 1, and so many nodes.
pub fn list(s: &[u8], window: &mut [u8]) -> Option<Found>
    ensures { result ≡ told all_nodes all_bound (list_of s.now) }
{
    let [LIST, rest @ ..] = s else {
        return None;
    };
    let width = Command::of(LIST).argument;
    if rest.len() < width {
        return None;
    }
    let count = number(s, 1, width);
    if count == 0 {
        return None;
    }
    several(s, 1 + width, count, window)
}
