// The walk over the nodes of a stream, in their order, from own part to own part.
ghost use Rattle.std.specs.Prelude.{◌≡◌, ◌≤◌, length};
ghost use Rattle.qptr.specs.Values.{part_of};
ghost use Rattle.stream.specs.Walk.{entries_of, Goes, Skips};

use crate::own_part::{HeaderAt, outline};
use qptr::{Kind, Node};

// How a walk over nodes goes on behind an own part: at an array's element; at an entry, with so many owed behind that one; or it has
// come to its end.
#[derive(Clone, Copy)]
pub(super) enum Next {
    Element,
    Entry(usize),
    End,
}

// The entries that a node opens.
pub(super) fn entries(node: Node) -> u32
    ensures { result ≡ entries_of (part_of node) }
{
    let kind = node.kind;
    match kind {
        Kind::OffsetBase => node.argument,
        _ => 0,
    }
}

// The walk behind a node's own part. An array's element comes next. Otherwise only maps leave anything open behind a finished
// node, so what comes next is an entry, with its offset in front. Each entry that is owed has four bytes at least, so `owed`
// stays below the bytes that are left. It counts with lengths, in `usize`, which has no From of a count of entries.
pub(super) fn past(s: &[u8], node: Node, end: usize, owed: usize) -> Option<Next>
    requires { (end ≤ length s.now) × (owed ≤ length s.now) }
    ensures { Goes s.now (part_of node) end owed result }
{
    if node.kind == Kind::DynOffsetBase {
        return Some(Next::Element);
    }
    let owing = entries(node) as usize + owed;
    if owing == 0 {
        return Some(Next::End);
    }
    if (s.len() - end) / 4 < owing {
        return None;
    }
    Some(Next::Entry(owing - 1))
}

// Where the node at `from` ends, if it is one. The order of offsets is not looked at, nor are sizes and strides.
pub(super) fn skip(s: &[u8], from: usize) -> Option<usize>
    requires { from ≤ length s.now }
    ensures { Skips s.now from result }
{
    let mut at = from;
    let mut owed: usize = 0;
    loop {
        let HeaderAt { node, end } = outline(s, at)?;
        match past(s, node, end, owed)? {
            Next::Element => {
                at = end;
            }
            Next::Entry(owing) => {
                at = end + 4;
                owed = owing;
            }
            Next::End => return Some(end),
        }
    }
}
