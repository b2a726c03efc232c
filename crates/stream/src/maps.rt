// The order of offsets: the maps that are open where a walk stands, and the window that is lent for those around the innermost.
ghost use Rattle.std.specs.Prelude.{◌≡◌, ◌+◌, ◌*◌, ◌≤◌, length};
ghost use Rattle.qptr.specs.Values.{part_of, command_of};
ghost use Rattle.stream.specs.Head.{PartAt};
ghost use Rattle.stream.specs.Walk.{InOrder};
ghost use Rattle.stream.specs.Window.{levels, Held, Pushed, Popped, Follows, Makes, Enters};

use crate::walk::{entries, skip};
use numbers::{get16, get32, put16, put32};
use qptr::Node;

// The bytes of a level in a window: the entries left of a map but one, in two, and its last offset.
const LEVEL: usize = 6;

// The maps around a place of which entries are left there, and whose order is still to be seen: how many are left of the innermost and
// its last offset, and how many levels of a window are for those around it. None is left only if there is no such map.
// The window is lent beside this: only `push` writes it, and what calls `push` would have to say that it is the same one still.
#[derive(Clone, Copy)]
pub(super) struct Maps {
    left: u32,
    last: u32,
    outer: usize,
}

impl Maps {
    pub(super) const NONE: Maps = Maps {
        left: 0,
        last: 0,
        outer: 0,
    };

    // The innermost map goes into the window, and another may take its place.
    fn push(self, window: &mut [u8]) -> Maps
        requires { (self.outer * 6 + 6 ≤ length window.old) × (1 ≤ self.left) × (self.left ≤ 65536) }
        ensures { Pushed self window.old window.new result }
    {
        let at = self.outer * LEVEL;
        put16(window, at, self.left - 1);
        put32(window, at + 2, self.last);
        Maps {
            outer: self.outer + 1,
            ..Maps::NONE
        }
    }

    // The map of the uppermost of so many levels becomes the innermost.
    fn pop(outer: usize, window: &[u8]) -> Maps
        requires { outer * 6 ≤ length window.now }
        ensures { Popped outer window.now result }
    {
        if outer == 0 {
            return Maps::NONE;
        }
        let top = outer - 1;
        let at = top * LEVEL;
        Maps {
            left: u32::from(get16(window, at)) + 1,
            last: get32(window, at + 2),
            outer: top,
        }
    }

    // The maps behind the offset of the innermost one's next entry, if that is above its last one. A map goes with its last entry, so a
    // nest whose deep entries come last needs no window.
    fn follow(self, offset: u32, window: &[u8]) -> Option<Maps>
        requires { Held self window.now × (1 ≤ self.left) }
        ensures { Follows self offset window.now result }
    {
        if offset <= self.last {
            return None;
        }
        if self.left == 1 {
            return Some(Maps::pop(self.outer, window));
        }
        Some(Maps {
            left: self.left - 1,
            last: offset,
            ..self
        })
    }
}

// Whether the offsets of all these maps ascend, from the node at `from` on to the end of the outermost. What lies further in is stepped
// over. Where it is not a node, the answer does not matter.
fn in_order(s: &[u8], from: usize, maps: Maps, window: &[u8]) -> bool
    requires { Held maps window.now × (from ≤ length s.now) }
    ensures { InOrder s.now from (levels maps window.now) result }
{
    let mut at = from;
    let mut around = maps;
    while 0 < around.left {
        let Some(next) = skip(s, at) else {
            return false;
        };
        if s.len() - next < 4 {
            return false;
        }
        let Some(rest) = around.follow(get32(s, next), window) else {
            return false;
        };
        at = next + 4;
        around = rest;
    }
    true
}

// Room for one more map, which begins at `at`. Where the window is full, all maps that it has are looked at in one go, and none is kept
// any more: so that happens once for as many maps as there are levels, and not for each map.
fn room(s: &[u8], at: usize, maps: Maps, window: &mut [u8]) -> Option<Maps>
    requires { Held maps window.old × (at ≤ length s.now) }
    ensures { Makes s.now at maps window.old window.new result }
{
    if maps.left == 0 {
        return Some(maps);
    }
    if LEVEL <= window.len() - maps.outer * LEVEL {
        return Some(maps.push(window));
    }
    if in_order(s, at, maps, window) {
        return Some(Maps::NONE);
    }
    None
}

// The maps behind the offset at `end`, of the next entry behind the own part at `at`: the first of a map that this own part opens, else
// the next of the innermost map. Of a map of one entry there is no order to see.
pub(super) fn entered(
    s: &[u8],
    at: usize,
    node: Node,
    end: usize,
    maps: Maps,
    window: &mut [u8],
) -> Option<Maps>
    requires { PartAt s.now at node end × (command_of node.kind ≡ 0x04 → ⊥) × (end + 4 ≤ length s.now) × Held maps window.old }
    ensures { Enters s.now at (part_of node) end maps window.old window.new result }
{
    let offset = get32(s, end);
    let count = entries(node);
    if count == 0 {
        if maps.left == 0 {
            return Some(maps);
        }
        return maps.follow(offset, window);
    }
    if count == 1 {
        return Some(maps);
    }
    let around = room(s, at, maps, window)?;
    Some(Maps {
        left: count - 1,
        last: offset,
        ..around
    })
}
