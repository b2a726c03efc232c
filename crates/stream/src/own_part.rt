// A node's own part: its kind, its size and its argument, before anything that stands further down.
ghost use Rattle.std.specs.Prelude.{◌≡◌, ◌+◌, ◌-◌, ◌≤◌, ◌<◌, length, get_or};
ghost use Rattle.qptr.specs.Values.{command_of};
ghost use Rattle.numbers.specs.Words.{Width};
ghost use Rattle.stream.specs.Head.{Admits, SizeShows, Shows, Outlines};

use numbers::number;
use qptr::{Command, Kind, MaxSize, Node};

// A node's own part at a place, and where that ends.
#[derive(Clone, Copy)]
pub struct HeaderAt {
    pub node: Node,
    pub end: usize,
}

// The size in the `width` bytes from `at` on: flag 1 and a number, or flag 0 and the number 0. In no bytes there is none.
fn size(s: &[u8], at: usize, width: usize) -> Option<MaxSize>
    requires { Width (width - 1) × (at + width ≤ length s.now) }
    ensures { SizeShows width s.now at result }
{
    if width == 0 {
        return None;
    }
    let flag = s[at];
    let n = number(s, at + 1, width - 1);
    match flag {
        1 => Some(MaxSize::Fixed(n)),
        0 if n == 0 => Some(MaxSize::Dynamic),
        _ => None,
    }
}

// The own part with this command at `at`, but for its size: the size told is none, and the stride is not looked at.
fn outlined(s: &[u8], at: usize, kind: Kind) -> Option<HeaderAt>
    requires { (at < length s.now) × (get_or s.now at 0 ≡ command_of kind) }
    ensures { Outlines s.now at result }
{
    let row = Command::of(kind.command());
    let before = 1 + row.size;
    let width = before + row.argument;
    if s.len() - at < width {
        return None;
    }
    let argument = number(s, at + before, row.argument);
    Some(HeaderAt {
        node: Node::new(kind, MaxSize::Dynamic, argument),
        end: at + width,
    })
}

// The own part at `at`, but for its size, which only says whether there is one. `skip` needs no more, because it answers only for what
// is a node, and it should not do more, because it may pass a node many times. Each command has an arm of its own, where its widths are
// constants, so that the processor foresees the next place and does not wait for this command and the table: with one arm for all, streams of
// deep maps took up to 1.8 times as long to step over. Of four arms side by side a compiler makes a table of jumps, which not every processor
// foresees: there are at most three.
pub(super) fn outline(s: &[u8], at: usize) -> Option<HeaderAt>
    requires { at ≤ length s.now }
    ensures { Outlines s.now at result }
{
    if s.len() == at {
        return None;
    }
    let command = s[at];
    if command < 0x03 {
        return match command {
            0x00 => outlined(s, at, Kind::Unused),
            0x01 => outlined(s, at, Kind::StrictlyTyped),
            0x02 => outlined(s, at, Kind::DirectAccess),
            _ => None,
        };
    }
    match command {
        0x03 => outlined(s, at, Kind::OffsetBase),
        0x04 => outlined(s, at, Kind::DynOffsetBase),
        _ => None,
    }
}

// Whether a node of this kind may have such an argument: a stride is not 0.
fn admits(kind: Kind, argument: u32) -> bool
    ensures { Admits (command_of kind) argument result }
{
    match kind {
        Kind::DynOffsetBase => argument != 0,
        _ => true,
    }
}

// The own part at `at`, of its outline: the size is looked at too, and the stride. With `outline` it is compiled into each walk.
pub(super) fn sized(s: &[u8], at: usize, outline: Option<HeaderAt>) -> Option<HeaderAt>
    requires { Outlines s.now at outline }
    ensures { Shows s.now at result }
{
    let HeaderAt { node, end } = outline?;
    let kind = node.kind;
    let argument = node.argument;
    let size = size(s, at + 1, Command::of(kind.command()).size)?;
    if !admits(kind, argument) {
        return None;
    }
    Some(HeaderAt {
        node: Node::new(kind, size, argument),
        end,
    })
}

// The own part of the node at `at`: its kind, its size and its argument.
pub fn header(s: &[u8], at: usize) -> Option<HeaderAt>
    requires { at ≤ length s.now }
    ensures { Shows s.now at result }
{
    sized(s, at, outline(s, at))
}
