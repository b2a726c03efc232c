// Sizes, commands and memory nodes: the values of the source's `qptr/mod.rs` and `qptr/shapes.rs`; and the choices that a call is made with.
#![tactic(auto)]

ghost use Rattle.std.specs.Prelude.{◌≡◌, ◌<◌, true, false, Result};
ghost use Rattle.definitions.specs.Usage.{Usage, unused, leaf, map, array, Entries, count};
ghost use Rattle.definitions.specs.Command.{command_at};
ghost use Rattle.qptr.specs.Values.{size_of, row_of, strictness_of, command_of, kind_of, part_of, part_by, part_by_command, NamesKind, OwnPart, Receives};

mod choices;

pub use choices::{Choices, Lookup, Ties};

// The source's `max_size`: `Some` is Fixed, `None` is Dynamic. In Rust's order Dynamic is the largest.
#[derive(Clone, Copy, PartialEq, Eq, PartialOrd, Ord)]
pub enum MaxSize {
    Fixed(u32),
    Dynamic,
}

// The kinds of memory nodes, in the order of their commands.
#[derive(Clone, Copy, PartialEq, Eq)]
pub enum Kind {
    Unused,
    StrictlyTyped,
    DirectAccess,
    OffsetBase,
    DynOffsetBase,
}

// A number that is no node's command.
#[derive(Clone, Copy, PartialEq, Eq)]
pub struct NoKind;

impl TryFrom<u32> for Kind {
    type Error = NoKind;

    ghost try_from_gives = { NamesKind };

    fn try_from(command: u32) -> Result<Self, NoKind> {
        match command {
            0x00 => Ok(Kind::Unused),
            0x01 => Ok(Kind::StrictlyTyped),
            0x02 => Ok(Kind::DirectAccess),
            0x03 => Ok(Kind::OffsetBase),
            0x04 => Ok(Kind::DynOffsetBase),
            _ => Err(NoKind),
        }
    }
}

impl Kind {
    // The kind with this command. The placeholder's stands for a command that no node has.
    pub fn of(command: u32) -> Kind
        ensures { result ≡ kind_of command }
    {
        Kind::try_from(command).unwrap_or(Kind::Unused)
    }

    pub fn command(self) -> u8
        ensures { result ≡ command_of self }
    {
        self as u8 // an enum's number is had by `as` alone
    }
}

// The commands of tops and of a list, which have no node's kind. They are bytes and no enum: a stream's first byte is compared with them.
pub const OPAQUE: u8 = 0x08;

pub const BUFFER: u8 = 0x09;

pub const MEMORY: u8 = 0x0A;

pub const LIST: u8 = 0x0B;

#[derive(Clone, Copy, PartialEq, Eq, PartialOrd, Ord)]
pub enum Strictness {
    Any,
    Array,
    Exact,
}

// The widths in bytes of what follows a command, and the strictness of a node.
#[derive(Clone, Copy)]
pub struct Command {
    pub size: usize,
    pub argument: usize,
    pub strictness: Strictness,
}

// The row of what is no command, and of those without operands.
const BARE: Command = Command {
    size: 0,
    argument: 0,
    strictness: Strictness::Any,
};

// Indexed by command. The reader, the writer and the receiver rule all read this table. It is constant, as document 01 has it, and so of a fixed
// length.
const COMMANDS: [Command; 12] = [
    // 00 Unused
    Command {
        size: 5, // flag and number
        argument: 0,
        strictness: Strictness::Any,
    },
    // 01 StrictlyTyped
    Command {
        size: 5,
        argument: 4, // type
        strictness: Strictness::Exact,
    },
    // 02 DirectAccess
    Command {
        size: 5,
        argument: 4, // type
        strictness: Strictness::Exact,
    },
    // 03 OffsetBase
    Command {
        size: 5,
        argument: 2, // count of entries
        strictness: Strictness::Any,
    },
    // 04 DynOffsetBase
    Command {
        size: 5,
        argument: 4, // stride
        strictness: Strictness::Array,
    },
    // 05 to 07: no command
    BARE,
    BARE,
    BARE,
    // 08 Opaque
    Command {
        size: 0,
        argument: 4, // type
        strictness: Strictness::Any,
    },
    // 09 Buffer
    BARE,
    // 0A Memory
    BARE,
    // 0B a list
    Command {
        size: 0,
        argument: 2, // count of nodes
        strictness: Strictness::Any,
    },
];

impl Command {
    // The row of a command; one past the table has an empty row. A node's command has an arm of its own, where its row is a constant:
    // with an index that is not known, the whole table is laid out first, each time.
    #[tactic(auto, unfolding(definitions::specs::Command::command_at))]
    pub fn of(command: u8) -> Command
        ensures { row_of result ≡ command_at command }
    {
        match command {
            0x00 => COMMANDS[0x00],
            0x01 => COMMANDS[0x01],
            0x02 => COMMANDS[0x02],
            0x03 => COMMANDS[0x03],
            0x04 => COMMANDS[0x04],
            0x05..=0x0B => COMMANDS[usize::from(command)],
            _ => BARE,
        }
    }
}

// A memory node without its children: the source's `QPtrMemUsage`, whose kind is its kind and its argument.
#[derive(Clone, Copy)]
pub struct Node {
    pub kind: Kind,
    pub size: MaxSize,
    pub argument: u32,
}

impl Node {
    // Document 01's placeholder, a constant there too.
    pub const UNUSED: Node = Node {
        kind: Kind::Unused,
        size: MaxSize::Fixed(0),
        argument: 0,
    };

    pub fn unused(size: MaxSize) -> Node
        ensures { OwnPart result (unused (size_of size)) }
    {
        Node {
            size,
            ..Node::UNUSED
        }
    }

    pub fn strictly_typed(size: MaxSize, ty: u32) -> Node
        ensures { OwnPart result (leaf (size_of size) true ty) }
    {
        Node {
            kind: Kind::StrictlyTyped,
            size,
            argument: ty,
        }
    }

    pub fn direct_access(size: MaxSize, ty: u32) -> Node
        ensures { OwnPart result (leaf (size_of size) false ty) }
    {
        Node {
            kind: Kind::DirectAccess,
            size,
            argument: ty,
        }
    }

    pub fn offset_base(size: MaxSize, entries: u32) -> Node
        ensures { (es : Entries) → count es ≡ entries → OwnPart result (map (size_of size) es) }
    {
        Node {
            kind: Kind::OffsetBase,
            size,
            argument: entries,
        }
    }

    pub fn dyn_offset_base(size: MaxSize, stride: u32) -> Node
        ensures { (e : Usage) → OwnPart result (array (size_of size) stride e) }
    {
        Node {
            kind: Kind::DynOffsetBase,
            size,
            argument: stride,
        }
    }

    // The node of this kind with these operands. An Unused has no argument.
    pub fn new(kind: Kind, size: MaxSize, argument: u32) -> Node
        ensures { part_of result ≡ part_by kind (size_of size) argument }
    {
        match kind {
            Kind::Unused => Node::unused(size),
            Kind::StrictlyTyped => Node::strictly_typed(size, argument),
            Kind::DirectAccess => Node::direct_access(size, argument),
            Kind::OffsetBase => Node::offset_base(size, argument),
            Kind::DynOffsetBase => Node::dyn_offset_base(size, argument),
        }
    }

    // The node with this command and these operands. An Unused has no argument. The placeholder stands for a command that no node has.
    pub fn of(command: u8, size: MaxSize, argument: u32) -> Node
        ensures { part_of result ≡ part_by_command command (size_of size) argument }
    {
        match Kind::try_from(u32::from(command)) {
            Ok(kind) => Node::new(kind, size, argument),
            Err(NoKind) => Node::UNUSED,
        }
    }

    fn strictness(self) -> Strictness
        ensures { strictness_of result ≡ (command_at (part_of self).command).strictness }
    {
        Command::of(self.kind.command()).strictness
    }
}

// Does a receive b? The larger receives; at equal sizes the stricter; on a full tie the one that is chosen. Strictness is looked up only at
// equal sizes.
pub fn first_receives(choices: Choices, a: Node, b: Node) -> bool
    ensures { Receives choices a b result }
{
    if b.size < a.size {
        return true;
    }
    if a.size < b.size {
        return false;
    }
    match choices.ties {
        Ties::First => b.strictness() <= a.strictness(),
        Ties::Second => b.strictness() < a.strictness(),
    }
}
