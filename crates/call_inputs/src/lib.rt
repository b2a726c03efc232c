// What the calls are given: the refusals 1 to 7 of a table and its streams, in their order, but for 6; whether
// an Opaque and another top conflict; and two usages loaded.
#![tactic(auto)]

ghost use Rattle.std.specs.Prelude.{◌≡◌, length};
ghost use Rattle.layout.specs.Located.{Room};
ghost use Rattle.call_inputs.specs.Inputs.{TableMet, KnownTypes, FewNodes, Met, Both, BothLoaded};
ghost use Rattle.call_inputs.specs.Tops.{OpaqueFirst, Conflicts};

use call_answers::Refusal;
use numbers::number;
use qptr::{Command, OPAQUE};
use stream::Found;

// The bytes of a work area, and the nodes of all inputs together: `work_limit` and `node_limit`, which the contracts hold them to.
pub const WORK_LIMIT: usize = 49152;

const NODE_LIMIT: usize = 512;

// The nodes of a call's streams.
#[derive(Clone, Copy)]
pub struct Nodes {
    pub first: usize,
    pub second: usize,
}

// How many types a table has, where its records start being then in `starts`; or refusal 1 or 2.
pub fn accept_table(table: &[u8], work: &[u8], starts: &mut [u32]) -> Result<usize, Refusal>
    requires { Room table.now starts.old }
    ensures { TableMet table.now (length work.now) starts.new result }
{
    if work.len() < WORK_LIMIT {
        return Err(Refusal::ShortWork);
    }
    layout::accept(table, starts).ok_or(Refusal::BadTable)
}

// Refusal 5, where a table of so many types has not all that are needed. One more than a type may need 33 bits, so they are compared in 64, by
// `as`, since no From leads from `usize`.
pub fn known_types(types: usize, needed: u64) -> Result<(), Refusal>
    ensures { KnownTypes types needed result }
{
    if (types as u64) < needed {
        return Err(Refusal::UnknownType);
    }
    Ok(())
}

// Refusal 7, where all inputs together have too many nodes.
pub fn few_nodes(nodes: usize) -> Result<(), Refusal>
    ensures { FewNodes nodes result }
{
    if NODE_LIMIT < nodes {
        return Err(Refusal::ManyNodes);
    }
    Ok(())
}

// The refusals 1 to 7 in their order, but for 6.
pub fn accept(
    table: &[u8],
    work: &[u8],
    starts: &mut [u32],
    a: Option<Found>,
    b: Option<Found>,
) -> Result<Nodes, Refusal>
    requires { Room table.now starts.old }
    ensures { Met table.now (length work.now) a b starts.new result }
{
    let types = accept_table(table, work, starts)?;
    let first = a.ok_or(Refusal::BadFirst)?;
    let second = b.ok_or(Refusal::BadSecond)?;
    known_types(types, first.types.max(second.types))?;
    few_nodes(first.nodes.saturating_add(second.nodes))?;
    Ok(Nodes {
        first: first.nodes,
        second: second.nodes,
    })
}

// The two usages are records 1 and 1 + nodes.first. Record 0 stands for none.
pub fn load_both(first: &[u8], second: &[u8], nodes: Nodes, work: &mut [u8])
    requires { Both first.now second.now nodes work.old }
    ensures { BothLoaded first.now second.now nodes work.old work.new }
{
    stream_load::load(first, 1, nodes.first, work, 1);
    stream_load::load(second, 1, nodes.second, work, 1 + nodes.first);
}

// Whether an Opaque and another top conflict, as they do unless they are the same Opaque. The type is read by its width in the
// command table, as every operand is.
pub fn conflicts(first: &[u8], second: &[u8]) -> bool
    requires { OpaqueFirst first.now second.now }
    ensures { Conflicts first.now second.now result }
{
    if first[0] != second[0] {
        return true;
    }
    let width = Command::of(OPAQUE).argument;
    number(first, 1, width) != number(second, 1, width)
}
