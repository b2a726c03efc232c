// The calls over numbers that are lent for where the table's records start: refusals in their order, then the answer. Their parameters are
// those of the calls for C, one by one, since each goes on to another function; and of a struct with output and report each function that
// writes would have to promise that it holds the same two buffers still.

ghost use Rattle.std.specs.Prelude.{◌≡◌, length};
ghost use Rattle.definitions.specs.Limits.{work_limit};
ghost use Rattle.definitions.specs.Calls.{sound_call, supports_call, place_call, merge_call, fold_call};
ghost use Rattle.qptr.specs.Choices.{choices_in};
ghost use Rattle.layout.specs.Located.{Room};
ghost use Rattle.call_answers.specs.Answers.{said_of, told_of};
ghost use Rattle.call_answers.specs.Writing.{Gives};
ghost use Rattle.place_states.specs.Calls.{placing, merging};
ghost use Rattle.call_fold.specs.Folding.{FoldReady};
ghost use Rattle.calls.specs.Loaded.{PairReady, PairGiven, ListGiven};
ghost use Rattle.calls.specs.Promised.{Promised};

use analyze::{merge_mem, merge_mem_at};
use call_answers::{Refusal, Written, cleared, finish, keep};
use call_inputs::{
    Nodes, WORK_LIMIT, accept, accept_table, conflicts, few_nodes, known_types, load_both,
};
use layout::{Setting, Table};
use qptr::{Choices, MEMORY, OPAQUE};
use report::Report;
use stream::Found;

// The bytes of a work area that are lent on. A function gives their number, so that a proof has it as a result and does not count it out.
fn area() -> usize
    ensures { result ≡ work_limit }
{
    WORK_LIMIT
}

// What stands for the second stream of a call that has one: no node and no type is asked of it.
const NOTHING: Option<Found> = Some(Found { nodes: 0, types: 0 });

// Is the usage of a Memory stream sound? It is loaded into the work area, whose contents do not matter. The stream is looked at behind refusals 1
// and 2: in a short work area it could take the square of its length.
pub(super) fn sound(
    table: &[u8],
    work: &mut [u8],
    starts: &mut [u32],
    s: &[u8],
) -> Result<bool, Refusal>
    requires { Room table.now starts.old }
    ensures { said_of result ≡ sound_call table.now (length work.old) s.now }
{
    let types = accept_table(table, work, starts)?;
    let found = stream::memory(s, work).ok_or(Refusal::BadFirst)?;
    known_types(types, found.types)?;
    few_nodes(found.nodes)?;
    stream_load::load(s, 1, found.nodes, work, 1);
    Ok(soundness::sound(work, 1))
}

// Does a type, at an offset, support the usage of a Memory stream? It is loaded as for `sound`. The asked type is needed as those of the stream
// are. `call_inputs::accept` does not do here, since refusal 6 comes between its 5 and its 7.
pub(super) fn supports(
    choices: Choices,
    table: &[u8],
    work: &mut [u8],
    starts: &mut [u32],
    ty: u32,
    offset: u32,
    s: &[u8],
) -> Result<bool, Refusal>
    requires { Room table.now starts.old }
    ensures { said_of result ≡ supports_call (choices_in choices) table.now (length work.old) ty offset s.now }
{
    let types = accept_table(table, work, starts)?;
    let found = stream::memory(s, work).ok_or(Refusal::BadFirst)?;
    known_types(types, found.types.max(u64::from(ty) + 1))?;
    let setting = Setting {
        table: Table {
            bytes: table,
            starts,
        },
        choices,
    };
    if !setting.table.is_concrete(ty) {
        return Err(Refusal::NotConcrete);
    }
    few_nodes(found.nodes)?;
    stream_load::load(s, 1, found.nodes, work, 1);
    Ok(support::supports_usage_at_offset(&setting, ty, offset, work, 1))
}

// The usages of two Memories are loaded, and the second is put into the first at an offset.
fn place_loaded(
    setting: &Setting<'_>,
    first: &[u8],
    offset: u32,
    second: &[u8],
    nodes: Nodes,
    work: &mut [u8],
    output: &mut [u8],
    rep: &mut [u8],
) -> Result<Written, Refusal>
    requires { PairReady setting.now first.now second.now nodes work.old }
    ensures { PairGiven 0x0A (placing offset) setting.now first.now second.now nodes output.old rep.old result output.new rep.new }
{
    load_both(first, second, nodes, work);
    let mut report = Report { buffer: rep, at: 0 };
    let merged = merge_mem_at(setting, work, 1, offset, 1 + nodes.first, &mut report);
    finish(MEMORY, merged, work, output, &mut report)
}

// The second Memory is put into the first at an offset.
pub(super) fn place(
    choices: Choices,
    table: &[u8],
    work: &mut [u8],
    starts: &mut [u32],
    first: &[u8],
    offset: u32,
    second: &[u8],
    output: &mut [u8],
    rep: &mut [u8],
) -> Result<Written, Refusal>
    requires { Room table.now starts.old }
    ensures { Gives (place_call (choices_in choices) table.now (length work.old) first.now offset second.now output.old (length rep.old)) result output.new rep.new }
{
    let a = stream::memory(first, work);
    let b = stream::memory(second, work);
    let nodes = match accept(table, work, starts, a, b) {
        Ok(nodes) => nodes,
        Err(refusal) => return cleared(Err(refusal), rep),
    };
    let setting = Setting {
        table: Table {
            bytes: table,
            starts,
        },
        choices,
    };
    place_loaded(
        &setting,
        first,
        offset,
        second,
        nodes,
        &mut work[..area()],
        output,
        rep,
    )
}

// The usages of two tops that begin with the same byte are loaded and merged. From `place_loaded` it differs in the call and in the first byte,
// and one function for both would have to be told both.
fn merge_loaded(
    setting: &Setting<'_>,
    top: u8,
    first: &[u8],
    second: &[u8],
    nodes: Nodes,
    work: &mut [u8],
    output: &mut [u8],
    rep: &mut [u8],
) -> Result<Written, Refusal>
    requires { PairReady setting.now first.now second.now nodes work.old }
    ensures { PairGiven top merging setting.now first.now second.now nodes output.old rep.old result output.new rep.new }
{
    load_both(first, second, nodes, work);
    let mut report = Report { buffer: rep, at: 0 };
    let merged = merge_mem(setting, work, 1, 1 + nodes.first, &mut report);
    finish(top, merged, work, output, &mut report)
}

// Two Buffers or two Memories are merged; of others the first stays.
pub(super) fn merge(
    choices: Choices,
    table: &[u8],
    work: &mut [u8],
    starts: &mut [u32],
    first: &[u8],
    second: &[u8],
    output: &mut [u8],
    rep: &mut [u8],
) -> Result<Written, Refusal>
    requires { Room table.now starts.old }
    ensures { Gives (merge_call (choices_in choices) table.now (length work.old) first.now second.now output.old (length rep.old)) result output.new rep.new }
{
    let a = stream::top(first, work);
    let b = stream::top(second, work);
    let nodes = match accept(table, work, starts, a, b) {
        Ok(nodes) => nodes,
        Err(refusal) => return cleared(Err(refusal), rep),
    };
    let top = first[0];
    if top == OPAQUE {
        return keep(first, conflicts(first, second), output, rep);
    }
    if top != second[0] {
        return keep(first, true, output, rep);
    }
    let setting = Setting {
        table: Table {
            bytes: table,
            starts,
        },
        choices,
    };
    let work = &mut work[..area()];
    merge_loaded(&setting, top, first, second, nodes, work, output, rep)
}

// The nodes of an accepted list are merged one after the other.
fn fold_loaded(
    setting: &Setting<'_>,
    list: &[u8],
    work: &mut [u8],
    output: &mut [u8],
    rep: &mut [u8],
) -> Result<Written, Refusal>
    requires { FoldReady setting.now list.now work.old }
    ensures { ListGiven setting.now list.now output.old rep.old result output.new rep.new }
{
    let mut report = Report { buffer: rep, at: 0 };
    let merged = call_fold::fold_nodes(setting, list, work, &mut report);
    finish(MEMORY, merged, work, output, &mut report)
}

// The nodes of a list, merged one after the other.
pub(super) fn fold(
    choices: Choices,
    table: &[u8],
    work: &mut [u8],
    starts: &mut [u32],
    list: &[u8],
    output: &mut [u8],
    rep: &mut [u8],
) -> Result<Written, Refusal>
    requires { Room table.now starts.old }
    ensures gives { Gives (fold_call (choices_in choices) table.now (length work.old) list.now output.old (length rep.old)) result output.new rep.new }
    ensures promised { Promised table.now list.now (told_of result) output.new }
{
    let found = stream::list(list, work);
    match accept(table, work, starts, found, NOTHING) {
        Ok(_) => {}
        Err(refusal) => return cleared(Err(refusal), rep),
    }
    let setting = Setting {
        table: Table {
            bytes: table,
            starts,
        },
        choices,
    };
    fold_loaded(&setting, list, &mut work[..area()], output, rep)
}
