// The calls: who receives; and those with a table, which lend numbers for where its records start. What they are given are the parameters of
// the calls for C, in their order.
#![tactic(auto)]

ghost use Rattle.std.specs.Prelude.{◌≡◌, length};
ghost use Rattle.definitions.specs.Calls.{sound_call, supports_call, place_call, merge_call, fold_call};
ghost use Rattle.qptr.specs.Choices.{choices_in};
ghost use Rattle.layout.specs.Located.{Room};
ghost use Rattle.call_answers.specs.Answers.{said_of, told_of};
ghost use Rattle.call_answers.specs.Writing.{Gives};
ghost use Rattle.calls.specs.Promised.{Promised};

use call_answers::{Refusal, Written};
use layout::{FEW_RECORDS, MAX_RECORDS};
use qptr::Choices;

mod receiver_rule;
mod with_starts;

pub use receiver_rule::{Received, receiver, receiving};

// What a call gives that is lent numbers for where a table's records start. They are cleared first, so a table that says it has few records
// gets few.
fn lend_starts<R, F: FnMut(&mut [u32]) -> R>(table: &[u8], call: &mut F) -> R
    requires { (starts : _) → Room table.now starts.now → F.pre call.old starts }
    ensures { (starts : _) × (starts' : _) × Room table.now starts.now × F.step call.old starts result starts' call.new }
{
    if layout::has_few(table) {
        let mut starts = [0u32; FEW_RECORDS];
        return call(&mut starts);
    }
    let mut starts = [0u32; MAX_RECORDS];
    call(&mut starts)
}

// Is the usage of a Memory stream sound? It is loaded into the work area, whose contents do not matter.
pub fn sound(table: &[u8], work: &mut [u8], s: &[u8]) -> Result<bool, Refusal>
    ensures { said_of result ≡ sound_call table.now (length work.old) s.now }
{
    let mut call = |starts: &mut [u32]| with_starts::sound(table, work, starts, s);
    lend_starts(table, &mut call)
}

// Does a type, at an offset, support the usage of a Memory stream? It is loaded as for `sound`.
pub fn supports(
    choices: Choices,
    table: &[u8],
    work: &mut [u8],
    ty: u32,
    offset: u32,
    s: &[u8],
) -> Result<bool, Refusal>
    ensures { said_of result ≡ supports_call (choices_in choices) table.now (length work.old) ty offset s.now }
{
    let mut call = |starts: &mut [u32]| with_starts::supports(
        choices, table, work, starts, ty, offset, s,
    );
    lend_starts(table, &mut call)
}

// The second Memory is put into the first at an offset.
pub fn place(
    choices: Choices,
    table: &[u8],
    work: &mut [u8],
    first: &[u8],
    offset: u32,
    second: &[u8],
    output: &mut [u8],
    rep: &mut [u8],
) -> Result<Written, Refusal>
    ensures { Gives (place_call (choices_in choices) table.now (length work.old) first.now offset second.now output.old (length rep.old)) result output.new rep.new }
{
    let mut call = |starts: &mut [u32]| with_starts::place(
        choices, table, work, starts, first, offset, second, output, rep,
    );
    lend_starts(table, &mut call)
}

// Two Buffers or two Memories are merged; of others the first stays.
pub fn merge(
    choices: Choices,
    table: &[u8],
    work: &mut [u8],
    first: &[u8],
    second: &[u8],
    output: &mut [u8],
    rep: &mut [u8],
) -> Result<Written, Refusal>
    ensures { Gives (merge_call (choices_in choices) table.now (length work.old) first.now second.now output.old (length rep.old)) result output.new rep.new }
{
    let mut call = |starts: &mut [u32]| with_starts::merge(
        choices, table, work, starts, first, second, output, rep,
    );
    lend_starts(table, &mut call)
}

// The nodes of a list, merged one after the other.
pub fn fold(
    choices: Choices,
    table: &[u8],
    work: &mut [u8],
    list: &[u8],
    output: &mut [u8],
    rep: &mut [u8],
) -> Result<Written, Refusal>
    ensures gives { Gives (fold_call (choices_in choices) table.now (length work.old) list.now output.old (length rep.old)) result output.new rep.new }
    ensures promised { Promised table.now list.now (told_of result) output.new }
{
    let mut call = |starts: &mut [u32]| with_starts::fold(
        choices, table, work, starts, list, output, rep,
    );
    lend_starts(table, &mut call)
}
