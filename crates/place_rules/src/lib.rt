// The rules of placing: sizes first, then by b's kind and by a's; what a pair has become, and what follows.
#![tactic(auto)]

ghost use Rattle.std.specs.Prelude.{◌≡◌, ◌+◌};
ghost use Rattle.definitions.specs.Place.{size_refusal};
ghost use Rattle.qptr.specs.Values.{size_of};
ghost use Rattle.records.specs.Records.{command_in};
ghost use Rattle.record_links.specs.Rows.{nodes_at};
ghost use Rattle.place_states.specs.Calls.{Ready, NoWrap};
ghost use Rattle.place_states.specs.States.{Waiting, Moves};
ghost use Rattle.place_states.specs.Starts.{Plain, Begins, Began};
ghost use Rattle.place_rules.specs.Results.{number_in, TakesResult};

use layout::Setting;
use place_arrays::{begin_array, next_element};
use place_entries::{begin_entries, next_entry};
use place_leaf::begin_leaf;
use place_maps::{begin_join, next_join};
use place_states::{Merged, Rule, SizeRefusal, State, Todo};
use place_unused::begin_unused;
use qptr::{Kind, MaxSize};
use records::{kind, max_size};
use report::Report;

// The size of placing b at d in a must be a's.
fn size_refusal(a: MaxSize, d: u32, b: MaxSize) -> Result<(), SizeRefusal>
    ensures { number_in result ≡ size_refusal (size_of a) d (size_of b) }
{
    match (a, b) {
        (MaxSize::Dynamic, _) => Ok(()),
        (MaxSize::Fixed(_), MaxSize::Dynamic) => Err(SizeRefusal::Outgrown),
        (MaxSize::Fixed(m), MaxSize::Fixed(n)) => match d.checked_add(n) {
            None => Err(SizeRefusal::Past32),
            Some(end) if m < end => Err(SizeRefusal::Outgrown),
            Some(_) => Ok(()),
        },
    }
}

// Rules 3 to 6, by a's kind. What the rules take, here and in their crates, are the parameters of the source's `merge_mem_at`, handed on as it
// has them.
fn begin_into(
    setting: &Setting<'_>,
    s: &mut [u8],
    a: usize,
    d: u32,
    b: usize,
    report: &mut Report<'_>,
) -> Result<State, SizeRefusal>
    requires ready { Ready setting.now s.old a b }
    requires plain { Plain (command_in s.old b) d }
    ensures { Begins setting.now s.old a d b report.old s.new report.new result }
{
    match kind(s, a) {
        Kind::Unused => Ok(begin_unused(s, a, b)),
        Kind::OffsetBase => begin_join(s, a, d, b, report),
        Kind::DynOffsetBase => Ok(begin_array(s, a, d, b, report)),
        // a leaf, of either kind
        _ => Ok(begin_leaf(setting, s, a, d, b, report)),
    }
}

// Rules 1 and 2, by b's kind.
fn begin_with(
    setting: &Setting<'_>,
    s: &mut [u8],
    a: usize,
    d: u32,
    b: usize,
    report: &mut Report<'_>,
) -> Result<State, SizeRefusal>
    requires { Ready setting.now s.old a b }
    ensures { Begins setting.now s.old a d b report.old s.new report.new result }
{
    match kind(s, b) {
        Kind::Unused => Ok(State::finished(a, 1)),
        Kind::OffsetBase if d == 0 => Ok(begin_entries(s, a, b, report)),
        _ => begin_into(setting, s, a, d, b, report),
    }
}

// Sizes, then the rules.
pub fn begin(
    setting: &Setting<'_>,
    s: &mut [u8],
    a: usize,
    d: u32,
    b: usize,
    report: &mut Report<'_>,
) -> Result<State, SizeRefusal>
    requires ready { Ready setting.now s.old a b }
    requires near { NoWrap report.old.at (nodes_at s.old a + nodes_at s.old b) }
    ensures { Began setting.now s.old a d b report.old s.new report.new result }
{
    size_refusal(max_size(s, a), d, max_size(s, b))?;
    begin_with(setting, s, a, d, b, report)
}

// The pair, whose report began at `here`, has become what r says, which stands in its place. Its 31 is taken back if nothing was reported.
pub fn take_result(st: State, here: usize, r: Merged, report: &mut Report<'_>) -> State
    ensures { TakesResult st here r report.old report.new result }
{
    report.take_back(here, st.mark);
    State {
        todo: Todo::Go,
        x: r.node,
        pairings: st.pairings.wrapping_add(r.pairings),
        mark: report.at,
        ..st
    }
}

// From what stands at x: the next pair, or the end. The receiver is record a.
pub fn step(s: &mut [u8], a: usize, st: State, report: &mut Report<'_>) -> State
    requires { Waiting s.old a st }
    ensures { Moves s.old report.old a st s.new report.new result }
{
    match st.rule {
        Rule::Entries => next_entry(s, a, st, report),
        Rule::Element => next_element(s, a, st),
        Rule::Join => next_join(s, a, st, report),
    }
}
