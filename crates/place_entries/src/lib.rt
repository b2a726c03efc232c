// Rule 2: a map at offset 0 is placed entry by entry, in ascending order, each into the last result.
#![tactic(auto)]

ghost use Rattle.std.specs.Prelude.{◌≡◌};
ghost use Rattle.qptr.specs.Values.{command_of};
ghost use Rattle.qptr.specs.declared.Kind.TheVariants.{OffsetBase};
ghost use Rattle.records.specs.Records.{command_in};
ghost use Rattle.place_states.specs.Calls.{Beside};
ghost use Rattle.place_states.specs.States.{Waiting, Moves};
ghost use Rattle.place_states.specs.Starts.{Starts};

use place_states::{Pairing, Rule, State, Todo, drop_heading};
use records::{child, next, offset};
use report::Report;

// The result so far is record x; the next entry goes into it.
pub fn next_entry(s: &[u8], a: usize, st: State, report: &mut Report<'_>) -> State
    requires waiting { Waiting s.now a st }
    requires rule { st.rule ≡ Rule.Entries }
    ensures { Moves s.now report.old a st s.now report.new result }
{
    let q = st.rest;
    if q == 0 {
        drop_heading(report, st.base);
        return State::finished(st.x, st.pairings);
    }
    let o = offset(s, q);
    let after = next(s, q);
    let mark = report.at;
    report.of_entry(o);
    State {
        todo: Todo::Pair(Pairing::Place),
        d: o,
        m: q,
        rest: after,
        mark,
        ..st
    }
}

// b, a map, is placed at 0 in a, which is the result so far.
pub fn begin_entries(s: &[u8], a: usize, b: usize, report: &mut Report<'_>) -> State
    requires beside { Beside s.now a b }
    requires map { command_in s.now b ≡ command_of OffsetBase }
    ensures { Starts s.now a 0 b report.old s.now report.new (Ok result) }
{
    let base = report.at;
    report.byte(0x30);
    State {
        todo: Todo::Go,
        rule: Rule::Entries,
        x: a,
        rest: child(s, b),
        pairings: 1,
        base,
        mark: report.at,
        ..State::NONE
    }
}
