// Rule 6: placing in a map. The entries that overlap b are linked the other way round, so that b is joined with them from the
// highest down; nothing moves. A record of 0 is none, as in the links.
#![tactic(auto)]

ghost use Rattle.std.specs.Prelude.{◌≡◌, ◌+◌, ◌*◌, ◌<◌, ◌≤◌, length};
ghost use Rattle.qptr.specs.Values.{command_of};
ghost use Rattle.qptr.specs.declared.Kind.TheVariants.{OffsetBase};
ghost use Rattle.records.specs.Records.{command_in};
ghost use Rattle.place_states.specs.Calls.{Beside};
ghost use Rattle.place_states.specs.States.{Waiting, Moves};
ghost use Rattle.place_states.specs.Starts.{Plain, Starts};
ghost use Rattle.place_maps.specs.Runs.{Run, Reversed};
ghost use Rattle.place_maps.specs.Joining.{Within, Passed, SuccessorSet, Concatenated, Inserted, Paired, Straddled};

use place_search::{end_at, overlapping, past32};
use place_states::{Pairing, Rule, SizeRefusal, State, Todo, drop_heading};
use records::{copy_record, next, offset, put_argument, put_child, put_next, put_offset};
use report::Report;
use std::cmp::Ordering;

// The entries from record q to record `end` are linked the other way round, upwards or downwards, and the last of them to `behind`; the
// first of them, or `behind`. A walk along links in the lent bytes, which it changes as it goes.
fn reverse(s: &mut [u8], q: usize, end: usize, behind: usize) -> usize
    requires { Run s.old q end behind }
    ensures { Reversed s.old q end behind s.new result }
{
    let mut p = q;
    let mut last = behind;
    while p != end {
        let n = next(s, p);
        put_next(s, p, last);
        last = p;
        p = n;
    }
    last
}

// q becomes what follows the entry `low` of a, or a's first.
fn set_successor(s: &mut [u8], a: usize, low: usize, q: usize)
    requires { (a * 32 + 32 ≤ length s.old) × (low * 32 + 32 ≤ length s.old) × (q < 65536) }
    ensures { SuccessorSet s.old a low q s.new }
{
    if low == 0 {
        put_child(s, a, q);
    } else {
        put_next(s, low, q);
    }
}

// The entries of a up to `low` and those from q on are one list, and the finger of a is `low`: the number of a record, which fits the 32 bits
// to which `as` cuts it, here and below.
fn concat(s: &mut [u8], a: usize, low: usize, q: usize)
    requires { (a * 32 + 32 ≤ length s.old) × (low * 32 + 32 ≤ length s.old) × (q < 65536) × (length s.old ≤ 2097152) }
    ensures { Concatenated s.old a low q s.new }
{
    set_successor(s, a, low, q);
    put_argument(s, a, low as u32);
}

// The first of the entries from q on, passing over one at o.
fn passed(s: &[u8], q: usize, o: u32) -> usize
    requires { (q * 32 + 32 ≤ length s.now) × (length s.now ≤ 2097152) }
    ensures { Passed s.now q o result }
{
    if q != 0 && offset(s, q) == o {
        return next(s, q);
    }
    q
}

// b, at o, becomes an entry of a, in place of `low` if that stands at o, and else behind it. In place of `low` it is that record.
fn insert(s: &mut [u8], a: usize, low: usize, b: usize, o: u32)
    requires { (a * 32 + 32 ≤ length s.old) × (low * 32 + 32 ≤ length s.old) × (b * 32 + 32 ≤ length s.old) × (length s.old ≤ 2097152) }
    ensures { Inserted s.old a low b o s.new }
{
    if low == 0 || offset(s, low) != o {
        concat(s, a, low, b);
        return;
    }
    copy_record(s, low, b);
    put_argument(s, a, low as u32);
}

// No entry is left to be joined: b replaces what stands at its offset.
fn end_join(s: &mut [u8], a: usize, st: State, report: &mut Report<'_>) -> State
    requires waiting { Waiting s.old a st }
    requires within { Within s.old a st }
    requires rule { st.rule ≡ Rule.Join }
    requires none_left { st.rest ≡ 0 }
    ensures { Moves s.old report.old a st s.new report.new result }
{
    let b = st.x;
    let o = st.offset;
    let above = passed(s, st.q, o);
    put_offset(s, b, o);
    put_next(s, b, above);
    insert(s, a, st.low, b, o);
    drop_heading(report, st.base);
    State::finished(a, st.pairings)
}

// The entry at o and b straddle: they are gone, and so is what was reported before.
fn straddle(s: &mut [u8], a: usize, st: State, o: u32, report: &mut Report<'_>) -> State
    requires waiting { Waiting s.old a st }
    requires within { Within s.old a st }
    requires rule { st.rule ≡ Rule.Join }
    requires some_left { st.rest ≡ 0 → ⊥ }
    ensures { Straddled s.old report.old a st o s.new report.new result }
{
    let left = next(s, st.rest);
    let head = reverse(s, left, 0, st.q);
    concat(s, a, st.low, head);
    report.at = st.base;
    report.straddle(o, st.offset);
    State::finished(a, st.pairings)
}

// The pair is the next one: the entry that it takes, at o, is no longer left.
fn join(s: &[u8], pair: State, o: u32, report: &mut Report<'_>) -> State
    requires { pair.rest * 32 + 32 ≤ length s.now }
    ensures { Paired s.now report.old pair o report.new result }
{
    let mark = report.at;
    report.of_entry(o);
    State {
        rest: next(s, pair.rest),
        mark,
        ..pair
    }
}

// b so far stands at x; the highest of the entries that are left is joined with it. The one that starts lower receives the other,
// and must end no earlier than it.
pub fn next_join(s: &mut [u8], a: usize, st: State, report: &mut Report<'_>) -> State
    requires waiting { Waiting s.old a st }
    requires rule { st.rule ≡ Rule.Join }
    ensures { Moves s.old report.old a st s.new report.new result }
{
    let entry = st.rest;
    if entry == 0 {
        return end_join(s, a, st, report);
    }
    let d = st.offset;
    let o = offset(s, entry);
    let entry_end = end_at(s, entry, o);
    let b_end = end_at(s, st.x, d);
    match o.cmp(&d) {
        Ordering::Less if b_end <= entry_end => {
            let pair = State {
                todo: Todo::Pair(Pairing::Place),
                x: entry,
                d: d - o,
                m: st.x,
                offset: o,
                ..st
            };
            join(s, pair, o, report)
        }
        Ordering::Equal => {
            let pair = State {
                todo: Todo::Pair(Pairing::Merge),
                d: 0,
                m: entry,
                ..st
            };
            join(s, pair, o, report)
        }
        Ordering::Greater if entry_end <= b_end => {
            let pair = State {
                todo: Todo::Pair(Pairing::Place),
                d: o - d,
                m: entry,
                ..st
            };
            join(s, pair, o, report)
        }
        _ => straddle(s, a, st, o, report),
    }
}

// b is placed at d in a, a map: it stands beside the entries that overlap, and is what there is so far.
pub fn begin_join(
    s: &mut [u8],
    a: usize,
    d: u32,
    b: usize,
    report: &mut Report<'_>,
) -> Result<State, SizeRefusal>
    requires beside { Beside s.old a b }
    requires plain { Plain (command_in s.old b) d }
    requires map { command_in s.old a ≡ command_of OffsetBase }
    ensures { Starts s.old a d b report.old s.new report.new result }
{
    let e = end_at(s, b, d);
    if past32(e) {
        return Err(SizeRefusal::Past32);
    }
    let found = match overlapping(s, a, d, e) {
        Ok(found) => found,
        Err(_) => return Err(SizeRefusal::Past32),
    };
    let rest = reverse(s, found.first, found.above, 0);
    let base = report.at;
    report.byte(0x30);
    Ok(State {
        todo: Todo::Go,
        rule: Rule::Join,
        x: b,
        offset: d,
        rest,
        q: found.above,
        low: found.low,
        pairings: 1,
        base,
        mark: report.at,
        ..State::NONE
    })
}
