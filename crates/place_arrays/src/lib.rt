// Rule 5: placing in an array.
#![tactic(auto)]

ghost use Rattle.std.specs.Prelude.{◌≡◌, ◌+◌, ◌*◌, ◌≤◌, length};
ghost use Rattle.definitions.specs.Place.{fits_stride, stride_conflict};
ghost use Rattle.qptr.specs.Values.{command_of, size_of};
ghost use Rattle.qptr.specs.declared.Kind.TheVariants.{DynOffsetBase};
ghost use Rattle.records.specs.Records.{command_in};
ghost use Rattle.report.specs.Emitted.{Emitted};
ghost use Rattle.place_states.specs.Calls.{Beside};
ghost use Rattle.place_states.specs.States.{Waiting};
ghost use Rattle.place_states.specs.Starts.{Plain, Starts};
ghost use Rattle.place_arrays.specs.Arrays.{HasStride, Meets, element_pairing, element_state, Wrapped};

use place_states::{Pairing, Rule, State, Todo};
use qptr::{Kind, MaxSize};
use records::{argument, child, kind, max_size, put_child};
use report::Report;

// Is b fixed, and r + b at most the stride?
fn fits_stride(r: u32, b: MaxSize, stride: u32) -> bool
    requires { r ≤ stride }
    ensures { result ≡ fits_stride r (size_of b) stride }
{
    b <= MaxSize::Fixed(stride - r)
}

// Is r 0, and record q an array of this stride?
fn has_stride(s: &[u8], q: usize, r: u32, stride: u32) -> bool
    requires { q * 32 + 32 ≤ length s.now }
    ensures { HasStride s.now q r stride result }
{
    r == 0 && kind(s, q) == Kind::DynOffsetBase && argument(s, q) == stride
}

// What b does in an array: it goes into the element at r, its element is merged with the element, or neither.
#[derive(Clone, Copy)]
pub enum Meeting {
    Inside(u32),
    Elements,
    Apart,
}

fn meeting_of(s: &[u8], a: usize, d: u32, b: usize) -> Meeting
    requires beside { Beside s.now a b }
    requires array { command_in s.now a ≡ command_of DynOffsetBase }
    ensures { Meets s.now a d b result }
{
    let stride = argument(s, a);
    let r = d % stride;
    if fits_stride(r, max_size(s, b), stride) {
        return Meeting::Inside(r);
    }
    if has_stride(s, b, r, stride) {
        return Meeting::Elements;
    }
    Meeting::Apart
}

// At 0 the pair is merged.
fn pairing_at(r: u32) -> Pairing
    ensures { result ≡ element_pairing r }
{
    match r {
        0 => Pairing::Merge,
        _ => Pairing::Place,
    }
}

// The element x, and m, which is b or b's element, are a pair.
fn with_element(x: usize, m: usize, r: u32, base: usize) -> State
    ensures { result ≡ element_state x m r base }
{
    State {
        todo: Todo::Pair(pairing_at(r)),
        rule: Rule::Element,
        x,
        m,
        d: r,
        pairings: 1,
        base,
        mark: base,
        ..State::NONE
    }
}

// 35 and the stride.
fn stride_conflict(report: &mut Report<'_>, stride: u32)
    ensures { Emitted report.old (stride_conflict stride) report.new }
{
    report.byte(0x35);
    report.word(stride);
}

// b goes into the element where it fits; arrays of equal stride merge their elements; else a conflict.
pub fn begin_array(s: &[u8], a: usize, d: u32, b: usize, report: &mut Report<'_>) -> State
    requires beside { Beside s.now a b }
    requires plain { Plain (command_in s.now b) d }
    requires array { command_in s.now a ≡ command_of DynOffsetBase }
    ensures { Starts s.now a d b report.old s.now report.new (Ok result) }
{
    match meeting_of(s, a, d, b) {
        Meeting::Inside(r) => with_element(child(s, a), b, r, report.at),
        Meeting::Elements => with_element(child(s, a), child(s, b), 0, report.at),
        Meeting::Apart => {
            stride_conflict(report, argument(s, a));
            State::finished(a, 1)
        }
    }
}

// The element has become record x.
pub fn next_element(s: &mut [u8], a: usize, st: State) -> State
    requires waiting { Waiting s.old a st }
    requires rule { st.rule ≡ Rule.Element }
    ensures { Wrapped s.old a st s.new result }
{
    put_child(s, a, st.x);
    State::finished(a, st.pairings)
}
