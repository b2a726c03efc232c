// Rule 4: placing in a typed leaf, whose type must support b, or b's type the leaf.
#![tactic(auto)]

ghost use Rattle.std.specs.Prelude.{◌≡◌, ◌*◌, ◌+◌, ◌≤◌, length, Ok};
ghost use Rattle.records.specs.Records.{command_in};
ghost use Rattle.report.specs.Emitted.{Emitted};
ghost use Rattle.place_states.specs.Calls.{Ready};
ghost use Rattle.place_states.specs.Starts.{Plain, Begins};
ghost use Rattle.support_cache.specs.Nodes.{Unchanged};
ghost use Rattle.place_leaf.specs.Leaves.{Typed, TypeAt, Stricter, report_of, conflict_of, is_no, decided, Keeps};

use layout::Setting;
use place_states::State;
use qptr::Kind;
use records::{argument, kind, put_type};
use report::Report;
use support::{NotAsked, ask};

// What is reported of a type that is kept.
#[derive(Clone, Copy, PartialEq, Eq)]
pub enum Conflict {
    Types,
    Handle,
    Failed,
}

impl From<NotAsked> for Conflict {
    ghost from_gives = { λ why c. c ≡ conflict_of why };

    fn from(why: NotAsked) -> Conflict {
        match why {
            NotAsked::Handle => Conflict::Handle,
            NotAsked::Failed => Conflict::Failed,
        }
    }
}

#[derive(Clone, Copy)]
pub struct Kept {
    pub ty: u32,
    pub conflict: Option<Conflict>,
}

// The type of record q, if it is a leaf and d is 0. (`support::is_whole_leaf` has a type to compare with, and makes no Option.)
fn type_at(s: &[u8], q: usize, d: u32) -> Option<u32>
    requires { q * 32 + 32 ≤ length s.now }
    ensures { TypeAt s.now q d result }
{
    if d != 0 {
        return None;
    }
    match kind(s, q) {
        Kind::StrictlyTyped | Kind::DirectAccess => Some(argument(s, q)),
        Kind::Unused | Kind::OffsetBase | Kind::DynOffsetBase => None,
    }
}

fn is_no(asked: Result<bool, NotAsked>) -> bool
    ensures { result ≡ is_no asked }
{
    matches!(asked, Ok(false))
}

// A type that does not support what it was asked about leaves it to the other.
fn decide(asked: Result<bool, NotAsked>, ty: u32, otherwise: Kept) -> Kept
    ensures { result ≡ decided asked ty otherwise }
{
    match asked {
        Ok(false) => otherwise,
        Ok(true) => Kept { ty, conflict: None },
        Err(why) => Kept {
            ty,
            conflict: Some(Conflict::from(why)),
        },
    }
}

// The type kept of a, with b at d. b's type is asked only if a's does not support b.
fn kept_type(setting: &Setting<'_>, s: &mut [u8], a: usize, d: u32, b: usize) -> Kept
    requires ready { Ready setting.now s.old a b }
    requires typed { Typed (command_in s.old a) }
    ensures keeps { Keeps setting.now s.old a d b result }
    ensures unchanged { Unchanged s.old s.new }
{
    let ty = argument(s, a);
    let other = Kept {
        ty,
        conflict: Some(Conflict::Types),
    };
    let Some(c) = type_at(s, b, d) else {
        return decide(ask(setting, ty, d, s, b), ty, other);
    };
    if c == ty {
        return Kept { ty, conflict: None };
    }
    let asked = ask(setting, ty, d, s, b);
    if is_no(asked) {
        return decide(ask(setting, c, 0, s, a), c, other);
    }
    decide(asked, ty, other)
}

// A leaf's kind is the strict one if either's is.
fn stricter(a: Kind, b: Kind) -> Kind
    ensures { Stricter a b result }
{
    if a == Kind::StrictlyTyped || b == Kind::StrictlyTyped {
        return Kind::StrictlyTyped;
    }
    Kind::DirectAccess
}

fn report_conflict(report: &mut Report<'_>, kept: Kept)
    ensures { Emitted report.old (report_of kept.conflict kept.ty) report.new }
{
    match kept.conflict {
        // a position that nobody looks at is known to be one only if that is said
        None => prove!(report.at <= usize::MAX),
        Some(Conflict::Types) => report.byte(0x32),
        Some(Conflict::Handle) => report.byte(0x33),
        Some(Conflict::Failed) => {
            report.byte(0x34);
            report.word(kept.ty);
        }
    }
}

// b is placed at d in a, a leaf.
pub fn begin_leaf(
    setting: &Setting<'_>,
    s: &mut [u8],
    a: usize,
    d: u32,
    b: usize,
    report: &mut Report<'_>,
) -> State
    requires ready { Ready setting.now s.old a b }
    requires plain { Plain (command_in s.old b) d }
    requires typed { Typed (command_in s.old a) }
    ensures { Begins setting.now s.old a d b report.old s.new report.new (Ok result) }
{
    let kept = kept_type(setting, s, a, d, b);
    let c = stricter(kind(s, a), kind(s, b));
    put_type(s, a, u16::from(c.command()), kept.ty);
    report_conflict(report, kept);
    State::finished(a, 1)
}
