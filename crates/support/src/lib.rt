// What a layout supports: the source's `supports_usage_at_offset`, over a usage's records and a table's bytes.
#![tactic(auto)]

ghost use Rattle.std.specs.Prelude.{◌≡◌, ◌≤◌};
ghost use Rattle.support_cache.specs.Nodes.{Unchanged, Blank};
ghost use Rattle.support.specs.Askable.{Askable};
ghost use Rattle.support.specs.Supported.{Supports, Asked};
ghost use Rattle.support.specs.Cache.{LeftOpen};

use at_once::first_tests;
use layout::{Setting, TypeLayout};
use questions::supports_or_recalls;
use support_cache::{CachedAnswer, LARGE, SMALL, Seen, forget};

mod at_once;
mod questions;

// What is left open is asked with a list of N answers, an array, since there is no heap.
fn supports_with<const N: usize>(
    setting: &Setting<'_>,
    ty: u32,
    at: u32,
    s: &mut [u8],
    q: usize,
) -> bool
    requires few { N ≤ LARGE }
    requires askable { Askable setting.now ty s.old q }
    requires blank { Blank s.old q }
    requires left_open { LeftOpen setting.now ty at s.old q }
    ensures supports { Supports setting.now ty at s.old q result }
    ensures unchanged { Unchanged s.old s.new }
{
    let mut cached = [CachedAnswer::NONE; N];
    supports_or_recalls(setting, ty, at, s, q, &mut cached, true)
}

// With a list as long as what was seen asks for: none if no question comes back in turns, a short one if it has some places for each node
// and each type that can be asked, up to ty. Nothing is promised of the choice, since with any list the same is supported.
fn supports_blank(
    setting: &Setting<'_>,
    ty: u32,
    at: u32,
    s: &mut [u8],
    q: usize,
    seen: Seen,
) -> bool
    requires askable { Askable setting.now ty s.old q }
    requires blank { Blank s.old q }
    requires left_open { LeftOpen setting.now ty at s.old q }
    ensures supports { Supports setting.now ty at s.old q result }
    ensures unchanged { Unchanged s.old s.new }
{
    if !seen.in_turns {
        return supports_with::<0>(setting, ty, at, s, q);
    }
    if seen.nodes <= 8 && ty < 8 {
        return supports_with::<SMALL>(setting, ty, at, s, q);
    }
    supports_with::<LARGE>(setting, ty, at, s, q)
}

// Does the type support the usage at record q, at this offset? What its nodes remember of other questions is forgotten first.
pub fn supports_usage_at_offset(
    setting: &Setting<'_>,
    ty: u32,
    at: u32,
    s: &mut [u8],
    q: usize,
) -> bool
    requires { Askable setting.now ty s.old q }
    ensures supports { Supports setting.now ty at s.old q result }
    ensures unchanged { Unchanged s.old s.new }
{
    match first_tests(setting, ty, at, s, q) {
        Some(yes) => yes,
        None => {
            let seen = forget(s, q);
            supports_blank(setting, ty, at, s, q, seen)
        }
    }
}

// Why a type is not asked: it is a handle, or its layout failed.
#[derive(Clone, Copy, PartialEq, Eq)]
pub enum NotAsked {
    Handle,
    Failed,
}

// The answer of a type.
pub fn ask(
    setting: &Setting<'_>,
    ty: u32,
    at: u32,
    s: &mut [u8],
    q: usize,
) -> Result<bool, NotAsked>
    requires { Askable setting.now ty s.old q }
    ensures asked { Asked setting.now ty at s.old q result }
    ensures unchanged { Unchanged s.old s.new }
{
    match setting.table.layout_of(ty) {
        TypeLayout::Handle => Err(NotAsked::Handle),
        TypeLayout::Failed => Err(NotAsked::Failed),
        TypeLayout::Concrete { .. } => Ok(supports_usage_at_offset(setting, ty, at, s, q)),
    }
}
