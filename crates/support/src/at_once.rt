// What is answered at once, with no further question.
ghost use Rattle.std.specs.Prelude.{◌≡◌, ◌&&◌, ◌+◌, ◌*◌, ◌≤◌, eqb, length, MatchOption};
ghost use Rattle.definitions.specs.Support.{outside};
ghost use Rattle.qptr.specs.Values.{size_of};
ghost use Rattle.support.specs.Askable.{Askable};
ghost use Rattle.support.specs.Supported.{WholeLeaf, Supports};
ghost use Rattle.support.specs.Cache.{LeftOpen};

use layout::{Setting, TypeLayout, end_of};
use qptr::{Kind, MaxSize};
use records::{argument, kind, max_size};

// Is a usage of this size, at this offset, dynamic or past the layout's size?
fn outside(size: u32, at: u32, usage: MaxSize) -> bool
    ensures { result ≡ outside size at (size_of usage) }
{
    match usage {
        MaxSize::Dynamic => true,
        MaxSize::Fixed(_) => size < end_of(at, usage),
    }
}

// A layout with a dynamic stride has room for each.
fn too_large(size: u32, stride: u32, at: u32, usage: MaxSize) -> bool
    ensures { result ≡ (eqb stride 0 && outside size at (size_of usage)) }
{
    stride == 0 && outside(size, at, usage)
}

// Is the usage at record q a leaf of this type, at offset 0?
fn is_whole_leaf(ty: u32, at: u32, s: &[u8], q: usize) -> bool
    requires { q * 32 + 32 ≤ length s.now }
    ensures { WholeLeaf ty at s.now q result }
{
    if at != 0 {
        return false;
    }
    match kind(s, q) {
        Kind::StrictlyTyped | Kind::DirectAccess => ty == argument(s, q),
        Kind::Unused | Kind::OffsetBase | Kind::DynOffsetBase => false,
    }
}

// The tests that need no further question. None of them answers where the components are to be asked, and then the usage itself.
// A type that is not concrete supports nothing.
pub(super) fn first_tests(
    setting: &Setting<'_>,
    ty: u32,
    at: u32,
    s: &[u8],
    q: usize,
) -> Option<bool>
    requires { Askable setting.now ty s.now q }
    ensures { MatchOption result (LeftOpen setting.now ty at s.now q) (Supports setting.now ty at s.now q) }
{
    let TypeLayout::Concrete {
        size,
        dyn_stride,
        ..
    } = setting.table.layout_of(ty)
    else {
        return Some(false);
    };
    if kind(s, q) == Kind::Unused {
        return Some(true);
    }
    if is_whole_leaf(ty, at, s, q) {
        return Some(true);
    }
    if too_large(size, dyn_stride, at, max_size(s, q)) {
        return Some(false);
    }
    None
}
