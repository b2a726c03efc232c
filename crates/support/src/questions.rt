// The questions that lead to others: of a type's components, of a map's entries, and of an array's element.
ghost use Rattle.std.specs.Prelude.{◌≡◌, true, false, ◌+◌, ◌*◌, ◌<◌, ◌≤◌, length, IfSome, MatchOption};
ghost use Rattle.definitions.specs.Support.{same_length};
ghost use Rattle.qptr.specs.Values.{command_of, size_of};
ghost use Rattle.qptr.specs.declared.Kind.TheVariants.{Unused, OffsetBase, DynOffsetBase};
ghost use Rattle.records.specs.Records.{command_in};
ghost use Rattle.support_cache.specs.Cached.{Recollects};
ghost use Rattle.support.specs.Askable.{ConcreteType, Askable, ConcreteAskable, ComponentsOf};
ghost use Rattle.support.specs.Supported.{Supports, ComponentSupports, EntrySupported, EntriesSupported, ElementsSupported, ItselfSupports, Says};
ghost use Rattle.support.specs.Cache.{CacheTrue, Kept, LeftOpen};

use crate::at_once::first_tests;
use layout::{Array, Components, Setting, TypeLayout, end_of};
use qptr::{Kind, MaxSize};
use records::{argument, child, kind, max_size, next, offset};
use support_cache::{CachedAnswer, recall, remember};

// A question is of a type at an offset, about the usage at record q, or of the type's components alone where it is not `whole`. Each question
// that another leads to has another type and offset, or another record, so a struct of them would be built anew at each call. `whole` is a flag
// so that each level of types takes one frame: with a function for each of its two values types nested deep took more than twice the stack.

// Does some component that contains the usage at record q support it at the remaining offset?
#[cycle(support)]
fn any_component_supports(
    setting: &Setting<'_>,
    ty: u32,
    at: u32,
    s: &mut [u8],
    q: usize,
    cached: &mut [CachedAnswer],
) -> bool
    requires concrete_askable { ConcreteAskable setting.now ty s.old q }
    requires cache_true { CacheTrue setting.now s.old q cached.old }
    ensures component_supports { ComponentSupports setting.now ty at s.old q result }
    ensures kept { Kept setting.now s.old s.new cached.old cached.new }
{
    let end = end_of(at, max_size(s, q));
    let mut from = 0;
    while let Some(component) = setting.find_components_containing(ty, from, at, end) {
        if supports_inside(setting, component.ty, component.rest, s, q, cached, true) {
            return true;
        }
        from = component.next;
    }
    false
}

// Is every entry of the map at record q supported, at the sum of both offsets? The entries are linked by numbers in the bytes that each
// question writes to, so no iterator can hold these.
#[cycle(support)]
fn entries_supported(
    setting: &Setting<'_>,
    ty: u32,
    at: u32,
    s: &mut [u8],
    q: usize,
    cached: &mut [CachedAnswer],
) -> bool
    requires concrete_askable { ConcreteAskable setting.now ty s.old q }
    requires cache_true { CacheTrue setting.now s.old q cached.old }
    requires map { command_in s.old q ≡ command_of OffsetBase }
    ensures entries_supported { EntriesSupported setting.now ty at s.old q result }
    ensures kept { Kept setting.now s.old s.new cached.old cached.new }
{
    let mut e = child(s, q);
    while e != 0 {
        if !entry_supported(setting, ty, at, s, e, cached) {
            return false;
        }
        e = next(s, e);
    }
    true
}

// By this whole layout if the sum is 0, else by a containing component.
#[cycle(support)]
fn entry_supported(
    setting: &Setting<'_>,
    ty: u32,
    at: u32,
    s: &mut [u8],
    e: usize,
    cached: &mut [CachedAnswer],
) -> bool
    requires concrete_askable { ConcreteAskable setting.now ty s.old e }
    requires cache_true { CacheTrue setting.now s.old e cached.old }
    ensures entry_supported { EntrySupported setting.now ty at s.old e result }
    ensures kept { Kept setting.now s.old s.new cached.old cached.new }
{
    let Some(sum) = at.checked_add(offset(s, e)) else {
        return false;
    };
    supports_inside(setting, ty, sum, s, e, cached, sum == 0)
}

// The array's size against the layout's length (0 = none): dynamic with no length, or whole elements up to the length.
fn same_length(stride: u32, len: u32, at: u32, size: MaxSize) -> bool
    requires { 0 < stride }
    ensures { result ≡ same_length stride len at (size_of size) }
{
    match size {
        MaxSize::Dynamic => len == 0,
        MaxSize::Fixed(n) => {
            n % stride == 0
                && n != 0
                && u64::from(at / stride) + u64::from(n / stride) == u64::from(len)
        }
    }
}

// Do elements of this stride, type and length support the array at record q? Its stride has to be theirs.
#[cycle(support)]
fn elements_supported(
    setting: &Setting<'_>,
    array: Array,
    at: u32,
    s: &mut [u8],
    q: usize,
    cached: &mut [CachedAnswer],
) -> bool
    requires askable { Askable setting.now array.elem s.old q }
    requires cache_true { CacheTrue setting.now s.old q cached.old }
    requires stride_nonzero { (0 < array.stride) × (command_in s.old q ≡ command_of DynOffsetBase) }
    ensures elements_supported { ElementsSupported setting.now array at s.old q result }
    ensures kept { Kept setting.now s.old s.new cached.old cached.new }
{
    let stride = array.stride;
    if stride != argument(s, q) {
        return false;
    }
    if at % stride != 0 {
        return false;
    }
    if !same_length(stride, array.len, at, max_size(s, q)) {
        return false;
    }
    let e = child(s, q);
    supports_inside(setting, array.elem, 0, s, e, cached, true)
}

// The components of a concrete layout.
fn components_of(setting: &Setting<'_>, ty: u32) -> Components
    requires { ConcreteType setting.now ty }
    ensures { ComponentsOf setting.now ty result }
{
    match setting.table.layout_of(ty) {
        TypeLayout::Concrete { components, .. } => components,
        TypeLayout::Handle | TypeLayout::Failed => unreachable!(),
    }
}

// What is asked once no component supports the usage at record q, by its kind: only elements support an array.
#[cycle(support)]
fn itself_supports(
    setting: &Setting<'_>,
    ty: u32,
    at: u32,
    s: &mut [u8],
    q: usize,
    cached: &mut [CachedAnswer],
) -> bool
    requires concrete_askable { ConcreteAskable setting.now ty s.old q }
    requires cache_true { CacheTrue setting.now s.old q cached.old }
    requires not_unused { command_in s.old q ≡ command_of Unused → ⊥ }
    ensures itself_supports { ItselfSupports setting.now ty at s.old q result }
    ensures kept { Kept setting.now s.old s.new cached.old cached.new }
{
    match kind(s, q) {
        Kind::Unused | Kind::StrictlyTyped | Kind::DirectAccess => false,
        Kind::OffsetBase => entries_supported(setting, ty, at, s, q, cached),
        Kind::DynOffsetBase => match components_of(setting, ty) {
            Components::Scalar | Components::Fields(_) => false,
            Components::Elements(array) => elements_supported(setting, array, at, s, q, cached),
        },
    }
}

// What is left open: the components are asked, and then, of the whole layout, the usage itself.
#[cycle(support)]
fn supports_past_tests(
    setting: &Setting<'_>,
    ty: u32,
    at: u32,
    s: &mut [u8],
    q: usize,
    cached: &mut [CachedAnswer],
    whole: bool,
) -> bool
    requires concrete_askable { ConcreteAskable setting.now ty s.old q }
    requires cache_true { CacheTrue setting.now s.old q cached.old }
    requires left_open { whole ≡ true → LeftOpen setting.now ty at s.old q }
    ensures says { Says setting.now ty at s.old q whole result }
    ensures kept { Kept setting.now s.old s.new cached.old cached.new }
{
    any_component_supports(setting, ty, at, s, q, cached)
        || whole && itself_supports(setting, ty, at, s, q, cached)
}

// Answers of the whole layout are remembered, those of its components alone are not.
fn recall_whole(
    ty: u32,
    at: u32,
    s: &[u8],
    q: usize,
    cached: &[CachedAnswer],
    whole: bool,
) -> Option<bool>
    requires { (ty < 1024) × (q < 65536) × (q * 32 + 32 ≤ length s.now) }
    ensures { IfSome result (λ yes. (whole ≡ true) × Recollects ty at s.now q cached.now yes) }
{
    if whole {
        recall(ty, at, s, q, cached)
    } else {
        None
    }
}

// What is left open is recalled, or asked and remembered. All questions inside of others come here, so that the compiler makes one frame
// of this function and those it goes through, and types nested deep take little stack.
#[cycle(support)]
pub(super) fn supports_or_recalls(
    setting: &Setting<'_>,
    ty: u32,
    at: u32,
    s: &mut [u8],
    q: usize,
    cached: &mut [CachedAnswer],
    whole: bool,
) -> bool
    requires concrete_askable { ConcreteAskable setting.now ty s.old q }
    requires cache_true { CacheTrue setting.now s.old q cached.old }
    requires left_open { whole ≡ true → LeftOpen setting.now ty at s.old q }
    ensures says { Says setting.now ty at s.old q whole result }
    ensures kept { Kept setting.now s.old s.new cached.old cached.new }
{
    if let Some(yes) = recall_whole(ty, at, s, q, cached, whole) {
        return yes;
    }
    let yes = supports_past_tests(setting, ty, at, s, q, cached, whole);
    if !whole {
        return yes;
    }
    remember(ty, at, s, q, cached, yes);
    yes
}

// The first tests are of the whole layout; its components alone are left open.
fn test_whole(
    setting: &Setting<'_>,
    ty: u32,
    at: u32,
    s: &[u8],
    q: usize,
    whole: bool,
) -> Option<bool>
    requires { Askable setting.now ty s.now q }
    ensures { MatchOption result (whole ≡ true → LeftOpen setting.now ty at s.now q) (λ yes. (whole ≡ true) × Supports setting.now ty at s.now q yes) }
{
    if whole {
        first_tests(setting, ty, at, s, q)
    } else {
        None
    }
}

// A question inside of another, of the whole layout or of its components alone.
#[cycle(support)]
fn supports_inside(
    setting: &Setting<'_>,
    ty: u32,
    at: u32,
    s: &mut [u8],
    q: usize,
    cached: &mut [CachedAnswer],
    whole: bool,
) -> bool
    requires askable { Askable setting.now ty s.old q }
    requires cache_true { CacheTrue setting.now s.old q cached.old }
    requires concrete_askable { whole ≡ false → ConcreteAskable setting.now ty s.old q }
    ensures says { Says setting.now ty at s.old q whole result }
    ensures kept { Kept setting.now s.old s.new cached.old cached.new }
{
    match test_whole(setting, ty, at, s, q, whole) {
        Some(yes) => yes,
        None => supports_or_recalls(setting, ty, at, s, q, cached, whole),
    }
}
