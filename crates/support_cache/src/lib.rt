// What questions of support remember: answers that were given, in the spare words of the nodes and in a list.
#![tactic(auto)]

ghost use Rattle.std.specs.Prelude.{◌≡◌, ◌+◌, ◌*◌, ◌<◌, ◌≤◌, length, IfSome};
ghost use Rattle.qptr.specs.Values.{size_of};
ghost use Rattle.records.specs.Records.{command_in, tag_in};
ghost use Rattle.support_cache.specs.Nodes.{UsageAt, Forgotten};
ghost use Rattle.support_cache.specs.Cached.{tag_of, cached_answer, In, Recollects, Inserts, Remembers, is_empty};

use qptr::{Kind, MaxSize};
use records::{child, kind, max_size, next, past, put_mark, tag};

// How many answers a short list has room for, and a long one. One with less room than a short one remembers nothing.
pub const SMALL: usize = 256;

pub const LARGE: usize = 4096;

// An answer in a list: the tag of what was asked, and the offset. A tag of 0 is none, since that is what cleared bytes and records are.
#[derive(Clone, Copy)]
pub struct CachedAnswer {
    pub tag: u32,
    pub past: u32,
}

impl CachedAnswer {
    pub const NONE: CachedAnswer = CachedAnswer { tag: 0, past: 0 };

    // What the answer says of this number at this offset, if it is about them.
    fn about(self, k: u32, at: u32) -> Option<bool>
        requires { k < 134217728 }
        ensures { IfSome result (λ yes. self ≡ cached_answer k at yes) }
    {
        if self.past != at {
            return None;
        }
        if self.tag == tag_of(k, false) {
            return Some(false);
        }
        if self.tag == tag_of(k, true) {
            return Some(true);
        }
        None
    }
}

// A number, and one more for no or two for yes. 0 is no tag.
fn tag_of(k: u32, yes: bool) -> u32
    requires { k < 134217728 }
    ensures { result ≡ tag_of k yes }
{
    if yes { k * 2 + 2 } else { k * 2 + 1 }
}

// A node of the usage and a type of the table in one number. q fits 16 bits; `as` cuts it without a test.
fn node_and_type(ty: u32, q: usize) -> u32
    requires { (ty < 1024) × (q < 65536) }
    ensures { (result ≡ q * 1024 + ty) × (result < 134217728) }
{
    q as u32 * 1024 + ty
}

// Which of n places in a list a question has. Any would do; these lie far apart for questions that follow each other. The remainder is below
// LONG, whatever `as` would cut off.
fn slot(k: u32, at: u32, n: usize) -> usize
    requires { (k < 134217728) × (SMALL ≤ n) }
    ensures { result < n }
{
    let i = ((u64::from(k) * 2654435769 / 65536 + u64::from(at) * 97) % LARGE as u64) as usize;
    if i < n { i } else { i % SMALL }
}

// What a list has of a question: a type at an offset about a record, passed one by one, as `support` has them.
fn look_up(cached: &[CachedAnswer], ty: u32, at: u32, q: usize) -> Option<bool>
    requires { (ty < 1024) × (q < 65536) }
    ensures { IfSome result (In cached.now ty at q) }
{
    if cached.len() < SMALL {
        return None;
    }
    let k = node_and_type(ty, q);
    cached[slot(k, at, cached.len())].about(k, at)
}

// An answer is put into a list, over what has its place.
fn insert(cached: &mut [CachedAnswer], ty: u32, at: u32, q: usize, yes: bool)
    requires { (ty < 1024) × (q < 65536) }
    ensures { Inserts cached.old cached.new ty at q yes }
{
    if cached.len() < SMALL {
        return;
    }
    let k = node_and_type(ty, q);
    cached[slot(k, at, cached.len())] = CachedAnswer {
        tag: tag_of(k, yes),
        past: at,
    };
}

// A node remembers the last question that went past the first tests, the type as its tag and the offset; others may be in the list.
pub fn recall(ty: u32, at: u32, s: &[u8], q: usize, cached: &[CachedAnswer]) -> Option<bool>
    requires { (ty < 1024) × (q < 65536) × (q * 32 + 32 ≤ length s.now) }
    ensures { IfSome result (Recollects ty at s.now q cached.now) }
{
    let mark = CachedAnswer {
        tag: tag(s, q),
        past: past(s, q),
    };
    if let Some(yes) = mark.about(ty, at) {
        return Some(yes);
    }
    look_up(cached, ty, at, q)
}

pub fn remember(ty: u32, at: u32, s: &mut [u8], q: usize, cached: &mut [CachedAnswer], yes: bool)
    requires { (ty < 1024) × (q < 65536) × (q * 32 + 32 ≤ length s.old) }
    ensures { Remembers ty at s.old s.new q cached.old cached.new yes }
{
    put_mark(s, q, tag_of(ty, yes), at);
    insert(cached, ty, at, q, yes);
}

// Is a usage of this kind and size of fixed size 0, and not Unused?
fn is_empty(kind: Kind, size: MaxSize) -> bool
    ensures { result ≡ is_empty kind (size_of size) }
{
    size == MaxSize::Fixed(0) && kind != Kind::Unused
}

// What forgetting saw: how many nodes, and whether the same questions about one of them can come back in turns. Nothing is promised of
// it, since it only chooses how long a list of answers is: with any list the same is supported.
#[derive(Clone, Copy)]
pub struct Seen {
    pub nodes: usize,
    pub in_turns: bool,
}

impl Seen {
    const NONE: Seen = Seen {
        nodes: 0,
        in_turns: false,
    };

    fn node(in_turns: bool) -> Seen {
        Seen { nodes: 1, in_turns }
    }

    fn and(self, other: Seen) -> Seen {
        Seen {
            nodes: self.nodes.wrapping_add(other.nodes),
            in_turns: self.in_turns || other.in_turns,
        }
    }
}

// The usage at record q remembers nothing. Questions come back in turns where one of them leads to several: for a usage of size 0, which
// many components contain, and for maps and arrays inside of others, whose offsets differ by the way. This is compiled into its callers,
// so that an entry that is a leaf costs no call: with one, forgetting a map took twice as long.
#[cycle(forgetting)]
#[inline(always)]
fn forget_node(s: &mut [u8], q: usize, inside: bool) -> Seen
    requires { UsageAt s.old q }
    ensures { Forgotten s.old s.new q }
{
    put_mark(s, q, 0, 0);
    let kind = kind(s, q);
    let empty = is_empty(kind, max_size(s, q));
    match kind {
        Kind::Unused | Kind::StrictlyTyped | Kind::DirectAccess => Seen::node(empty),
        Kind::OffsetBase => Seen::node(inside || empty).and(forget_entries(s, q)),
        Kind::DynOffsetBase => Seen::node(inside || empty).and(forget_element(s, q)),
    }
}

// The array at record q has forgotten, and so does its element.
#[cycle(forgetting)]
fn forget_element(s: &mut [u8], q: usize) -> Seen
    requires usage_at { UsageAt s.old q }
    requires array { (command_in s.old q ≡ 4) × (tag_in s.old q ≡ 0) }
    ensures { Forgotten s.old s.new q }
{
    let element = child(s, q);
    forget_node(s, element, true)
}

// The map at record q has forgotten, and so do its entries. They are linked by numbers in the bytes that are written on the way, so no
// iterator can hold these.
#[cycle(forgetting)]
fn forget_entries(s: &mut [u8], q: usize) -> Seen
    requires usage_at { UsageAt s.old q }
    requires map { (command_in s.old q ≡ 3) × (tag_in s.old q ≡ 0) }
    ensures { Forgotten s.old s.new q }
{
    let mut seen = Seen::NONE;
    let mut e = child(s, q);
    while e != 0 {
        seen = seen.and(forget_node(s, e, true));
        e = next(s, e);
    }
    seen
}

// The usage at record q remembers nothing.
pub fn forget(s: &mut [u8], q: usize) -> Seen
    requires { UsageAt s.old q }
    ensures { Forgotten s.old s.new q }
{
    forget_node(s, q, false)
}
