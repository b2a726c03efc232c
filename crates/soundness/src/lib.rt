// Sound usages, over their records: each record's own rules, one after the other.
#![tactic(auto)]

ghost use Rattle.std.specs.Prelude.{◌≡◌, false};
ghost use Rattle.definitions.specs.Usage.{fixed};
ghost use Rattle.definitions.specs.Place.{past32, ◌≤ˢ◌};
ghost use Rattle.qptr.specs.Values.{size_of};
ghost use Rattle.soundness.specs.Own.{fills, Followed};
ghost use Rattle.soundness.specs.Preorder.{UsageFrom, EntriesFrom, Counted, Chained, Owned, Tested};

use qptr::{Kind, MaxSize};
use records::{argument, kind, max_size, nodes, offset};

// Dynamic, or at least 1. A size is never past 32 bits.
fn some(z: MaxSize) -> bool
    ensures { (result ≡ (fixed 1 ≤ˢ size_of z)) × (past32 (size_of z) ≡ false) }
{
    MaxSize::Fixed(1) <= z
}

// Is an element's size fixed, equal to the stride, which is not 0?
fn element(stride: u32, z: MaxSize) -> bool
    ensures { result ≡ fills stride (size_of z) }
{
    stride != 0 && z == MaxSize::Fixed(stride)
}

// The place behind an entry of size z at o; None where it starts before `place`, is empty, or ends past 32 bits.
fn follow(place: MaxSize, o: u32, z: MaxSize) -> Option<MaxSize>
    ensures { Followed (size_of place) o (size_of z) result }
{
    if MaxSize::Fixed(o) < place || !some(z) {
        return None;
    }
    match z {
        MaxSize::Dynamic => Some(MaxSize::Dynamic),
        MaxSize::Fixed(n) => Some(MaxSize::Fixed(o.checked_add(n)?)),
    }
}

// The first record past the usage at record q.
fn past(s: &[u8], q: usize) -> usize
    requires { UsageFrom s.now q }
    ensures { Counted s.now q result }
{
    q + nodes(s, q)
}

// Do the entries from record `from` to `to` follow one another, and end by the map's size? From one entry to the next it is as many records as
// the entry has nodes, so there is no range to count over.
fn chained(s: &[u8], from: usize, to: usize, map: MaxSize) -> bool
    requires { EntriesFrom s.now from to }
    ensures { Chained s.now from to (size_of map) result }
{
    let mut q = from;
    let mut place = MaxSize::Fixed(0);
    while q < to {
        let Some(end) = follow(place, offset(s, q), max_size(s, q)) else {
            return false;
        };
        place = end;
        q = past(s, q);
    }
    place <= map
}

// What record q itself must keep. One kind is tested before the match: of a match with an arm for each a compiler makes a jump by a table,
// which not every processor foresees.
fn own(s: &[u8], q: usize) -> bool
    requires { UsageFrom s.now q }
    ensures { Owned s.now q result }
{
    let z = max_size(s, q);
    let has = some(z);
    let k = kind(s, q);
    if k == Kind::Unused {
        return true;
    }
    has && match k {
        Kind::OffsetBase => chained(s, q + 1, past(s, q), z),
        Kind::DynOffsetBase => element(argument(s, q), max_size(s, q + 1)),
        _ => true,
    }
}

// Is the usage at record q sound?
pub fn sound(s: &[u8], q: usize) -> bool
    requires { UsageFrom s.now q }
    ensures { Tested s.now q result }
{
    let to = past(s, q);
    for i in q..to {
        if !own(s, i) {
            return false;
        }
    }
    true
}
