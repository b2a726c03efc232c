// The entries of one map that overlap a range: found from the map's finger on, with a table searched downwards. A record of 0 is none, as in the
// links.
#![tactic(auto)]

ghost use Rattle.std.specs.Prelude.{◌≡◌, ◌+◌, ◌*◌, ◌<◌, ◌≤◌, length, IfSome, IsSome};
ghost use Rattle.definitions.specs.Place.{ends};
ghost use Rattle.qptr.specs.Values.{size_of};
ghost use Rattle.records.specs.Records.{next_in, size_in, offset_in};
ghost use Rattle.place_search.specs.Numbers.{Denotes, Past};
ghost use Rattle.place_search.specs.Table.{ends_by, last_of, Tells};
ghost use Rattle.place_search.specs.Parts.{Listed, Told, Parts};
ghost use Rattle.place_search.specs.Seeking.{Linked, Within, Before, Passes, Skips, Sought};
ghost use Rattle.place_search.specs.Cutting.{Cuts, Between, AnyPast, Reaches, Found};

use qptr::MaxSize;
use records::{argument, child, max_size, next, offset};

// The last number of 32 bits. A constant calls no From, so it is `as`.
const MAX32: u64 = u32::MAX as u64;

// Where a dynamic size ends: larger than where anything of a fixed size can end, so that two ends are compared as two numbers: an enum would
// be compared by its cases first.
const DYNAMIC: u64 = 0x1_0000_0000_0000;

// The rows of a small table, which is cheap to clear; one is left over.
const SMALL: usize = 9;

// The rows of a large one. A map's own node and its entries are at most 512, so here too one is left over.
const LARGE: usize = 512;

// The entries of a map: the last one below (0 for none), the first one that overlaps, and the first one above (0 for none); where no
// entry overlaps, the last two are the same.
#[derive(Clone, Copy)]
pub struct Overlap {
    pub low: usize,
    pub first: usize,
    pub above: usize,
}

// A table's row: the entry at record `node`, which fits 16 bits; `as` cuts it without a test.
#[derive(Clone, Copy)]
pub struct Entry {
    pub offset: u32,
    pub size: MaxSize,
    pub node: u16,
}

// A row to which nothing was written.
const NOTHING: Entry = Entry {
    offset: 0,
    size: MaxSize::Fixed(0),
    node: 0,
};

// Where something ends that starts at o; a dynamic one is last.
pub fn end(o: u32, z: MaxSize) -> u64
    ensures { Denotes result (ends o (size_of z)) }
{
    match z {
        MaxSize::Dynamic => DYNAMIC,
        MaxSize::Fixed(n) => u64::from(o) + u64::from(n),
    }
}

// The same of what stands at record q.
pub fn end_at(s: &[u8], q: usize, o: u32) -> u64
    requires { q * 32 + 32 ≤ length s.now }
    ensures { Denotes result (ends o (size_in s.now q)) }
{
    end(o, max_size(s, q))
}

pub fn past32(e: u64) -> bool
    ensures { Past e result }
{
    MAX32 < e && e < DYNAMIC
}

impl Entry {
    // The entry at record q.
    fn at(s: &[u8], q: usize) -> Entry
        requires { (q * 32 + 32 ≤ length s.now) × (q < 65536) }
        ensures { Tells result (offset_in s.now q) (size_in s.now q) q }
    {
        Entry {
            offset: offset(s, q),
            size: max_size(s, q),
            node: q as u16,
        }
    }

    fn ends_by(self, d: u32) -> bool
        ensures { result ≡ ends_by self d }
    {
        end(self.offset, self.size) <= u64::from(d)
    }
}

// The record of the topmost entry that ends by d, and 0 where none does. Document 01 has it over a table that is lent.
pub fn last_ending_by(entries: &[Entry], d: u32) -> u16
    ensures { result ≡ last_of entries.now (length entries.now) d }
{
    entries
        .iter()
        .rev()
        .find(|x| x.ends_by(d))
        .map_or(0, |x| x.node)
}

// Whether an entry from record q to record `upto` ends past 32 bits. This and the other loops over entries follow their links: no memory is
// there for a list of them.
fn any_past(s: &[u8], q: usize, upto: usize) -> bool
    requires { Between s.now q upto }
    ensures { AnyPast s.now q upto result }
{
    let mut p = q;
    while p != upto {
        if past32(end_at(s, p, offset(s, p))) {
            return true;
        }
        p = next(s, p);
    }
    false
}

// How far a search has come: the last entry below (0 for none), and the next one (0 for none).
#[derive(Clone, Copy)]
struct Reached {
    low: usize,
    next: usize,
}

impl Reached {
    // The entry at record q is the last one below.
    fn past(s: &[u8], q: usize) -> Reached
        requires { q * 32 + 32 ≤ length s.now }
        ensures { (result.low ≡ q) × (result.next ≡ next_in s.now q) }
    {
        Reached {
            low: q,
            next: next(s, q),
        }
    }
}

// What is searched for: the entries that overlap what starts and ends here.
#[derive(Clone, Copy)]
struct Range {
    start: u32,
    end: u64,
}

// Whether there is an entry at record p that starts before e.
fn starts_before(s: &[u8], p: usize, e: u64) -> bool
    requires { Within s.now p }
    ensures { Before s.now e p result }
{
    p != 0 && u64::from(offset(s, p)) < e
}

// Whether there is an entry at record p that starts before e and ends by d.
fn passes(s: &[u8], p: usize, range: Range) -> bool
    requires { Within s.now p }
    ensures { Passes s.now p range.start range.end result }
{
    starts_before(s, p, range.end) && end_at(s, p, offset(s, p)) <= u64::from(range.start)
}

// The entries behind `from` that start before e and end by d are below.
fn skip(s: &[u8], from: Reached, range: Range) -> Reached
    requires { Linked s.now from.next 0 }
    ensures { Skips s.now range.start range.end from.low from.next result.low result.next }
{
    let mut to = from;
    while passes(s, to.next, range) {
        to = Reached::past(s, to.next);
    }
    to
}

// Of the entries that start before e: the record of the last that ends by d (0 for none), and that of the first behind them all (0 for
// none).
#[derive(Clone, Copy)]
struct Cut {
    low: usize,
    above: usize,
}

// The entries from record q on, in a table of N rows, an array, since there is no heap. None: as many as the table has rows start before e,
// or more.
fn cut_in<const N: usize>(s: &[u8], q: usize, range: Range) -> Option<Cut>
    requires linked { Linked s.now q 0 }
    requires rows { N ≤ 512 }
    ensures cuts { IfSome result (λ c. Cuts s.now q range.start range.end c.low c.above) }
    ensures all { 512 ≤ N → IsSome result }
{
    let mut t = [NOTHING; N];
    let mut p = q;
    for k in 0..N {
        if !starts_before(s, p, range.end) {
            return Some(Cut {
                low: usize::from(last_ending_by(&t[..k], range.start)),
                above: p,
            });
        }
        t[k] = Entry::at(s, p);
        p = next(s, p);
    }
    None
}

// The same in the small table, if it has a row for each, and else in the large one.
fn cut_all(s: &[u8], q: usize, range: Range) -> Cut
    requires { Linked s.now q 0 }
    ensures { Cuts s.now q range.start range.end result.low result.above }
{
    if let Some(few) = cut_in::<SMALL>(s, q, range) {
        return few;
    }
    cut_in::<LARGE>(s, q, range).unwrap()
}

// Those behind the cut's `low` overlap, up to its `above`; where `low` is 0, those behind `from`.
fn found(s: &[u8], from: Reached, cut: Cut) -> Result<Overlap, Overlap>
    requires { Reaches s.now from.next cut.low cut.above }
    ensures { Told (Found s.now from.low from.next cut.low cut.above) result }
{
    let to = if cut.low == 0 {
        from
    } else {
        Reached::past(s, cut.low)
    };
    let overlap = Overlap {
        low: to.low,
        first: to.next,
        above: cut.above,
    };
    if any_past(s, to.next, cut.above) {
        return Err(overlap);
    }
    Ok(overlap)
}

// The entries behind `from`; those up to it are below. No table is made where none overlaps.
fn behind(s: &[u8], from: Reached, range: Range) -> Result<Overlap, Overlap>
    requires { Linked s.now from.next 0 }
    ensures { Sought s.now range.start range.end from.low from.next result }
{
    let to = skip(s, from, range);
    if starts_before(s, to.next, range.end) {
        return found(s, to, cut_all(s, to.next, range));
    }
    Ok(Overlap {
        low: to.low,
        first: to.next,
        above: to.next,
    })
}

// The entries of the map at record a that overlap what starts at d and ends at e; as an error where one of them ends past 32 bits. The search
// starts behind the map's finger, if that entry starts before e and ends by d, since then no entry before it overlaps; and else at the first. The
// finger is kept in 32 bits, of which `usize` has no From.
pub fn overlapping(s: &[u8], a: usize, d: u32, e: u64) -> Result<Overlap, Overlap>
    requires { Listed s.now a }
    ensures { Parts s.now a d e result }
{
    let range = Range { start: d, end: e };
    let finger = argument(s, a) as usize;
    if passes(s, finger, range) {
        return behind(s, Reached::past(s, finger), range);
    }
    let first = child(s, a);
    behind(
        s,
        Reached {
            low: 0,
            next: first,
        },
        range,
    )
}
