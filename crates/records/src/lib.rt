// Node records of 32 bytes in lent bytes, linked: a node names its first child, and an entry the next one of its map. Nothing moves.
#![tactic(auto)]

ghost use Rattle.std.specs.Prelude.{◌≡◌, ◌+◌, ◌*◌, ◌<◌, ◌≤◌, length};
ghost use Rattle.qptr.specs.Values.{size_of, kind_of};
ghost use Rattle.records.specs.Records.{command_in, next_in, child_in, count_in, size_in, argument_in, offset_in, tag_in, past_in, cell, with_next, with_child, with_count, with_size, with_argument, with_offset, with_type, alone, Set, Marked};

use numbers::{get16, get32, put16, put32};
use qptr::{Kind, MaxSize};

// The parts of record q, a function for each: what they share is a call of `numbers`. Each asks that the record lies within the area. A view
// of one record would ask that once, but what writes goes on with the area, to the next record. A link is 0 where there is none, as it stands
// in the record: an Option would be made and taken apart at each step of a walk. Records are counted in `usize` and kept in 16 or 32 bits:
// `as` stands where there is no From, and cuts nothing off, since the clauses bound what is put.

pub fn command(s: &[u8], q: usize) -> u16
    requires { q * 32 + 32 ≤ length s.now }
    ensures { result ≡ command_in s.now q }
{
    get16(s, q * 32)
}

// A command that no node has counts as the placeholder's.
pub fn kind(s: &[u8], q: usize) -> Kind
    requires { q * 32 + 32 ≤ length s.now }
    ensures { result ≡ kind_of (command_in s.now q) }
{
    Kind::of(u32::from(command(s, q)))
}

// The entry after this one; 0 for none.
pub fn next(s: &[u8], q: usize) -> usize
    requires { q * 32 + 32 ≤ length s.now }
    ensures { (result ≡ next_in s.now q) × (result < 65536) }
{
    usize::from(get16(s, q * 32 + 4))
}

// The first entry of a map, or the element of an array; 0 for none.
pub fn child(s: &[u8], q: usize) -> usize
    requires { q * 32 + 32 ≤ length s.now }
    ensures { (result ≡ child_in s.now q) × (result < 65536) }
{
    usize::from(get16(s, q * 32 + 6))
}

pub fn nodes(s: &[u8], q: usize) -> usize
    requires { q * 32 + 32 ≤ length s.now }
    ensures { (result ≡ count_in s.now q) × (result < 4294967296) }
{
    get32(s, q * 32 + 8) as usize
}

pub fn max_size(s: &[u8], q: usize) -> MaxSize
    requires { q * 32 + 32 ≤ length s.now }
    ensures { size_of result ≡ size_in s.now q }
{
    if get16(s, q * 32 + 2) == 0 {
        return MaxSize::Dynamic;
    }
    MaxSize::Fixed(get32(s, q * 32 + 12))
}

pub fn argument(s: &[u8], q: usize) -> u32
    requires { q * 32 + 32 ≤ length s.now }
    ensures { result ≡ argument_in s.now q }
{
    get32(s, q * 32 + 16)
}

pub fn offset(s: &[u8], q: usize) -> u32
    requires { q * 32 + 32 ≤ length s.now }
    ensures { result ≡ offset_in s.now q }
{
    get32(s, q * 32 + 20)
}

pub fn put_next(s: &mut [u8], q: usize, v: usize)
    requires { (q * 32 + 32 ≤ length s.old) × (v < 65536) }
    ensures { Set s.old s.new q (with_next v (cell s.old q)) }
{
    put16(s, q * 32 + 4, v as u32);
}

pub fn put_child(s: &mut [u8], q: usize, v: usize)
    requires { (q * 32 + 32 ≤ length s.old) × (v < 65536) }
    ensures { Set s.old s.new q (with_child v (cell s.old q)) }
{
    put16(s, q * 32 + 6, v as u32);
}

pub fn put_nodes(s: &mut [u8], q: usize, n: usize)
    requires { (q * 32 + 32 ≤ length s.old) × (n < 4294967296) }
    ensures { Set s.old s.new q (with_count n (cell s.old q)) }
{
    put32(s, q * 32 + 8, n as u32);
}

pub fn put_size(s: &mut [u8], q: usize, z: MaxSize)
    requires { q * 32 + 32 ≤ length s.old }
    ensures { Set s.old s.new q (with_size (size_of z) (cell s.old q)) }
{
    match z {
        MaxSize::Dynamic => {
            put16(s, q * 32 + 2, 0);
            put32(s, q * 32 + 12, 0);
        }
        MaxSize::Fixed(n) => {
            put16(s, q * 32 + 2, 1);
            put32(s, q * 32 + 12, n);
        }
    }
}

pub fn put_argument(s: &mut [u8], q: usize, v: u32)
    requires { q * 32 + 32 ≤ length s.old }
    ensures { Set s.old s.new q (with_argument v (cell s.old q)) }
{
    put32(s, q * 32 + 16, v);
}

pub fn put_offset(s: &mut [u8], q: usize, o: u32)
    requires { q * 32 + 32 ≤ length s.old }
    ensures { Set s.old s.new q (with_offset o (cell s.old q)) }
{
    put32(s, q * 32 + 20, o);
}

// A leaf's command, which says how strict it is, and its type. Here and below any command may be put: a kind would ask more.
pub fn put_type(s: &mut [u8], q: usize, c: u16, ty: u32)
    requires { q * 32 + 32 ≤ length s.old }
    ensures { Set s.old s.new q (with_type c ty (cell s.old q)) }
{
    put16(s, q * 32, u32::from(c));
    put32(s, q * 32 + 16, ty);
}

// A node that is linked to nothing.
pub fn put_record(s: &mut [u8], q: usize, c: u16, z: MaxSize, t: u32, o: u32)
    requires { q * 32 + 32 ≤ length s.old }
    ensures { Set s.old s.new q (alone c (size_of z) t o) }
{
    put_type(s, q, c, t);
    put_next(s, q, 0);
    put_child(s, q, 0);
    put_nodes(s, q, 1);
    put_size(s, q, z);
    put_offset(s, q, o);
}

// What record `from` says, but for its spare words, goes to record `to`.
pub fn copy_record(s: &mut [u8], to: usize, from: usize)
    requires { (to * 32 + 32 ≤ length s.old) × (from * 32 + 32 ≤ length s.old) }
    ensures { Set s.old s.new to (cell s.old from) }
{
    s.copy_within(from * 32..from * 32 + 24, to * 32);
}

// The two spare words of record q: what it remembers, which no usage depends on.

pub fn tag(s: &[u8], q: usize) -> u32
    requires { q * 32 + 32 ≤ length s.now }
    ensures { result ≡ tag_in s.now q }
{
    get32(s, q * 32 + 24)
}

pub fn past(s: &[u8], q: usize) -> u32
    requires { q * 32 + 32 ≤ length s.now }
    ensures { result ≡ past_in s.now q }
{
    get32(s, q * 32 + 28)
}

pub fn put_mark(s: &mut [u8], q: usize, tag: u32, past: u32)
    requires { q * 32 + 32 ≤ length s.old }
    ensures { Marked s.old s.new q tag past }
{
    put32(s, q * 32 + 24, tag);
    put32(s, q * 32 + 28, past);
}
