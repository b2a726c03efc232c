// Usages loaded from streams into linked records: node by node in the order of the stream, and then linked from the last to the first. Places are
// counted from the stream's start, as in `stream`.
#![tactic(auto)]

ghost use Rattle.std.specs.Prelude.{◌≡◌, ◌+◌, ◌*◌, ◌≤◌, length};
ghost use Rattle.qptr.specs.Values.{size_of};
ghost use Rattle.records.specs.Records.{command_in};
ghost use Rattle.numbers.specs.Widths.{SizeWidth};
ghost use Rattle.stream_load.specs.Nodes.{size_at, front_behind};
ghost use Rattle.stream_load.specs.Loading.{EntriesOf, EntriesTied, RipeAt, Tied, RawAt, AllTied, OwnReady, OwnLoaded, Loadable, NodesLoaded, Loaded};

use numbers::number;
use qptr::{Command, Kind, MaxSize};
use records::{argument, kind, nodes, put_argument, put_child, put_next, put_nodes, put_record};

// The size in the w bytes from i on.
fn size(s: &[u8], i: usize, w: usize) -> MaxSize
    requires { SizeWidth w × (i + w ≤ length s.now) }
    ensures { size_of result ≡ size_at w s.now i }
{
    match s[i] {
        0 => MaxSize::Dynamic,
        _ => MaxSize::Fixed(number(s, i + 1, w - 1)),
    }
}

// The bytes of the offset in front of the node behind record q.
fn front_behind(s: &[u8], q: usize) -> usize
    requires { q * 32 + 32 ≤ length s.now }
    ensures { result ≡ front_behind (command_in s.now q) }
{
    match kind(s, q) {
        Kind::DynOffsetBase => 0,
        _ => 4,
    }
}

// The node at `at` alone, behind `front` bytes of its offset, goes to record q; the place behind it. The stream was accepted, so nothing is
// tested again, as `stream::header` would.
fn load_own(s: &[u8], at: usize, front: usize, work: &mut [u8], q: usize) -> usize
    requires { OwnReady s.now at front work.old q }
    ensures { OwnLoaded s.now at front work.old q work.new result }
{
    let h = at + front;
    let c = s[h];
    let row = Command::of(c);
    let a = h + 1 + row.size;
    let end = a + row.argument;
    let o = number(s, at, front);
    let z = size(s, h + 1, row.size);
    let argument = number(s, a, row.argument);
    put_record(work, q, u16::from(c), z, argument, o);
    end
}

// All n nodes, each by itself: linked to nothing, with a count of one node, and the argument that the stream has.
fn load_nodes(s: &[u8], at: usize, n: usize, work: &mut [u8], q: usize) -> usize
    requires { Loadable s.now at n work.old q }
    ensures { NodesLoaded s.now at work.old q work.new result }
{
    let mut front = 0;
    let mut p = at;
    for i in q..q + n {
        p = load_own(s, p, front, work, i);
        front = front_behind(work, i);
    }
    p
}

// The k entries that stand from record q on, at least one, are linked, the last one to none already; the record behind them.
fn link_entries(s: &mut [u8], q: usize, k: usize) -> usize
    requires { EntriesOf s.old q k }
    ensures { EntriesTied s.old q k s.new result }
{
    let mut p = q;
    for _i in 1..k {
        let n = p + nodes(s, p);
        put_next(s, p, n);
        p = n;
    }
    p + nodes(s, p)
}

// What lies below record q, where all of that is linked for itself, and a map's argument is its count of entries, is linked to it.
fn link(s: &mut [u8], q: usize)
    requires { RipeAt s.old q }
    ensures { Tied s.old q s.new }
{
    match kind(s, q) {
        Kind::OffsetBase => {
            let k = argument(s, q) as usize; // `usize` has no From of 32 bits
            if k == 0 {
                return;
            }
            let end = link_entries(s, q + 1, k);
            put_child(s, q, q + 1);
            put_argument(s, q, 0);
            put_nodes(s, q, end - q);
        }
        Kind::DynOffsetBase => {
            let n = nodes(s, q + 1);
            put_child(s, q, q + 1);
            put_nodes(s, q, 1 + n);
        }
        _ => (),
    }
}

// The n records from q on are linked from the last to the first: all below a record stands behind it.
fn link_nodes(work: &mut [u8], q: usize, n: usize)
    requires { RawAt work.old q n }
    ensures { AllTied work.old q n work.new }
{
    for i in (q..q + n).rev() {
        link(work, i);
    }
}

// The node at `at`, of n nodes, goes to the records from q on; the place behind it.
pub fn load(s: &[u8], at: usize, n: usize, work: &mut [u8], q: usize) -> usize
    requires { Loadable s.now at n work.old q }
    ensures { Loaded s.now at work.old q work.new result }
{
    let end = load_nodes(s, at, n, work, q);
    link_nodes(work, q, n);
    end
}
