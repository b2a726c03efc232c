// A linked usage written as a stream: the own part of a node, then what is linked below it.
#![tactic(auto)]

ghost use Rattle.std.specs.Prelude.{◌≡◌, ◌+◌, ◌*◌, ◌<◌, ◌≤◌, [], ◌∷◌, length};
ghost use Rattle.definitions.specs.Stream.{bytes, write_size, write_head};
ghost use Rattle.qptr.specs.Values.{size_of, command_of};
ghost use Rattle.numbers.specs.Words.{Width};
ghost use Rattle.numbers.specs.Widths.{SizeWidth, own_width};
ghost use Rattle.stream_write.specs.Nodes.{Put, Onto};
ghost use Rattle.stream_write.specs.Writing.{Readable, Fitting, OwnFitting, Listed, CountIs, ArgumentIs, LengthIs, OwnPut, UsagePut};

use numbers::put_number;
use qptr::{Command, Kind, MaxSize};
use records::{argument, child, kind, max_size, next, offset};

// The bytes of the own part of a node of this kind.
fn own_width(kind: Kind) -> usize
    ensures { result ≡ own_width (command_of kind) }
{
    let row = Command::of(kind.command());
    1 + row.size + row.argument
}

// How many entries are linked from record q on. They are linked by numbers of records, so it is a walk from one to the next, here and
// below: there is no slice of them to go over, and an iterator made for it would need a contract that says what the loop does.
fn entries(s: &[u8], q: usize) -> usize
    requires { Listed s.now q }
    ensures { CountIs s.now q result }
{
    let mut p = q;
    let mut k = 0;
    while p != 0 {
        p = next(s, p);
        k += 1;
    }
    k
}

// The argument of the node at record q as the stream has it: a map's record does not keep its count, which is counted in `usize` and fits 32
// bits, to which `as` alone cuts it without a test.
fn written_argument(s: &[u8], q: usize) -> u32
    requires { Readable s.now q }
    ensures { ArgumentIs s.now q result }
{
    match kind(s, q) {
        Kind::OffsetBase => entries(s, child(s, q)) as u32,
        _ => argument(s, q),
    }
}

// The length of the usage at record q, written.
pub fn written_length(s: &[u8], q: usize) -> usize
    requires { Readable s.now q }
    ensures { LengthIs s.now q result }
{
    let kind = kind(s, q);
    let mut n = own_width(kind);
    match kind {
        Kind::DynOffsetBase => n + written_length(s, child(s, q)),
        Kind::OffsetBase => {
            let mut p = child(s, q);
            while p != 0 {
                n += 4 + written_length(s, p);
                p = next(s, p);
            }
            n
        }
        _ => n,
    }
}

// A lent buffer, and where the text goes on. It has room for all that comes, so nothing is tested here;
// `report::Report` and `merge_line::Writer` test each byte.
#[derive(Drop)]
struct Output<'a> {
    buffer: &'a mut [u8],
    at: usize,
}

impl Output<'_> {
    fn byte(&mut self, b: u8)
        requires { self.old.at + 1 ≤ length self.old.buffer.now }
        ensures { Onto (Put (b ∷ [])) self.old self.new }
    {
        self.buffer[self.at] = b;
        self.at += 1;
    }

    // A number in w bytes.
    fn number(&mut self, w: usize, n: u32)
        requires { Width w × (self.old.at + w ≤ length self.old.buffer.now) }
        ensures { Onto (Put (bytes w n)) self.old self.new }
    {
        put_number(self.buffer, self.at, w, n);
        self.at += w;
    }

    // A size in w bytes: a flag, and a number behind it.
    fn size(&mut self, w: usize, z: MaxSize)
        requires { SizeWidth w × (self.old.at + w ≤ length self.old.buffer.now) }
        ensures { Onto (Put (write_size w (size_of z))) self.old self.new }
    {
        match z {
            MaxSize::Dynamic => {
                self.byte(0);
                self.number(w - 1, 0);
            }
            MaxSize::Fixed(n) => {
                self.byte(1);
                self.number(w - 1, n);
            }
        }
    }

    // A node's own part: its command, its size and its argument.
    fn head(&mut self, kind: Kind, z: MaxSize, a: u32)
        requires { self.old.at + own_width (command_of kind) ≤ length self.old.buffer.now }
        ensures { Onto (Put (write_head (record { command = command_of kind; size = size_of z; argument = a }))) self.old self.new }
    {
        let c = kind.command();
        let row = Command::of(c);
        self.byte(c);
        self.size(row.size, z);
        self.number(row.argument, a);
    }

    // The own part of the node at record q.
    fn own(&mut self, s: &[u8], q: usize)
        requires { OwnFitting s.now q self.old.buffer.now self.old.at }
        ensures { Onto (OwnPut s.now q) self.old self.new }
    {
        let kind = kind(s, q);
        let z = max_size(s, q);
        let a = written_argument(s, q);
        self.head(kind, z, a);
    }

    // The usage at record q.
    fn usage(&mut self, s: &[u8], q: usize)
        requires { Fitting s.now q self.old.buffer.now self.old.at }
        ensures { Onto (UsagePut s.now q) self.old self.new }
    {
        self.own(s, q);
        match kind(s, q) {
            Kind::DynOffsetBase => self.usage(s, child(s, q)),
            Kind::OffsetBase => {
                let mut i = child(s, q);
                while i != 0 {
                    self.number(4, offset(s, i));
                    self.usage(s, i);
                    i = next(s, i);
                }
            }
            _ => (),
        }
    }
}

// The usage at record q goes to `at`; the place behind it. One call from outside is no reason to make `Output` public.
pub fn write(s: &[u8], q: usize, out: &mut [u8], at: usize) -> usize
    requires { Fitting s.now q out.old at }
    ensures { UsagePut s.now q out.old at out.new result }
{
    let mut output = Output { buffer: out, at };
    output.usage(s, q);
    output.at
}
