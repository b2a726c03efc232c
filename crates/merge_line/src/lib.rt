// The program's input, three blocks, and the line that it prints.
#![tactic(auto)]

ghost use Rattle.std.specs.Prelude.{◌≡◌, ◌≤◌, ◌<◌, [], ◌∷◌, ◌++◌, length};
ghost use Rattle.std.proofs.Math.Option.{none as nothing, some};
ghost use Rattle.merge_line.specs.Put.{Put};
ghost use Rattle.merge_line.specs.Frame.{digits, hex_digit, hex_digits, hex, zeros, answer_line, line_for, line_of, line_limit, Line};
ghost use Rattle.merge_line.specs.Parts.{blocks_in, FirstOf, PartsOf, Framed};
ghost use Rattle.merge_line.specs.Answered.{written};

use call_answers::Answer;
use call_inputs::WORK_LIMIT;
use numbers::get32;
use qptr::Choices;

// The longest input.
const INPUT: usize = 65536;

// The bytes of an output, and of a report.
const BUFFER_LEN: usize = 16384;

const SPACE: u8 = 0x20;

const END: u8 = 0x0A;

// `-`
const DASH: u8 = 0x2D;

// The table, the first stream and the second one.
#[derive(Clone, Copy)]
pub struct Parts<'a> {
    pub table: &'a [u8],
    pub first: &'a [u8],
    pub second: &'a [u8],
}

// The block that a text begins with, behind its length, and what stands behind it. `usize` has no From of the 32 bits of a length.
pub fn block(s: &[u8]) -> Option<(&[u8], &[u8])>
    ensures { FirstOf s.now result }
{
    let (_, rest) = s.split_at_checked(4)?;
    let n = get32(s, 0) as usize;
    rest.split_at_checked(n)
}

// The three blocks that a text begins with, one behind the other, and what stands behind them.
pub fn three_blocks(s: &[u8]) -> Option<(Parts<'_>, &[u8])>
    ensures { PartsOf s.now result }
{
    let (table, s) = block(s)?;
    let (first, s) = block(s)?;
    let (second, rest) = block(s)?;
    let parts = Parts {
        table,
        first,
        second,
    };
    Some((parts, rest))
}

// The three blocks of an input, with nothing behind them.
pub fn blocks(s: &[u8]) -> Option<Parts<'_>>
    ensures { Framed s.now result }
{
    if INPUT < s.len() {
        return None;
    }
    let (parts, rest) = three_blocks(s)?;
    if !rest.is_empty() {
        return None;
    }
    Some(parts)
}

// Hex is written by digits, since the line's buffer may end before them: the library's call wants one that does not.

fn hex_digit(n: u8) -> u8
    requires { n < 16 }
    ensures { result ≡ hex_digit n }
{
    if n < 10 { 48 + n } else { 87 + n }
}

// The line's buffer, and where its next byte goes. It is not the report's `Report`: what stands behind the line is kept, too.
#[derive(Drop)]
struct Writer<'a> {
    buffer: &'a mut [u8],
    at: usize,
}

impl Writer<'_> {
    // One byte more, if the buffer has room for it. Nothing else changes.
    fn byte(&mut self, b: u8)
        ensures { Put self.old (b ∷ []) self.new }
    {
        if self.at < self.buffer.len() {
            self.buffer[self.at] = b;
        }
        self.at = self.at.wrapping_add(1);
    }

    fn bytes(&mut self, s: &[u8])
        ensures { Put self.old s.now self.new }
    {
        for &b in s {
            self.byte(b);
        }
    }

    // A number and a space.
    fn number(&mut self, n: u32)
        ensures { Put self.old (digits n ++ 0x20 ∷ []) self.new }
    {
        let mut text = itoa::Buffer::new();
        self.bytes(text.format(n).as_bytes());
        self.byte(SPACE);
    }

    fn hex_digits(&mut self, s: &[u8])
        ensures { Put self.old (hex_digits s.now) self.new }
    {
        for &b in s {
            self.byte(hex_digit(b / 16));
            self.byte(hex_digit(b % 16));
        }
    }

    // Bytes in lowercase hex, or `-` if there are none.
    fn hex(&mut self, s: &[u8])
        ensures { Put self.old (hex s.now) self.new }
    {
        if s.is_empty() {
            self.byte(DASH);
        } else {
            self.hex_digits(s);
        }
    }

    // Bytes in hex, and the byte behind them.
    fn text(&mut self, s: &[u8], behind: u8)
        ensures { Put self.old (hex s.now ++ behind ∷ []) self.new }
    {
        self.hex(s);
        self.byte(behind);
    }

    fn broken(&mut self)
        ensures { Put self.old (line_for nothing) self.new }
    {
        self.bytes(b"frame\n");
    }

    // Number, pairings, output and report.
    fn answer(&mut self, a: Answer, output: &[u8], rep: &[u8])
        requires { (a.usage ≤ length output.now) × (a.report ≤ length rep.now) }
        ensures { Put self.old (answer_line (written a output.now rep.now)) self.new }
    {
        self.number(a.number);
        self.number(a.pairings);
        self.text(&output[..a.usage], SPACE);
        self.text(&rep[..a.report], END);
    }

    // The line of a merge.
    fn merged(&mut self, parts: &Parts<'_>)
        ensures { Put self.old (line_for (some (blocks_in parts.now))) self.new }
    {
        let mut work = zeros::<WORK_LIMIT>();
        let mut output = zeros::<BUFFER_LEN>();
        let mut rep = zeros::<BUFFER_LEN>();
        let merge = calls::merge(
            Choices::RUST,
            parts.table,
            &mut work,
            parts.first,
            parts.second,
            &mut output,
            &mut rep,
        );
        self.answer(Answer::from(merge), &output, &rep);
    }
}

// N zeros, in an array, since there is no heap. They have a function of their own, so that no proof counts them out.
#[tactic(auto, unfolding(crate::specs::Frame::zeros))]
pub fn zeros<const N: usize>() -> [u8; N]
    ensures length { length result ≡ N }
    ensures bytes { result ≡ zeros N }
{
    [0u8; N]
}

// The line for an input: it stands at the start of the buffer, which holds the longest one, and this is its length. The rest of the
// buffer is kept.
pub fn line(input: &[u8], buffer: &mut [u8]) -> usize
    requires { line_limit ≤ length buffer.old }
    ensures { Line input.now buffer.old buffer.new result }
{
    let mut line = Writer { buffer, at: 0 };
    printed(input, &mut line);
    line.at
}

// The line for an input, as far as the buffer goes.
fn printed(input: &[u8], line: &mut Writer<'_>)
    ensures { Put line.old (line_of input.now) line.new }
{
    match blocks(input) {
        Some(parts) => line.merged(&parts),
        None => line.broken(),
    }
}
