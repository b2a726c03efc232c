// A recorded answer: its call is made, and all that it gives back is compared. Nothing is assumed of the bytes, whose form is
// that of `differential/README.md`.
#![tactic(auto)]

ghost use Rattle.std.specs.Prelude.{◌≡◌, ◌+◌, ◌≤◌, true, length, replicate, IfSome};
ghost use Rattle.numbers.specs.Words.{word};
ghost use Rattle.qptr.specs.Choices.{choices_in};
ghost use Rattle.call_answers.specs.Answers.{answer_of};
ghost use Rattle.call_answers.specs.Writing.{Gives};
ghost use Rattle.replay_record.specs.Parts.{number_of, writing_number, NamesCall, Recording, Fits, Single, Begins};
ghost use Rattle.replay_record.specs.Agrees.{Says, Holds, chosen, called, Writes, Agrees, Counted, Agreed};

use call_answers::{Answer, Refusal, Written};
use merge_line::{Parts, three_blocks, zeros};
use numbers::get32;
use qptr::Choices;

// The longest work area and the longest buffer of a record.
const LONGEST_WORK: usize = 49160;

const LONGEST_BUFFER: usize = 16384;

// A record begins with the call, a byte, the length of the work area, the type and the offset that are asked, and the choices. Then come
// its three parts, each with its length in front.
const WORK_AT: usize = 1;

const TYPE_AT: usize = 5;

const OFFSET_AT: usize = 9;

const CHOICES_AT: usize = 13;

const PARTS_AT: usize = 17;

// Behind them come the output's length and fill byte, the report's, and the five numbers of the answer, with the lengths of usage and
// report among them. The usage's bytes and the report's are all that follows.
const OUTPUT_FILL_AT: usize = 4;

const REPORT_AT: usize = 5;

const REPORT_FILL_AT: usize = 9;

const ANSWER_AT: usize = 10;

const USAGE_AT: usize = 18;

const TEXT_AT: usize = 22;

const WRITTEN_AT: usize = 30;

// The calls, in the order of their numbers: those that write a usage and a report are the middle ones.
#[derive(Clone, Copy)]
enum Call {
    Receiver,
    Supports,
    Writing(Writing),
    Sound,
}

#[derive(Clone, Copy)]
enum Writing {
    Place,
    Merge,
    Fold,
}

impl Call {
    fn of(number: u8) -> Option<Call>
        ensures { NamesCall number result }
    {
        match number {
            0 => Some(Call::Receiver),
            1 => Some(Call::Supports),
            2 => Some(Call::Writing(Writing::Place)),
            3 => Some(Call::Writing(Writing::Merge)),
            4 => Some(Call::Writing(Writing::Fold)),
            5 => Some(Call::Sound),
            _ => None,
        }
    }
}

// A length in a record: 32 bits, of which `usize` has no From.
fn length_at(s: &[u8], at: usize) -> usize
    requires { at + 4 ≤ length s.now }
    ensures { result ≡ word s.now at }
{
    get32(s, at) as usize
}

// A record: what stands in front of its parts, the parts, and what stands behind them.
#[derive(Clone, Copy)]
struct Record<'a> {
    head: &'a [u8],
    parts: Parts<'a>,
    tail: &'a [u8],
    ghost fits: { Fits head.now tail.now },
}

// How many records were compared, and how many of them differ.
#[derive(Clone, Copy)]
pub struct Counts {
    pub compared: u32,
    pub different: u32,
}

// Are the work area and the buffers not too long, do the buffers hold what was written, and is that all that is left?
fn sized(head: &[u8], tail: &[u8]) -> bool
    requires { (length head.now ≡ 17) × (30 ≤ length tail.now) }
    ensures { result ≡ true → Fits head.now tail.now }
{
    let output = length_at(tail, 0);
    let report = length_at(tail, REPORT_AT);
    let usage = length_at(tail, USAGE_AT);
    let text = length_at(tail, TEXT_AT);
    length_at(head, WORK_AT) <= LONGEST_WORK
        && output <= LONGEST_BUFFER
        && report <= LONGEST_BUFFER
        && usage <= output
        && text <= report
        && tail.len() - WRITTEN_AT == usage + text
}

impl Record<'_> {
    ghost use Rattle.replay_record.specs.Lists.{lists};

    fn read(s: &[u8]) -> Option<Record<'_>>
        ensures { IfSome result (λ r. Recording s.now (lists r)) }
    {
        let (head, rest) = s.split_at_checked(PARTS_AT)?;
        let (parts, tail) = three_blocks(rest)?;
        if tail.len() < WRITTEN_AT || !sized(head, tail) {
            return None;
        }
        Some(Record { head, parts, tail })
    }

    fn choices(&self) -> Choices
        ensures { choices_in result ≡ chosen (lists self.now) }
    {
        Choices::of(get32(self.head, CHOICES_AT))
    }

    // Are the recorded numbers these? A recorded yes may be neither 0 nor 1, so they are no `Answer`.
    fn answered(&self, a: Answer) -> bool
        ensures { result ≡ true → Says self.now.tail.now 10 (answer_of a) }
    {
        get32(self.tail, ANSWER_AT) == a.number
            && get32(self.tail, ANSWER_AT + 4) == u32::from(a.yes)
            && length_at(self.tail, ANSWER_AT + 8) == a.usage
            && length_at(self.tail, ANSWER_AT + 12) == a.report
            && get32(self.tail, ANSWER_AT + 16) == a.pairings
    }

    // For the receiver the number is 0, 1 or 2: an empty part, the first stream or the second.
    fn receiver(&self) -> bool
        ensures { result ≡ true → Agrees (lists self.now) 0 }
    {
        let got = calls::receiver(self.choices(), self.parts.first, self.parts.second);
        match get32(self.tail, ANSWER_AT) {
            0 => got.is_empty(),
            1 => got == self.parts.first,
            2 => got == self.parts.second,
            _ => false,
        }
    }

    fn supports(&self, work: &mut [u8]) -> bool
        requires { length work.old ≡ word self.now.head.now 1 }
        ensures { result ≡ true → Agrees (lists self.now) 1 }
    {
        let ty = get32(self.head, TYPE_AT);
        let offset = get32(self.head, OFFSET_AT);
        let Parts { table, first, .. } = self.parts;
        let got = calls::supports(self.choices(), table, work, ty, offset, first);
        self.answered(Answer::from(got))
    }

    fn sound(&self, work: &mut [u8]) -> bool
        requires { length work.old ≡ word self.now.head.now 1 }
        ensures { result ≡ true → Agrees (lists self.now) 5 }
    {
        let got = calls::sound(self.parts.table, work, self.parts.first);
        self.answered(Answer::from(got))
    }

    fn write(
        &self,
        writing: Writing,
        work: &mut [u8],
        output: &mut [u8],
        rep: &mut [u8],
    ) -> Result<Written, Refusal>
        requires { length work.old ≡ word self.now.head.now 1 }
        ensures { Gives (called (writing_number writing) (lists self.now) output.old (length rep.old)) result output.new rep.new }
    {
        let Parts {
            table,
            first,
            second,
        } = self.parts;
        let choices = self.choices();
        match writing {
            Writing::Place => {
                let offset = get32(self.head, OFFSET_AT);
                calls::place(choices, table, work, first, offset, second, output, rep)
            }
            Writing::Merge => calls::merge(choices, table, work, first, second, output, rep),
            Writing::Fold => calls::fold(choices, table, work, first, output, rep),
        }
    }

    // Do the buffers hold what was written, and behind it what stood in the output before, and zeros in the report?
    fn wrote(&self, output: &[u8], rep: &[u8]) -> bool
        requires { (word self.now.tail.now 0 ≡ length output.now) × (word self.now.tail.now 5 ≡ length rep.now) }
        ensures { result ≡ true → Holds (lists self.now) output.now rep.now }
    {
        let text_at = WRITTEN_AT + length_at(self.tail, USAGE_AT);
        begins(
            output,
            &self.tail[WRITTEN_AT..text_at],
            self.tail[OUTPUT_FILL_AT],
        ) && begins(rep, &self.tail[text_at..], 0)
    }

    // A call with these buffers, which are as long as is recorded; all that it gives back is compared.
    fn written(&self, writing: Writing, work: &mut [u8], output: &mut [u8], rep: &mut [u8]) -> bool
        requires { (length work.old ≡ word self.now.head.now 1) × (word self.now.tail.now 0 ≡ length output.old) × (word self.now.tail.now 5 ≡ length rep.old) }
        ensures { result ≡ true → Writes (lists self.now) (writing_number writing) }
    {
        output.fill(self.tail[OUTPUT_FILL_AT]);
        rep.fill(self.tail[REPORT_FILL_AT]);
        let got = self.write(writing, work, output, rep);
        self.answered(Answer::from(got)) && self.wrote(output, rep)
    }

    // Place, merge and fold, with buffers of their own.
    fn writing(&self, writing: Writing, work: &mut [u8]) -> bool
        requires { length work.old ≡ word self.now.head.now 1 }
        ensures { result ≡ true → Writes (lists self.now) (writing_number writing) }
    {
        let mut output = zeros::<LONGEST_BUFFER>();
        let mut rep = zeros::<LONGEST_BUFFER>();
        let m = length_at(self.tail, 0);
        let n = length_at(self.tail, REPORT_AT);
        self.written(writing, work, &mut output[..m], &mut rep[..n])
    }

    // Does the call give what is recorded? It is lent a work area that is as long as is recorded.
    fn agrees(&self, call: Call) -> bool
        ensures { result ≡ true → Agrees (lists self.now) (number_of call) }
    {
        let mut work = zeros::<LONGEST_WORK>();
        let n = length_at(self.head, WORK_AT);
        let work = &mut work[..n];
        match call {
            Call::Receiver => self.receiver(),
            Call::Supports => self.supports(work),
            Call::Writing(writing) => self.writing(writing, work),
            Call::Sound => self.sound(work),
        }
    }
}

// Is every byte this one? This and the next say in their contracts what the library's calls find.
fn only(buf: &[u8], byte: u8) -> bool
    ensures { result ≡ true → buf.now ≡ replicate (length buf.now) byte }
{
    buf.iter().all(|&b| b == byte)
}

// Does a buffer begin with these bytes, and has it nothing but `rest` behind them?
fn begins(buf: &[u8], bytes: &[u8], rest: u8) -> bool
    requires { length bytes.now ≤ length buf.now }
    ensures { result ≡ true → Begins buf.now bytes.now rest }
{
    let (front, behind) = buf.split_at(bytes.len());
    front == bytes && only(behind, rest)
}

// A record that was compared is counted once, and as different unless it agrees.
fn compared(agrees: bool) -> Counts
    ensures { Counted agrees result }
{
    Counts {
        compared: 1,
        different: u32::from(!agrees),
    }
}

// One record, without its length in front.
pub fn run(s: &[u8]) -> Option<Counts>
    ensures single { Single result }
    ensures agreed { Agreed s.now result }
{
    let record = Record::read(s)?;
    let call = Call::of(record.head[0])?;
    Some(compared(record.agrees(call)))
}
