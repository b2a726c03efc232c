// What the calls give back: a yes or no, or the lengths of what was written, or a refusal; and of place, merge and fold the usage and the
// report, once it is known that both fit.
#![tactic(auto)]

ghost use Rattle.std.specs.Prelude.{◌≡◌, ◌≤◌, [], ◌++◌, Result, Ok, OnOk, OnErr, length, drop, replicate};
ghost use Rattle.definitions.specs.Place.{done};
ghost use Rattle.definitions.specs.Calls.{refusal, written};
ghost use Rattle.place_states.specs.Refusals.{number_of as size_number};
ghost use Rattle.call_answers.specs.Answers.{number_of, answer_of, said_of, told_of};
ghost use Rattle.call_answers.specs.Writing.{Gives, Comes, Reachable, Finished, unlike_report};

use place_states::{Merged, SizeRefusal};
use report::Report;

// The refusals, in their order. Those by size are met while placing.
#[derive(Clone, Copy, PartialEq, Eq)]
pub enum Refusal {
    ShortWork,
    BadTable,
    BadFirst,
    BadSecond,
    UnknownType,
    NotConcrete,
    ManyNodes,
    Size(SizeRefusal),
    ShortOutput,
    ShortReport,
}

impl Refusal {
    pub fn number(self) -> u32
        ensures { result ≡ number_of self }
    {
        match self {
            Refusal::ShortWork => 1,
            Refusal::BadTable => 2,
            Refusal::BadFirst => 3,
            Refusal::BadSecond => 4,
            Refusal::UnknownType => 5,
            Refusal::NotConcrete => 6,
            Refusal::ManyNodes => 7,
            Refusal::Size(refusal) => refusal.number(),
            Refusal::ShortOutput => 10,
            Refusal::ShortReport => 11,
        }
    }
}

impl From<SizeRefusal> for Refusal {
    ghost from_gives = { λ r e. number_of e ≡ size_number r };

    fn from(refusal: SizeRefusal) -> Refusal {
        Refusal::Size(refusal)
    }
}

// The lengths of the usage and the report that a call has written, and the pairings.
#[derive(Clone, Copy)]
pub struct Written {
    pub usage: usize,
    pub report: usize,
    pub pairings: u32,
}

// What a call gives back, for C and the programs: the lengths written; the pairings; 0 for answered, or the refusal; a yes or no. The widest stand
// first, so that there is no gap between them.
#[derive(Clone, Copy)]
pub struct Answer {
    pub usage: usize,
    pub report: usize,
    pub pairings: u32,
    pub number: u32,
    pub yes: bool,
}

impl Answer {
    const NONE: Answer = Answer {
        usage: 0,
        report: 0,
        pairings: 0,
        number: 0,
        yes: false,
    };
}

impl From<Refusal> for Answer {
    ghost from_gives = { λ r a. answer_of a ≡ refusal (number_of r) };

    fn from(refusal: Refusal) -> Answer {
        Answer {
            number: refusal.number(),
            ..Answer::NONE
        }
    }
}

impl From<Result<bool, Refusal>> for Answer {
    ghost from_gives = { λ r a. answer_of a ≡ said_of r };

    fn from(said: Result<bool, Refusal>) -> Answer {
        match said {
            Ok(yes) => Answer {
                yes,
                ..Answer::NONE
            },
            Err(refusal) => Answer::from(refusal),
        }
    }
}

// The two kinds of answers fill different fields, so each has its own.
impl From<Result<Written, Refusal>> for Answer {
    ghost from_gives = { λ r a. answer_of a ≡ told_of r };

    fn from(told: Result<Written, Refusal>) -> Answer {
        match told {
            Ok(written) => Answer {
                usage: written.usage,
                report: written.report,
                pairings: written.pairings,
                ..Answer::NONE
            },
            Err(refusal) => Answer::from(refusal),
        }
    }
}

// A call that was refused leaves a report of zeros. Its output is as it was.
pub fn cleared(r: Result<Written, Refusal>, rep: &mut [u8]) -> Result<Written, Refusal>
    ensures same { result ≡ r }
    ensures answered { OnOk r (rep.new ≡ rep.old) }
    ensures refused { OnErr r (rep.new ≡ replicate (length rep.old) 0) }
{
    if r.is_err() {
        report::zero(rep, 0); // the whole of it
    }
    r
}

// What was placed is written, if it fits: the usage, behind its first byte, and zeros behind the report.
fn write_merged(
    command: u8,
    merged: Result<Merged, SizeRefusal>,
    work: &[u8],
    output: &mut [u8],
    report: &mut Report<'_>,
) -> Result<Written, Refusal>
    requires { Reachable work.now merged report.old }
    ensures { Finished Comes command merged work.now output.old report.old result output.new report.new }
{
    let merged = merged?;
    let usage = 1 + stream_write::written_length(work, merged.node);
    if output.len() < usage {
        return Err(Refusal::ShortOutput);
    }
    let length = report.at;
    if report.buffer.len() < length {
        return Err(Refusal::ShortReport);
    }
    output[0] = command;
    stream_write::write(work, merged.node, output, 1);
    report::zero(report.buffer, length);
    Ok(Written {
        usage,
        report: length,
        pairings: merged.pairings,
    })
}

// What a placing came to is given back: what was placed, or a refusal.
pub fn finish(
    command: u8,
    merged: Result<Merged, SizeRefusal>,
    work: &[u8],
    output: &mut [u8],
    report: &mut Report<'_>,
) -> Result<Written, Refusal>
    requires { Reachable work.now merged report.old }
    ensures { Finished Gives command merged work.now output.old report.old result output.new report.new }
{
    let r = write_merged(command, merged, work, output, report);
    cleared(r, report.buffer)
}

// The bytes go to the start of `to`. They go one by one: of a length that is not known, the library's call for it is one of C's memcpy or
// memmove, which an archive for C would ask of whoever links it.
fn copy(from: &[u8], to: &mut [u8])
    requires { length from.now ≤ length to.old }
    ensures { to.new ≡ from.now ++ drop (length from.now) to.old }
{
    for i in 0..from.len() {
        to[i] = from[i];
    }
}

// What is reported of two tops of which the first stays: conflict 37, or nothing.
fn unlike_report(unlike: bool) -> &'static [u8]
    ensures { result.now ≡ unlike_report unlike }
{
    if unlike { &[0x37] } else { &[] }
}

// The first of two tops is written, if it fits, and what is reported of them.
fn write_first(
    first: &[u8],
    unlike: bool,
    output: &mut [u8],
    rep: &mut [u8],
) -> Result<Written, Refusal>
    ensures { Comes (written output.old (length rep.old) (done first.now (unlike_report unlike) 0)) result output.new rep.new }
{
    if output.len() < first.len() {
        return Err(Refusal::ShortOutput);
    }
    let report = unlike_report(unlike);
    if rep.len() < report.len() {
        return Err(Refusal::ShortReport);
    }
    copy(first, output);
    copy(report, rep);
    report::zero(rep, report.len());
    Ok(Written {
        usage: first.len(),
        report: report.len(),
        pairings: 0,
    })
}

// The first of two tops stays.
pub fn keep(
    first: &[u8],
    unlike: bool,
    output: &mut [u8],
    rep: &mut [u8],
) -> Result<Written, Refusal>
    ensures { Gives (written output.old (length rep.old) (done first.now (unlike_report unlike) 0)) result output.new rep.new }
{
    let r = write_first(first, unlike, output, rep);
    cleared(r, rep)
}
