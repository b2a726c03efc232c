// The calls for C and Rust, with their answers as five numbers, the array that C lends. A slice is passed as a pointer and a length.
#![tactic(auto)]

ghost use Rattle.std.specs.Prelude.{◌≡◌, length};
ghost use Rattle.definitions.specs.Calls.{receiver_of, sound_call, supports_call, place_call, merge_call, fold_call};
ghost use Rattle.definitions.specs.Requests.Choices.{choices_of, rust};
ghost use Rattle.call_answers.specs.Answers.{answer_of, bit};
ghost use Rattle.calls.specs.Received.{first_of, answered};
ghost use Rattle.exports.specs.Numbers.{number_of, numbers_of, ReturnsNumbers, ReturnsPromised};

use call_answers::Answer;
use calls::Received;
use qptr::Choices;

// `number` and `numbers` are functions, since a `From` between types of other crates cannot stand here.

fn number(r: Option<Received>) -> u32
    ensures { result ≡ number_of (first_of r) }
{
    match r {
        None => 0,
        Some(Received::First) => 1,
        Some(Received::Second) => 2,
    }
}

// Lengths go to 64 bits by `as`: there is no From of `usize`.
fn numbers(a: Answer) -> [u64; 5]
    ensures { result ≡ numbers_of (answer_of a) }
{
    [
        u64::from(a.number),
        u64::from(a.yes),
        a.usage as u64,
        a.report as u64,
        u64::from(a.pairings),
    ]
}

// The choices of a call are one number, as `Choices::of` reads it. A call without them is made with 0; the one with them is inlined there, since a
// call of it would cost the smallest merge 4 to 6 in 100.

// 0 nobody, 1 the first, 2 the second.
#[inline(always)]
#[unsafe(no_mangle)]
pub extern "C" fn qptr_receiver_with(choices: u32, first: &[u8], second: &[u8]) -> u32
    ensures { result ≡ number_of (answered (receiver_of (choices_of choices) first.now second.now)) }
{
    number(calls::receiving(Choices::of(choices), first, second))
}

#[unsafe(no_mangle)]
pub extern "C" fn qptr_receiver(first: &[u8], second: &[u8]) -> u32
    ensures { result ≡ number_of (answered (receiver_of rust first.now second.now)) }
{
    qptr_receiver_with(0, first, second)
}

// The answer: number, yes or no, usage length, report length, pairings.
#[unsafe(no_mangle)]
pub extern "C" fn qptr_sound(table: &[u8], work: &mut [u8], stream: &[u8], answer: &mut [u64; 5])
    ensures { answer.new ≡ numbers_of (sound_call table.now (length work.old) stream.now) }
{
    *answer = numbers(Answer::from(calls::sound(table, work, stream)));
}

// The answer as of `qptr_sound`.
#[inline(always)]
#[unsafe(no_mangle)]
pub extern "C" fn qptr_supports_with(
    choices: u32,
    table: &[u8],
    work: &mut [u8],
    ty: u32,
    offset: u32,
    stream: &[u8],
    answer: &mut [u64; 5],
)
    ensures { answer.new ≡ numbers_of (supports_call (choices_of choices) table.now (length work.old) ty offset stream.now) }
{
    let choices = Choices::of(choices);
    *answer = numbers(Answer::from(calls::supports(choices, table, work, ty, offset, stream)));
}

#[unsafe(no_mangle)]
pub extern "C" fn qptr_supports(
    table: &[u8],
    work: &mut [u8],
    ty: u32,
    offset: u32,
    stream: &[u8],
    answer: &mut [u64; 5],
)
    ensures { answer.new ≡ numbers_of (supports_call rust table.now (length work.old) ty offset stream.now) }
{
    qptr_supports_with(0, table, work, ty, offset, stream, answer);
}

// The answer, and both buffers as they are left; so too of those that follow.
#[inline(always)]
#[unsafe(no_mangle)]
pub extern "C" fn qptr_place_with(
    choices: u32,
    table: &[u8],
    work: &mut [u8],
    first: &[u8],
    offset: u32,
    second: &[u8],
    output: &mut [u8],
    report: &mut [u8],
    answer: &mut [u64; 5],
)
    ensures { ReturnsNumbers (place_call (choices_of choices) table.now (length work.old) first.now offset second.now output.old (length report.old)) answer.new output.new report.new }
{
    let choices = Choices::of(choices);
    *answer = numbers(Answer::from(calls::place(
        choices, table, work, first, offset, second, output, report,
    )));
}

#[unsafe(no_mangle)]
pub extern "C" fn qptr_place(
    table: &[u8],
    work: &mut [u8],
    first: &[u8],
    offset: u32,
    second: &[u8],
    output: &mut [u8],
    report: &mut [u8],
    answer: &mut [u64; 5],
)
    ensures { ReturnsNumbers (place_call rust table.now (length work.old) first.now offset second.now output.old (length report.old)) answer.new output.new report.new }
{
    qptr_place_with(
        0, table, work, first, offset, second, output, report, answer,
    );
}

// Two tops.
#[inline(always)]
#[unsafe(no_mangle)]
pub extern "C" fn qptr_merge_with(
    choices: u32,
    table: &[u8],
    work: &mut [u8],
    first: &[u8],
    second: &[u8],
    output: &mut [u8],
    report: &mut [u8],
    answer: &mut [u64; 5],
)
    ensures { ReturnsNumbers (merge_call (choices_of choices) table.now (length work.old) first.now second.now output.old (length report.old)) answer.new output.new report.new }
{
    let choices = Choices::of(choices);
    *answer = numbers(Answer::from(calls::merge(
        choices, table, work, first, second, output, report,
    )));
}

#[unsafe(no_mangle)]
pub extern "C" fn qptr_merge(
    table: &[u8],
    work: &mut [u8],
    first: &[u8],
    second: &[u8],
    output: &mut [u8],
    report: &mut [u8],
    answer: &mut [u64; 5],
)
    ensures { ReturnsNumbers (merge_call rust table.now (length work.old) first.now second.now output.old (length report.old)) answer.new output.new report.new }
{
    qptr_merge_with(0, table, work, first, second, output, report, answer);
}

// A list; with what is promised of sound nodes.
#[inline(always)]
#[unsafe(no_mangle)]
pub extern "C" fn qptr_fold_with(
    choices: u32,
    table: &[u8],
    work: &mut [u8],
    list: &[u8],
    output: &mut [u8],
    report: &mut [u8],
    answer: &mut [u64; 5],
)
    ensures leaves { ReturnsNumbers (fold_call (choices_of choices) table.now (length work.old) list.now output.old (length report.old)) answer.new output.new report.new }
    ensures promised { ReturnsPromised table.now list.now answer.new output.new }
{
    let choices = Choices::of(choices);
    *answer = numbers(Answer::from(calls::fold(choices, table, work, list, output, report)));
}

#[unsafe(no_mangle)]
pub extern "C" fn qptr_fold(
    table: &[u8],
    work: &mut [u8],
    list: &[u8],
    output: &mut [u8],
    report: &mut [u8],
    answer: &mut [u64; 5],
)
    ensures leaves { ReturnsNumbers (fold_call rust table.now (length work.old) list.now output.old (length report.old)) answer.new output.new report.new }
    ensures leaves_promised { ReturnsPromised table.now list.now answer.new output.new }
{
    qptr_fold_with(0, table, work, list, output, report, answer);
}
