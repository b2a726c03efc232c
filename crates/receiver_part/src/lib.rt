// The part that `receiver` hands back, as a value in a place that the caller lends. For the comparison alone, which sees where it lies and
// how long it is.
#![tactic(auto)]

ghost use Rattle.std.specs.Prelude.{◌≡◌};
ghost use Rattle.definitions.specs.Calls.{receiver_call};
ghost use Rattle.definitions.specs.Requests.Choices.{choices_of};

use qptr::Choices;

// A part of a stream. To C it is a pointer and a length.
#[repr(C)]
pub struct Part<'a> {
    pub bytes: &'a [u8],
}

// No exported function returns a reference, so the part goes into a place that the caller lends.
#[unsafe(no_mangle)]
pub extern "C" fn qptr_receiver_part<'a>(
    choices: u32,
    first: &'a [u8],
    second: &'a [u8],
    part: &mut Part<'a>,
)
    ensures { part.new.bytes.now ≡ receiver_call (choices_of choices) first.now second.now }
{
    part.bytes = calls::receiver(Choices::of(choices), first, second);
}
