// Rule 3: placing in an Unused.
#![tactic(auto)]

ghost use Rattle.std.specs.Prelude.{◌≡◌};
ghost use Rattle.qptr.specs.Values.{command_of};
ghost use Rattle.qptr.specs.declared.Kind.TheVariants.{Unused};
ghost use Rattle.records.specs.Records.{command_in};
ghost use Rattle.place_states.specs.Calls.{Beside};
ghost use Rattle.place_unused.specs.Resized.{Resized};

use place_states::State;
use records::{max_size, put_size};

// b's kind with a's size; the offset is dropped.
pub fn begin_unused(s: &mut [u8], a: usize, b: usize) -> State
    requires beside { Beside s.old a b }
    requires unused { command_in s.old a ≡ command_of Unused }
    ensures { Resized s.old a b s.new result }
{
    let z = max_size(s, a);
    put_size(s, b, z);
    State::finished(b, 1)
}
