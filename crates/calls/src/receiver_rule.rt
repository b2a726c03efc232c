// Who receives: the own parts of two Memory streams decide.

ghost use Rattle.std.specs.Prelude.{◌≡◌};
ghost use Rattle.definitions.specs.Calls.{receiver_of, receiver_call};
ghost use Rattle.qptr.specs.Choices.{choices_in};
ghost use Rattle.calls.specs.Received.{first_of, answered};
ghost use Rattle.calls.specs.Roots.{Rooted};

use call_inputs::few_nodes;
use qptr::{Choices, Node, first_receives};

// The bytes from which on a stream is not short: a short one has few maps inside of each other, so a small window does.
const SHORT_STREAM: usize = 1024;

// Which of two streams receives the other.
#[derive(Clone, Copy, PartialEq, Eq)]
pub enum Received {
    First,
    Second,
}

// What the receiver rule asks of a Memory stream: its nodes and its root's own part.
#[derive(Clone, Copy)]
struct Root {
    nodes: usize,
    node: Node,
}

// The same of a stream, if it is a Memory. What the window holds does not matter.
fn root_of(s: &[u8], window: &mut [u8]) -> Option<Root>
    ensures { Rooted s.now result }
{
    let found = stream::memory(s, window)?;
    let header = stream::header(s, 1)?;
    Some(Root {
        nodes: found.nodes,
        node: header.node,
    })
}

// Which of two Memory streams receives the other; nobody where one is broken or both have too many nodes.
fn who_receives(
    choices: Choices,
    first: &[u8],
    second: &[u8],
    window: &mut [u8],
) -> Option<Received>
    ensures { first_of result ≡ answered (receiver_of (choices_in choices) first.now second.now) }
{
    let a = root_of(first, window)?;
    let b = root_of(second, window)?;
    few_nodes(a.nodes.saturating_add(b.nodes)).ok()?;
    if first_receives(choices, a.node, b.node) {
        return Some(Received::First);
    }
    Some(Received::Second)
}

// The same. The window has 16 levels where both streams are short, else 1,024, which take longer to clear. Windows and places are arrays on
// the stack: there is no heap.
pub fn receiving(choices: Choices, first: &[u8], second: &[u8]) -> Option<Received>
    ensures { first_of result ≡ answered (receiver_of (choices_in choices) first.now second.now) }
{
    if first.len() < SHORT_STREAM && second.len() < SHORT_STREAM {
        let mut window = [0u8; 96];
        return who_receives(choices, first, second, &mut window);
    }
    let mut window = [0u8; 6144];
    who_receives(choices, first, second, &mut window)
}

// The receiving stream itself, or an empty part where nobody receives.
pub fn receiver<'a>(choices: Choices, first: &'a [u8], second: &'a [u8]) -> &'a [u8]
    ensures { result.now ≡ receiver_call (choices_in choices) first.now second.now }
{
    match receiving(choices, first, second) {
        None => &first[0..0],
        Some(Received::First) => first,
        Some(Received::Second) => second,
    }
}
