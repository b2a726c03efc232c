// The nodes of a list, merged one after the other.
#![tactic(auto)]

ghost use Rattle.std.specs.Prelude.{◌≡◌, ◌∷◌};
ghost use Rattle.definitions.specs.Stream.{bytes};
ghost use Rattle.report.specs.Emitted.{Emitted};
ghost use Rattle.call_fold.specs.Folding.{NodeReady, NodeLoaded, NextReady, NextFolded, FoldReady, AllFolded};

use analyze::merge_mem;
use layout::Setting;
use numbers::number;
use place_states::{Merged, SizeRefusal};
use qptr::{Command, LIST};
use report::Report;
use stream::Span;

// How far a fold has come: the nodes up to this place of the list have become the result, and records from `free` on are not in use.
#[derive(Clone, Copy)]
struct Folded {
    end: usize,
    free: usize,
    result: Merged,
}

// 38 and the node's index.
fn of_node(report: &mut Report<'_>, i: u32)
    ensures { Emitted report.old (0x38 ∷ bytes 2 i) report.new }
{
    let [low, high, _, _] = i.to_le_bytes();
    report.byte(0x38);
    report.byte(low);
    report.byte(high);
}

// The node at `at` comes to the records from q on. The list was accepted, so there is one, and it has at most 512 nodes: a window of
// eight levels does, and takes no time to clear. It is an array, since there is no heap.
fn load_node(list: &[u8], at: usize, work: &mut [u8], q: usize) -> Span
    requires { NodeReady list.now at work.old q }
    ensures { NodeLoaded list.now at work.old q work.new result }
{
    let mut window = [0u8; 48];
    let node = stream::node(list, at, &mut window).unwrap();
    stream_load::load(list, at, node.nodes, work, q);
    node
}

// The next node, the one with index i, is merged into what the nodes before it have come to. A 38 with nothing behind it is taken
// back.
fn fold_next(
    setting: &Setting<'_>,
    list: &[u8],
    i: u32,
    f: Folded,
    work: &mut [u8],
    report: &mut Report<'_>,
) -> Result<Folded, SizeRefusal>
    requires { NextReady setting.now list.now f work.old report.old }
    ensures { NextFolded setting.now list.now i f work.old report.old work.new report.new result }
{
    let q = f.free;
    let next = load_node(list, f.end, work, q);
    let before = report.at;
    of_node(report, i);
    let behind = report.at;
    let r = merge_mem(setting, work, f.result.node, q, report)?;
    report.take_back(behind, before);
    Ok(Folded {
        end: next.end,
        free: q + next.nodes,
        result: Merged {
            node: r.node,
            pairings: f.result.pairings.wrapping_add(r.pairings),
        },
    })
}

// The nodes of a list that was accepted, merged one after the other. The report begins at the start of its buffer.
pub fn fold_nodes(
    setting: &Setting<'_>,
    list: &[u8],
    work: &mut [u8],
    report: &mut Report<'_>,
) -> Result<Merged, SizeRefusal>
    requires { FoldReady setting.now list.now work.old }
    ensures { AllFolded setting.now list.now work.new report.old report.new result }
{
    report.at = 0;
    let width = Command::of(LIST).argument;
    let count = number(list, 1, width);
    let first = load_node(list, 1 + width, work, 1);
    let mut f = Folded {
        end: first.end,
        free: 1 + first.nodes,
        result: Merged {
            node: 1,
            pairings: 0,
        },
    };
    for i in 1..count {
        f = fold_next(setting, list, i, f, work, report)?;
    }
    Ok(f.result)
}
