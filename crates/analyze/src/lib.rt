// `merge_mem` and `merge_mem_at`, on linked records: a usage is the number of its record.
#![tactic(auto)]

ghost use Rattle.std.specs.Prelude.{◌≡◌, ◌+◌, ◌*◌, ◌≤◌, length};
ghost use Rattle.record_links.specs.Rows.{nodes_at};
ghost use Rattle.place_states.specs.Calls.{Ready, NoWrap, placing, merging, Placed};
ghost use Rattle.analyze.specs.Roots.{RootNode};

use layout::Setting;
use place_rules::{begin, step, take_result};
use place_states::{Merged, Pairing, SizeRefusal, Todo};
use qptr::{Node, first_receives};
use records::{kind, max_size};
use report::Report;

// The root at record q, without its argument.
fn root(s: &[u8], q: usize) -> Node
    requires { q * 32 + 32 ≤ length s.now }
    ensures { RootNode s.now q result }
{
    Node::new(kind(s, q), max_size(s, q), 0)
}

// b is placed in a at d: the source's function, with its parameters.
#[cycle(merging)]
pub fn merge_mem_at(
    setting: &Setting<'_>,
    s: &mut [u8],
    a: usize,
    d: u32,
    b: usize,
    report: &mut Report<'_>,
) -> Result<Merged, SizeRefusal>
    requires ready { Ready setting.now s.old a b }
    requires near { NoWrap report.old.at (nodes_at s.old a + nodes_at s.old b) }
    ensures { Placed (placing d) setting.now s.old a b s.new result report.old report.new }
{
    let mut st = begin(setting, s, a, d, b, report)?;
    'turns: loop {
        match st.todo {
            Todo::Finished => {
                return Ok(Merged {
                    node: st.x,
                    pairings: st.pairings,
                });
            }
            Todo::Go => st = step(s, a, st, report),
            Todo::Pair(how) => {
                let here = report.at;
                let r = match how {
                    Pairing::Place => merge_mem_at(setting, s, st.x, st.d, st.m, report)?,
                    Pairing::Merge => merge_mem(setting, s, st.x, st.m, report)?,
                };
                st = take_result(st, here, r, report);
            }
        }
    }
}

// The larger receives the other at 0; at equal sizes the stricter, and on a full tie the one that is chosen.
#[cycle(merging)]
pub fn merge_mem(
    setting: &Setting<'_>,
    s: &mut [u8],
    a: usize,
    b: usize,
    report: &mut Report<'_>,
) -> Result<Merged, SizeRefusal>
    requires ready { Ready setting.now s.old a b }
    requires near { NoWrap report.old.at (nodes_at s.old a + nodes_at s.old b) }
    ensures { Placed merging setting.now s.old a b s.new result report.old report.new }
{
    if first_receives(setting.choices, root(s, a), root(s, b)) {
        return merge_mem_at(setting, s, a, 0, b, report);
    }
    merge_mem_at(setting, s, b, 0, a, report)
}
