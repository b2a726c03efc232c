// What a placing has come to, and what it has yet to do.
#![tactic(auto)]

ghost use Rattle.std.specs.Prelude.{◌≡◌};
ghost use Rattle.place_states.specs.Refusals.{number_of};
ghost use Rattle.place_states.specs.Finished.{finished_state, Unheaded};

use report::Report;

// A placing that is refused: the result would outgrow the receiver, or end past 32 bits.
#[derive(Clone, Copy, PartialEq, Eq)]
pub enum SizeRefusal {
    Outgrown,
    Past32,
}

impl SizeRefusal {
    pub fn number(self) -> u32
        ensures { result ≡ number_of self }
    {
        match self {
            SizeRefusal::Outgrown => 8,
            SizeRefusal::Past32 => 9,
        }
    }
}

// What a placing, or a merge, gave: the usage at record `node`.
#[derive(Clone, Copy)]
pub struct Merged {
    pub node: usize,
    pub pairings: u32,
}

// What is done with a pair: m is put into x at d, or both are merged.
#[derive(Clone, Copy, PartialEq, Eq)]
pub enum Pairing {
    Place,
    Merge,
}

// What the loop of a placing does next.
#[derive(Clone, Copy, PartialEq, Eq)]
pub enum Todo {
    Finished,
    Go, // on from what stands
    Pair(Pairing),
}

// The rule that a placing goes by, if it has more than one pair to treat or something to put around it: rules 2, 5 and 6.
#[derive(Clone, Copy, PartialEq, Eq)]
pub enum Rule {
    Entries,
    Element,
    Join,
}

// What a placing has yet to do. A pair: x and m. Or what the pairs so far have come to: x. The widest fields
// stand first: without a gap between them a state is copied in whole pieces. It is one struct for all rules, so that a step changes the fields
// that it has to: with a case for each rule, every step would take it apart. A record of 0 is none, as in the links.
#[derive(Clone, Copy)]
pub struct State {
    pub x: usize, // if finished, the result
    pub m: usize,
    pub rest: usize, // the entries that come after this pair: rule 2's upwards, rule 6's from the highest down
    pub q: usize, // rule 6: the first of the entries above, or 0
    pub low: usize, // rule 6: the last of the entries below those that overlap, or 0
    pub base: usize, // where this placing's report began
    pub mark: usize, // rules 2 and 6: where the report stood before the pair's 31
    pub d: u32,
    pub offset: u32, // rule 6: the offset of the pair's result
    pub pairings: u32,
    pub todo: Todo,
    pub rule: Rule,
}

impl State {
    // The fields that a state leaves out.
    pub const NONE: State = State {
        x: 0,
        m: 0,
        rest: 0,
        q: 0,
        low: 0,
        base: 0,
        mark: 0,
        d: 0,
        offset: 0,
        pairings: 0,
        todo: Todo::Finished,
        rule: Rule::Entries,
    };

    pub fn finished(x: usize, pairings: u32) -> State
        ensures { result ≡ finished_state x pairings }
    {
        State {
            x,
            pairings,
            ..State::NONE
        }
    }
}

// Behind the entries of a rule, whose report began at `base`: a 30 with nothing behind it is taken back.
pub fn drop_heading(report: &mut Report<'_>, base: usize)
    ensures { Unheaded base report.old report.new }
{
    report.take_back(base.wrapping_add(1), base);
}
