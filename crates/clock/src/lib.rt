// The two counts of the machine (01, One cycle of the machine), each a type of its own, so that neither passes for the other, and what a
// run answers by one of them.
#![tactic(auto)]

// The number of a slot: the source's instruction cycle.
#[derive(Clone, Copy, Debug, PartialEq, Eq, PartialOrd, Ord)]
pub struct Slot(pub u16);

// A number of simulation cycles, and so a time. It is no slot number.
#[derive(Clone, Copy, Debug, PartialEq, Eq, PartialOrd, Ord)]
pub struct Cycle(pub u16);

// What a run answers: "the cycles done and whether it stopped". The machine answers it, and the session's call hands it on.
#[derive(Clone, Copy, Debug, PartialEq, Eq)]
pub struct Ran {
    pub done: Cycle,
    pub stopped: bool,
}
