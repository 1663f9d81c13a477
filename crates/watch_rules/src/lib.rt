// The neighbour watch: its record and what its calls answer. Document 01, sections The watch and The plain watch, with what document 02 changes.
// The rules, the plain watch and demand 3 stand in specs/; the calls stand in the crate `watch`.
#![tactic(auto)]

ghost use Rattle.watch_rules.specs.Claims.{Demand3, NothingElse, WellFormedIsReachable, ItFollows, Unchanged, UnformedRule, ListRule, SequenceRule, PlainRule, LevelsRule, RefusalRule, ListFaultRule, AcceptedRule, BeamRule, AskRule, VerdictRule, PartRule, DepthRule, WordsRule, AnswersTold, AnswersDiffer};

// How many levels of a channel make a mean and a sum is the depth of a watch, given at its start: older levels go.
pub const DEPTH_LOWEST: usize = 5;

pub const DEPTH_HIGHEST: usize = 31;

// How many channels a list may have.
pub const LIST_LIMIT: usize = 6;

// In hundredths of a dB.
pub const HYSTERESIS_HIGHEST: i32 = 6000;

// How many levels a track has room for, at least the highest depth: with 32 the loops over them have no remainder, and a track no padding at
// its end. How many tracks a watch has: the serving channel and a list.
pub const CAPACITY: usize = 32;

pub const ROOM: usize = LIST_LIMIT + 1;

// A channel under watch with its levels in hundredths, oldest first: 16 bits hold their range. What lies beyond `count` is 0.
// The C interface has this layout, so the levels stay a buffer with their count beside it.
#[repr(C)]
#[derive(Clone, Copy, PartialEq, Eq)]
pub struct Track {
    pub channel: u16,
    pub count: usize,
    pub levels: [i16; CAPACITY],
}

// The first `watched` tracks are in use: the serving channel, then its list in the network's order. The others are all zero. An idle
// watch uses none, and its depth is 0. The C interface has this layout, so the tracks stay a buffer with their number beside it.
#[repr(C)]
#[derive(Clone, Copy, PartialEq, Eq)]
pub struct Watch {
    pub watched: usize,
    pub tracks: [Track; ROOM],
    pub depth: usize,
}

// What an accepted call gives: its acceptance, a count and a mean, or a verdict.
#[derive(Clone, Copy, PartialEq, Eq)]
pub enum Answer {
    Accepted,
    Levels { count: u32, mean: i32 },
    Wait,
    Stay,
    MoveTo(u16),
}

// Nothing to run: its contract is demand 3 and all else that is claimed of the watch, so that the check asks for the proof of each.
pub fn claimed()
    ensures demand3 { Demand3 }
    ensures order { NothingElse }
    ensures formed { WellFormedIsReachable }
    ensures follows { ItFollows }
    ensures unchanged { Unchanged }
    ensures unformed { UnformedRule }
    ensures listed { ListRule }
    ensures sequence { SequenceRule }
    ensures plain { PlainRule }
    ensures kept { LevelsRule }
    ensures refuses { RefusalRule }
    ensures faults { ListFaultRule }
    ensures accepts { AcceptedRule }
    ensures beams { BeamRule }
    ensures ask { AskRule }
    ensures verdict { VerdictRule }
    ensures part { PartRule }
    ensures depth { DepthRule }
    ensures words { WordsRule }
    ensures told { AnswersTold }
    ensures differ { AnswersDiffer }
{}
