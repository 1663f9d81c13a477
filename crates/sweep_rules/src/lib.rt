// The band sweep: its record, its channels and what its calls answer. Document 01, section The band sweep.
// The rules and what is claimed of them stand in specs/; the calls stand in the crate `sweep`.
#![tactic(auto)]

ghost use Rattle.sweep_rules.specs.Claims.{RecordRule, FreshRule, OnesAreChannels, OneBitSet, WellFormedRule, RefusalRule, FilingRule};
ghost use Rattle.sweep_rules.specs.Claims.{NextLowest, AnswerRule, FinishedRule, SequenceRule, FiledFromFresh, AnswersDiffer, AnswersTold};

// The sweep record: a level in hundredths for each of the 1,088 channel numbers, and two maps, a bit per channel.
// The C interface has this layout, so these stay three arrays side by side.
#[repr(C)]
#[derive(Clone, Copy, PartialEq, Eq)]
pub struct Sweep {
    pub levels: [i32; CHANNELS],
    pub visited: [u64; WORDS],
    pub heard: [u64; WORDS],
}

// The numbers of channels visited and heard.
#[derive(Clone, Copy, PartialEq, Eq)]
pub struct Numbers {
    pub visited: u32,
    pub heard: u32,
}

// How many channel numbers there are: 1,088.
pub const CHANNELS: usize = readings_rules::CHANNEL_HIGHEST as usize + 1;

// The words of a map, of 64 bits each.
pub const WORDS: usize = 17;

// The channels that the sweep visits.
pub const FIRST_SWEPT: usize = 2;

pub const LAST_SWEPT: usize = 1086;

// Nothing to run: its contract is all that is claimed of the sweep beyond the calls, so that the check asks for the proof of each.
pub fn claimed()
    ensures record { RecordRule }
    ensures fresh { FreshRule }
    ensures ones { OnesAreChannels }
    ensures bits { OneBitSet }
    ensures formed { WellFormedRule }
    ensures refusals { RefusalRule }
    ensures files { FilingRule }
    ensures next { NextLowest }
    ensures answers { AnswerRule }
    ensures finished { FinishedRule }
    ensures sequence { SequenceRule }
    ensures filed { FiledFromFresh }
    ensures differ { AnswersDiffer }
    ensures told { AnswersTold }
{}
