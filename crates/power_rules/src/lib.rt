// Power steps: the parameters, the record that a terminal keeps from one power control message to the next, and what the calls answer: the
// two codes to send. Document 01, section Power steps. The rules and what is claimed of them stand in specs/; the calls stand in the crate `power`.
#![tactic(auto)]

ghost use Rattle.power_rules.specs.Claims.{StartsWellFormed, StaysWellFormed, RefusedKeepsRecord, TestKeepsRecord, SendsWithinLimits, RoundsDown, RefusalRule, StartRule, StepRule, AnswersTold, AnswersDiffer};

// The parameters, as codes.
#[repr(C)]
#[derive(Clone, Copy, PartialEq, Eq, Default)]
pub struct PowerParameters {
    // The quality aimed at, by 0.1 dB.
    pub sqt: u32,
    // Attenuations, by 0.4 dB.
    pub paninit: u32,
    pub panmin: u32,
    pub panmax: u32,
    // Gains of the loop, by 0.1: where the quality is not above the one aimed at, and where it is.
    pub gainup: u32,
    pub gaindn: u32,
    // What each failed message adds to the increase, by 0.2 dB.
    pub mestep: u32,
}

// The power record: three codes, and the increase in thousandths of a dB.
#[repr(C)]
#[derive(Clone, Copy, PartialEq, Eq, Default)]
pub struct PowerRecord {
    pub panlast: u32,
    pub parsave: u32,
    pub panbasic: u32,
    pub increase: u32,
}

// What decoding the other end's message gave. An enum of its own and no `Option`: `Rule3` and the calls for C speak
// of both cases.
#[derive(Clone, Copy, PartialEq, Eq)]
pub enum Decoded {
    Failed,
    Codes { pan: u32, par: u32 },
}

// What a step gives: the codes to send.
#[derive(Clone, Copy, PartialEq, Eq)]
pub struct Sent {
    pub par: u32,
    pub pan: u32,
}

// Nothing to run: its contract is all that is claimed of the power steps beyond the calls, so that the check asks for the proof of each.
pub fn claimed()
    ensures starts { StartsWellFormed }
    ensures stays { StaysWellFormed }
    ensures refused { RefusedKeepsRecord }
    ensures tested { TestKeepsRecord }
    ensures limits { SendsWithinLimits }
    ensures rounding { RoundsDown }
    ensures refusals { RefusalRule }
    ensures start { StartRule }
    ensures step { StepRule }
    ensures told { AnswersTold }
    ensures differ { AnswersDiffer }
{}
