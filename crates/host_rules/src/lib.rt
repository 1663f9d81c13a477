// The answers of the library as C and Rust hosts find them: structs of numbers, since no enum crosses the C interface. The first is the refusal
// number, 0 for accepted; then come the values, 0 when refused. Where a refusal may tell a place, it stands beside the number. A call that changes a
// record hands it back beside these. `specs/Answers.antt` has the rule. What makes them of the library's answers stands in the crate
// `host_answers`, the calls in `royukezan`.
#![tactic(auto)]

ghost use Rattle.host_rules.specs.Claims.{NothingLost};

use power_rules::PowerRecord;
use sweep_rules::Sweep;
use watch_rules::Watch;

// A level or a quality in hundredths.
#[repr(C)]
#[derive(Clone, Copy)]
pub struct HundredthsAnswer {
    pub refusal: u32,
    pub hundredths: i32,
}

// A level in dBm or a quality in dB.
#[repr(C)]
#[derive(Clone, Copy)]
pub struct FloatAnswer {
    pub refusal: u32,
    pub value: f32,
}

// A heard burst in hundredths.
#[repr(C)]
#[derive(Clone, Copy)]
pub struct BurstAnswer {
    pub refusal: u32,
    pub level: i32,
    pub quality: i32,
}

// What a filing hands back.
#[repr(C)]
#[derive(Clone, Copy)]
pub struct SweepOutcome {
    pub refusal: u32,
    pub sweep: Sweep,
}

// The next channel: A_CHANNEL, or DONE.
#[repr(C)]
#[derive(Clone, Copy)]
pub struct NextAnswer {
    pub refusal: u32,
    pub next: u16,
    pub channel: u16,
}

// The numbers of channels visited and heard.
#[repr(C)]
#[derive(Clone, Copy)]
pub struct CountsAnswer {
    pub refusal: u32,
    pub visited: u32,
    pub heard: u32,
}

// The choice: CAMP, READ or NO_BEAM, with the number of beams tried.
#[repr(C)]
#[derive(Clone, Copy)]
pub struct ChoiceAnswer {
    pub refusal: u32,
    pub choice: u16,
    pub channel: u16,
    pub tried: u32,
}

// What a call that may change the watch hands back. The place is that of a faulty list, NO_PLACE where none is told.
#[repr(C)]
#[derive(Clone, Copy)]
pub struct WatchOutcome {
    pub refusal: u32,
    pub place: u32,
    pub watch: Watch,
}

// What is asked of a channel: how many levels it has, and their mean.
#[repr(C)]
#[derive(Clone, Copy)]
pub struct LevelsAnswer {
    pub refusal: u32,
    pub count: u32,
    pub mean: i32,
}

// The verdict: WAIT, STAY, or MOVE to the channel.
#[repr(C)]
#[derive(Clone, Copy)]
pub struct VerdictAnswer {
    pub refusal: u32,
    pub verdict: u16,
    pub channel: u16,
}

// What a start or a test hands back.
#[repr(C)]
#[derive(Clone, Copy)]
pub struct PowerOutcome {
    pub refusal: u32,
    pub power: PowerRecord,
}

// The codes to send.
#[repr(C)]
#[derive(Clone, Copy)]
pub struct SentAnswer {
    pub refusal: u32,
    pub par: u32,
    pub pan: u32,
}

// What a step hands back. Its first number is the answer's.
#[repr(C)]
#[derive(Clone, Copy)]
pub struct SentOutcome {
    pub answer: SentAnswer,
    pub power: PowerRecord,
}

// Nothing to run: its contract is what is claimed of the answers beyond the conversions, so that the check asks for its proof.
pub fn claimed()
    ensures { NothingLost }
{}
