// Each answer of the library as a host finds it (the crate `host_rules` has the structs and the rule). The calls stand in the crate `royukezan`.
// Functions and no impls of `From`: those would have to stand beside the structs, and a crate of rules has nothing to run.
#![tactic(auto)]

ghost use Rattle.std.specs.Prelude.{◌≡◌};
ghost use Rattle.refusal.specs.Told.{told};
ghost use Rattle.readings_rules.specs.Told.{told_burst};
ghost use Rattle.sweep_rules.specs.Told.{told_next, told_numbers};
ghost use Rattle.choice_rules.specs.Told.{told_choice};
ghost use Rattle.watch_rules.specs.Told.{told_answer as watch_told, told_handed};
ghost use Rattle.power_rules.specs.Told.{told_answer as power_told};
ghost use Rattle.host_rules.specs.Answers.{refusal_number, refusal_place, hundredths_answer, float_answer, burst_answer, sweep_beside, next_answer, counts_answer, choice_answer, watch_outcome, levels_answer, verdict_answer, power_beside, sent_answer, sent_beside};

use choice_rules::Choice;
pub use host_rules::{
    BurstAnswer, ChoiceAnswer, CountsAnswer, FloatAnswer, HundredthsAnswer, LevelsAnswer,
    NextAnswer, PowerOutcome, SentAnswer, SentOutcome, SweepOutcome, VerdictAnswer, WatchOutcome,
};
use power_rules::{PowerRecord, Sent};
use readings_rules::{Burst, Reading};
use refusal::{Handed, Reason, Refusal};
use sweep_rules::{Numbers, Sweep};
use watch_rules::{Answer, Watch};

// The number of an accepted call. These are numbers and no enums, since no enum crosses the C interface, and so is each struct by its own function.
const ACCEPTED: u32 = 0;

// Where no place is told: no place is so high.
const NO_PLACE: u32 = u32::MAX;

// The cases of a next channel, of a choice and of a verdict. A refused call has none of them: 0.
const A_CHANNEL: u16 = 1;

const DONE: u16 = 2;

const CAMP: u16 = 1;

const READ: u16 = 2;

const NO_BEAM: u16 = 3;

const WAIT: u16 = 1;

const STAY: u16 = 2;

const MOVE: u16 = 3;

// The number of a call.
fn number<A: Drop>(answer: Result<A, Refusal>) -> u32
    ensures { result ≡ refusal_number (told answer) }
{
    match answer {
        Ok(_) => ACCEPTED,
        Err(why) => why.number(),
    }
}

pub fn hundredths_answer(answer: Result<i32, Refusal>) -> HundredthsAnswer
    ensures { result ≡ hundredths_answer (told answer) }
{
    match answer {
        Ok(hundredths) => HundredthsAnswer {
            refusal: ACCEPTED,
            hundredths,
        },
        Err(why) => HundredthsAnswer {
            refusal: why.number(),
            hundredths: 0,
        },
    }
}

pub fn float_answer(answer: Result<f32, Refusal>) -> FloatAnswer
    ensures { result ≡ float_answer (told answer) }
{
    match answer {
        Ok(value) => FloatAnswer {
            refusal: ACCEPTED,
            value,
        },
        Err(why) => FloatAnswer {
            refusal: why.number(),
            value: 0.0,
        },
    }
}

pub fn burst_answer(answer: Result<Burst<i32>, Refusal>) -> BurstAnswer
    ensures { result ≡ burst_answer (told_burst answer) }
{
    match answer {
        Ok(Burst::Heard(Reading { level, quality })) => BurstAnswer {
            refusal: ACCEPTED,
            level,
            quality,
        },
        Ok(Burst::Missed) => BurstAnswer {
            refusal: ACCEPTED,
            level: 0,
            quality: 0,
        },
        Err(why) => BurstAnswer {
            refusal: why.number(),
            level: 0,
            quality: 0,
        },
    }
}

pub fn sweep_outcome(handed: Handed<Sweep, ()>) -> SweepOutcome
    ensures { result ≡ sweep_beside handed.state (told handed.answer) }
{
    SweepOutcome {
        refusal: number(handed.answer),
        sweep: handed.state,
    }
}

pub fn next_answer(handed: Handed<Sweep, Option<u16>>) -> NextAnswer
    ensures { result ≡ next_answer (told_next handed.answer) }
{
    match handed.answer {
        Ok(Some(channel)) => NextAnswer {
            refusal: ACCEPTED,
            next: A_CHANNEL,
            channel,
        },
        Ok(None) => NextAnswer {
            refusal: ACCEPTED,
            next: DONE,
            channel: 0,
        },
        Err(why) => NextAnswer {
            refusal: why.number(),
            next: 0,
            channel: 0,
        },
    }
}

pub fn counts_answer(handed: Handed<Sweep, Numbers>) -> CountsAnswer
    ensures { result ≡ counts_answer (told_numbers handed.answer) }
{
    match handed.answer {
        Ok(Numbers { visited, heard }) => CountsAnswer {
            refusal: ACCEPTED,
            visited,
            heard,
        },
        Err(why) => CountsAnswer {
            refusal: why.number(),
            visited: 0,
            heard: 0,
        },
    }
}

pub fn choice_answer(handed: Handed<Sweep, Choice>) -> ChoiceAnswer
    ensures { result ≡ choice_answer (told_choice handed.answer) }
{
    match handed.answer {
        Ok(Choice::Camp { channel, tried }) => ChoiceAnswer {
            refusal: ACCEPTED,
            choice: CAMP,
            channel,
            tried,
        },
        Ok(Choice::Read { channel, tried }) => ChoiceAnswer {
            refusal: ACCEPTED,
            choice: READ,
            channel,
            tried,
        },
        Ok(Choice::NoBeam { tried }) => ChoiceAnswer {
            refusal: ACCEPTED,
            choice: NO_BEAM,
            channel: 0,
            tried,
        },
        Err(why) => ChoiceAnswer {
            refusal: why.number(),
            choice: 0,
            channel: 0,
            tried: 0,
        },
    }
}

// The place that is told of a call.
fn place<A: Drop>(answer: Result<A, Refusal>) -> u32
    ensures { result ≡ refusal_place (told answer) }
{
    match answer.map_err(Refusal::told) {
        Err(Reason::At { place, .. }) => place,
        _ => NO_PLACE,
    }
}

pub fn watch_outcome(handed: Handed<Watch, Answer>) -> WatchOutcome
    ensures { result ≡ watch_outcome (told_handed handed) }
{
    WatchOutcome {
        refusal: number(handed.answer),
        place: place(handed.answer),
        watch: handed.state,
    }
}

// An ask gives levels, or it is refused.
pub fn levels_answer(handed: Handed<Watch, Answer>) -> LevelsAnswer
    ensures { result ≡ levels_answer (watch_told handed.answer) }
{
    match handed.answer {
        Ok(Answer::Levels { count, mean }) => LevelsAnswer {
            refusal: ACCEPTED,
            count,
            mean,
        },
        answer => LevelsAnswer {
            refusal: number(answer),
            count: 0,
            mean: 0,
        },
    }
}

// A verdict is one of three, or it is refused.
pub fn verdict_answer(handed: Handed<Watch, Answer>) -> VerdictAnswer
    ensures { result ≡ verdict_answer (watch_told handed.answer) }
{
    match handed.answer {
        Ok(Answer::Wait) => VerdictAnswer {
            refusal: ACCEPTED,
            verdict: WAIT,
            channel: 0,
        },
        Ok(Answer::Stay) => VerdictAnswer {
            refusal: ACCEPTED,
            verdict: STAY,
            channel: 0,
        },
        Ok(Answer::MoveTo(channel)) => VerdictAnswer {
            refusal: ACCEPTED,
            verdict: MOVE,
            channel,
        },
        answer => VerdictAnswer {
            refusal: number(answer),
            verdict: 0,
            channel: 0,
        },
    }
}

pub fn power_outcome(handed: Handed<PowerRecord, ()>) -> PowerOutcome
    ensures { result ≡ power_beside handed.state (told handed.answer) }
{
    PowerOutcome {
        refusal: number(handed.answer),
        power: handed.state,
    }
}

pub fn sent_answer(answer: Result<Sent, Refusal>) -> SentAnswer
    ensures { result ≡ sent_answer (power_told answer) }
{
    match answer {
        Ok(Sent { par, pan }) => SentAnswer {
            refusal: ACCEPTED,
            par,
            pan,
        },
        Err(why) => SentAnswer {
            refusal: why.number(),
            par: 0,
            pan: 0,
        },
    }
}

pub fn sent_outcome(handed: Handed<PowerRecord, Sent>) -> SentOutcome
    ensures { result ≡ sent_beside handed.state (power_told handed.answer) }
{
    SentOutcome {
        answer: sent_answer(handed.answer),
        power: handed.state,
    }
}
