// What a call does: it is made on the state through the library, and its answer becomes a line of text.
ghost use Rattle.std.specs.Prelude.{◌≡◌, cond};
ghost use Rattle.readings_rules.specs.Channels.{channel_in_range};
ghost use Rattle.session_rows.specs.Calls.{told_answered, outcome_set, chosen, power_started, power_stepped, malformed};

use power::Decoded;
use readings_rules::CHANNEL_HIGHEST;
use session_answers::{Answered, of_choice, of_error, of_outcome, of_power};
use session_state::State;

// The outcome byte of a channel; a channel above the last is an error.
pub fn set_outcome(mut state: State, number: u64, channel: u16, outcome: u8) -> Answered<State>
    ensures { told_answered result ≡ cond (channel_in_range channel) (outcome_set channel outcome state) (malformed number state) }
{
    if channel > CHANNEL_HIGHEST {
        return Answered {
            state,
            text: of_error(number),
        };
    }
    state.outcomes[usize::from(channel)] = outcome;
    Answered {
        state,
        text: of_outcome(Ok(())),
    }
}

// These three differ in their call, in what they change and in the writer of the answer: one function with all as parameters would be no shorter.
pub fn choose(state: State, margin: i32) -> Answered<State>
    ensures { told_answered result ≡ chosen margin state }
{
    let chosen = choice::choose(state.sweep, margin, &state.outcomes);
    Answered {
        state,
        text: of_choice(chosen.answer),
    }
}

pub fn start_power(mut state: State) -> Answered<State>
    ensures { told_answered result ≡ power_started state }
{
    let handed = power::start(state.parameters);
    state.power = handed.state;
    Answered {
        state,
        text: of_outcome(handed.answer),
    }
}

pub fn step_power(mut state: State, decoded: Decoded, sqi: i32) -> Answered<State>
    ensures { told_answered result ≡ power_stepped decoded sqi state }
{
    let stepped = power::step(state.parameters, state.power, decoded, sqi);
    state.power = stepped.state;
    Answered {
        state,
        text: of_power(stepped.answer),
    }
}
