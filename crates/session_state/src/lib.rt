// The state of a session: the records that each call hands on to the next.
#![tactic(auto)]

ghost use Rattle.std.specs.Prelude.{◌≡◌};
ghost use Rattle.session_state.specs.State.{begins};

use power_rules::{PowerParameters, PowerRecord};
use sweep::{CHANNELS, Sweep};
use watch_rules::Watch;

// Each channel number has an outcome byte.
#[derive(Clone, Copy)]
pub struct State {
    pub sweep: Sweep,
    pub outcomes: [u8; CHANNELS],
    pub watch: Watch,
    pub power: PowerRecord,
    pub parameters: PowerParameters,
}

// The state at the start of a session: all of it fresh or zero.
#[tactic(auto, unfolding(crate::specs::State::begins))]
pub fn start() -> State
    ensures { result ≡ begins }
{
    State {
        sweep: sweep::fresh(),
        outcomes: [0; CHANNELS],
        watch: watch_record::fresh(),
        power: PowerRecord::default(),
        parameters: PowerParameters::default(),
    }
}
