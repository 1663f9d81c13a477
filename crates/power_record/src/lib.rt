// The power record: a start, and whether one is well formed; and the ranges of the parameters and codes. Document 01, section Power steps;
// source document 000, clause 5.4, item 1, and clause 11.1. The steps stand on this; users name `start` and `check` as `power::start` and
// `power::check`.
#![tactic(auto)]

ghost use Rattle.std.specs.Prelude.{◌≡◌};
ghost use Rattle.refusal.specs.Told.{told};
ghost use Rattle.power_rules.specs.PowerSteps.{parameters_in_range, codes_in_range, well_formed, fresh_with};
ghost use Rattle.power_rules.specs.Calls.{started, tested};

use power_rules::{Decoded, PowerParameters, PowerRecord};
use refusal::{Handed, Refusal};

// The ranges of the parameters begin at 0 and end here.
const SQT_HIGHEST: u32 = 126;

const GAINUP_HIGHEST: u32 = 31;

const GAINDN_HIGHEST: u32 = 10;

const MESTEP_HIGHEST: u32 = 15;

// The last numeric code of a PAN or PAR, and the last code of all.
pub const NUMERIC_HIGHEST: u32 = 60;

const CODE_HIGHEST: u32 = 63;

// One step of Mestep is 0.2 dB, in thousandths.
pub const MESTEP_STEP: u32 = 200;

// The greatest attenuation and the greatest increase, 24 dB in thousandths.
pub const THOUSANDTHS_HIGHEST: u32 = 24_000;

// Codes 0 to 60, increase a multiple of 200 in 0 to 24,000.
pub fn well_formed(r: PowerRecord) -> bool
    ensures { result ≡ well_formed r }
{
    (r.panlast <= NUMERIC_HIGHEST)
        & (r.parsave <= NUMERIC_HIGHEST)
        & (r.panbasic <= NUMERIC_HIGHEST)
        & (r.increase <= THOUSANDTHS_HIGHEST)
        & (r.increase % MESTEP_STEP == 0)
}

// Each parameter in its range, and PANmin not above PANmax.
pub fn parameters_in_range(p: PowerParameters) -> bool
    ensures { result ≡ parameters_in_range p }
{
    (p.sqt <= SQT_HIGHEST)
        & (p.paninit <= NUMERIC_HIGHEST)
        & (p.panmin <= NUMERIC_HIGHEST)
        & (p.panmax <= NUMERIC_HIGHEST)
        & (p.panmin <= p.panmax)
        & (p.gainup <= GAINUP_HIGHEST)
        & (p.gaindn <= GAINDN_HIGHEST)
        & (p.mestep <= MESTEP_HIGHEST)
}

// A failed message has no codes; those of a decoded one are 0 to 63.
pub fn codes_in_range(d: Decoded) -> bool
    ensures { result ≡ codes_in_range d }
{
    match d {
        Decoded::Failed => true,
        Decoded::Codes { pan, par } => pan <= CODE_HIGHEST && par <= CODE_HIGHEST,
    }
}

fn fresh_with(paninit: u32) -> PowerRecord
    ensures { result ≡ fresh_with paninit }
{
    PowerRecord {
        panlast: paninit,
        parsave: paninit,
        panbasic: paninit,
        increase: 0,
    }
}

// A fresh record; refused, one of all zeros.
#[tactic(auto, unfolding(power_rules::specs::Calls::started))]
pub fn start(p: PowerParameters) -> Handed<PowerRecord, ()>
    ensures { (result.state ≡ (started p).power) × (told result.answer ≡ (started p).answer) }
{
    if parameters_in_range(p) {
        Handed {
            state: fresh_with(p.paninit),
            answer: Ok(()),
        }
    } else {
        Handed {
            state: fresh_with(0),
            answer: Err(Refusal::ParameterOutOfRange),
        }
    }
}

// Whether a record is well formed; it comes back as it was given.
#[tactic(auto, unfolding(power_rules::specs::Calls::tested))]
pub fn check(r: PowerRecord) -> Handed<PowerRecord, ()>
    ensures { (result.state ≡ (tested r).power) × (told result.answer ≡ (tested r).answer) }
{
    let answer = if well_formed(r) {
        Ok(())
    } else {
        Err(Refusal::RecordNotWellFormed)
    };
    Handed { state: r, answer }
}
