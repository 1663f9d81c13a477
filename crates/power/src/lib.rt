// The calls of the power steps: the step here, by value and on a record that is lent; start and test passed on. Document 01, section Power
// steps; source document 000, clause 5.4, items 1 to 5.2.
#![tactic(auto)]

ghost use Rattle.std.specs.Prelude.{◌≡◌, ◌≤◌, ◌&&◌, pos, true, IfOk, OnOk, IfErr};
ghost use Rattle.std.specs.Bool.{then_some};
ghost use Rattle.refusal.specs.Told.{refused_for, gives};
ghost use Rattle.readings_rules.specs.Ranges.{quality_in_range};
ghost use Rattle.power_rules.specs.Constants.{numeric_highest};
ghost use Rattle.power_rules.specs.PowerSteps.{parameters_in_range, codes_in_range, well_formed, numeric, record_after, thousandths, par_to_send, pan_to_send};
ghost use Rattle.power_rules.specs.Calls.{stepped, sending};
ghost use Rattle.power_rules.specs.Told.{told_answer};
ghost use Rattle.power_rules.specs.Refusals.{InRange, WellFormed};
ghost use Rattle.power_rules.specs.Code.{above_lowest, par_at, pan_at};

use power_record::{
    MESTEP_STEP, NUMERIC_HIGHEST, THOUSANDTHS_HIGHEST, codes_in_range, parameters_in_range,
    well_formed,
};
pub use power_record::{check, start};
pub use power_rules::{Decoded, PowerParameters, PowerRecord, Sent};
use readings_rules::{QUALITY_HIGHEST, QUALITY_LOWEST};
use refusal::{Handed, Refusal};

// One step of SQT is 0.1 dB, in hundredths.
const SQT_STEP: u32 = 10;

// One code is 0.4 dB, in thousandths.
const CODE_STEP: u32 = 400;

// A code, where it is numeric.
fn numeric(code: u32) -> Option<u32>
    ensures { result ≡ then_some (numeric code) code }
{
    (code <= NUMERIC_HIGHEST).then_some(code)
}

// What a step is worked out from once it has passed every test.
#[derive(Clone, Copy)]
struct Accepted {
    p: PowerParameters,
    r: PowerRecord,
    d: Decoded,
    sqi: i32,
    ghost usable: { InRange p },
    ghost formed: { WellFormed r },
    ghost inside: { quality_in_range sqi ≡ true },
}

impl Accepted {
    // The tests of a step, in the order in which they refuse.
    fn new(p: PowerParameters, r: PowerRecord, d: Decoded, sqi: i32) -> Result<Accepted, Refusal>
        ensures passed { IfOk result (λ a. (a.p ≡ p) × (a.r ≡ r) × (a.d ≡ d) × (a.sqi ≡ sqi)) }
        ensures tests { OnOk result ((well_formed r ≡ true) × ((parameters_in_range p && codes_in_range d) ≡ true) × (quality_in_range sqi ≡ true)) }
        ensures accepted { OnOk result (stepped p r d sqi ≡ record { power = record_after p r d; answer = gives (sending p r d sqi) }) }
        ensures refused { IfErr result (λ why. stepped p r d sqi ≡ record { power = r; answer = refused_for why }) }
    {
        if !well_formed(r) {
            return Err(Refusal::RecordNotWellFormed);
        }
        if !(parameters_in_range(p) & codes_in_range(d)) {
            return Err(Refusal::ParameterOutOfRange);
        }
        if !((QUALITY_LOWEST <= sqi) & (sqi <= QUALITY_HIGHEST)) {
            return Err(Refusal::ReadingOutOfRange);
        }
        Ok(Accepted { p, r, d, sqi })
    }

    // Rules 1 and 3: the record after the step. PANlast is the PAN in use; a message that was not decoded adds to the increase alone.
    fn record_after(self) -> PowerRecord
        ensures after { result ≡ record_after self.p self.r self.d }
        ensures formed { WellFormed result }
    {
        let r = self.r;
        match self.d {
            Decoded::Failed => PowerRecord {
                increase: (r.increase + MESTEP_STEP * self.p.mestep).min(THOUSANDTHS_HIGHEST),
                ..r
            },
            Decoded::Codes { pan, par } => PowerRecord {
                panlast: numeric(pan).unwrap_or(r.panlast),
                parsave: numeric(par).unwrap_or(r.parsave),
                panbasic: numeric(par).map_or(r.panbasic, |par| par.min(r.parsave)),
                increase: 0,
            },
        }
    }

    // Rule 2: T, at the PAN in use.
    fn thousandths(self, panuse: u32) -> i32
        requires { panuse ≤ numeric_highest }
        ensures { result ≡ thousandths self.p panuse self.sqi }
    {
        let target = (SQT_STEP * self.p.sqt) as i32;
        let gain = if target < self.sqi {
            self.p.gaindn
        } else {
            self.p.gainup
        };
        (CODE_STEP * panuse) as i32 - gain as i32 * (target - self.sqi)
    }

    // Rule 2: the PAR to send: the code nearest to T, a half to the lower, as one less than half a code is added.
    fn par(self, panuse: u32) -> u32
        requires { panuse ≤ numeric_highest }
        ensures sent { pos result ≡ par_to_send self.p panuse self.sqi }
        ensures code { result ≡ par_at self.p panuse (above_lowest self.sqi) }
    {
        let t = self.thousandths(panuse);
        let held = t.clamp(0, THOUSANDTHS_HIGHEST as i32) as u32;
        (held + (CODE_STEP / 2 - 1)) / CODE_STEP
    }

    // Rule 4: the PAN to send, of the record after the step.
    fn pan(self, after: PowerRecord) -> u32
        requires { WellFormed after }
        ensures sent { pos result ≡ pan_to_send self.p after }
        ensures code { result ≡ pan_at self.p after }
    {
        let whole = (CODE_STEP * after.panbasic).saturating_sub(after.increase) / CODE_STEP;
        whole.clamp(self.p.panmin, self.p.panmax)
    }
}

// One step: the codes to send and the record after it, or a refusal and the record as it was given.
pub fn step(p: PowerParameters, r: PowerRecord, d: Decoded, sqi: i32) -> Handed<PowerRecord, Sent>
    ensures { (result.state ≡ (stepped p r d sqi).power) × (told_answer result.answer ≡ (stepped p r d sqi).answer) }
{
    match Accepted::new(p, r, d, sqi) {
        Ok(accepted) => {
            let state = accepted.record_after();
            let par = accepted.par(state.panlast);
            let pan = accepted.pan(state);
            Handed {
                state,
                answer: Ok(Sent { par, pan }),
            }
        }
        Err(why) => Handed {
            state: r,
            answer: Err(why),
        },
    }
}

// One step on a record that is lent, which is advanced there. A refused step stores the same record again.
pub fn advance(
    r: &mut PowerRecord,
    p: PowerParameters,
    d: Decoded,
    sqi: i32,
) -> Result<Sent, Refusal>
    ensures { (told_answer result ≡ (stepped p r.old d sqi).answer) × (r.new ≡ (stepped p r.old d sqi).power) }
{
    let handed = step(p, *r, d, sqi);
    *r = handed.state;
    handed.answer
}
