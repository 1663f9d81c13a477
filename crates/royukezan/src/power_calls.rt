// The power steps. A message that was decoded and one that was not have a function each, so that no argument exists that document 01 does not
// know.
ghost use Rattle.std.specs.Prelude.{◌≡◌};
ghost use Rattle.power_rules.specs.declared.Decoded.TheVariants.{Failed, Codes};
ghost use Rattle.power_rules.specs.Calls.{started, tested, stepped};
ghost use Rattle.host_rules.specs.Answers.{refusal_number, power_outcome, sent_answer, sent_outcome};

use host_answers::{
    PowerOutcome, SentAnswer, SentOutcome, power_outcome, sent_answer, sent_outcome,
};
use power::{Decoded, PowerParameters, PowerRecord};

// A fresh record; refused, one of all zeros. Refusal 7.
#[unsafe(no_mangle)]
pub extern "C" fn royukezan_power_start_by_value(p: PowerParameters) -> PowerOutcome
    ensures { result ≡ power_outcome (started p) }
{
    power_outcome(power::start(p))
}

// Whether a record is well formed: 0, or 9.
#[unsafe(no_mangle)]
pub extern "C" fn royukezan_power_check_by_value(r: PowerRecord) -> u32
    ensures { result ≡ refusal_number (tested r).answer }
{
    power_outcome(power::check(r)).refusal
}

// A step with the decoded codes. Refusals 9, 7, 1.
#[unsafe(no_mangle)]
pub extern "C" fn royukezan_power_step_decoded_by_value(
    r: PowerRecord,
    p: PowerParameters,
    pan: u32,
    par: u32,
    sqi: i32,
) -> SentOutcome
    ensures { result ≡ sent_outcome (stepped p r (Codes pan par) sqi) }
{
    sent_outcome(power::step(p, r, Decoded::Codes { pan, par }, sqi))
}

// A step where the message was not decoded. Refusals 9, 7, 1.
#[unsafe(no_mangle)]
pub extern "C" fn royukezan_power_step_failed_by_value(
    r: PowerRecord,
    p: PowerParameters,
    sqi: i32,
) -> SentOutcome
    ensures { result ≡ sent_outcome (stepped p r Failed sqi) }
{
    sent_outcome(power::step(p, r, Decoded::Failed, sqi))
}

// The same on a record that is lent: it is advanced there; refused, the same record is stored again.
#[unsafe(no_mangle)]
pub extern "C" fn royukezan_power_step_decoded(
    r: &mut PowerRecord,
    p: PowerParameters,
    pan: u32,
    par: u32,
    sqi: i32,
) -> SentAnswer
    ensures { (result ≡ sent_answer (stepped p r.old (Codes pan par) sqi).answer) × (r.new ≡ (stepped p r.old (Codes pan par) sqi).power) }
{
    sent_answer(power::advance(r, p, Decoded::Codes { pan, par }, sqi))
}

#[unsafe(no_mangle)]
pub extern "C" fn royukezan_power_step_failed(
    r: &mut PowerRecord,
    p: PowerParameters,
    sqi: i32,
) -> SentAnswer
    ensures { (result ≡ sent_answer (stepped p r.old Failed sqi).answer) × (r.new ≡ (stepped p r.old Failed sqi).power) }
{
    sent_answer(power::advance(r, p, Decoded::Failed, sqi))
}
