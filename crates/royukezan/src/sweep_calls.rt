// The band sweep and the choice over it.
ghost use Rattle.std.specs.Prelude.{◌≡◌};
ghost use Rattle.readings_rules.specs.declared.Burst.TheVariants.{Heard, Missed};
ghost use Rattle.sweep_rules.specs.Record.{fresh_sweep};
ghost use Rattle.sweep_rules.specs.Filing.{filing, checking};
ghost use Rattle.sweep_rules.specs.Next.{next_told};
ghost use Rattle.sweep_rules.specs.Counts.{counts_told};
ghost use Rattle.choice_rules.specs.Choose.{choosing};
ghost use Rattle.host_rules.specs.Answers.{refusal_number, sweep_outcome, next_answer, counts_answer, choice_answer};

use host_answers::{
    ChoiceAnswer, CountsAnswer, NextAnswer, SweepOutcome, choice_answer, counts_answer,
    next_answer, sweep_outcome,
};
use readings::{Burst, Reading};
use sweep::Sweep;

// A fresh sweep.
#[unsafe(no_mangle)]
pub extern "C" fn royukezan_sweep_fresh() -> Sweep
    ensures { result ≡ fresh_sweep }
{
    sweep::fresh()
}

// Files a heard burst. Refusals 9, 2, 3, 1.
#[unsafe(no_mangle)]
pub extern "C" fn royukezan_sweep_file_heard_by_value(
    s: Sweep,
    channel: u16,
    level: f32,
    quality: f32,
) -> SweepOutcome
    ensures { result ≡ sweep_outcome s (filing s channel (Heard (record { level = level; quality = quality }))) }
{
    sweep_outcome(sweep::file(s, channel, Burst::Heard(Reading { level, quality })))
}

// Files a missed burst. Refusals 9, 2, 3.
#[unsafe(no_mangle)]
pub extern "C" fn royukezan_sweep_file_missed_by_value(s: Sweep, channel: u16) -> SweepOutcome
    ensures { result ≡ sweep_outcome s (filing s channel Missed) }
{
    sweep_outcome(sweep::file(s, channel, Burst::Missed))
}

// The next channel, or done. Refusal 9.
#[unsafe(no_mangle)]
pub extern "C" fn royukezan_sweep_next_by_value(s: Sweep) -> NextAnswer
    ensures { result ≡ next_answer (next_told s) }
{
    next_answer(sweep::next(s))
}

// The numbers visited and heard. Refusal 9.
#[unsafe(no_mangle)]
pub extern "C" fn royukezan_sweep_counts_by_value(s: Sweep) -> CountsAnswer
    ensures { result ≡ counts_answer (counts_told s) }
{
    counts_answer(sweep::counts(s))
}

// Whether a sweep is well formed: 0, or 9.
#[unsafe(no_mangle)]
pub extern "C" fn royukezan_sweep_check_by_value(s: Sweep) -> u32
    ensures { result ≡ refusal_number (checking s) }
{
    sweep_outcome(sweep::check(s)).refusal
}

// The choice of a beam. Refusals 9, 8, 7, 4.
#[unsafe(no_mangle)]
pub extern "C" fn royukezan_choose_by_value(s: Sweep, margin: i32, outcomes: &[u8]) -> ChoiceAnswer
    ensures { result ≡ choice_answer (choosing s margin outcomes.now) }
{
    choice_answer(choice::choose(s, margin, outcomes))
}
