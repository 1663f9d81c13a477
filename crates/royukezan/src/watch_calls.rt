// The neighbour watch.
ghost use Rattle.std.specs.Prelude.{◌≡◌};
ghost use Rattle.readings_rules.specs.declared.Burst.TheVariants.{Heard, Missed};
ghost use Rattle.watch_rules.specs.Told.{Call};
ghost use Rattle.watch_rules.specs.Record.{fresh as fresh_watch, called, tested};
ghost use Rattle.host_rules.specs.Answers.{refusal_number, watch_outcome, levels_answer, verdict_answer};

use host_answers::{
    LevelsAnswer, VerdictAnswer, WatchOutcome, levels_answer, verdict_answer, watch_outcome,
};
use readings::{Burst, Reading};
use watch_rules::Watch;

// A fresh watch, which is idle.
#[unsafe(no_mangle)]
pub extern "C" fn royukezan_watch_fresh() -> Watch
    ensures { result ≡ fresh_watch }
{
    watch::fresh()
}

// Starts a watch on its serving channel, at a depth. Refusals 9, 7, 2.
#[unsafe(no_mangle)]
pub extern "C" fn royukezan_watch_start_by_value(
    w: Watch,
    serving: u16,
    depth: usize,
) -> WatchOutcome
    ensures { result ≡ watch_outcome (called w (Call.start serving depth)) }
{
    watch_outcome(watch::start(w, serving, depth))
}

// A new beam: its serving channel and its list. Refusals 9, 2, 11 to 14, 6.
#[unsafe(no_mangle)]
pub extern "C" fn royukezan_watch_new_beam_by_value(
    w: Watch,
    serving: u16,
    list: &[u16],
) -> WatchOutcome
    ensures { result ≡ watch_outcome (called w (Call.new_beam serving list.now)) }
{
    watch_outcome(watch::new_beam(w, serving, list))
}

// Files a heard burst. Refusals 9, 6, 1.
#[unsafe(no_mangle)]
pub extern "C" fn royukezan_watch_file_heard_by_value(
    w: Watch,
    channel: u16,
    level: f32,
    quality: f32,
) -> WatchOutcome
    ensures { result ≡ watch_outcome (called w (Call.file channel (Heard (record { level = level; quality = quality })))) }
{
    watch_outcome(watch::file(w, channel, Burst::Heard(Reading { level, quality })))
}

// Files a missed burst. Refusals 9, 6.
#[unsafe(no_mangle)]
pub extern "C" fn royukezan_watch_file_missed_by_value(w: Watch, channel: u16) -> WatchOutcome
    ensures { result ≡ watch_outcome (called w (Call.file channel Missed)) }
{
    watch_outcome(watch::file(w, channel, Burst::Missed))
}

// The count and the mean of a channel's levels. Refusals 9, 6.
#[unsafe(no_mangle)]
pub extern "C" fn royukezan_watch_ask_by_value(w: Watch, channel: u16) -> LevelsAnswer
    ensures { result ≡ levels_answer (called w (Call.ask channel)).answer }
{
    levels_answer(watch::ask(w, channel))
}

// Wait, stay or move. Refusals 9, 7, 6.
#[unsafe(no_mangle)]
pub extern "C" fn royukezan_watch_verdict_by_value(w: Watch, hysteresis: i32) -> VerdictAnswer
    ensures { result ≡ verdict_answer (called w (Call.verdict hysteresis)).answer }
{
    verdict_answer(watch::verdict(w, hysteresis))
}

// Whether a watch is well formed: 0, or 9.
#[unsafe(no_mangle)]
pub extern "C" fn royukezan_watch_check_by_value(w: Watch) -> u32
    ensures { result ≡ refusal_number (tested w).answer }
{
    watch_outcome(watch::check(w)).refusal
}
