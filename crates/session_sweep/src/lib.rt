// The rows of a session's table of calls that are on the sweep alone: each makes its call through the library, with the words of a line, and
// writes its answer.
#![tactic(auto)]

ghost use Rattle.std.specs.Prelude.{◌≡◌};
ghost use Rattle.sweep_rules.specs.Record.{first_swept, swept_channels};
ghost use Rattle.session_words.specs.Words.{words_of};
ghost use Rattle.session_calls.specs.Table.{row_at};
ghost use Rattle.session_sweep.specs.Rows.{told_sweep_answered, missed_from, filed, next_asked, counts_asked, accepts, sweep_rows};

use readings_rules::Burst;
use session_answers::{Answered, of_counts, of_next, of_outcome};
use session_values::{channel_at, heard_at};
use sweep::{FIRST_SWEPT, LAST_SWEPT, Sweep};

// The number of rows on the sweep.
pub const SWEEP_ROWS: usize = 6;

// These three differ in their call and in the writer of its answer: one function with both as parameters would be no shorter.
fn file(sweep: Sweep, channel: u16, burst: Burst) -> Answered<Sweep>
    ensures { told_sweep_answered result ≡ filed channel burst sweep }
{
    let filed = sweep::file(sweep, channel, burst);
    Answered {
        state: filed.state,
        text: of_outcome(filed.answer),
    }
}

fn next(sweep: Sweep) -> Answered<Sweep>
    ensures { told_sweep_answered result ≡ next_asked sweep }
{
    let next = sweep::next(sweep);
    Answered {
        state: next.state,
        text: of_next(next.answer),
    }
}

fn counts(sweep: Sweep) -> Answered<Sweep>
    ensures { told_sweep_answered result ≡ counts_asked sweep }
{
    let counts = sweep::counts(sweep);
    Answered {
        state: counts.state,
        text: of_counts(counts.answer),
    }
}

// Accepted, with the sweep that follows.
fn accepted(sweep: Sweep) -> Answered<Sweep>
    ensures { told_sweep_answered result ≡ accepts sweep }
{
    Answered {
        state: sweep,
        text: of_outcome(Ok(())),
    }
}

// "Missed" filed for every channel that the sweep visits: it is refused where the channel was visited, and the record stays.
fn rest_missed(mut sweep: Sweep) -> Sweep
    ensures { result ≡ missed_from swept_channels first_swept sweep }
{
    for channel in FIRST_SWEPT..=LAST_SWEPT {
        sweep = sweep::file(sweep, channel as u16, Burst::Missed).state;
    }
    sweep
}

// A call on the sweep, by the number of its row, as the definitions have it.
// No row is beyond the last: there the next channel is asked for, which leaves the sweep as it is.
pub fn sweep_row(sweep: Sweep, row: usize, line: &[u8]) -> Answered<Sweep>
    ensures { told_sweep_answered result ≡ row_at sweep_rows next_asked row (words_of line.now) sweep }
{
    match row {
        0 => file(sweep, channel_at(line, 2), heard_at(line, 4)),
        1 => file(sweep, channel_at(line, 2), Burst::Missed),
        2 => next(sweep),
        3 => counts(sweep),
        4 => accepted(sweep::fresh()),
        5 => accepted(rest_missed(sweep)),
        _ => next(sweep),
    }
}
