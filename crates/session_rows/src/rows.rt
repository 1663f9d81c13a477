// The rows of the table of calls, as a text, and what each row does.
ghost use Rattle.std.specs.Prelude.{◌≡◌, ◌<◌, unwrap_or, IfSome};
ghost use Rattle.power_rules.specs.declared.Decoded.TheVariants.{Codes};
ghost use Rattle.session_words.specs.Words.{words_of};
ghost use Rattle.session_calls.specs.Table.{row_at};
ghost use Rattle.session_texts.specs.Text.{said};
ghost use Rattle.session_state.specs.declared.State.{State};
ghost use Rattle.session_rows.specs.Calls.{told_answered, only, malformed};
ghost use Rattle.session_rows.specs.Table.{choice_rows, power_rows, reading_rows, parameters_set, rows, row_of, row_written};

use crate::calls::{choose, set_outcome, start_power, step_power};
use power::{Decoded, PowerParameters};
use session_answers::{Answered, of_error, of_float, of_hundredths, of_outcome, of_watch};
use session_state::State;
use session_sweep::{SWEEP_ROWS, sweep_row};
use session_texts::Text;
use session_values::{byte_at, channel_at, int_at, num_at};
use session_watch::{WATCH_ROWS, watch_row};

// The rows in the order in which they are tried: those on the watch, of which a session has most, then those on the sweep, of the choice, on the
// power record, and of single readings.
const TABLE: [u8; 364] = *b"\
file CH heard NUM NUM\n\
file CH missed\n\
ask CH\n\
verdict INT\n\
start CH\n\
start CH BYTE\n\
beam CH CH..\n\
sweep file CH heard NUM NUM\n\
sweep file CH missed\n\
sweep next\n\
sweep counts\n\
sweep fresh\n\
sweep rest missed\n\
outcome CH BYTE\n\
choose INT\n\
step BYTE BYTE INT\n\
step failed INT\n\
power start\n\
params BYTE BYTE BYTE BYTE BYTE BYTE BYTE\n\
level NUM\n\
quality NUM\n\
show level INT\n\
show quality INT";

// The number of rows of each part after those on the watch and on the sweep, and of all.
const CHOICE_ROWS: usize = 2;

const POWER_ROWS: usize = 4;

const READING_ROWS: usize = 4;

pub const ROWS: usize = WATCH_ROWS + SWEEP_ROWS + CHOICE_ROWS + POWER_ROWS + READING_ROWS;

// The number of the row that a line has, if it has one.
pub fn row_of(line: &[u8]) -> Option<usize>
    ensures row { unwrap_or result rows ≡ row_of (words_of line.now) }
    ensures few { IfSome result (λ k. k < rows) }
{
    session_calls::row_of(&TABLE, line)
}

// By the number of the row, here and below: the definitions have the rows as a list in this order, and the gate compares the three.
fn choice_row(state: State, number: u64, row: usize, line: &[u8]) -> Answered<State>
    ensures { told_answered result ≡ row_at choice_rows malformed row (words_of line.now) number state }
{
    match row {
        0 => set_outcome(state, number, channel_at(line, 1), byte_at(line, 2)),
        1 => choose(state, int_at(line, 1)),
        _ => Answered {
            state,
            text: of_error(number),
        },
    }
}

// Decoded codes.
fn codes(pan: u8, par: u8) -> Decoded
    ensures { result ≡ Codes pan par }
{
    Decoded::Codes {
        pan: u32::from(pan),
        par: u32::from(par),
    }
}

// `params SQT INIT MIN MAX UP DN STEP`, each a BYTE.
fn set_parameters(mut state: State, line: &[u8]) -> Answered<State>
    ensures { told_answered result ≡ parameters_set (words_of line.now) state }
{
    state.parameters = PowerParameters {
        sqt: u32::from(byte_at(line, 1)),
        paninit: u32::from(byte_at(line, 2)),
        panmin: u32::from(byte_at(line, 3)),
        panmax: u32::from(byte_at(line, 4)),
        gainup: u32::from(byte_at(line, 5)),
        gaindn: u32::from(byte_at(line, 6)),
        mestep: u32::from(byte_at(line, 7)),
    };
    Answered {
        state,
        text: of_outcome(Ok(())),
    }
}

fn power_row(state: State, number: u64, row: usize, line: &[u8]) -> Answered<State>
    ensures { told_answered result ≡ row_at power_rows malformed row (words_of line.now) number state }
{
    match row {
        0 => step_power(
            state,
            codes(byte_at(line, 1), byte_at(line, 2)),
            int_at(line, 3),
        ),
        1 => step_power(state, Decoded::Failed, int_at(line, 2)),
        2 => start_power(state),
        3 => set_parameters(state, line),
        _ => Answered {
            state,
            text: of_error(number),
        },
    }
}

// The state stays as it is.
fn reading_row(number: u64, row: usize, line: &[u8]) -> Text
    ensures { (s : State) → only s (said result) ≡ row_at reading_rows malformed row (words_of line.now) number s }
{
    match row {
        0 => of_hundredths(readings::level_to_hundredths(num_at(line, 1))),
        1 => of_hundredths(readings::quality_to_hundredths(num_at(line, 1))),
        2 => of_float(readings::level_to_float(int_at(line, 2))),
        3 => of_float(readings::quality_to_float(int_at(line, 2))),
        _ => of_error(number),
    }
}

// Makes the call of a row with the words of a line, and writes its answer; the line is the one of this number in the file. Beyond the last row
// there is no call. Of the state only the record is written back that a call on the watch or on the sweep changed, since these are the most.
pub fn make(state: &mut State, number: u64, row: usize, line: &[u8]) -> Text
    ensures { only state.new (said result) ≡ row_written row number state.old (words_of line.now) }
{
    if row < WATCH_ROWS {
        let handed = watch_row(state.watch, row, line);
        state.watch = handed.state;
        return of_watch(handed.answer);
    }
    let row = row - WATCH_ROWS;
    if row < SWEEP_ROWS {
        let answered = sweep_row(state.sweep, row, line);
        state.sweep = answered.state;
        return answered.text;
    }
    let row = row - SWEEP_ROWS;
    if row < CHOICE_ROWS {
        let answered = choice_row(*state, number, row, line);
        *state = answered.state;
        return answered.text;
    }
    let row = row - CHOICE_ROWS;
    if row < POWER_ROWS {
        let answered = power_row(*state, number, row, line);
        *state = answered.state;
        return answered.text;
    }
    reading_row(number, row - POWER_ROWS, line)
}
