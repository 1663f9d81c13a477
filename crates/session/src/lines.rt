// A line that has ended: what it is, and what it does and writes.
ghost use Rattle.std.specs.Prelude.{◌≡◌, ℕ};
ghost use Rattle.session_state.specs.declared.State.{State};
ghost use Rattle.session_texts.specs.Text.{said};
ghost use Rattle.session_rows.specs.Calls.{only};
ghost use Rattle.session.specs.File.{line_written, following};
ghost use Rattle.session.specs.Reading.{so_far, kept_written, kind_written};

use session_answers::of_watch;
use session_lines::{LONGEST, Line};
use session_rows::{ROWS, make};
use session_state::State;
use session_texts::Text;
use session_watch::{WATCH_ROWS, watch_row};

// What a comment begins with.
const HASH: u8 = b'#';

// A line is passed over, or is none of the calls, or has this row of the table.
#[derive(Clone, Copy)]
pub enum Kind {
    PassedOver,
    NoCall,
    Call(usize),
}

// The number of the line after this one; the last of 64 bits stays.
#[tactic(auto, unfolding(crate::specs::File::following))]
pub fn next_number(number: u64) -> u64
    ensures { result ≡ following number }
{
    number.saturating_add(1)
}

// What a line is, by its length and its first bytes.
pub fn kind_of(length: usize, held: &[u8]) -> Kind
    ensures { (n : ℕ) (s : State) → kind_written result n s held.now ≡ kept_written length held.now n s }
{
    if held.is_empty() {
        return Kind::PassedOver;
    }
    if held[0] == HASH {
        return Kind::PassedOver;
    }
    if length > LONGEST {
        return Kind::NoCall;
    }
    match session_rows::row_of(held) {
        Some(row) => Kind::Call(row),
        None => Kind::NoCall,
    }
}

// What a line of a kind does: its answer is written, and the state changed.
pub fn answer(state: &mut State, number: u64, kind: Kind, held: &[u8]) -> Text
    ensures { only state.new (said result) ≡ kind_written kind number state.old held.now }
{
    match kind {
        Kind::PassedOver => Text::new(),
        Kind::NoCall => make(state, number, ROWS, held),
        Kind::Call(row) => make(state, number, row, held),
    }
}

// What the line does. A call on the watch is made here and not by `answer`, which clears room for whole states: most lines are such calls.
pub fn answer_line(state: &mut State, number: u64, line: &Line) -> Text
    ensures { only state.new (said result) ≡ line_written number state.old (so_far line.now) }
{
    let held = line.first();
    let kind = kind_of(line.size(), held);
    if let Kind::Call(row) = kind {
        if row < WATCH_ROWS {
            let handed = watch_row(state.watch, row, held);
            state.watch = handed.state;
            return of_watch(handed.answer);
        }
    }
    answer(state, number, kind, held)
}
