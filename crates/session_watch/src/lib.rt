// The rows of a session's table of calls that are on the watch: each makes its call through the library, with the words of a line.
#![tactic(auto)]

ghost use Rattle.std.specs.Prelude.{◌≡◌, pos};
ghost use Rattle.watch_rules.specs.Told.{told_handed, verdict};
ghost use Rattle.watch_rules.specs.Record.{called};
ghost use Rattle.session_words.specs.Words.{words_of};
ghost use Rattle.session_calls.specs.Table.{row_at};
ghost use Rattle.session_watch.specs.Rows.{watch_rows};

use readings::Burst;
use refusal::Handed;
use session_values::{byte_at, channel_at, heard_at, int_at, list_at};
use watch_rules::{Answer, Watch};

// The number of rows on the watch.
pub const WATCH_ROWS: usize = 7;

// The depth of a start that names none: recorded sessions have such lines.
const RECORDED_DEPTH: usize = 15;

// A call on the watch, by its row. No row is beyond the last: there a verdict leaves the watch as it is.
// A row has no name but its place in the table, which is a text: the numbers here follow it, as the definitions do.
pub fn watch_row(watch: Watch, row: usize, line: &[u8]) -> Handed<Watch, Answer>
    ensures { told_handed result ≡ called watch (row_at watch_rows (verdict (pos 0)) row (words_of line.now)) }
{
    match row {
        0 => watch::file(watch, channel_at(line, 1), heard_at(line, 3)),
        1 => watch::file(watch, channel_at(line, 1), Burst::Missed),
        2 => watch::ask(watch, channel_at(line, 1)),
        3 => watch::verdict(watch, int_at(line, 1)),
        4 => watch::start(watch, channel_at(line, 1), RECORDED_DEPTH),
        5 => watch::start(watch, channel_at(line, 1), usize::from(byte_at(line, 2))),
        6 => watch::new_beam(watch, channel_at(line, 1), list_at(line, 2).as_slice()),
        _ => watch::verdict(watch, 0),
    }
}
