// Which row of a table of calls a line has: the table is a text, a row to a line.
#![tactic(auto)]

ghost use Rattle.std.specs.Prelude.{◌≡◌, position, unwrap_or, length, List, ℕ};
ghost use Rattle.std.specs.Iterator.{IsFinite};
ghost use Rattle.session_words.specs.Words.{words_of};
ghost use Rattle.session_calls.specs.Grammar.{most_channels, channels_up_to, fits_word, fits, rows_of, first_fit};
ghost use Rattle.session_calls.specs.Code.{WordsOf};

use session_numbers::{BYTE_HIGHEST, CH_HIGHEST, int, natural, num};
use session_values::LISTED;
use session_words::{NEWLINE, SPACE, same};

// The word of a row that stands for all words that are left, as channels.
const MANY: &[u8] = b"CH..";

// Whether a word of a line is what a word of a row asks for.
fn fits_word(asked: &[u8], word: &[u8]) -> bool
    ensures { result ≡ fits_word asked.now word.now }
{
    match asked {
        b"CH" => natural(word, CH_HIGHEST).is_some(),
        b"INT" => int(word).is_some(),
        b"BYTE" => natural(word, BYTE_HIGHEST).is_some(),
        b"NUM" => num(word).is_some(),
        _ => same(asked, word),
    }
}

// Whether the words that are left are channels, and not too many.
fn are_channels<'a, W: Iterator<Item = &'a [u8]> + Drop>(mut words: W) -> bool
    requires can { W.can_next words }
    requires ends { IsFinite (W.remaining words) }
    ensures { (ws : List (List ℕ)) → WordsOf W.next_gives words ws → result ≡ channels_up_to most_channels ws }
{
    for _ in 0..LISTED {
        let Some(word) = words.next() else {
            return true;
        };
        if natural(word, CH_HIGHEST).is_none() {
            return false;
        }
    }
    words.next().is_none()
}

// Whether a line has a row, both by their words.
fn fits_words<'a, R, W>(row: R, mut line: W) -> bool
where
    R: Iterator<Item = &'a [u8]> + Drop,
    W: Iterator<Item = &'a [u8]> + Drop,
    requires row { R.can_next row × IsFinite (R.remaining row) }
    requires line { W.can_next line × IsFinite (W.remaining line) }
    ensures { (rs ws : List (List ℕ)) → WordsOf R.next_gives row rs → WordsOf W.next_gives line ws → result ≡ fits rs ws }
{
    for asked in row {
        if same(asked, MANY) {
            return are_channels(line);
        }
        if !line.next().is_some_and(|word| fits_word(asked, word)) {
            return false;
        }
    }
    line.next().is_none()
}

// Whether a line has a row.
fn fits(row: &[u8], line: &[u8]) -> bool
    ensures { result ≡ fits (words_of row.now) (words_of line.now) }
{
    fits_words(row.split(|b| *b == SPACE), line.split(|b| *b == SPACE))
}

// The number of the first row of a table that a line has, if it has one.
pub fn row_of(table: &[u8], line: &[u8]) -> Option<usize>
    ensures place { result ≡ position (λ row. fits (words_of row) (words_of line.now)) (rows_of table.now) }
    ensures row { unwrap_or result (length (rows_of table.now)) ≡ first_fit (rows_of table.now) (words_of line.now) }
{
    table
        .split(|b| *b == NEWLINE)
        .position(|row| fits(row, line))
}
