// The bytes of a session file, taken in blocks of any size: each line that ends is answered, and the answers go into a lent buffer.
ghost use Rattle.std.specs.Prelude.{◌≡◌, [], ◌≤◌, length, take, drop};
ghost use Rattle.session_texts.specs.Text.{said};
ghost use Rattle.session.specs.Reading.{to_write, Unread, GoesOn, Moves};

use crate::lines::{answer, answer_line, kind_of, next_number};
use byte_scan::find;
use session_lines::Line;
use session_state::State;
use session_texts::{ROOM, Text};
use session_words::NEWLINE;

// A session file as far as it was read: the state, the line that has begun, and that line's number, from 1.
#[derive(Clone, Copy)]
pub struct Session {
    pub state: State,
    pub line: Line,
    pub number: u64,
}

// A session after some bytes of a block: how many of these were taken, and how many bytes of the buffer are answers.
#[derive(Clone, Copy)]
pub struct Progress {
    pub session: Session,
    pub taken: usize,
    pub written: usize,
}

// A session of which nothing was read.
pub fn begin() -> Session
    ensures { Unread result }
{
    Session {
        state: session_state::start(),
        line: Line::blank(),
        number: 1,
    }
}

// Answers lines of a block until it ends or the buffer has no room for one more answer.
pub fn answer_block(session: Session, block: &[u8], out: &mut [u8]) -> Progress
    ensures rest { GoesOn session block.now (take result.written out.new) result.session (drop result.taken block.now) }
    ensures beyond { drop result.written out.new ≡ drop result.written out.old }
    ensures written { result.written ≤ length out.new }
    ensures taken { result.taken ≤ length block.now }
    ensures moves { Moves block.now out.old result.taken }
    ensures length { length out.new ≡ length out.old }
{
    let mut state = session.state;
    let mut line = session.line;
    let mut number = session.number;
    let mut at = 0;
    let mut used = 0;
    // No iterator ends by the room that is left in the buffer, which each answer takes from.
    while (at < block.len()) & (ROOM <= out.len() - used) {
        let end = find(block, at, block.len(), NEWLINE);
        line.push(&block[at..end]);
        if end == block.len() {
            at = end;
            continue;
        }
        at = end + 1;
        let this = number;
        number = next_number(this);
        used = answer_line(&mut state, this, &line).put(out, used);
        line = Line::blank();
    }
    Progress {
        session: Session {
            state,
            line,
            number,
        },
        taken: at,
        written: used,
    }
}

// The end of the file: what a last line writes that lacks its newline.
pub fn finish(session: Session) -> Text
    ensures { said result ≡ to_write session [] }
{
    let held = session.line.first();
    let kind = kind_of(session.line.size(), held);
    let mut state = session.state;
    answer(&mut state, session.number, kind, held)
}
