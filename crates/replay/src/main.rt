// Answers a session file (docs/session-format.md), read from standard input or from the file that the first argument names: each recorded
// call is made again through the library, and its answer written to standard output.
#![tactic(auto)]

use session::Session;
use std::env::{Env, FillError};
use std::fs::{self, Files};
use std::io::{Error, ErrorKind, Read};
use std::process::ExitCode;
use std::{fmt, str};

// The system's number of the error that a name is too long.
const NAME_TOO_LONG: i32 = 36;

const STANDARD_INPUT: &str = "standard input";

const STANDARD_OUTPUT: &str = "standard output";

const NAME: &str = "the name of the session file";

// What failed, and why.
#[derive(Drop)]
struct Failure<'a> {
    what: &'a str,
    why: Error,
}

impl fmt::Display for Failure<'_> {
    fn fmt<W: fmt::Write>(&self, f: &mut fmt::Formatter<W>) -> fmt::Result {
        write!(f, "{}: {}", self.what, self.why)
    }
}

fn write_answers<'a>(rt: &impl Print, answers: &[u8]) -> Result<(), Failure<'a>> {
    rt.write_all(answers).map_err(|why| Failure {
        what: STANDARD_OUTPUT,
        why,
    })
}

// Answers a block; the buffer of answers is written out each time that it is full. How much of the block a turn takes is what the session answers,
// so that no iterator gives the turns.
fn replay_block<'a>(
    rt: &impl Print,
    session: Session,
    block: &[u8],
) -> Result<Session, Failure<'a>> {
    // Fixed memory, here and below: a session of any length is answered in these buffers.
    let mut out = io::large_buffer();
    let mut s = session;
    let mut rest = block;
    while !rest.is_empty() {
        let progress = session::answer_block(s, rest, &mut out);
        write_answers(rt, &out[..progress.written])?;
        s = progress.session;
        rest = &rest[progress.taken..];
    }
    Ok(s)
}

// Answers a last line that lacks its newline.
fn replay_last<'a>(rt: &impl Print, session: Session) -> Result<(), Failure<'a>> {
    write_answers(rt, session::finish(session).as_bytes())
}

// Reads once and answers what came, or at the end of the file its last line: then no session goes on.
fn replay_some<'a, R: Read>(
    rt: &impl Print,
    from: &mut R,
    what: &'a str,
    session: Session,
) -> Result<Option<Session>, Failure<'a>> {
    let mut block = io::large_buffer();
    let n = from.read(&mut block).map_err(|why| Failure { what, why })?;
    if n == 0 {
        replay_last(rt, session)?;
        return Ok(None);
    }
    let next = replay_block(rt, session, &block[..n])?;
    Ok(Some(next))
}

// A proved loop has to end, and nothing says that a file does: its turns are counted, up to a number that no run reaches.
fn replay<'a, R: Read + Drop>(
    rt: &impl Print,
    mut from: R,
    what: &'a str,
) -> Result<(), Failure<'a>> {
    let mut s = session::begin();
    for _ in 0..u64::MAX {
        let Some(next) = replay_some(rt, &mut from, what, s)? else {
            break;
        };
        s = next;
    }
    Ok(())
}

fn replay_named<'a>(rt: &(impl Print + Files), name: &'a [u8]) -> Result<(), Failure<'a>> {
    let Ok(path) = str::from_utf8(name) else {
        let why = Error::new(ErrorKind::InvalidInput, "not valid UTF-8");
        return Err(Failure { what: NAME, why });
    };
    let file = fs::open(rt, path).map_err(|why| Failure { what: path, why })?;
    replay(rt, file, path)
}

fn main(rt: HostRuntime) -> ExitCode {
    let mut name = io::buffer();
    let ended = match rt.arg(1, &mut name) {
        Ok(n) => replay_named(&rt, &name[..n]),
        Err(FillError::NotPresent) => replay(&rt, rt.stdin(), STANDARD_INPUT),
        Err(FillError::TooLong) => Err(Failure {
            what: NAME,
            why: Error::from_raw_os_error(NAME_TOO_LONG),
        }),
    };
    match ended {
        Ok(()) => ExitCode::SUCCESS,
        Err(failure) => {
            let _ = eprintln!(rt; "{failure}");
            ExitCode::FAILURE
        }
    }
}
