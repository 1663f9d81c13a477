// How a Rattle program makes each call: a reading and back, a sweep with a choice over it, a watch, and a power step. Each answer is a line.
#![tactic(auto)]

use choice::Choice;
use power::{Decoded, PowerParameters, Sent};
use readings::{Burst, Reading};
use refusal::Refusal;
use std::fmt::{self, Write};
use sweep::{CHANNELS, FIRST_SWEPT, LAST_SWEPT, Sweep};
use watch_rules::Answer;

// The system's number of the standard output.
const STDOUT_FILENO: i32 = 1;

// Standard output. Written so that the proof assumes one C function, `write`, and no other; a failed write is passed over.
#[derive(Drop)]
struct Output;

impl Write for Output {
    fn write_str(&mut self, text: &str) -> fmt::Result {
        io::write_all(STDOUT_FILENO, text.as_bytes());
        Ok(())
    }
}

fn say_refused(out: &mut impl Write, why: Refusal) -> fmt::Result {
    let number = why.number();
    writeln!(out, "refused {number}")
}

// A call that gives no value: the line that is said where it is accepted, in one write.
fn say_outcome(out: &mut impl Write, what: &str, answer: Result<(), Refusal>) -> fmt::Result {
    match answer {
        Ok(()) => out.write_str(what),
        Err(why) => say_refused(out, why),
    }
}

// A level in whole hundredths of a dB, shown as a float again. A refusal of either call is passed on.
fn shown_again(x: f32) -> Result<f32, Refusal> {
    let hundredths = readings::level_to_hundredths(x)?;
    readings::level_to_float(hundredths)
}

fn say_level(out: &mut impl Write, x: f32) -> fmt::Result {
    match shown_again(x) {
        Ok(back) if back == x => writeln!(out, "level shown as it was"),
        Ok(_) => writeln!(out, "level shown rounded"),
        Err(why) => say_refused(out, why),
    }
}

// What the modem gave on a channel: one beam is heard, every other burst is missed.
fn burst_on(channel: u16) -> Burst {
    if channel == 42 {
        return Burst::Heard(Reading {
            level: -94.25,
            quality: 9.0,
        });
    }
    Burst::Missed
}

// Files a burst for the next channel until there is none.
fn swept() -> Sweep {
    let mut sweep = sweep::fresh();
    for _ in FIRST_SWEPT..=LAST_SWEPT {
        let Ok(Some(channel)) = sweep::next(sweep).answer else {
            break;
        };
        sweep = sweep::file(sweep, channel, burst_on(channel)).state;
    }
    sweep
}

fn say_counts(out: &mut impl Write, sweep: Sweep) -> fmt::Result {
    match sweep::counts(sweep).answer {
        Ok(numbers) => {
            writeln!(out, "visited {}", numbers.visited)?;
            writeln!(out, "heard {}", numbers.heard)
        }
        Err(why) => say_refused(out, why),
    }
}

// The margin is in hundredths; nothing was read on any channel yet.
fn say_choice(out: &mut impl Write, sweep: Sweep) -> fmt::Result {
    match choice::choose(sweep, 300, &[0; CHANNELS]).answer {
        Ok(Choice::Camp { channel, .. }) => writeln!(out, "camp on {channel}"),
        Ok(Choice::Read { channel, .. }) => writeln!(out, "read {channel}"),
        Ok(Choice::NoBeam { tried }) => writeln!(out, "no beam, tried {tried}"),
        Err(why) => say_refused(out, why),
    }
}

// A record that was kept by the caller can be tested.
fn say_sweep(out: &mut impl Write) -> fmt::Result {
    let sweep = swept();
    say_outcome(out, "sweep well formed\n", sweep::check(sweep).answer)?;
    say_counts(out, sweep)?;
    say_choice(out, sweep)
}

// Every answer of a call on a watch.
fn say_watch(out: &mut impl Write, answer: Result<Answer, Refusal>) -> fmt::Result {
    match answer {
        Ok(Answer::Accepted) => writeln!(out, "accepted"),
        Ok(Answer::Levels { count, .. }) => writeln!(out, "levels {count}"),
        Ok(Answer::Wait) => writeln!(out, "wait"),
        Ok(Answer::Stay) => writeln!(out, "stay"),
        Ok(Answer::MoveTo(channel)) => writeln!(out, "move to {channel}"),
        Err(why) => say_refused(out, why),
    }
}

// Each call hands its watch on to the next. The start gives its depth, 5 to 31: how many levels of a channel make a mean. The hysteresis is in
// hundredths. While the serving channel has fewer levels than the depth, the verdict is to wait.
fn say_watched(out: &mut impl Write) -> fmt::Result {
    let started = watch::start(watch::fresh(), 310, 15);
    let listed = watch::new_beam(started.state, 310, &[118, 42, 205]);
    let filed = watch::file(listed.state, 42, burst_on(42));
    let asked = watch::ask(filed.state, 42);
    say_watch(out, asked.answer)?;
    let judged = watch::verdict(asked.state, 300);
    say_watch(out, judged.answer)?;
    // Channel 42 serves now, and 310 is in its list: both keep their levels.
    let moved = watch::new_beam(judged.state, 42, &[118, 310, 205]);
    say_watch(out, moved.answer)?;
    say_watch(out, watch::check(moved.state).answer)
}

// The parameters are codes, and the quality SQI is in hundredths. A step hands on the record that it was given, advanced.
fn say_power(out: &mut impl Write) -> fmt::Result {
    let parameters = PowerParameters {
        sqt: 80,
        paninit: 24,
        panmin: 4,
        panmax: 56,
        gainup: 12,
        gaindn: 8,
        mestep: 2,
    };
    let started = power::start(parameters);
    let stepped = power::step(
        parameters,
        started.state,
        Decoded::Codes { pan: 20, par: 20 },
        850,
    );
    match stepped.answer {
        Ok(Sent { par, pan }) => {
            writeln!(out, "send PAR {par}")?;
            writeln!(out, "send PAN {pan}")?;
        }
        Err(why) => say_refused(out, why)?,
    }
    say_outcome(
        out,
        "power record well formed\n",
        power::check(stepped.state).answer,
    )
}

fn say_all(out: &mut impl Write) -> fmt::Result {
    say_level(out, -97.25)?;
    say_sweep(out)?;
    say_watched(out)?;
    say_power(out)
}

fn main() {
    let _ = say_all(&mut Output);
}
