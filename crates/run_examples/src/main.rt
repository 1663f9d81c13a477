// Document 01's examples and faulty inputs that are run and compared. Standard input is the table of cases, with comments that say what is called.
// Each line is written again, and after a case what each call answers, in the words of a session file. A call on a record also says whether
// the record that it handed back is the one that it was given.
#![tactic(auto)]

use power::{Decoded, PowerParameters, PowerRecord};
use readings::{Burst, Reading};
use refusal::{Handed, Refusal};
use session_answers::{
    of_choice, of_counts, of_float, of_hundredths, of_next, of_outcome, of_power, of_watch,
};
use session_texts::Text;
use session_values::{LISTED, channel_at, channels_at, int_at, num_at};
use session_words::{NEWLINE, word};
use sweep::{CHANNELS, Sweep};
use watch_rules::{CAPACITY, ROOM, Watch};

// The system's numbers of the standard streams. The proof assumes two C functions, `read` and `write`, and no other; a failed write is passed
// over, and the next case is written.
const STDIN_FILENO: i32 = 0;

const STDOUT_FILENO: i32 = 1;

// Begins a comment, which goes to the end of its line.
const COMMENT: u8 = b'#';

// The depth of document 01's examples.
const DEPTH: usize = 15;

fn write(bytes: &[u8]) {
    io::write_all(STDOUT_FILENO, bytes);
}

// An answer, without its newline.
fn say(answer: Text) {
    let line = answer.as_bytes();
    write(b" | ");
    write(line.strip_suffix(&[NEWLINE]).unwrap_or(line));
}

// The answer of a call on a record, and whether the record beside it is the one that was given.
fn say_handed<R, A, F>(given: R, handed: Handed<R, A>, text_of: F)
where
    R: PartialEq + Drop,
    F: FnOnce(Result<A, Refusal>) -> Text,
    requires { F.pre text_of handed.answer }
{
    let unchanged = handed.state == given;
    say(text_of(handed.answer));
    write(if unchanged { b", same" } else { b", changed" });
}

fn heard(level: f32, quality: f32) -> Burst {
    Burst::Heard(Reading { level, quality })
}

fn of_burst(burst: Burst) -> Text {
    match readings::burst_to_hundredths(burst) {
        Ok(Burst::Heard(Reading { level, quality })) => {
            let mut text = Text::new();
            text.push(b"level ");
            text.push_signed(level);
            text.push(b" quality ");
            text.push_signed(quality);
            text
        }
        Ok(Burst::Missed) => {
            let mut text = Text::new();
            text.push(b"missed");
            text
        }
        Err(why) => of_outcome(Err(why)),
    }
}

// A float as a level and as a quality, alone and in a burst.
fn say_float(x: f32) {
    say(of_hundredths(readings::level_to_hundredths(x)));
    say(of_hundredths(readings::quality_to_hundredths(x)));
    say(of_burst(heard(x, 9.5)));
    say(of_burst(heard(-71.25, x)));
}

// Hundredths shown as a level and as a quality, and each read back.
fn say_hundredths(h: i32) {
    say(of_float(readings::level_to_float(h)));
    say(of_float(readings::quality_to_float(h)));
    say(of_hundredths(readings::level_read_back(h)));
    say(of_hundredths(readings::quality_read_back(h)));
}

fn say_choice(s: Sweep, outcomes: &[u8]) {
    say_handed(s, choice::choose(s, 300, outcomes), of_choice);
}

// Every call on a sweep.
fn say_sweep_calls(s: Sweep) {
    say_handed(s, sweep::check(s), of_outcome);
    say_handed(s, sweep::file(s, 300, heard(-90.0, 10.0)), of_outcome);
    say_handed(s, sweep::next(s), of_next);
    say_handed(s, sweep::counts(s), of_counts);
    say_choice(s, &[0; CHANNELS]);
}

// A word of a map, with a channel's bit set or cleared.
fn with_bit(map: u64, channel: usize, bit: u16) -> u64 {
    let k = channel % 64;
    (map & !(1u64 << k)) | (u64::from(bit % 2) << k)
}

// A sweep that heard channel 100 alone; then a channel's level and its bits in the two maps are set.
fn swept(n: [u16; LISTED], level: i32) -> Sweep {
    let mut s = sweep::file(sweep::fresh(), 100, heard(-90.0, 10.0)).state;
    let c = usize::from(n[0]);
    if c < CHANNELS {
        s.levels[c] = level;
        s.visited[c / 64] = with_bit(s.visited[c / 64], c, n[2]);
        s.heard[c / 64] = with_bit(s.heard[c / 64], c, n[3]);
    }
    s
}

// A sweep that visited the channels 2 to 1,086 and heard none.
fn finished() -> Sweep {
    let mut visited = [u64::MAX; 17];
    visited[0] = 0xffff_ffff_ffff_fffc;
    visited[16] = 0x7fff_ffff_ffff_ffff;
    Sweep {
        visited,
        ..sweep::fresh()
    }
}

// So many outcome bytes, all 0 but those of the channels 0 and 1,087.
fn say_outcomes_case(n: [u16; LISTED]) {
    let mut outcomes = [0; 1089];
    outcomes[0] = (n[1] % 256) as u8;
    outcomes[1087] = (n[2] % 256) as u8;
    match outcomes.get(..usize::from(n[0])) {
        Some(outcomes) => say_choice(finished(), outcomes),
        None => {}
    }
}

// Every call on a watch, and a start whose channel and depth are both out of range.
fn say_watch_calls(w: Watch) {
    say_handed(w, watch::check(w), of_watch);
    say_handed(w, watch::start(w, 500, DEPTH), of_watch);
    say_handed(w, watch::start(w, 1088, 4), of_watch);
    say_handed(w, watch::new_beam(w, 100, &[300, 200]), of_watch);
    say_handed(w, watch::new_beam(w, 200, &[100, 300]), of_watch);
    say_handed(w, watch::file(w, 100, heard(-90.0, 10.0)), of_watch);
    say_handed(w, watch::ask(w, 100), of_watch);
    say_handed(w, watch::verdict(w, 299), of_watch);
}

fn filed(mut w: Watch, channel: u16, level: f32, times: usize) -> Watch {
    for _ in 0..times {
        w = watch::file(w, channel, heard(level, 10.0)).state;
    }
    w
}

// Channel 100 serves, and so many levels of -10,000 are filed for it.
fn watching(list: &[u16], times: usize) -> Watch {
    let started = watch::start(watch::fresh(), 100, DEPTH);
    let listed = watch::new_beam(started.state, 100, list);
    filed(listed.state, 100, -100.0, times)
}

// The watch that a case begins with: document 01's example with 14 levels in the serving channel, one with all tracks in use, or an idle one.
fn watch_of(name: &[u8]) -> Watch {
    match name {
        b"sound" => filed(watching(&[200, 300], 14), 200, -97.0, 15),
        b"full" => watching(&[200, 0, 1, 2, 3, 1087], 0),
        _ => watch::fresh(),
    }
}

// A level as a track holds it; those of the cases fit.
fn held(level: i32) -> i16 {
    level.clamp(-32768, 32767) as i16
}

// The depth, the number of tracks in use, and a track's channel, its count and one of its levels.
fn watched(mut w: Watch, n: [u16; LISTED], level: i32) -> Watch {
    w.depth = usize::from(n[1]);
    w.watched = usize::from(n[2]);
    let place = usize::from(n[3]);
    let at = usize::from(n[6]);
    if place < ROOM && at < CAPACITY {
        let track = &mut w.tracks[place];
        track.channel = n[4];
        track.count = usize::from(n[5]);
        track.levels[at] = held(level);
    }
    w
}

// A new beam with the first n[0] of the other numbers as its list, on the watch that 100 serves and on an idle one.
fn say_beam_case(serving: u16, n: [u16; LISTED]) {
    let Some(list) = n[1..].get(..usize::from(n[0])) else {
        return;
    };
    let w = watch_of(b"sound");
    say_handed(w, watch::new_beam(w, serving, list), of_watch);
    let idle = watch::fresh();
    say_handed(idle, watch::new_beam(idle, serving, list), of_watch);
}

// Every call on a power record but the lent form of the step, which hosts call.
fn say_power_calls(r: PowerRecord) {
    let p = PowerParameters {
        sqt: 85,
        paninit: 30,
        panmin: 0,
        panmax: 60,
        gainup: 10,
        gaindn: 10,
        mestep: 3,
    };
    let d = Decoded::Codes { pan: 20, par: 20 };
    say_handed(r, power::check(r), of_outcome);
    say_handed(r, power::step(p, r, d, 850), of_power);
}

fn say_power_case(n: [u16; LISTED]) {
    let record = PowerRecord {
        panlast: u32::from(n[0]),
        parsave: u32::from(n[1]),
        panbasic: u32::from(n[2]),
        increase: u32::from(n[3]),
    };
    say_power_calls(record);
}

// What the calls of a case answer. Its first byte says which kind it is, a letter of the table's own; n are the words after the first, as numbers.
fn say_answers(case: &[u8]) {
    let Some(kind) = case.first() else {
        return;
    };
    let n = channels_at(case, 1);
    match *kind {
        b'f' => say_float(num_at(case, 1)),
        b'h' => say_hundredths(int_at(case, 1)),
        b'm' => say(of_burst(Burst::Missed)),
        b's' => say_sweep_calls(swept(n, int_at(case, 2))),
        b'o' => say_outcomes_case(n),
        b'b' => say_beam_case(channel_at(case, 1), channels_at(case, 2)),
        b'w' => say_watch_calls(watched(watch_of(word(case, 1)), n, int_at(case, 8))),
        b'p' => say_power_case(n),
        _ => {}
    }
}

// A line of the table, and on the same line the answers of its case.
fn say_case(line: &[u8]) {
    write(line);
    let case = line.split(|b| *b == COMMENT).next();
    say_answers(case.unwrap_or(line));
    write(&[NEWLINE]);
}

// The table lies in a fixed buffer: a `Vec` would have the proof assume the C functions for memory too.
fn main() {
    let mut table = io::large_buffer();
    let n = io::read_full(STDIN_FILENO, &mut table);
    for line in table[..n].split_inclusive(|b| *b == NEWLINE) {
        say_case(line.strip_suffix(&[NEWLINE]).unwrap_or(line));
    }
}
