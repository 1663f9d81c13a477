// The calls of the neighbour watch: file, ask and verdict here, the others passed on. Document 01, section The watch. Each takes the watch
// by value and hands it back beside its answer; refused, it hands back the very watch that it was given.
#![tactic(auto)]

ghost use Rattle.std.specs.Prelude.{◌≡◌, true, ◌≤◌, ◌^◌, pos, neg_ℤ, ◌≤ℤ◌, length, fold, None};
ghost use Rattle.watch_rules.specs.Lists.{sum};
ghost use Rattle.watch_rules.specs.Limits.{depth_in_range, capacity};
ghost use Rattle.watch_rules.specs.Told.{Call, given_of, told_answer, told_handed};
ghost use Rattle.watch_rules.specs.Rules.{mean, stay_or_move};
ghost use Rattle.watch_rules.specs.Rows.{push};
ghost use Rattle.watch_rules.specs.Record.{track_of, row_of, track_fine, called};
ghost use Rattle.watch_record.specs.Code.{back};
ghost use Rattle.watch.specs.Code.{better_of, consider, chosen};

use readings_rules::Burst;
use refusal::{Handed, Refusal};
pub use watch_channels::{new_beam, start};
use watch_record::Sound;
pub use watch_record::{check, fresh};
use watch_rules::{Answer, HYSTERESIS_HIGHEST, Track, Watch};

// One more level for a track, the newest; beyond the depth the oldest goes.
fn push(track: &mut Track, depth: usize, level: i16)
    requires fine { track_fine depth track.old ≡ true }
    requires deep { depth_in_range depth ≡ true }
    ensures { track.new ≡ track_of (push depth level (row_of track.old)) }
{
    if track.count < depth {
        track.levels[track.count] = level;
        track.count += 1;
    } else {
        track.levels[..depth].rotate_left(1);
        track.levels[depth - 1] = level;
    }
}

// File: a heard level is added as the newest. A missed burst is accepted and changes nothing.
pub fn file(mut w: Watch, channel: u16, burst: Burst) -> Handed<Watch, Answer>
    ensures { told_handed result ≡ called w (Call.file channel burst) }
{
    let answer = filed(&mut w, channel, burst);
    Handed { state: w, answer }
}

fn filed(w: &mut Watch, channel: u16, burst: Burst) -> Result<Answer, Refusal>
    ensures { back w.new (told_answer result) ≡ called w.old (Call.file channel burst) }
{
    let sound = Sound::of(w)?;
    let place = sound.place(channel).ok_or(Refusal::NotWatched)?;
    let Burst::Heard(reading) = readings::burst_to_hundredths(burst)? else {
        return Ok(Answer::Accepted);
    };
    let depth = w.depth;
    push(&mut w.tracks[place], depth, reading.level as i16);
    Ok(Answer::Accepted)
}

// A track's levels, oldest first. That they are few is said here and asked twice below: a slice has no type that says it.
fn levels_of(track: &Track) -> &[i16]
    ensures kept { result.now ≡ (row_of track.now).levels }
    ensures few { length result.now ≤ capacity }
{
    track.levels.get(..track.count).unwrap_or(&track.levels)
}

// The sum of levels.
fn total(levels: &[i16]) -> i32
    requires { length levels.now ≤ capacity }
    ensures value { result ≡ sum levels.now }
    ensures low { neg_ℤ (pos (2 ^ 20)) ≤ℤ result }
    ensures high { result ≤ℤ pos (2 ^ 20) }
{
    let mut sum = 0;
    for level in levels {
        sum += i32::from(*level);
    }
    sum
}

// The mean of levels, rounded down; 0 of none.
fn mean(levels: &[i16]) -> i32
    requires { length levels.now ≤ capacity }
    ensures { result ≡ mean levels.now }
{
    if levels.is_empty() {
        return 0;
    }
    total(levels).div_euclid(levels.len() as i32)
}

// Ask: count and mean.
pub fn ask(w: Watch, channel: u16) -> Handed<Watch, Answer>
    ensures { told_handed result ≡ called w (Call.ask channel) }
{
    let answer = asked(&w, channel);
    Handed { state: w, answer }
}

fn asked(w: &Watch, channel: u16) -> Result<Answer, Refusal>
    ensures { back w.now (told_answer result) ≡ called w.now (Call.ask channel) }
{
    let sound = Sound::of(w)?;
    let place = sound.place(channel).ok_or(Refusal::NotWatched)?;
    let levels = levels_of(&sound.tracks()[place]);
    Ok(Answer::Levels {
        count: levels.len() as u32,
        mean: mean(levels),
    })
}

// A neighbour that counts, with the sum of its levels.
#[derive(Clone, Copy)]
struct Pick {
    channel: u16,
    sum: i32,
}

impl Pick {
    // The better of two: the greater sum, and the lower channel among equals. No derived order: the one counts upwards, the other downwards.
    fn better(self, other: Pick) -> Pick
        ensures { result ≡ better_of self other }
    {
        let ahead = (other.sum < self.sum)
            | ((other.sum <= self.sum) & (self.channel <= other.channel));
        if ahead { self } else { other }
    }
}

// What makes a neighbour count: as many levels as the depth, and a greater sum than this.
#[derive(Drop)]
struct Bar {
    depth: usize,
    sum: i32,
}

impl Bar {
    // The best so far with one neighbour more.
    fn consider(&self, best: Option<Pick>, track: &Track) -> Option<Pick>
        ensures { result ≡ consider self.now.depth self.now.sum best (row_of track.now) }
    {
        let levels = levels_of(track);
        let sum = total(levels);
        if (levels.len() < self.depth) | (sum <= self.sum) {
            return best;
        }
        let pick = Pick {
            channel: track.channel,
            sum,
        };
        match best {
            Some(first) => Some(first.better(pick)),
            None => Some(pick),
        }
    }

    // The best of the neighbours of a list.
    fn best(&self, list: &[Track]) -> Option<Pick>
        ensures { result ≡ fold (λ best track. consider self.now.depth self.now.sum best (row_of track)) None list.now }
    {
        list.iter()
            .fold(None, |best, track| self.consider(best, track))
    }
}

// Verdict: wait, stay or move to a neighbour.
pub fn verdict(w: Watch, hysteresis: i32) -> Handed<Watch, Answer>
    ensures { told_handed result ≡ called w (Call.verdict hysteresis) }
{
    let answer = judged(&w, hysteresis);
    Handed { state: w, answer }
}

// Wait while the serving channel has fewer levels than the depth; else move to the best neighbour that counts, or stay.
fn judged(w: &Watch, hysteresis: i32) -> Result<Answer, Refusal>
    ensures { back w.now (told_answer result) ≡ called w.now (Call.verdict hysteresis) }
{
    let sound = Sound::of(w)?;
    if !(0..=HYSTERESIS_HIGHEST).contains(&hysteresis) {
        return Err(Refusal::ParameterOutOfRange);
    }
    let (serving, list) = sound.tracks().split_first().ok_or(Refusal::NotWatched)?;
    let levels = levels_of(serving);
    if levels.len() < w.depth {
        return Ok(Answer::Wait);
    }
    let bar = Bar {
        depth: w.depth,
        sum: total(levels) + w.depth as i32 * hysteresis,
    };
    Ok(move_or_stay(bar.best(list)))
}

fn move_or_stay(best: Option<Pick>) -> Answer
    ensures { given_of result ≡ stay_or_move (chosen best) }
{
    match best {
        Some(pick) => Answer::MoveTo(pick.channel),
        None => Answer::Stay,
    }
}
