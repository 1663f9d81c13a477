// What is asked of the record of a watch: a fresh one, whether it is well formed, and a channel's place in it. Document 01, section The
// watch. The calls of the watch stand on this; users name `fresh` and `check` as `watch::fresh` and `watch::check`.
#![tactic(auto)]

ghost use Rattle.std.specs.Prelude.{◌≡◌, ◌==◌, cond, [], position, take, length, MatchResult, true, false};
ghost use Rattle.refusal.specs.Told.{told_as, provided, gives};
ghost use Rattle.watch_rules.specs.Lists.{distinct};
ghost use Rattle.watch_rules.specs.Limits.{depth_in_range, room};
ghost use Rattle.watch_rules.specs.Told.{told_answer, told_handed};
ghost use Rattle.watch_rules.specs.Rows.{row};
ghost use Rattle.watch_rules.specs.Record.{fresh as fresh_watch, track_of, levels_fine, track_fine, track_unused, tracks_fine, depth_fine, well_formed, tested};
ghost use Rattle.watch_record.specs.Code.{back, channels_of};

use readings_rules::{CHANNEL_HIGHEST, LEVEL_HIGHEST, LEVEL_LOWEST};
use refusal::{Handed, Refusal};
use watch_rules::{Answer, CAPACITY, DEPTH_HIGHEST, DEPTH_LOWEST, ROOM, Track, Watch};

// An idle watch.
pub fn fresh() -> Watch
    ensures { result ≡ fresh_watch }
{
    Watch {
        watched: 0,
        tracks: [empty(0); ROOM],
        depth: 0,
    }
}

// A channel without levels.
pub fn empty(channel: u16) -> Track
    ensures { result ≡ track_of (row channel []) }
{
    Track {
        channel,
        count: 0,
        levels: [0; CAPACITY],
    }
}

// A track's levels lie in the range as far as its count, and are 0 beyond it. None leaves early, and places are counted in 16 bits, so that
// the compiled loop takes several at a time.
fn levels_ok(t: &Track) -> bool
    ensures { result ≡ levels_fine t.now.count t.now.levels }
{
    if t.count > CAPACITY {
        return false;
    }
    let count = t.count as u16;
    let mut ok = true;
    for (level, place) in t.levels.iter().zip(0u16..) {
        ok &= (LEVEL_LOWEST..=LEVEL_HIGHEST).contains(&i32::from(*level))
            & ((place < count) | (*level == 0));
    }
    ok
}

// A track that is used is fine; one that is not is all zero.
fn track_ok(t: &Track, used: bool, depth: usize) -> bool
    ensures { result ≡ cond used (track_fine depth t.now) (track_unused depth t.now) }
{
    let zero = (t.channel == 0) & (t.count == 0);
    (used | zero) & (t.channel <= CHANNEL_HIGHEST) & (t.count <= depth) & levels_ok(t)
}

// The tracks that are watched are fine, and the others unused.
fn tracks_ok(w: &Watch) -> bool
    ensures long { length w.now.tracks ≡ room }
    ensures fine { result ≡ tracks_fine w.now.depth w.now.watched w.now.tracks }
{
    for (i, t) in w.tracks.iter().enumerate() {
        if !track_ok(t, i < w.watched, w.depth) {
            return false;
        }
    }
    w.watched <= ROOM
}

// The place of the first track that has the channel.
pub fn place(tracks: &[Track], channel: u16) -> Option<usize>
    ensures { result ≡ position (λ t. t.channel == channel) tracks.now }
{
    tracks.iter().position(|t| t.channel == channel)
}

// The channels of the tracks differ.
fn apart(tracks: &[Track]) -> bool
    ensures { result ≡ distinct (channels_of tracks.now) }
{
    for (i, t) in tracks.iter().enumerate() {
        if place(&tracks[..i], t.channel).is_some() {
            return false;
        }
    }
    true
}

// A depth lies in its range.
pub fn depth_in_range(depth: usize) -> bool
    ensures { result ≡ depth_in_range depth }
{
    (DEPTH_LOWEST..=DEPTH_HIGHEST).contains(&depth)
}

// A depth is in its range where tracks are in use, and 0 where none is.
fn depth_ok(watched: usize, depth: usize) -> bool
    ensures { result ≡ depth_fine watched depth }
{
    if watched == 0 {
        depth == 0
    } else {
        depth_in_range(depth)
    }
}

// The tracks in use, as many as are watched.
fn used(w: &Watch) -> &[Track]
    ensures { result.now ≡ take w.now.watched w.now.tracks }
{
    w.tracks.get(..w.watched).unwrap_or(&w.tracks)
}

pub fn well_formed(w: &Watch) -> bool
    ensures { result ≡ well_formed w.now }
{
    depth_ok(w.watched, w.depth) && tracks_ok(w) && apart(used(w))
}

// A watch that passed the test, for the calls to go on with.
#[derive(Clone, Copy)]
pub struct Sound<'a> {
    pub watch: &'a Watch,
    pub ghost formed: { well_formed watch.now ≡ true },
}

impl<'a> Sound<'a> {
    // The watch where it is well formed, or refusal 9.
    pub fn of(watch: &'a Watch) -> Result<Sound<'a>, Refusal>
        ensures cases { MatchResult result (λ s. (s.watch.now ≡ watch.now) × (well_formed watch.now ≡ true)) (λ why. (why ≡ Refusal.RecordNotWellFormed) × (well_formed watch.now ≡ false)) }
        ensures told { told_as (λ s. s.watch.now) result ≡ provided (well_formed watch.now) Refusal.RecordNotWellFormed (gives watch.now) }
    {
        if well_formed(watch) {
            Ok(Sound { watch })
        } else {
            Err(Refusal::RecordNotWellFormed)
        }
    }

    // The tracks in use: the serving channel's, and those of its list.
    pub fn tracks(&self) -> &'a [Track]
        ensures { result.now ≡ take self.now.watch.now.watched self.now.watch.now.tracks }
    {
        used(self.watch)
    }

    // The place of a channel's track, where it is under watch.
    pub fn place(&self, channel: u16) -> Option<usize>
        ensures { result ≡ position (λ t. t.channel == channel) (take self.now.watch.now.watched self.now.watch.now.tracks) }
    {
        place(self.tracks(), channel)
    }
}

// Whether a watch is well formed: accepted, or refusal 9.
pub fn check(w: Watch) -> Handed<Watch, Answer>
    ensures { told_handed result ≡ tested w }
{
    let answer = checked(&w);
    Handed { state: w, answer }
}

fn checked(w: &Watch) -> Result<Answer, Refusal>
    ensures { back w.now (told_answer result) ≡ tested w.now }
{
    // No `Sound` is made, as a reference that is kept would have the record copied.
    if well_formed(w) {
        Ok(Answer::Accepted)
    } else {
        Err(Refusal::RecordNotWellFormed)
    }
}
