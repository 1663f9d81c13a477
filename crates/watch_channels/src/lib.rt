// The calls that say which channels are under watch: start and new beam. Document 01, section The watch, and request E10 of document 02. Each
// takes the watch by value and hands it back beside its answer; refused, it hands back the very watch that it was given. Users name them as
// `watch::start` and `watch::new_beam`.
#![tactic(auto)]

ghost use Rattle.std.specs.Prelude.{◌≡◌, [], ◌∷◌, ◌≤◌, length, OnOk, IfErr};
ghost use Rattle.refusal.specs.Told.{accepted, told, gives, refused_for};
ghost use Rattle.watch_rules.specs.Limits.{list_limit};
ghost use Rattle.watch_rules.specs.Told.{Call, told_answer, told_handed, accepted as taken};
ghost use Rattle.watch_rules.specs.Rules.{unless_faulty_from, unless_faulty};
ghost use Rattle.watch_rules.specs.Rows.{row, levels_of, relisted};
ghost use Rattle.watch_rules.specs.Record.{record_of, rows, track_of, called};
ghost use Rattle.watch_record.specs.Code.{back};

use readings_rules::CHANNEL_HIGHEST;
use refusal::{Handed, Refusal};
use watch_record::{Sound, depth_in_range, empty, fresh, well_formed};
use watch_rules::{Answer, LIST_LIMIT, Track, Watch};

// Start: that channel alone, without levels, at this depth. The watch is not written over, which would take the stack of one watch more.
pub fn start(w: Watch, serving: u16, depth: usize) -> Handed<Watch, Answer>
    ensures { told_handed result ≡ called w (Call.start serving depth) }
{
    match startable(&w, serving, depth) {
        Ok(()) => Handed {
            state: alone(serving, depth),
            answer: Ok(Answer::Accepted),
        },
        Err(why) => Handed {
            state: w,
            answer: Err(why),
        },
    }
}

// The tests of a start. No `Sound` is made, as a reference that is kept would have the watch copied.
fn startable(w: &Watch, serving: u16, depth: usize) -> Result<(), Refusal>
    ensures accepted { OnOk result (called w.now (Call.start serving depth) ≡ back (record_of depth (row serving [] ∷ [])) (gives taken)) }
    ensures refused { IfErr result (λ why. called w.now (Call.start serving depth) ≡ back w.now (refused_for why)) }
{
    if !well_formed(w) {
        return Err(Refusal::RecordNotWellFormed);
    }
    if !depth_in_range(depth) {
        return Err(Refusal::ParameterOutOfRange);
    }
    if serving > CHANNEL_HIGHEST {
        return Err(Refusal::ChannelOutOfRange);
    }
    Ok(())
}

// A watch of a serving channel alone, without levels.
fn alone(serving: u16, depth: usize) -> Watch
    ensures { result ≡ record_of depth (row serving [] ∷ []) }
{
    let mut w = fresh();
    w.tracks[0] = empty(serving);
    w.watched = 1;
    w.depth = depth;
    w
}

// The fault of the first faulty place of a list that is not too long: range, serving channel, repeat of an earlier place.
fn first_fault(list: &[u16], serving: u16) -> Result<(), Refusal>
    requires { length list.now ≤ list_limit }
    ensures { told result ≡ unless_faulty_from serving [] list.now accepted }
{
    for (i, channel) in list.iter().enumerate() {
        let place = i as u32;
        if *channel > CHANNEL_HIGHEST {
            return Err(Refusal::ListedOutOfRange(place));
        }
        if *channel == serving {
            return Err(Refusal::ListedServing(place));
        }
        if list[..i].contains(channel) {
            return Err(Refusal::ListedAgain(place));
        }
    }
    Ok(())
}

// The fault of the list of a serving channel, where it has one: over 6 channels comes first.
fn list_fault(list: &[u16], serving: u16) -> Result<(), Refusal>
    ensures { told result ≡ unless_faulty serving list.now accepted }
{
    if list.len() > LIST_LIMIT {
        return Err(Refusal::ListTooLong);
    }
    first_fault(list, serving)
}

// A channel with the levels that it had, in whichever role; without levels where it was not under watch.
fn kept(w: Sound, channel: u16) -> Track
    ensures { result ≡ track_of (row channel (levels_of channel (rows w.entry.watch.now))) }
{
    match w.place(channel) {
        Some(place) => w.tracks()[place],
        None => empty(channel),
    }
}

// The serving channel and the channels of the list, in this order, each with the levels that it had.
fn relist(w: Sound, serving: u16, list: &[u16]) -> Watch
    requires { length list.now ≤ list_limit }
    ensures { result ≡ record_of w.entry.watch.now.depth (relisted serving list.now (rows w.entry.watch.now)) }
{
    let mut beam = Watch {
        watched: list.len() + 1,
        depth: w.watch.depth,
        ..fresh()
    };
    beam.tracks[0] = kept(w, serving);
    for (i, channel) in list.iter().enumerate() {
        beam.tracks[i + 1] = kept(w, *channel);
    }
    beam
}

// New beam: a serving channel and its list; a channel watched before and after keeps its levels, in whichever role.
pub fn new_beam(mut w: Watch, serving: u16, list: &[u16]) -> Handed<Watch, Answer>
    ensures { told_handed result ≡ called w (Call.new_beam serving list.now) }
{
    let answer = renewed(&mut w, serving, list);
    Handed { state: w, answer }
}

fn renewed(w: &mut Watch, serving: u16, list: &[u16]) -> Result<Answer, Refusal>
    ensures { back w.new (told_answer result) ≡ called w.old (Call.new_beam serving list.now) }
{
    let sound = Sound::of(w)?;
    if serving > CHANNEL_HIGHEST {
        return Err(Refusal::ChannelOutOfRange);
    }
    list_fault(list, serving)?;
    if sound.watch.watched == 0 {
        return Err(Refusal::NotWatched);
    }
    *w = relist(sound, serving, list);
    Ok(Answer::Accepted)
}
