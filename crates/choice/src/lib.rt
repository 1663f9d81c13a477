// The choice of a beam over a finished sweep. Document 01, section The choice.
#![tactic(auto)]

ghost use Rattle.std.specs.Prelude.{◌≡◌, true, ◌<◌};
ghost use Rattle.readings_rules.specs.Ranges.{level_in_range};
ghost use Rattle.sweep_rules.specs.Map.{channels};
ghost use Rattle.sweep_rules.specs.Record.{heard, level_at, well_formed};
ghost use Rattle.choice_rules.specs.Order.{channels_that};
ghost use Rattle.choice_rules.specs.Choose.{margin_in_range, outcomes_fine, choosing};
ghost use Rattle.choice_rules.specs.Told.{chosen_of, told_choice};
ghost use Rattle.choice_rules.specs.Code.{key_of, keys_of, passed, lesser_of, Walkable, walked};

use arrayvec::ArrayVec;
pub use choice_rules::Choice;
use readings_rules::LEVEL_HIGHEST;
use refusal::{Handed, Refusal};
use sweep::{CHANNELS, Sweep};

// The margin (SB_SELECTION_POWER), in hundredths.
const MARGIN_LOWEST: i32 = 0;

const MARGIN_HIGHEST: i32 = 6000;

// The outcome bytes that the choice takes, and the highest. They are bytes, as the C interface lends a string of them.
const NOT_READ: u8 = 0;

const SUITABLE: u8 = 1;

const HIGHEST_OUTCOME: u8 = 5;

// The search order by one number for each channel, its key: how far the level lies below the top of its range, times KEY_STEP, and the
// channel. A lesser key comes first. No key is as great as PASSED, which the scan adds to those that it has passed. One number, so that the
// compiled scan takes several at a time: a struct with a derived order was tried, and a long walk took 17 times as long.
const KEY_STEP: u32 = 2048;

const PASSED: u32 = 0x4000_0000;

// Whether a string has 1,088 bytes, none above the highest outcome. All are gathered before it leaves, so that the compiled loop takes
// several at a time.
fn outcomes_fine(outcomes: &[u8]) -> bool
    ensures { result ≡ outcomes_fine outcomes.now }
{
    if outcomes.len() != CHANNELS {
        return false;
    }
    let mut fine = true;
    for outcome in outcomes {
        fine &= *outcome <= HIGHEST_OUTCOME;
    }
    fine
}

// Whether a margin is in range.
fn margin_in_range(margin: i32) -> bool
    ensures { result ≡ margin_in_range margin }
{
    (MARGIN_LOWEST..=MARGIN_HIGHEST).contains(&margin)
}

// The key of a channel.
fn key(level: i32, c: usize) -> u32
    requires { (level_in_range level ≡ true) × (c < channels) }
    ensures { result ≡ key_of level c }
{
    let depth = (LEVEL_HIGHEST - level) as u32;
    depth * KEY_STEP + (c as u32)
}

// The keys of the heard channels, by rising channel.
fn heard_keys(sweep: &Sweep) -> ArrayVec<u32, CHANNELS>
    requires { well_formed sweep.now ≡ true }
    ensures { result.items ≡ keys_of (level_at sweep.now) (channels_that (heard sweep.now)) }
{
    let mut keys = ArrayVec::new();
    for (c, level) in sweep.levels.iter().enumerate() {
        if sweep::is_set(&sweep.heard, c) {
            keys.push(key(*level, c));
        }
    }
    keys
}

// The lesser of `next` and a key; one below `from`, which was passed, counts as greater than all others.
fn lesser(from: u32, key: u32, next: u32) -> u32
    requires { key < passed }
    ensures { result ≡ lesser_of from key next }
{
    let key = if key < from { key + PASSED } else { key };
    key.min(next)
}

// Goes through the search order, each next channel found by a scan for the least key that is not below `from`, and takes the first near
// one with outcome 0 or 1. Document 01 names this form: a loop over the order that yields its answer by break, a nested scan left by a label.
fn walk(keys: &[u32], margin: u32, outcomes: &[u8]) -> Choice
    requires { Walkable keys.now margin outcomes.now }
    ensures { chosen_of result ≡ walked keys.now margin outcomes.now }
{
    let mut from = 0;
    let mut strongest = 0;
    let mut tried = 0;
    'order: loop {
        let mut next = PASSED;
        let mut left = keys.iter();
        'scan: loop {
            let Some(key) = left.next() else {
                if PASSED <= next {
                    break 'order Choice::NoBeam { tried };
                }
                break 'scan;
            };
            next = lesser(from, *key, next);
        }
        if tried == 0 {
            strongest = next / KEY_STEP;
        }
        if strongest + margin < next / KEY_STEP {
            break 'order Choice::NoBeam { tried };
        }
        tried += 1;
        let c = next % KEY_STEP;
        let channel = c as u16;
        match outcomes[c as usize] {
            NOT_READ => break 'order Choice::Read { channel, tried },
            SUITABLE => break 'order Choice::Camp { channel, tried },
            _ => from = next + 1,
        }
    }
}

// The choice over a lent sweep.
fn chosen(sweep: &Sweep, margin: i32, outcomes: &[u8]) -> Result<Choice, Refusal>
    ensures { told_choice result ≡ choosing sweep.now margin outcomes.now }
{
    let next = sweep::next_channel(sweep)?;
    if !outcomes_fine(outcomes) {
        return Err(Refusal::OutcomesFaulty);
    }
    if !margin_in_range(margin) {
        return Err(Refusal::ParameterOutOfRange);
    }
    if next.is_some() {
        return Err(Refusal::SweepUnfinished);
    }
    let keys = heard_keys(sweep);
    Ok(walk(&keys, margin as u32, outcomes))
}

// The choice over a finished sweep, at a margin in hundredths, with a lent string of 1,088 outcome bytes. Refusals 9, 8, 7, 4 in this
// order.
pub fn choose(sweep: Sweep, margin: i32, outcomes: &[u8]) -> Handed<Sweep, Choice>
    ensures sweep { result.state ≡ sweep }
    ensures answer { told_choice result.answer ≡ choosing sweep margin outcomes.now }
{
    let answer = chosen(&sweep, margin, outcomes);
    Handed {
        state: sweep,
        answer,
    }
}
