// The calls of the band sweep: filing, the next channel, the counts and the test of a record. Document 01, section The band sweep.
#![tactic(auto)]

ghost use Rattle.std.specs.Prelude.{◌≡◌, true, ◌<◌, length};
ghost use Rattle.refusal.specs.Told.{told, acceptance};
ghost use Rattle.sweep_rules.specs.Map.{channels, word_bits, is_set, with_bit, set_bits};
ghost use Rattle.sweep_rules.specs.Record.{first_swept, swept_channels, swept, fresh_sweep, well_formed};
ghost use Rattle.sweep_rules.specs.Filing.{with_missed, with_heard, filing, leaves, checking};
ghost use Rattle.sweep_rules.specs.Next.{lowest_not, next_told};
ghost use Rattle.sweep_rules.specs.Counts.{counts_told};
ghost use Rattle.sweep_rules.specs.Told.{next_of_answer, told_next, told_numbers};
ghost use Rattle.sweep_rules.specs.Code.{half_bits, levels_fine, word_fine, ends_clear};

use readings::Burst;
use readings_rules::{LEVEL_HIGHEST, LEVEL_LOWEST};
use refusal::{Handed, Refusal};
pub use sweep_rules::{CHANNELS, FIRST_SWEPT, LAST_SWEPT, Numbers, Sweep, WORDS};

// The bits of a word of a map.
const WORD_BITS: usize = u64::BITS as usize;

// Half a word: its bits, and the weight of the upper half.
const HALF_BITS: usize = WORD_BITS / 2;

const HALF_WORD: u64 = 1 << HALF_BITS;

// A fresh record: all zero.
pub fn fresh() -> Sweep
    ensures { result ≡ fresh_sweep }
{
    Sweep {
        levels: [0; CHANNELS],
        visited: [0; WORDS],
        heard: [0; WORDS],
    }
}

// Whether the sweep visits a channel.
fn is_swept(c: usize) -> bool
    ensures { result ≡ swept c }
{
    (FIRST_SWEPT..=LAST_SWEPT).contains(&c)
}

// Whether the bit of a channel is set; beyond the map none is.
pub fn is_set(map: &[u64], c: usize) -> bool
    ensures { result ≡ is_set map.now c }
{
    let word = map.get(c / WORD_BITS).copied().unwrap_or(0);
    (word >> (c % WORD_BITS)) % 2 == 1
}

// Sets the bit of a channel. That it is one is asked of one argument here and below: a type for it would be built and taken apart at each call.
fn set_bit(map: &mut [u64; WORDS], c: usize)
    requires { c < channels }
    ensures { map.new ≡ with_bit map.old c }
{
    map[c / WORD_BITS] |= 1 << (c % WORD_BITS);
}

// Whether the levels of half a word are in range, and 0 where the half word of the heard map has no bit.
// All 32 are gathered before it leaves, and bits are as wide as levels, so that the compiled loop takes several at a time.
fn half_fine(levels: &[i32], heard: u32) -> bool
    requires { length levels.now ≡ half_bits }
    ensures { result ≡ levels_fine levels.now 0 heard half_bits }
{
    let mut fine = true;
    for (k, level) in levels.iter().enumerate() {
        fine &= (LEVEL_LOWEST..=LEVEL_HIGHEST).contains(level)
            & ((*level == 0) | ((heard >> k) % 2 == 1));
    }
    fine
}

// The same of the levels of a word where no bit is set: all are 0. A test of its own, as it takes a sixth of the time.
fn all_zero(levels: &[i32]) -> bool
    ensures { result ≡ levels_fine levels.now 0 0 (length levels.now) }
{
    let mut zero = true;
    for level in levels {
        zero &= *level == 0;
    }
    zero
}

// Whether a word of the maps, with its 64 levels, stands as it may: heard only where visited, and the levels as above.
fn word_fine(levels: &[i32], visited: u64, heard: u64) -> bool
    requires { length levels.now ≡ word_bits }
    ensures { result ≡ word_fine levels.now 0 visited heard }
{
    if heard == 0 {
        return all_zero(levels);
    }
    let (lower, upper) = levels.split_at(HALF_BITS);
    ((heard & visited) == heard)
        & (half_fine(lower, (heard % HALF_WORD) as u32)
            & half_fine(upper, (heard / HALF_WORD) as u32))
}

// Whether no channel outside 2 to 1,086 is marked in a map.
fn ends_clear(map: &[u64; WORDS]) -> bool
    ensures { result ≡ ends_clear map.now }
{
    let low = map[0];
    let high = map[LAST_SWEPT / WORD_BITS];
    (low % (1u64 << FIRST_SWEPT) == 0) & ((high >> (LAST_SWEPT % WORD_BITS + 1)) % 2 == 0)
}

// Whether a record is well formed. It goes through the levels and the maps once, a word of 64 channels at a time. By itself in what is compiled, so
// that a call tests the record where it was given.
#[inline(never)]
fn well_formed(sweep: &Sweep) -> bool
    ensures { result ≡ well_formed sweep.now }
{
    if !ends_clear(&sweep.visited) {
        return false;
    }
    let words = sweep.visited.iter().zip(&sweep.heard);
    for (levels, (visited, heard)) in sweep.levels.chunks_exact(WORD_BITS).zip(words) {
        if !word_fine(levels, *visited, *heard) {
            return false;
        }
    }
    true
}

// The ones of a map.
fn ones(map: &[u64; WORDS]) -> u32
    ensures { result ≡ set_bits map.now }
{
    map.iter().map(|word| word.count_ones()).sum()
}

// The lowest channel of the sweep whose bit is clear. The set bits of a word, from its first swept channel on, are passed at once; the
// bits above the word, which the shift brings in, are clear.
fn lowest_clear(map: &[u64; WORDS]) -> Option<u16>
    ensures { next_of_answer result ≡ lowest_not (is_set map.now) swept_channels first_swept }
{
    for (i, word) in map.iter().enumerate() {
        let first = FIRST_SWEPT.max(i * WORD_BITS);
        let end = (LAST_SWEPT + 1).min((i + 1) * WORD_BITS);
        let c = first + (!(*word >> (first % WORD_BITS))).trailing_zeros() as usize;
        if c < end {
            return Some(c as u16);
        }
    }
    None
}

// Marks a channel as visited and missed: its level stays 0.
fn mark_missed(sweep: &mut Sweep, c: usize)
    requires { c < channels }
    ensures { sweep.new ≡ with_missed sweep.old c }
{
    set_bit(&mut sweep.visited, c);
}

// Marks a channel as visited and heard at a level.
fn mark_heard(sweep: &mut Sweep, c: usize, level: i32)
    requires { c < channels }
    ensures { sweep.new ≡ with_heard sweep.old c level }
{
    set_bit(&mut sweep.visited, c);
    set_bit(&mut sweep.heard, c);
    sweep.levels[c] = level;
}

// The test of a record: refusal 9 where it is not well formed.
fn tested(sweep: &Sweep) -> Result<(), Refusal>
    ensures { told result ≡ checking sweep.now }
{
    if well_formed(sweep) {
        Ok(())
    } else {
        Err(Refusal::RecordNotWellFormed)
    }
}

// Files a burst's result in the record; refused, the record stays as it was.
fn filed(sweep: &mut Sweep, channel: u16, burst: Burst) -> Result<(), Refusal>
    ensures sweep { sweep.new ≡ leaves sweep.old (filing sweep.old channel burst) }
    ensures answer { told result ≡ acceptance (filing sweep.old channel burst) }
{
    tested(sweep)?;
    let c = channel as usize;
    if !is_swept(c) {
        return Err(Refusal::ChannelOutOfRange);
    }
    if is_set(&sweep.visited, c) {
        return Err(Refusal::ChannelVisited);
    }
    match readings::burst_to_hundredths(burst)? {
        Burst::Heard(reading) => mark_heard(sweep, c, reading.level),
        Burst::Missed => mark_missed(sweep, c),
    }
    Ok(())
}

// The public test of a record: accepted, or refusal 9.
pub fn check(sweep: Sweep) -> Handed<Sweep, ()>
    ensures sweep { result.state ≡ sweep }
    ensures answer { told result.answer ≡ checking sweep }
{
    let answer = tested(&sweep);
    Handed {
        state: sweep,
        answer,
    }
}

// Files a burst's result for a channel not yet visited. Refusals 9, 2, 3, 1, in this order; both floats of a heard burst are tested.
pub fn file(mut sweep: Sweep, channel: u16, burst: Burst) -> Handed<Sweep, ()>
    ensures sweep { result.state ≡ leaves sweep (filing sweep channel burst) }
    ensures answer { told result.answer ≡ acceptance (filing sweep channel burst) }
{
    let answer = filed(&mut sweep, channel, burst);
    Handed {
        state: sweep,
        answer,
    }
}

// The lowest channel not visited, or done, of a lent record. Refusal 9 alone.
pub fn next_channel(sweep: &Sweep) -> Result<Option<u16>, Refusal>
    ensures { told_next result ≡ next_told sweep.now }
{
    tested(sweep).map(|()| lowest_clear(&sweep.visited))
}

// The same of a record that goes by value and comes back.
pub fn next(sweep: Sweep) -> Handed<Sweep, Option<u16>>
    ensures sweep { result.state ≡ sweep }
    ensures answer { told_next result.answer ≡ next_told sweep }
{
    let answer = next_channel(&sweep);
    Handed {
        state: sweep,
        answer,
    }
}

// The numbers visited and heard: the set bits of each map. Refusal 9 alone.
pub fn counts(sweep: Sweep) -> Handed<Sweep, Numbers>
    ensures sweep { result.state ≡ sweep }
    ensures answer { told_numbers result.answer ≡ counts_told sweep }
{
    let answer = tested(&sweep).map(|()| Numbers {
        visited: ones(&sweep.visited),
        heard: ones(&sweep.heard),
    });
    Handed {
        state: sweep,
        answer,
    }
}
