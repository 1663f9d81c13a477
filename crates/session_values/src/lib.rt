// The numbers of a line of a session file, and the burst of two of them: its words read as numbers, by their places from 0 on.
#![tactic(auto)]

ghost use Rattle.std.specs.Prelude.{◌≡◌};
ghost use Rattle.session_words.specs.Words.{words_of};
ghost use Rattle.session_values.specs.Values.{CH, BYTE, INT, NUM, heard, listed, channels_of};

use arrayvec::ArrayVec;
use readings_rules::{Burst, Reading};
use session_numbers::{BYTE_HIGHEST, CH_HIGHEST, int, natural, num};
use session_words::{SPACE, word};
use std::array;

// The most channels of a list: CH.. stands for so many at most.
pub const LISTED: usize = 8;

// The word at a place as a CH, a BYTE, an INT or a NUM; where it is none, 0.
pub fn channel_at(line: &[u8], k: usize) -> u16
    ensures { result ≡ CH (words_of line.now) k }
{
    natural(word(line, k), CH_HIGHEST).unwrap_or(0) as u16
}

pub fn byte_at(line: &[u8], k: usize) -> u8
    ensures { result ≡ BYTE (words_of line.now) k }
{
    natural(word(line, k), BYTE_HIGHEST).unwrap_or(0) as u8
}

pub fn int_at(line: &[u8], k: usize) -> i32
    ensures { result ≡ INT (words_of line.now) k }
{
    int(word(line, k)).unwrap_or(0)
}

pub fn num_at(line: &[u8], k: usize) -> f32
    ensures { result ≡ NUM (words_of line.now) k }
{
    num(word(line, k)).unwrap_or(0.0)
}

// A burst that was heard: the level at a place of the line, and the quality after it. A place of 32 bits always has one after it.
pub fn heard_at(line: &[u8], place: u32) -> Burst
    ensures { result ≡ heard (words_of line.now) place }
{
    let k = place as usize;
    Burst::Heard(Reading {
        level: num_at(line, k),
        quality: num_at(line, k + 1),
    })
}

// The 8 words from a place on, as the channels of a list; one that is missing is 0, for tables whose words are taken by number.
// A place of 32 bits always has others after it. An array, for who takes them by number.
pub fn channels_at(line: &[u8], place: u32) -> [u16; LISTED]
    ensures { result ≡ listed (words_of line.now) place }
{
    let k = place as usize;
    array::from_fn(|i| channel_at(line, k + i))
}

// Those of them that the line has.
pub fn list_at(line: &[u8], place: usize) -> ArrayVec<u16, LISTED>
    ensures { result.items ≡ channels_of (words_of line.now) place }
{
    let mut channels = ArrayVec::new();
    for word in line.split(|b| *b == SPACE).skip(place).take(LISTED) {
        channels.push(natural(word, CH_HIGHEST).unwrap_or(0) as u16);
    }
    channels
}
