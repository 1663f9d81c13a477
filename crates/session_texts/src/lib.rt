// An answer as text: words, whole numbers and a float's bits, one after the other.
#![tactic(auto)]

ghost use Rattle.std.specs.Prelude.{◌≡◌, [], ◌∷◌, ◌++◌, ◌+◌, ◌≤◌, length, take};
ghost use Rattle.std.proofs.Math.Seq.{paste};
ghost use Rattle.std.specs.Float.{binary32};
ghost use Rattle.std.specs.Float.Ieee.{to_bits};
ghost use Rattle.session_words.specs.Bytes.{fitting};
ghost use Rattle.session_texts.specs.Text.{room, said, decimal_text, signed_text, bits_text};

use session_words::{Held, copy_to};

// No answer is longer, with its newline.
pub const ROOM: usize = 64;

const NAN_BITS: u32 = 0x7fc0_0000;

// The bytes of an answer.
#[derive(Clone, Copy)]
pub struct Text {
    pub bytes: Held<ROOM>,
}

impl Text {
    // A text of no bytes.
    pub fn new() -> Text
        ensures { said result ≡ [] }
    {
        Text { bytes: Held::new() }
    }

    // What it says.
    pub fn as_bytes(&self) -> &[u8]
        ensures says { result.now ≡ said self.now }
        ensures fits { length result.now ≤ room }
    {
        self.bytes.as_slice()
    }

    // Adds a byte, if there is room.
    pub fn push_byte(&mut self, byte: u8)
        ensures { said self.new ≡ take room (said self.old ++ byte ∷ []) }
    {
        self.bytes.push_byte(byte);
    }

    // Adds bytes, as far as there is room.
    pub fn push(&mut self, more: &[u8])
        ensures { said self.new ≡ take room (said self.old ++ more.now) }
    {
        self.bytes.push(more);
    }

    // Adds a number in decimal. The library that writes digits fills a buffer and answers their number.
    pub fn push_decimal(&mut self, n: u64)
        ensures { said self.new ≡ take room (said self.old ++ decimal_text n) }
    {
        let mut digits = [0u8; 20];
        let k = io::decimal(n, &mut digits);
        self.push(&digits[..k]);
    }

    // The same with a minus sign before it, where it is below 0.
    pub fn push_signed(&mut self, n: i32)
        ensures { said self.new ≡ take room (said self.old ++ signed_text n) }
    {
        let below = n < 0;
        if below {
            self.push_byte(b'-');
        }
        self.push_decimal(u64::from(n.unsigned_abs()));
    }

    // Adds a float's bits, as 8 hex digits.
    pub fn push_bits(&mut self, x: f32)
        ensures { said self.new ≡ take room (said self.old ++ bits_text x) }
    {
        let mut digits = [0u8; 16];
        let bits = bits_of(x);
        let k = io::hex(u64::from(bits), 8, &mut digits);
        self.push(&digits[..k]);
    }

    // Puts the text into a buffer at a place, as far as there is room, and answers the place after it.
    pub fn put(&self, out: &mut [u8], at: usize) -> usize
        ensures place { result ≡ at + fitting (said self.now) out.old at }
        ensures bytes { out.new ≡ paste out.old at (said self.now) (fitting (said self.now) out.old at) }
        ensures fits { length (said self.now) ≤ room }
    {
        copy_to(out, at, self.as_bytes())
    }
}

// A float's bits. A NaN has many patterns, and the library leaves open which it gives: it counts as this one.
fn bits_of(x: f32) -> u32
    ensures { result ≡ to_bits binary32 x }
{
    if x.is_nan() { NAN_BITS } else { x.to_bits() }
}
