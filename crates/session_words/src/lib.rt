// The words of a line of a session file: what stands between its spaces. Bytes copied into a buffer, as far as there is room.
#![tactic(auto)]

ghost use Rattle.std.specs.Prelude.{◌≡◌, ◌+◌, ◌≤◌, [], ◌∷◌, ◌++◌, length, take};
ghost use Rattle.std.proofs.Math.Seq.{paste};
ghost use Rattle.session_words.specs.Bytes.{alike, fitting};
ghost use Rattle.session_words.specs.Words.{words_of, word_at};
ghost use Rattle.session_words.specs.Held.{held};

// The bytes between two words, and after a line.
pub const SPACE: u8 = b' ';

pub const NEWLINE: u8 = b'\n';

// Copies a slice into another from a place on, as far as there is room, and answers the place after it.
pub fn copy_to(dst: &mut [u8], at: usize, src: &[u8]) -> usize
    ensures place { result ≡ at + fitting src.now dst.old at }
    ensures bytes { dst.new ≡ paste dst.old at src.now (fitting src.now dst.old at) }
{
    if dst.len() < at {
        return at;
    }
    let n = src.len().min(dst.len() - at);
    dst[at..at + n].copy_from_slice(&src[..n]);
    at + n
}

// Bytes in a buffer of a fixed size, the first `length` of it. No `ArrayVec`: that is not `Copy`, and a session that holds such bytes is.
#[derive(Clone, Copy)]
pub struct Held<const N: usize> {
    pub bytes: [u8; N],
    pub length: usize,
}

impl<const N: usize> Held<N> {
    // No bytes.
    pub fn new() -> Self
        ensures { held result ≡ [] }
    {
        Held {
            bytes: [0; N],
            length: 0,
        }
    }

    // The bytes.
    pub fn as_slice(&self) -> &[u8]
        ensures bytes { result.now ≡ held self.now }
        ensures fits { length result.now ≤ N }
    {
        &self.bytes[..self.length.min(N)]
    }

    // Adds bytes, as far as there is room.
    pub fn push(&mut self, more: &[u8])
        ensures { held self.new ≡ take N (held self.old ++ more.now) }
    {
        self.length = copy_to(&mut self.bytes, self.length.min(N), more);
    }

    // Adds a byte, if there is room: one store, where `push` would call for the copy of a slice.
    pub fn push_byte(&mut self, byte: u8)
        ensures { held self.new ≡ take N (held self.old ++ byte ∷ []) }
    {
        if self.length < N {
            self.bytes[self.length] = byte;
            self.length += 1;
        }
    }
}

// Whether two words are the same bytes: a name for `==`, whose promise is the word of which the definitions speak.
pub fn same(a: &[u8], b: &[u8]) -> bool
    ensures { result ≡ alike a.now b.now }
{
    a == b
}

// The number of words of a line.
pub fn count(line: &[u8]) -> usize
    ensures { result ≡ length (words_of line.now) }
{
    line.split(|b| *b == SPACE).count()
}

// The word of a line at a place, counted from 0; beyond the last, the empty word.
pub fn word(line: &[u8], k: usize) -> &[u8]
    ensures { result.now ≡ word_at (words_of line.now) k }
{
    line.split(|b| *b == SPACE).nth(k).unwrap_or(&[])
}
