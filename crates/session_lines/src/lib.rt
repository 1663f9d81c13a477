// The line that is being read: its bytes so far, as they come in blocks.
#![tactic(auto)]

ghost use Rattle.std.specs.Prelude.{◌≡◌, ◌≤◌, [], length};
ghost use Rattle.session_lines.specs.Lines.{longest, kept, kept_of, with_more};

use session_words::Held;

// The longest line that may be a call, without its newline.
pub const LONGEST: usize = 200;

// The first bytes of a line, as far as it was read. A greater length than the longest stands for any such: its first bytes alone are kept.
#[derive(Clone, Copy)]
pub struct Line {
    pub bytes: Held<LONGEST>,
}

impl Line {
    // A line of no bytes.
    pub fn blank() -> Line
        ensures { kept result ≡ kept_of [] }
    {
        Line { bytes: Held::new() }
    }

    // Adds the bytes that come next.
    pub fn push(&mut self, more: &[u8])
        ensures { kept self.new ≡ with_more (kept self.old) more.now }
    {
        let room = self.room();
        let size = self.size() + more.len();
        self.bytes.push(more);
        self.bytes.length = if size <= room { size } else { room + 1 };
    }

    // Its length; one above the longest stands for all greater ones.
    pub fn size(&self) -> usize
        ensures { result ≡ (kept self.now).size }
    {
        self.bytes.length.min(self.room() + 1)
    }

    // Its first bytes, at most the longest.
    #[tactic(auto, using(crate::proofs::Growing::first_is))]
    pub fn first(&self) -> &[u8]
        ensures { result.now ≡ (kept self.now).first }
    {
        &self.bytes.bytes[..self.bytes.length.min(self.room())]
    }

    // The longest line finds room.
    fn room(&self) -> usize
        ensures longest { result ≡ longest }
        ensures within { longest ≤ length self.now.bytes.bytes }
    {
        self.bytes.bytes[..LONGEST].len()
    }
}
