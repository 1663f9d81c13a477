// A line of a session file's answers by its template: fixed words, letters where numbers go, and a newline at the end.
#![tactic(auto)]

ghost use Rattle.std.specs.Prelude.{◌≡◌, ◌++◌, take};
ghost use Rattle.session_texts.specs.Text.{room, said};
ghost use Rattle.session_templates.specs.Filled.{line, piece, filled};

use session_texts::Text;

// What the letters `A`, `B` and `Z` of a template stand for. One that a template does not have is not written.
#[derive(Clone, Copy)]
pub struct Letters {
    pub a: u64,
    pub b: u64,
    pub z: i32,
}

// For a template with no letter, and for those that are not named.
pub const NO_LETTERS: Letters = Letters { a: 0, b: 0, z: 0 };

// Adds a newline, if there is room.
pub fn end_line(text: &mut Text)
    ensures { said text.new ≡ take room (line (said text.old)) }
{
    text.push_byte(b'\n');
}

// Adds what a byte of a template stands for: a letter for its number, any other byte for itself. Written out and not by `write!`: that promises
// what is written where it succeeds, and not that it does.
fn push_piece(text: &mut Text, byte: u8, letters: Letters)
    ensures { said text.new ≡ take room (said text.old ++ piece letters.a letters.b letters.z byte) }
{
    match byte {
        b'A' => text.push_decimal(letters.a),
        b'B' => text.push_decimal(letters.b),
        b'Z' => text.push_signed(letters.z),
        _ => text.push_byte(byte),
    }
}

// The line of a template, as far as there is room.
pub fn filled(template: &[u8], letters: Letters) -> Text
    ensures { said result ≡ take room (line (filled template.now letters.a letters.b letters.z)) }
{
    let mut text = Text::new();
    for byte in template {
        push_piece(&mut text, *byte, letters);
    }
    end_line(&mut text);
    text
}
