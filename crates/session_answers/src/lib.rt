// Each answer of the library as the line that a session file's answers are written as, with its newline.
#![tactic(auto)]

ghost use Rattle.std.specs.Prelude.{◌≡◌, ◌<◌, pos};
ghost use Rattle.refusal.specs.Number.{reason_of};
ghost use Rattle.refusal.specs.Told.{told};
ghost use Rattle.sweep_rules.specs.Told.{told_next, told_numbers};
ghost use Rattle.choice_rules.specs.Told.{told_choice};
ghost use Rattle.watch_rules.specs.Told.{told_answer as watch_told};
ghost use Rattle.power_rules.specs.Told.{told_answer as power_told};
ghost use Rattle.session_texts.specs.Text.{room, said};
ghost use Rattle.session_templates.specs.Filled.{line, filled, widest};
ghost use Rattle.session_answers.specs.Lines.{accepted_text, refused_text, float_text};
ghost use Rattle.session_answers.specs.Lines.{outcome_line, hundredths_line, float_line, next_line, counts_line, choice_line, watch_line, power_line, error_line};

use choice_rules::Choice;
use power_rules::Sent;
use refusal::{Reason, Refusal};
use session_templates::{Letters, NO_LETTERS, end_line};
use session_texts::Text;
use sweep_rules::Numbers;
use watch_rules::Answer;

// What a line of the file does: the record that it leaves, and the text that it writes.
#[derive(Clone, Copy)]
pub struct Answered<R> {
    pub state: R,
    pub text: Text,
}

// The numbers of a template with `A` alone, with `A` and `B`, and with `Z` alone.
fn one(a: u64) -> Letters
    ensures { result ≡ record { a = a; b = 0; z = pos 0 } }
{
    Letters { a, ..NO_LETTERS }
}

fn two(a: u64, b: u64) -> Letters
    ensures { result ≡ record { a = a; b = b; z = pos 0 } }
{
    Letters { a, b, ..NO_LETTERS }
}

fn signed(z: i32) -> Letters
    ensures { result ≡ record { a = 0; b = 0; z = z } }
{
    Letters { z, ..NO_LETTERS }
}

// The whole line of a template. It finds room whatever the numbers are: none has more than 20 digits.
#[tactic(auto, using(session_templates::proofs::Room::fits))]
fn whole_line(template: &[u8], letters: Letters) -> Text
    requires { widest template.now < room }
    ensures { said result ≡ line (filled template.now letters.a letters.b letters.z) }
{
    session_templates::filled(template, letters)
}

fn accepted() -> Text
    ensures { said result ≡ line accepted_text }
{
    whole_line(b"accepted", NO_LETTERS)
}

fn refused(why: Refusal) -> Text
    ensures { said result ≡ line (refused_text (reason_of why)) }
{
    match why.told() {
        Reason::Alone(number) => whole_line(b"refused A", one(u64::from(number))),
        Reason::At { number, place } => whole_line(
            b"refused A at B",
            two(u64::from(number), u64::from(place)),
        ),
    }
}

fn float(x: f32) -> Text
    ensures { said result ≡ line (float_text x) }
{
    let mut text = Text::new();
    text.push(b"float 0x");
    text.push_bits(x);
    end_line(&mut text);
    text
}

// The answer of a call that gives no value. One function for each kind of answer: a trait with its text as a ghost member would be longer.
#[tactic(auto, unfolding(crate::specs::Lines::outcome_line))]
pub fn of_outcome(answer: Result<(), Refusal>) -> Text
    ensures { said result ≡ outcome_line (told answer) }
{
    match answer {
        Ok(()) => accepted(),
        Err(why) => refused(why),
    }
}

// A level or a quality in hundredths.
#[tactic(auto, unfolding(crate::specs::Lines::hundredths_line))]
pub fn of_hundredths(answer: Result<i32, Refusal>) -> Text
    ensures { said result ≡ hundredths_line (told answer) }
{
    match answer {
        Ok(hundredths) => whole_line(b"hundredths Z", signed(hundredths)),
        Err(why) => refused(why),
    }
}

// Hundredths shown as a float.
#[tactic(auto, unfolding(crate::specs::Lines::float_line))]
pub fn of_float(answer: Result<f32, Refusal>) -> Text
    ensures { said result ≡ float_line (told answer) }
{
    match answer {
        Ok(x) => float(x),
        Err(why) => refused(why),
    }
}

// The next channel of a sweep.
#[tactic(auto, unfolding(crate::specs::Lines::next_line))]
pub fn of_next(answer: Result<Option<u16>, Refusal>) -> Text
    ensures { said result ≡ next_line (told_next answer) }
{
    match answer {
        Ok(Some(channel)) => whole_line(b"next A", one(u64::from(channel))),
        Ok(None) => whole_line(b"done", NO_LETTERS),
        Err(why) => refused(why),
    }
}

// The numbers of channels visited and heard.
#[tactic(auto, unfolding(crate::specs::Lines::counts_line))]
pub fn of_counts(answer: Result<Numbers, Refusal>) -> Text
    ensures { said result ≡ counts_line (told_numbers answer) }
{
    match answer {
        Ok(Numbers { visited, heard }) => whole_line(
            b"visited A heard B",
            two(u64::from(visited), u64::from(heard)),
        ),
        Err(why) => refused(why),
    }
}

// What is chosen over a sweep.
#[tactic(auto, unfolding(crate::specs::Lines::choice_line))]
pub fn of_choice(answer: Result<Choice, Refusal>) -> Text
    ensures { said result ≡ choice_line (told_choice answer) }
{
    match answer {
        Ok(Choice::Camp { channel, tried }) => whole_line(
            b"camp A tried B",
            two(u64::from(channel), u64::from(tried)),
        ),
        Ok(Choice::Read { channel, tried }) => whole_line(
            b"read A tried B",
            two(u64::from(channel), u64::from(tried)),
        ),
        Ok(Choice::NoBeam { tried }) => whole_line(b"no beam tried A", one(u64::from(tried))),
        Err(why) => refused(why),
    }
}

// The answer of a call on a watch.
#[tactic(auto, unfolding(crate::specs::Lines::watch_line))]
pub fn of_watch(answer: Result<Answer, Refusal>) -> Text
    ensures { said result ≡ watch_line (watch_told answer) }
{
    match answer {
        Ok(Answer::Accepted) => accepted(),
        Ok(Answer::Levels { count, mean }) => whole_line(
            b"count A mean Z",
            Letters {
                z: mean,
                ..one(u64::from(count))
            },
        ),
        Ok(Answer::Wait) => whole_line(b"wait", NO_LETTERS),
        Ok(Answer::Stay) => whole_line(b"stay", NO_LETTERS),
        Ok(Answer::MoveTo(channel)) => whole_line(b"move A", one(u64::from(channel))),
        Err(why) => refused(why),
    }
}

// The codes to send after a power step.
#[tactic(auto, unfolding(crate::specs::Lines::power_line))]
pub fn of_power(answer: Result<Sent, Refusal>) -> Text
    ensures { said result ≡ power_line (power_told answer) }
{
    match answer {
        Ok(Sent { par, pan }) => whole_line(b"par A pan B", two(u64::from(par), u64::from(pan))),
        Err(why) => refused(why),
    }
}

// A line of the file that is none of the calls, by its number.
pub fn of_error(line: u64) -> Text
    ensures { said result ≡ error_line line }
{
    whole_line(b"error line A", one(line))
}
