// Document 01's table of refusals, with what document 02 adds: why a call is refused, and what crews and support are told of it.
#![tactic(auto)]

ghost use Rattle.std.specs.Prelude.{◌≡◌};
ghost use Rattle.refusal.specs.Number.{reason_of, number_of};
ghost use Rattle.refusal.specs.Claims.{ReasonsDiffer, OutcomesDiffer, NumbersRule, ToldRule, HandedRule};

// A place is counted from 0.
#[derive(Clone, Copy, PartialEq, Eq)]
pub enum Refusal {
    // 1: a level or quality, as a float or in hundredths, is outside its range
    ReadingOutOfRange,
    // 2: a swept channel outside 2 to 1,086; a start channel or the serving channel of a new beam above 1,087
    ChannelOutOfRange,
    // 3: a channel already visited in this sweep
    ChannelVisited,
    // 4: a choice over an unfinished sweep
    SweepUnfinished,
    // 6: a filed or asked channel not watched; new beam or verdict on an idle watch
    NotWatched,
    // 7: a margin, hysteresis, depth or power parameter out of range; PANmin above PANmax; a code above 63
    ParameterOutOfRange,
    // 8: outcome string not 1,088 long, or a byte above 5
    OutcomesFaulty,
    // 9: a record not well formed
    RecordNotWellFormed,
    // 11: a list of over 6 channels
    ListTooLong,
    // 12: a channel of a list above 1,087, with its place
    ListedOutOfRange(u32),
    // 13: a channel of a list that stands at an earlier place too, with its place
    ListedAgain(u32),
    // 14: the serving channel in a list, with its place
    ListedServing(u32),
}

// What is told of a refusal: its number alone, or its number at a place.
#[derive(Clone, Copy, PartialEq, Eq)]
pub enum Reason {
    Alone(u32),
    At { number: u32, place: u32 },
}

impl Refusal {
    // What is told of the refusal.
    pub fn told(self) -> Reason
        ensures { result ≡ reason_of self }
    {
        match self {
            Refusal::ReadingOutOfRange => Reason::Alone(1),
            Refusal::ChannelOutOfRange => Reason::Alone(2),
            Refusal::ChannelVisited => Reason::Alone(3),
            Refusal::SweepUnfinished => Reason::Alone(4),
            Refusal::NotWatched => Reason::Alone(6),
            Refusal::ParameterOutOfRange => Reason::Alone(7),
            Refusal::OutcomesFaulty => Reason::Alone(8),
            Refusal::RecordNotWellFormed => Reason::Alone(9),
            Refusal::ListTooLong => Reason::Alone(11),
            Refusal::ListedOutOfRange(place) => Reason::At { number: 12, place },
            Refusal::ListedAgain(place) => Reason::At { number: 13, place },
            Refusal::ListedServing(place) => Reason::At { number: 14, place },
        }
    }

    // The refusal's number.
    pub fn number(self) -> u32
        ensures { result ≡ number_of self }
    {
        match self.told() {
            Reason::Alone(number) => number,
            Reason::At { number, place: _ } => number,
        }
    }
}

// What a call hands back: a record, beside its answer. Refused, it is the very record that the call was given.
#[derive(Clone, Copy, PartialEq, Eq)]
pub struct Handed<R, A> {
    pub state: R,
    pub answer: Result<A, Refusal>,
}

// Nothing to run: its contract is what is claimed of the refusals, so that the check asks for the proof of each.
pub fn claimed()
    ensures reasons { ReasonsDiffer }
    ensures outcomes { OutcomesDiffer }
    ensures numbers { NumbersRule }
    ensures words { ToldRule }
    ensures records { HandedRule }
{}
