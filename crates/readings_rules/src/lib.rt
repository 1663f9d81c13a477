// Readings of a modem: what one burst gave, as floats and in whole hundredths of a dB. Document 01, section Readings.
// The rules and what is claimed of them stand in specs/; the calls stand in the crate `readings`.
#![tactic(auto)]

ghost use Rattle.readings_rules.specs.Claims.{RangeRule, RoundingRule, ConversionRule, ShownRule, ReadBack, BurstRule, BurstInRange};
ghost use Rattle.readings_rules.specs.Claims.{AnswersTold, AnswersDiffer};

// What the modem measures in a burst that it hears: a level and a quality, as floats in dBm and dB, or in hundredths of these.
#[derive(Clone, Copy)]
pub struct Reading<T = f32> {
    pub level: T,
    pub quality: T,
}

// The modem's result for one burst, in floats or in hundredths. An enum of its own and no `Option`: the
// paper asks for this form, and `BurstRule` and the calls for C speak of both cases.
#[derive(Clone, Copy)]
pub enum Burst<T = f32> {
    Heard(Reading<T>),
    Missed,
}

// The ends of the ranges: a level in whole dBm, a quality in whole dB.
pub const LEVEL_LOW: i32 = -150;

pub const LEVEL_HIGH: i32 = 0;

pub const QUALITY_LOW: i32 = -30;

pub const QUALITY_HIGH: i32 = 40;

// The same in hundredths.
pub const LEVEL_LOWEST: i32 = LEVEL_LOW * 100;

pub const LEVEL_HIGHEST: i32 = LEVEL_HIGH * 100;

pub const QUALITY_LOWEST: i32 = QUALITY_LOW * 100;

pub const QUALITY_HIGHEST: i32 = QUALITY_HIGH * 100;

// Channel numbers, under which readings are filed, run from 0 to this.
pub const CHANNEL_HIGHEST: u16 = 1087;

// Nothing to run: its contract is all that is claimed of the readings beyond the calls, so that the check asks for the proof of each.
pub fn claimed()
    ensures range { RangeRule }
    ensures rounding { RoundingRule }
    ensures conversion { ConversionRule }
    ensures shown { ShownRule }
    ensures back { ReadBack }
    ensures burst { BurstRule }
    ensures inside { BurstInRange }
    ensures told { AnswersTold }
    ensures differ { AnswersDiffer }
{}
