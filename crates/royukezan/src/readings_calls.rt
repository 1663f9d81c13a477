// Readings: refusal 1 alone.
ghost use Rattle.std.specs.Prelude.{◌≡◌};
ghost use Rattle.readings_rules.specs.declared.Burst.TheVariants.{Heard};
ghost use Rattle.readings_rules.specs.Hundredths.{level_of, quality_of};
ghost use Rattle.readings_rules.specs.Float.{level_shown, quality_shown};
ghost use Rattle.readings_rules.specs.Back.{level_back, quality_back};
ghost use Rattle.readings_rules.specs.Burst.{burst_of};
ghost use Rattle.host_rules.specs.Answers.{hundredths_answer, float_answer, burst_answer};

use host_answers::{
    BurstAnswer, FloatAnswer, HundredthsAnswer, burst_answer, float_answer, hundredths_answer,
};
use readings::{Burst, Reading};

// A level in dBm, in hundredths.
#[unsafe(no_mangle)]
pub extern "C" fn royukezan_level_to_hundredths(x: f32) -> HundredthsAnswer
    ensures { result ≡ hundredths_answer (level_of x) }
{
    hundredths_answer(readings::level_to_hundredths(x))
}

// A quality in dB, in hundredths.
#[unsafe(no_mangle)]
pub extern "C" fn royukezan_quality_to_hundredths(x: f32) -> HundredthsAnswer
    ensures { result ≡ hundredths_answer (quality_of x) }
{
    hundredths_answer(readings::quality_to_hundredths(x))
}

// A level's hundredths as a float.
#[unsafe(no_mangle)]
pub extern "C" fn royukezan_level_to_float(h: i32) -> FloatAnswer
    ensures { result ≡ float_answer (level_shown h) }
{
    float_answer(readings::level_to_float(h))
}

// A quality's hundredths as a float.
#[unsafe(no_mangle)]
pub extern "C" fn royukezan_quality_to_float(h: i32) -> FloatAnswer
    ensures { result ≡ float_answer (quality_shown h) }
{
    float_answer(readings::quality_to_float(h))
}

// A level's hundredths, shown and read again.
#[unsafe(no_mangle)]
pub extern "C" fn royukezan_level_read_back(h: i32) -> HundredthsAnswer
    ensures { result ≡ hundredths_answer (level_back h) }
{
    hundredths_answer(readings::level_read_back(h))
}

// A quality's hundredths, shown and read again.
#[unsafe(no_mangle)]
pub extern "C" fn royukezan_quality_read_back(h: i32) -> HundredthsAnswer
    ensures { result ≡ hundredths_answer (quality_back h) }
{
    hundredths_answer(readings::quality_read_back(h))
}

// A heard burst in hundredths: both floats are tested. A missed one has no numbers.
#[unsafe(no_mangle)]
pub extern "C" fn royukezan_burst_to_hundredths(level: f32, quality: f32) -> BurstAnswer
    ensures { result ≡ burst_answer (burst_of (Heard (record { level = level; quality = quality }))) }
{
    burst_answer(readings::burst_to_hundredths(Burst::Heard(Reading { level, quality })))
}
