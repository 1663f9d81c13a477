// The calls on readings: levels, qualities and bursts to hundredths of a dB, and back to floats. Document 01, section Readings.
#![tactic(auto)]

ghost use Rattle.std.specs.Prelude.{◌≡◌, ◌*◌, ◌<◌, ◌^◌, T, nat_abs};
ghost use Rattle.refusal.specs.declared.Refusal.{Refusal};
ghost use Rattle.refusal.specs.Told.{told, gives, provided};
ghost use Rattle.readings_rules.specs.Ranges.{in_range};
ghost use Rattle.readings_rules.specs.Hundredths.{hundredths_of, converted, level_of, quality_of};
ghost use Rattle.readings_rules.specs.Float.{shown, level_shown, quality_shown};
ghost use Rattle.readings_rules.specs.Burst.{burst_of, InRange};
ghost use Rattle.readings_rules.specs.Told.{told_burst};
ghost use Rattle.readings_rules.specs.Back.{level_back, quality_back};
ghost use Rattle.readings_rules.specs.Code.{Near, in_units, small};

pub use readings_rules::{Burst, Reading};
use readings_rules::{LEVEL_HIGH, LEVEL_LOW, QUALITY_HIGH, QUALITY_LOW};
use refusal::Refusal;

// An f32's bits: the sign's weight, and the weight of the digit that leads the others.
const SIGN: u32 = 0x8000_0000;

const LEAD: u32 = 0x80_0000;

// 100 times (LEAD + digits) / 2 ^ (150 - exponent), to the nearest whole number, an exact half up or down.
// No product is wider than 32 bits: 24 binary digits times 100 fit 31. By hand, as no library function rounds a half to the lower number.
fn rounded(up: bool, exponent: u32, digits: u32) -> u32
    requires { (exponent < 150) × (digits < 8388608) }
    ensures near { Near up (100 * in_units exponent digits) (2 ^ 149) result }
    ensures fits { result < 2 ^ 31 }
{
    // Below 2 ^ -8 dB there are no half hundredths.
    if exponent < 119 {
        return 0;
    }
    let shift = 150 - exponent;
    let product = (LEAD + digits) * 100;
    let half = 1u32 << (shift - 1);
    if up {
        (product + half) >> shift
    } else {
        (product + half - 1) >> shift
    }
}

// A float in hundredths. The size of one below 0 is rounded up at a half, which is the lower number.
fn nearest_hundredths(x: f32) -> i32
    requires { T (small x) }
    ensures { result ≡ hundredths_of x }
{
    let bits = f32::to_bits(x);
    let exponent = bits % SIGN / LEAD;
    let digits = bits % LEAD;
    if bits < SIGN {
        rounded(false, exponent, digits) as i32
    } else {
        -(rounded(true, exponent, digits) as i32)
    }
}

// The range of levels or of qualities, in whole dB. Its ends are so near to 0 that their hundredths are floats, and those of every float between
// them fit 16 bits and a sign.
#[derive(Clone, Copy)]
struct Range {
    low: i32,
    high: i32,
    ghost near: { (nat_abs low < 656) × (nat_abs high < 656) },
}

// The refusal of a reading outside its range.
const OUTSIDE: Refusal = Refusal::ReadingOutOfRange;

const LEVELS: Range = Range {
    low: LEVEL_LOW,
    high: LEVEL_HIGH,
};

const QUALITIES: Range = Range {
    low: QUALITY_LOW,
    high: QUALITY_HIGH,
};

impl Range {
    // A float in hundredths, where it lies in the range.
    fn to_hundredths(self, x: f32) -> Result<i32, Refusal>
        ensures { told result ≡ converted self.low self.high x }
    {
        if self.low as f32 <= x && x <= self.high as f32 {
            Ok(nearest_hundredths(x))
        } else {
            Err(OUTSIDE)
        }
    }

    // Hundredths as a float, where they lie in the range.
    fn to_float(self, h: i32) -> Result<f32, Refusal>
        ensures { told result ≡ shown self.low self.high h }
    {
        if self.low * 100 <= h && h <= self.high * 100 {
            Ok((h as f32) / 100.0)
        } else {
            Err(OUTSIDE)
        }
    }

    // Hundredths shown and read again: the same, where they lie in the range.
    fn read_back(self, h: i32) -> Result<i32, Refusal>
        ensures { told result ≡ provided (in_range self.low self.high h) Refusal.ReadingOutOfRange (gives h) }
    {
        self.to_hundredths(self.to_float(h)?)
    }
}

// A level in hundredths. Each range has its calls, as users and the C interface name them.
pub fn level_to_hundredths(x: f32) -> Result<i32, Refusal>
    ensures { told result ≡ level_of x }
{
    LEVELS.to_hundredths(x)
}

// A quality in hundredths.
pub fn quality_to_hundredths(x: f32) -> Result<i32, Refusal>
    ensures { told result ≡ quality_of x }
{
    QUALITIES.to_hundredths(x)
}

// A level's hundredths as a float.
pub fn level_to_float(h: i32) -> Result<f32, Refusal>
    ensures { told result ≡ level_shown h }
{
    LEVELS.to_float(h)
}

// A quality's hundredths as a float.
pub fn quality_to_float(h: i32) -> Result<f32, Refusal>
    ensures { told result ≡ quality_shown h }
{
    QUALITIES.to_float(h)
}

// A level's hundredths, shown and read again: the same hundredths, for every level in its range.
pub fn level_read_back(h: i32) -> Result<i32, Refusal>
    ensures { told result ≡ level_back h }
{
    LEVELS.read_back(h)
}

// A quality's hundredths, shown and read again: the same hundredths, for every quality in its range.
pub fn quality_read_back(h: i32) -> Result<i32, Refusal>
    ensures { told result ≡ quality_back h }
{
    QUALITIES.read_back(h)
}

// A burst's result in hundredths: both floats of a heard one are tested.
pub fn burst_to_hundredths(b: Burst) -> Result<Burst<i32>, Refusal>
    ensures value { told_burst result ≡ burst_of b }
    ensures range { InRange (told_burst result) }
{
    match b {
        Burst::Heard(r) => Ok(Burst::Heard(Reading {
            level: level_to_hundredths(r.level)?,
            quality: quality_to_hundredths(r.quality)?,
        })),
        Burst::Missed => Ok(Burst::Missed),
    }
}
