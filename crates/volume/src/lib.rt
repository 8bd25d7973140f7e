//! The volume of a voice, on one side.
#![tactic(auto)]

ghost use Rattle.std.specs.Prelude.{◌≡◌, ◌<◌};
ghost use Rattle.numbers.specs.Numbers.{Bits, Within};
ghost use Rattle.volume.specs.Volume.{panned};

/// What pole 4's output o4 comes to at the volume. The rule divides by 2 ^ 5 and then by 2 ^ (15 -
/// exponent); here the exponent moves the mantissa to the left, so one shift by 5 + 15 stands for
/// both. The mantissa is taken 16-fold, as it stands in the volume, so the shift is 24.
pub fn pan(volume: u32, o4: i32) -> i32
    requires volume_in_range { volume < 65536 }
    requires o4_fits { Bits 18 o4 }
    ensures { (result ≡ panned volume o4) × Within 1048576 result }
{
    let gain = (16 * (256 + volume / 16 % 256)) << (volume / 4096);
    ((i64::from(o4 >> 2) * i64::from(gain)) >> 24) as i32
}
