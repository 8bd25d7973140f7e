//! Ramps: a volume or a filter coefficient moved by its ramp register.
#![tactic(auto)]

ghost use Rattle.std.specs.Prelude.{◌≡◌, ◌<◌};
ghost use Rattle.ramp.specs.Ramp.{ramped, slow_ramped};

/// A value moved by its ramp.
pub fn ramp(value: u32, by: u32) -> u32
    requires { value < 65536 }
    ensures { (result ≡ ramped value by) × (result < 65536) }
{
    let increment = numbers::number_of(8, by / 256 % 256);
    numbers::word_of(16, numbers::hold(0, 65535, value as i32 + increment))
}

/// A coefficient moved by its ramp, which may be slow.
#[tactic(auto, unfolding(crate::specs::Ramp::slow_ramped))]
pub fn slow_ramp(slow: u32, value: u32, by: u32) -> u32
    requires { value < 65536 }
    ensures { (result ≡ slow_ramped slow value by) × (result < 65536) }
{
    if slow == 0 {
        return ramp(value, by);
    }
    if by % 2 == 1 {
        return value;
    }
    ramp(value, by)
}
