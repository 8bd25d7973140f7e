//! The sum of a channel, a word of 23 bits in two's complement.
#![tactic(auto)]

ghost use Rattle.std.specs.Prelude.{◌≡◌, ◌<◌};
ghost use Rattle.channel.specs.Channel.{mixed, put_out};

/// The sum of two words, which wraps.
#[tactic(auto, using(crate::proofs::Laws::mixed_is))]
pub fn mix(a: u32, b: u32) -> u32
    requires a_in_range { a < 8388608 }
    requires b_in_range { b < 8388608 }
    ensures { (result ≡ mixed a b) × (result < 8388608) }
{
    (a + b) % 8388608
}

/// What a sum puts out, held to its rails.
#[tactic(auto, unfolding(crate::specs::Channel::put_out))]
pub fn put_out(sum: u32) -> i32
    requires { sum < 8388608 }
    ensures { result ≡ put_out sum }
{
    numbers::hold(-524288, 524287, numbers::number_of(23, sum))
}
