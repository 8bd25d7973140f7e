//! The address step of a running voice: ACCUM moves by FC, and a loop point that it passes makes a
//! loop event. Targets are `i64`, so that a step past either end of the 32 bits is seen before it
//! wraps. Forward and in reverse are a function each, as the rule is: one for both would ask for
//! the direction at the target, at the loop point and at the event.
#![tactic(auto)]

ghost use Rattle.std.specs.Prelude.{◌≡◌, ◌<◌, if◌then◌else◌};
ghost use Rattle.numbers.specs.Numbers.{Within, word};
ghost use Rattle.address.specs.Address.{raised, stepped};
ghost use Rattle.address.specs.Address.{forward, reverse};
ghost use Rattle.address.specs.Event.{event};

use control::LoopMode;

/// What the step changes.
#[derive(Clone, Copy, Debug, PartialEq, Eq)]
pub struct Place {
    pub accum: u32,
    pub cr: u32,
}

/// ACCUM and the control register after the step.
// The five registers go on together to `forward` or `reverse`, and no further: a type of them would
// be made of a voice's words for that one step.
pub fn step(cr: u32, fc: u32, start: u32, end: u32, accum: u32) -> Place
    requires { cr < 65536 }
    ensures { (result ≡ stepped cr fc start end accum) × (result.cr < 65536) }
{
    if control::flag(control::DIR, cr) {
        reverse(cr, fc, start, end, accum)
    } else {
        forward(cr, fc, start, end, accum)
    }
}

fn forward(cr: u32, fc: u32, start: u32, end: u32, accum: u32) -> Place
    ensures { result ≡ forward cr fc start end accum }
{
    let target = i64::from(accum) + i64::from(fc);
    if control::flag(control::LEI, cr) || target <= i64::from(end) {
        return Place {
            accum: wrap(target),
            cr,
        };
    }
    let past = target - i64::from(end);
    let across = i64::from(start) + past;
    let back = i64::from(end) - past;
    event(cr, end, across, back, true)
}

fn reverse(cr: u32, fc: u32, start: u32, end: u32, accum: u32) -> Place
    ensures { result ≡ reverse cr fc start end accum }
{
    let target = i64::from(accum) - i64::from(fc);
    if control::flag(control::LEI, cr) || target >= i64::from(start) {
        return Place {
            accum: wrap(target),
            cr,
        };
    }
    let past = i64::from(start) - target;
    let across = i64::from(end) - past;
    let back = i64::from(start) + past;
    event(cr, start, across, back, false)
}

// A loop event, by the loop mode. Both directions share it: they differ in where the three ways
// lead, and in the direction after, and each says so in one call.
fn event(cr: u32, passed: u32, across: i64, back: i64, reverse: bool) -> Place
    requires across_fits { Within 17179869184 across }
    requires back_fits { Within 17179869184 back }
    ensures { result ≡ event cr passed across back (if reverse then 1 else 0) }
{
    let up = raise(cr);
    match control::loop_mode(cr) {
        LoopMode::Stop => Place {
            accum: passed,
            cr: control::put(control::STP0, true, up),
        },
        LoopMode::Loop => Place {
            accum: wrap(across),
            cr: up,
        },
        LoopMode::Once => {
            let once = control::put(control::BLE, false, up);
            Place {
                accum: wrap(across),
                cr: control::put(control::LEI, true, once),
            }
        }
        LoopMode::Turn => Place {
            accum: wrap(back),
            cr: control::put(control::DIR, reverse, up),
        },
    }
}

// The flag is set where the voice may interrupt.
#[tactic(auto, unfolding(crate::specs::Address::raised))]
fn raise(cr: u32) -> u32
    ensures { result ≡ raised cr }
{
    if control::flag(control::IRQE, cr) {
        control::put(control::IRQ, true, cr)
    } else {
        cr
    }
}

// The 32 bits of an address. 2^34 more is no other address, and is not negative.
fn wrap(z: i64) -> u32
    requires { Within 17179869184 z }
    ensures { result ≡ word 32 z }
{
    ((z + 17179869184) as u64 % 4294967296) as u32
}
