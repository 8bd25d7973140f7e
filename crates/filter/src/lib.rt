//! The four poles that a voice's samples pass. Outputs are numbers of 18 bits, and each pole keeps
//! them so.
#![tactic(auto)]

ghost use Rattle.std.specs.Prelude.{◌≡◌, ◌<◌, ℕ, ℤ, pos, ◌*ℤ◌};
ghost use Rattle.numbers.specs.Numbers.{floor_div, Bits};
ghost use Rattle.filter.specs.Filter.{low_pass, high_pass, pole3, pole4, filtered};
ghost use Rattle.filter.specs.PoleBits.{PoleBits};

use std::marker::Model;

// What goes into a pole and comes out of it, a number of 18 bits.
#[derive(Clone, Copy)]
struct Output(i32);

impl Model for Output {
    ghost Value = { ℤ };

    ghost view = { λ y. y.0 };

    ghost invariant = { λ y. Bits 18 y.0 };

    ghost inverse = { λ y. record { 0 = y } };
}

// A pole's coefficient, of 12 bits.
#[derive(Clone, Copy)]
struct Coefficient(u32);

impl Model for Coefficient {
    ghost Value = { ℕ };

    ghost view = { λ k. k.0 };

    ghost invariant = { λ k. k.0 < 4096 };

    ghost inverse = { λ k. record { 0 = k } };
}

/// The last outputs of poles 1 to 4. They are plain numbers, which any caller may make: that each
/// has 18 bits is what `filter` asks, and promises.
#[derive(Clone, Copy, Debug, PartialEq, Eq)]
pub struct Poles {
    pub o1: i32,
    pub o2: i32,
    pub o3: i32,
    pub o4: i32,
}

/// The outputs after the sample x has passed.
pub fn filter(cr: u32, k1: u32, k2: u32, x: i32, p: Poles) -> Poles
    requires k1_in_range { k1 < 65536 }
    requires k2_in_range { k2 < 65536 }
    requires x_fits { Bits 18 x }
    requires poles_fit { PoleBits p }
    ensures { (result ≡ filtered cr k1 k2 x p) × PoleBits result }
{
    let (k1, k2) = (Coefficient(k1 / 16), Coefficient(k2 / 16));
    let y1 = low_pass(k1, Output(x), Output(p.o1));
    let y2 = low_pass(k1, y1, Output(p.o2));
    let y3 = third(cr, k1, k2, y2, Output(p.o2), Output(p.o3));
    let y4 = fourth(cr, k2, y3, Output(p.o3), Output(p.o4));
    Poles {
        o1: y1.0,
        o2: y2.0,
        o3: y3.0,
        o4: y4.0,
    }
}

// x, xp and yp are the rule's own: what goes into a pole, what went in before, and what came out.
// In a struct the formulas would not read as the rule's.

// Pole 3, of the kind that LP4 and LP3 say: two tests, which an enum of the four kinds would only
// make once more.
#[tactic(auto, unfolding(crate::specs::Filter::pole3, crate::specs::Filter::pole4))]
fn third(cr: u32, k1: Coefficient, k2: Coefficient, x: Output, xp: Output, yp: Output) -> Output
    ensures { result ≡ pole3 cr k1 k2 x xp yp }
{
    if control::flag(control::LP3, cr) {
        low_pass(k1, x, yp)
    } else {
        fourth(cr, k2, x, xp, yp)
    }
}

// Pole 4, of the kind that LP4 says.
#[tactic(auto, unfolding(crate::specs::Filter::pole4))]
fn fourth(cr: u32, k2: Coefficient, x: Output, xp: Output, yp: Output) -> Output
    ensures { result ≡ pole4 cr k2 x xp yp }
{
    if control::flag(control::LP4, cr) {
        low_pass(k2, x, yp)
    } else {
        high_pass(k2, x, xp, yp)
    }
}

fn low_pass(k: Coefficient, x: Output, yp: Output) -> Output
    ensures { result ≡ low_pass k x yp }
{
    Output(yp.0 + ((k.0 as i32 * (x.0 - yp.0)) >> 12))
}

fn high_pass(k: Coefficient, x: Output, xp: Output, yp: Output) -> Output
    ensures { result ≡ high_pass k x xp yp }
{
    Output(numbers::hold(-131072, 131071, x.0 - xp.0 + scaled(4096 + k.0, yp).0))
}

// The part of its last output that a high pass keeps: f / 8192 of y, rounded down.
fn scaled(f: u32, y: Output) -> Output
    requires { f < 8192 }
    ensures { result ≡ floor_div (pos f *ℤ y) 8192 }
{
    Output((f as i32 * y.0) >> 13)
}
