//! One turn of a voice on its own twenty words, which are lent as a part of the record: sample,
//! filters, volume, address and ramps, as the control register says. The turn does not know the
//! voice's number, so which voice plays cannot be heard in it.
//! The words are read and stored where they stand: no copy of the voice is made.
#![tactic(auto)]

ghost use Rattle.std.specs.Prelude.{◌≡◌, if◌then◌else◌, ◌+◌, ◌^◌, ◌<◌, pos, IsTrue, length};
ghost use Rattle.std.specs.Prelude.{slice_index, IsSome, ◌↔◌};
ghost use Rattle.numbers.specs.Numbers.{Bits};
ghost use Rattle.control.specs.Control.{runs};
ghost use Rattle.filter.specs.PoleBits.{PoleBits};
ghost use Rattle.machine.specs.Words.{voice_words, cr_word};
ghost use Rattle.voice.specs.Voice.{voice_of};
ghost use Rattle.sample.specs.Sample.{sampled};
ghost use Rattle.voice.specs.Turn.{last_outputs, levels_of};
ghost use Rattle.voice.specs.Missed.{missed_by};
ghost use Rattle.voice.specs.Ranges.{Ranges, Leveled};
ghost use Rattle.voice.specs.Takes.{after_step, after_ramps, Passes, TakesTurn, as_addend};

use filter::Poles;
use sample::Samples;

// The words of a voice. Their ranges are no invariant of a type: it would be owed at each of a
// turn's nineteen writes.
type Words = [u32; machine::VOICE_WORDS];

/// What a turn adds to the left and right sums of a channel.
#[derive(Clone, Copy, Debug, PartialEq, Eq)]
pub struct Addend {
    pub channel: u32,
    pub left: i32,
    pub right: i32,
}

/// A turn of the voice whose words are w, at the slow-ramp counter slow, over the lent sample
/// memory; None where the voice is stopped. How many words of that memory it misses is added to
/// `missing`.
// `Ranges` is a clause here, at `pass` and at `last_outputs`: as a fact of a type it would be owed
// at each of a turn's nineteen writes. That `missing` has room is a clause of each function that it
// is lent to: it is the caller's sum, and no part of a voice or of its memory. So are the ranges of
// numbers that go from crate to crate, as the 16 bits of CR and of a level and the 18 of an output:
// a type of each width would be made where a word is read, and owe the same there, at each call.
pub fn turn(w: &mut [u32], slow: u32, samples: &Samples, missing: &mut u32) -> Option<Addend>
    requires has_voice_length { length w.old ≡ voice_words }
    requires ranges { Ranges (voice_of w.old) }
    requires missing_fits { missing.old + 2 < 2 ^ 32 }
    ensures takes_turn { TakesTurn samples.now.memory.now slow w.old w.new (as_addend result) }
    ensures running { IsSome result ↔ IsTrue (runs (slice_index w.old cr_word)) }
    ensures missing_after { missing.new ≡ missing.old + missed_by samples.now.memory.now
        (voice_of w.old) }
{
    let Some(w) = w.as_mut_array() else {
        unreachable!()
    };
    let cr = w[machine::CR];
    let x = input(w, samples, missing);
    let o4 = pass(w, x);
    let runs = control::running(cr);
    if runs {
        let left = volume::pan(w[machine::LVOL], o4);
        let right = volume::pan(w[machine::RVOL], o4);
        step(w);
        ramps(w, slow);
        return Some(Addend {
            channel: control::channel(cr),
            left,
            right,
        });
    }
    None
}

// What goes into the filters: the sample that the voice is at, or 0 where it is stopped; such a
// voice asks for no word, and misses none.
fn input(w: &Words, samples: &Samples, missing: &mut u32) -> i32
    requires cr_in_range { slice_index w.now cr_word < 65536 }
    requires missing_fits { missing.old + 2 < 2 ^ 32 }
    ensures value { (result ≡ (if runs (voice_of w.now).cr
        then sampled samples.now.memory.now (voice_of w.now).cr (voice_of w.now).accum
        else pos 0)) × Bits 18 result }
    ensures missing_after { missing.new ≡ missing.old + missed_by samples.now.memory.now
        (voice_of w.now) }
{
    let cr = w[machine::CR];
    if !control::running(cr) {
        return 0;
    }
    samples.interpolate(cr, w[machine::ACCUM], missing)
}

// The sample x passes the filters; the new output of pole 4. The old outputs move back first, so
// that no copy of them is kept.
fn pass(w: &mut Words, x: i32) -> i32
    requires ranges { Ranges (voice_of w.old) }
    requires x_fits { Bits 18 x }
    ensures { Passes x w.old w.new result }
{
    w[machine::O2N2] = w[machine::O2N1];
    w[machine::O3N2] = w[machine::O3N1];
    let p = filter::filter(
        w[machine::CR],
        w[machine::K1],
        w[machine::K2],
        x,
        last_outputs(w),
    );
    w[machine::O1N1] = numbers::word_of(18, p.o1);
    w[machine::O2N1] = numbers::word_of(18, p.o2);
    w[machine::O3N1] = numbers::word_of(18, p.o3);
    w[machine::O4N1] = numbers::word_of(18, p.o4);
    p.o4
}

// The last outputs of the poles.
fn last_outputs(w: &Words) -> Poles
    requires { Ranges (voice_of w.now) }
    ensures { (result ≡ last_outputs (voice_of w.now)) × PoleBits result }
{
    Poles {
        o1: numbers::number_of(18, w[machine::O1N1]),
        o2: numbers::number_of(18, w[machine::O2N1]),
        o3: numbers::number_of(18, w[machine::O3N1]),
        o4: numbers::number_of(18, w[machine::O4N1]),
    }
}

// ACCUM goes on: forward to END, in reverse to START. Where it does not pass that loop point
// nothing else changes, whatever the loop mode. This quick step stays beside `address::step`, which
// alone would take 608 to 785 instructions more a frame.
fn step(w: &mut Words)
    requires { slice_index w.old cr_word < 65536 }
    ensures { w.new ≡ after_step w.old }
{
    let fc = w[machine::FC];
    let accum = w[machine::ACCUM];
    if control::flag(control::DIR, w[machine::CR]) {
        let t = i64::from(accum) - i64::from(fc);
        if t < i64::from(w[machine::START]) {
            step_past(w);
        } else {
            w[machine::ACCUM] = t as u32;
        }
    } else {
        let t = u64::from(accum) + u64::from(fc);
        if t <= u64::from(w[machine::END]) {
            w[machine::ACCUM] = t as u32;
        } else {
            step_past(w);
        }
    }
}

// The step that passes a loop point, whether the voice heeds it or not.
fn step_past(w: &mut Words)
    requires { slice_index w.old cr_word < 65536 }
    ensures { w.new ≡ after_step w.old }
{
    let p = address::step(
        w[machine::CR],
        w[machine::FC],
        w[machine::START],
        w[machine::END],
        w[machine::ACCUM],
    );
    w[machine::CR] = p.cr;
    w[machine::ACCUM] = p.accum;
}

// The ramps move their levels while ECOUNT is not 0.
fn ramps(w: &mut Words, slow: u32)
    requires { Leveled (levels_of (voice_of w.old)) }
    ensures { w.new ≡ after_ramps slow w.old }
{
    let n = w[machine::ECOUNT];
    if n != 0 {
        let lvol = ramp::ramp(w[machine::LVOL], w[machine::LVRAMP]);
        let rvol = ramp::ramp(w[machine::RVOL], w[machine::RVRAMP]);
        let k1 = ramp::slow_ramp(slow, w[machine::K1], w[machine::K1RAMP]);
        let k2 = ramp::slow_ramp(slow, w[machine::K2], w[machine::K2RAMP]);
        w[machine::ECOUNT] = n - 1;
        w[machine::LVOL] = lvol;
        w[machine::RVOL] = rvol;
        w[machine::K1] = k1;
        w[machine::K2] = k2;
    }
}
