//! One frame over the record: the turns of voices 0 to ACTV, and the closing.
//! A voice's twenty words are lent to its turn as a part of the record; what it adds to its channel
//! comes back by value, and is added here. The number of missing words is lent to each turn, which
//! adds its own.
#![tactic(auto)]

ghost use Rattle.std.specs.Prelude.{◌≡◌, IsTrue, if◌then◌else◌, map, ℕ, ◌+◌, ◌*◌, ◌%◌, ◌^◌, ◌<◌};
ghost use Rattle.std.specs.Prelude.{length, slice_index, replicate};
ghost use Rattle.numbers.specs.Numbers.{Within};
ghost use Rattle.control.specs.Control.{flag_of, with_bit, irq_bit};
ghost use Rattle.channel.specs.Channel.{put_out};
ghost use Rattle.machine.specs.Words.{record_words, voice_count, slow_word, sums_word};
ghost use Rattle.machine.specs.Words.{output_values, wait_mask_word, waiting_voices, with_mask};
ghost use Rattle.machine.specs.Words.{valid};
ghost use Rattle.voice.specs.Voice.{voice_of};
ghost use Rattle.voice.specs.Takes.{as_addend};
ghost use Rattle.voice.specs.Missed.{missed_by};
ghost use Rattle.machine.specs.Voices.{voice_at};
ghost use Rattle.answer.specs.Answer.{answer_of, value_or};
ghost use Rattle.machine.specs.Lent.{Leaves};
ghost use Rattle.frame.specs.Missing.{missed_in};
ghost use Rattle.frame.specs.Frame.{added_to, added, signalled, turn_at, played, heard, closed};
ghost use Rattle.frame.specs.Frame.{frame_answer, Frames};

use answer::Refusal;
use machine::Machine;
use sample::Samples;
use voice::Addend;

// The least ACTV that a frame takes: five active voices.
const LEAST_ACTV: u32 = 4;

// How many channels have sums.
const CHANNELS: u32 = 6;

/// One frame: twelve values in channel order, left before right. Gives how many words of sample
/// memory its running voices asked for and missed.
// The record and the memory are two loans, one to be changed and one to be looked at, which the C
// interface hands over one by one.
pub fn frame(m: &mut [u32], memory: &[u16], out: &mut [i32]) -> Result<u32, Refusal>
    ensures { Frames m.old memory.now out.old (answer_of result) (value_or 0 result) m.new out.new }
{
    check_frame(m, memory, out)?;
    let mut m = Machine::lent(m);
    let missing = play(&mut m, memory);
    close(&mut m, out);
    Ok(missing)
}

// Why a frame is refused: the record asked first, then how many voices it has active, the memory,
// and the output.
#[tactic(auto, using(crate::proofs::Answered::told_voices, crate::proofs::Answered::told_memory, crate::proofs::Answered::told_output, crate::proofs::Answered::told_ready))]
fn check_frame(m: &[u32], memory: &[u16], out: &[i32]) -> Result<(), Refusal>
    ensures { result ≡ frame_answer m.now memory.now out.now }
{
    machine::check(m)?;
    if m[machine::ACTV] < LEAST_ACTV {
        return Err(Refusal::TooFewVoices);
    }
    if sample::MOST_MEMORY_WORDS < memory.len() {
        return Err(Refusal::MemoryLength);
    }
    if out.len() != machine::OUTPUT_VALUES {
        return Err(Refusal::OutputLength);
    }
    Ok(())
}

// The turns of voices 0 to ACTV, and how many words they miss together.
fn play(m: &mut Machine, memory: &[u16]) -> u32
    ensures leaves { Leaves m.old m.new (played memory.now m.old.words.now) }
    ensures missing { result ≡ missed_in memory.now m.old.words.now }
{
    let samples = Samples::new(memory);
    let slow = m.words[machine::SLOW];
    let last = m.words[machine::ACTV] as usize;
    let mut missing = 0;
    // By number: the voice's part, the sums and the mask, where its bit is, change in one turn.
    for v in 0..=last {
        turn(m.words, v, slow, &samples, &mut missing);
    }
    missing
}

// The turn of voice v. How many words it misses is added to `missing`. The voice's words, the sums
// and the mask change together, and between them the record is not valid.
fn turn(m: &mut [u32], v: usize, slow: u32, samples: &Samples, missing: &mut u32)
    requires is_valid { IsTrue (valid m.old) }
    requires is_voice { v < voice_count }
    requires slow_is_counter { slow ≡ slice_index m.old slow_word }
    requires missing_fits { missing.old + 2 < 2 ^ 32 }
    ensures m_after { m.new ≡ turn_at samples.now.memory.now v m.old }
    ensures missing_after { missing.new ≡ missing.old + missed_by samples.now.memory.now
        (voice_of (voice_at m.old v)) }
{
    let first = machine::VOICE_WORDS * v;
    let end = first + machine::VOICE_WORDS;
    let addend = voice::turn(&mut m[first..end], slow, samples, missing);
    add(m, addend);
    let cr = m[first + machine::CR];
    signal(m, v, cr);
}

// What a turn adds goes to the sums of its channel; channels 6 and 7 are none.
// The record's length and the ranges are clauses here and below: between a turn's writes the record
// is no `Machine`, and the sides of an addend have the range that `volume::pan` promises of each.
fn add(m: &mut [u32], addend: Option<Addend>)
    requires has_record_length { length m.old ≡ record_words }
    requires sums_in_range { (i : ℕ) → i < output_values
        → slice_index m.old (sums_word + i) < 8388608 }
    requires left_fits { Within 1048576 (as_addend addend).left }
    requires right_fits { Within 1048576 (as_addend addend).right }
    ensures { m.new ≡ added m.old (as_addend addend).channel (as_addend addend).left
        (as_addend addend).right }
{
    let Some(
        Addend {
            channel,
            left,
            right,
        },
    ) = addend
    else {
        return;
    };
    if channel < CHANNELS {
        let at = left_sum(channel);
        add_to(m, at, left);
        add_to(m, at + 1, right);
    }
}

// One value is added to one sum.
fn add_to(m: &mut [u32], at: usize, z: i32)
    requires at_in_bounds { at < length m.old }
    requires sum_in_range { slice_index m.old at < 8388608 }
    requires z_fits { Within 1048576 z }
    ensures { m.new ≡ added_to m.old at z }
{
    m[at] = channel::mix(m[at], numbers::word_of(23, z));
}

// The left sum of a channel.
fn left_sum(channel: u32) -> usize
    requires { channel < 6 }
    ensures { result ≡ sums_word + 2 * channel }
{
    machine::SUMS + 2 * channel as usize
}

// A waiting voice goes into the mask, and enters an empty vector. A turn never clears a flag, so
// where the voice does not wait the mask is true already, and costs nothing.
#[tactic(auto, using(crate::proofs::Steps::signal_enters, crate::proofs::Steps::signal_occupied, crate::proofs::Steps::signal_quiet))]
fn signal(m: &mut [u32], v: usize, cr: u32)
    requires has_record_length { length m.old ≡ record_words }
    requires is_voice { v < voice_count }
    requires mask_but_for_voice { waiting_voices m.old
        ≡ (if flag_of irq_bit cr then with_bit v 1 (slice_index m.old wait_mask_word)
        else slice_index m.old wait_mask_word) }
    ensures { m.new ≡ signalled (with_mask m.old) v cr }
{
    if control::flag(control::IRQ, cr) {
        machine::mark(m, v, true);
        if m[machine::IRQV] == machine::NO_INTERRUPT {
            m[machine::IRQV] = v as u32;
        }
    }
}

// The frame is closed: the sums go out and become 0, and the slow-ramp counter goes on.
fn close(m: &mut Machine, out: &mut [i32])
    requires { length out.old ≡ output_values }
    ensures leaves { Leaves m.old m.new (closed m.old.words.now) }
    ensures out { out.new ≡ heard m.old.words.now }
{
    let sums = take_sums(&mut m.words[machine::SUMS..machine::SUMS_END]);
    put_out(&sums, out);
    m.words[machine::SLOW] = next(m.words[machine::SLOW]);
}

// The sums, which become 0 where they stood. Taken by value they cannot be part of the output, so
// the compiler holds four at a time.
fn take_sums(sums: &mut [u32]) -> [u32; machine::OUTPUT_VALUES]
    requires { length sums.old ≡ output_values }
    ensures { (result ≡ sums.old) × (sums.new ≡ replicate output_values 0) }
{
    let Some(sums) = sums.as_mut_array() else {
        unreachable!()
    };
    std::mem::replace(sums, [0; machine::OUTPUT_VALUES])
}

// Each sum, held, goes to its place in the output.
fn put_out(sums: &[u32; machine::OUTPUT_VALUES], out: &mut [i32])
    requires has_output_length { length out.old ≡ output_values }
    requires sums_in_range { (i : ℕ) → i < output_values → slice_index sums.now i < 8388608 }
    ensures { out.new ≡ map put_out sums.now }
{
    // By number: a proof knows nothing of what a `zip` with the values to be changed goes over.
    for (i, value) in out.iter_mut().enumerate() {
        *value = channel::put_out(sums[i]);
    }
}

// The slow-ramp counter's next value. It is cut first, so that the addition fits whatever it is.
fn next(slow: u32) -> u32
    ensures { result ≡ (slow + 1) % 8 }
{
    (slow % 8 + 1) % 8
}
