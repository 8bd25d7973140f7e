//! The machine record: its words by name, the bits that each keeps, the check that every call on a
//! record but a reset begins with, the waiting voices, and reset.
#![tactic(auto)]

ghost use Rattle.std.specs.Prelude.{◌≡◌, ◌&&◌, ◌+◌, ◌<◌, ◌≤◌, if◌then◌else◌, length, slice_index};
ghost use Rattle.answer.specs.Answer.{answer_of, value_or};
ghost use Rattle.control.specs.Control.{with_bit};
ghost use Rattle.machine.specs.Words.{bits_of, voice_bits, shared_bits, record_words, voice_count};
ghost use Rattle.machine.specs.Words.{wait_mask_word, is_vector, waiting_voices, with_mask};
ghost use Rattle.machine.specs.Kept.{in_voices, gathered_kept, sums_kept, shared_kept, Lanes};
ghost use Rattle.machine.specs.Check.{checked};
ghost use Rattle.machine.specs.Reset.{Resets};
ghost use Rattle.machine.specs.Reset.{reset_word};
ghost use Rattle.machine.specs.Waiting.{TellsWaiting};

mod view;

use answer::Refusal;
pub use view::Machine;

/// How many words a record has; how many voices it has, and how many words each.
pub const RECORD_WORDS: usize = 664;

pub const VOICES: usize = 32;

pub const VOICE_WORDS: usize = 20;

// Words are numbers, as the definitions have them: of an enum each would be a cast, `w[Word::K1 as
// usize]`.

/// The words of a voice, from its first.
pub const CR: usize = 0;

pub const FC: usize = 1;

pub const LVOL: usize = 2;

pub const LVRAMP: usize = 3;

pub const RVOL: usize = 4;

pub const RVRAMP: usize = 5;

pub const ECOUNT: usize = 6;

pub const K2: usize = 7;

pub const K2RAMP: usize = 8;

pub const K1: usize = 9;

pub const K1RAMP: usize = 10;

pub const START: usize = 11;

pub const END: usize = 12;

pub const ACCUM: usize = 13;

pub const O4N1: usize = 14;

pub const O3N1: usize = 15;

pub const O3N2: usize = 16;

pub const O2N1: usize = 17;

pub const O2N2: usize = 18;

pub const O1N1: usize = 19;

/// The words after the voices', which all voices share.
pub const PAGE: usize = 640;

pub const IRQV: usize = 641;

pub const PAR: usize = 642;

pub const ACTV: usize = 643;

pub const MODE: usize = 644;

pub const W_ST: usize = 645;

pub const W_END: usize = 646;

pub const LR_END: usize = 647;

pub const SLOW: usize = 648;

pub const WRITE_LATCH: usize = 649;

pub const READ_LATCH: usize = 650;

/// The channel sums, 0L, 0R to 5L, 5R, one for each value that a frame puts out; and the word after
/// the last.
pub const SUMS: usize = 651;

pub const OUTPUT_VALUES: usize = 12;

pub const SUMS_END: usize = SUMS + OUTPUT_VALUES;

/// The mask of the waiting voices: bit v is the interrupt flag of voice v.
pub const WAIT_MASK: usize = 663;

/// How many shared words there are.
pub const SHARED_WORDS: usize = 24;

/// What the interrupt vector holds where it names no voice.
// A number and no Option: it stands in the record, and is part of the C interface.
pub const NO_INTERRUPT: u32 = 128;

/// The greatest pot value, which PAR also holds after a reset and once it is read.
pub const POT_LIMIT: u32 = 1023;

// The bits kept by a filter word of a voice, and by a sum: the check holds four words at a time
// against one of these.
const FILTER_BITS: u32 = 0x3FFFF;

const SUM_BITS: u32 = 0x7F_FFFF;

// The bits kept by a voice's words, and by the shared words.
const VOICE_BITS: [u32; VOICE_WORDS] = [
    0xFFFF, // CR
    0x1FFFF, // FC
    0xFFFF, // LVOL
    0xFF00, // LVRAMP
    0xFFFF, // RVOL
    0xFF00, // RVRAMP
    0x1FF, // ECOUNT
    0xFFFF, // K2
    0xFF01, // K2RAMP
    0xFFFF, // K1
    0xFF01, // K1RAMP
    0xFFFF_F800, // START
    0xFFFF_FF80, // END
    0xFFFF_FFFF, // ACCUM
    FILTER_BITS, // O4(n-1)
    FILTER_BITS, // O3(n-1)
    FILTER_BITS, // O3(n-2)
    FILTER_BITS, // O2(n-1)
    FILTER_BITS, // O2(n-2)
    FILTER_BITS, // O1(n-1)
];

const SHARED_BITS: [u32; SHARED_WORDS] = [
    0x7F, // PAGE
    0xFF, // IRQV
    0x3FF, // PAR
    0x1F, // ACTV
    0x1F, // MODE
    0x7F, // W_ST
    0x7F, // W_END
    0x7F, // LR_END
    0x7, // the slow-ramp counter
    0xFFFF_FFFF, // the write latch
    0xFFFF_FFFF, // the read latch
    SUM_BITS, // sum 0L
    SUM_BITS, // sum 0R
    SUM_BITS, // sum 1L
    SUM_BITS, // sum 1R
    SUM_BITS, // sum 2L
    SUM_BITS, // sum 2R
    SUM_BITS, // sum 3L
    SUM_BITS, // sum 3R
    SUM_BITS, // sum 4L
    SUM_BITS, // sum 4R
    SUM_BITS, // sum 5L
    SUM_BITS, // sum 5R
    0xFFFF_FFFF, // the mask
];

/// The bits that word i keeps.
#[tactic(auto, unfolding(crate::specs::Words::bits_of, crate::specs::Words::shared_bits))]
pub fn bits_of(i: usize) -> u32
    requires { i < record_words }
    ensures { result ≡ bits_of i }
{
    if i < PAGE {
        let j = i % VOICE_WORDS;
        VOICE_BITS[j]
    } else {
        let j = i - PAGE;
        SHARED_BITS[j]
    }
}

/// Whether a record may be used: its length, then its words and its mask, then the vector. The
/// stray bits of all words go into four lanes, so that the compiler takes four words at a time;
/// they are judged when all are in, and with them the bits in which the mask is false.
pub fn check(m: &[u32]) -> Result<(), Refusal>
    ensures { result ≡ checked m.now }
{
    let m: &[u32; RECORD_WORDS] = m.as_array().ok_or(Refusal::RecordLength)?;
    // Lent from a copy, the tables go into the code: where they are read as they lie, a call that
    // does no more than this check takes 543 instructions, and not 487.
    let kept = VOICE_BITS;
    let shared = SHARED_BITS;
    let mut stray = [0; 4];
    // Groups of four of a voice's words, by number: each group lies in all voices, and is no slice.
    for g in 0..4 {
        look_at_four(m, 4 * g, &kept, &mut stray);
    }
    look_at_rest(m, &shared, &mut stray);
    let false_bits = m[WAIT_MASK] ^ gather_flags(m);
    let stray = stray[0] | stray[1] | stray[2] | stray[3] | false_bits;
    if stray != 0 || !is_vector(m[IRQV]) {
        return Err(Refusal::RecordInvalid);
    }
    Ok(())
}

// Whether the interrupt vector names a voice, or none.
#[tactic(auto, unfolding(crate::specs::Words::is_vector))]
fn is_vector(x: u32) -> bool
    ensures { result ≡ is_vector x }
{
    x < VOICES as u32 || x == NO_INTERRUPT
}

// The stray bits of the voices' words j to j + 3 go into the lanes, a word to a lane.
fn look_at_four(m: &[u32; RECORD_WORDS], j: usize, kept: &[u32; VOICE_WORDS], stray: &mut [u32; 4])
    requires four_in_voice { j + 4 ≤ 20 }
    requires kept_is_voice_bits { kept.now ≡ voice_bits }
    requires lanes { Lanes stray.old (gathered_kept m.now j) }
    ensures { Lanes stray.new (gathered_kept m.now (j + 4)) }
{
    for (l, lane) in stray.iter_mut().enumerate() {
        let all = gather(m, j + l);
        *lane |= all ^ (all & kept[j + l]);
    }
}

// The stray bits of the voices' last four words, of the sums and of the words between go into the
// lanes. The last four words keep the same bits, and so do the sums; only the words between have
// bits of their own. They are eleven, so the last lane takes the first sum twice.
fn look_at_rest(m: &[u32; RECORD_WORDS], kept: &[u32; SHARED_WORDS], stray: &mut [u32; 4])
    requires kept_is_shared_bits { kept.now ≡ shared_bits }
    requires lanes { Lanes stray.old (gathered_kept m.now 16) }
    ensures { Lanes stray.new (gathered_kept m.now 20 && sums_kept m.now 4 && shared_kept m.now 4) }
{
    for (l, lane) in stray.iter_mut().enumerate() {
        let all = gather(m, O3N2 + l);
        let sums = m[SUMS + l] | m[SUMS + 4 + l] | m[SUMS + 8 + l];
        let low = m[PAGE + l];
        let middle = m[PAGE + 4 + l];
        let high = m[PAGE + 8 + l];
        *lane |= (all ^ (all & FILTER_BITS))
            | (sums ^ (sums & SUM_BITS))
            | (low ^ (low & kept[l]))
            | (middle ^ (middle & kept[4 + l]))
            | (high ^ (high & kept[8 + l]));
    }
}

// All bits that word j has in any voice. The word keeps the same bits in every voice, so what is
// gathered is held against them once.
fn gather(m: &[u32; RECORD_WORDS], j: usize) -> u32
    requires { j < 20 }
    ensures { result ≡ in_voices m.now j }
{
    let (voices, _) = m[..PAGE].as_chunks::<VOICE_WORDS>();
    let mut all = 0;
    for voice in voices {
        all |= voice[j];
    }
    all
}

// The mask that the control registers make. From the last voice down each flag joins those above
// it, which move up; all stand where CR has its flag until they are in, since a flag that stays
// where it is takes one instruction less. By a voice's number, as the mask has it: over the voices'
// parts it is no plainer, and costs the same.
fn gather_flags(m: &[u32; RECORD_WORDS]) -> u32
    ensures { result ≡ waiting_voices m.now }
{
    let mut flags: u64 = 0;
    for v in (0..VOICES).rev() {
        let cr = m[VOICE_WORDS * v + CR];
        flags = 2 * flags + u64::from(control::bit(control::IRQ, cr) << control::IRQ);
    }
    (flags >> control::IRQ) as u32
}

/// The mask is true of every other voice than v, whose flag is b now: it is made true.
// The record's length and the voice's number are asked here: as long as its mask is not true the
// record is no `Machine`.
#[tactic(auto, unfolding(crate::specs::Words::with_mask))]
pub fn mark(m: &mut [u32], v: usize, b: bool)
    requires has_record_length { length m.old ≡ record_words }
    requires is_voice { v < voice_count }
    requires mask_but_for_voice { waiting_voices m.old
        ≡ with_bit v (if b then 1 else 0) (slice_index m.old wait_mask_word) }
    ensures { m.new ≡ with_mask m.old }
{
    let mask = m[WAIT_MASK];
    m[WAIT_MASK] = control::put(v as u32, b, mask);
}

/// Which voices wait, for the host to see in one look.
// `done_long`: a record that is not refused has all its words.
#[tactic(auto, using(crate::proofs::Answers::done_long))]
pub fn waiting(m: &[u32]) -> Result<u32, Refusal>
    ensures { TellsWaiting m.now (answer_of result) (value_or 0 result) }
{
    check(m)?;
    Ok(m[WAIT_MASK])
}

/// The record as it is after power-on. The old contents do not matter; only a record of another
/// length is refused.
pub fn reset(m: &mut [u32]) -> Result<(), Refusal>
    ensures { Resets m.old result m.new }
{
    if m.len() != RECORD_WORDS {
        return Err(Refusal::RecordLength);
    }
    for (i, word) in m.iter_mut().enumerate() {
        *word = reset_word(i);
    }
    Ok(())
}

// Word i after a reset.
#[tactic(auto, unfolding(crate::specs::Reset::reset_word))]
fn reset_word(i: usize) -> u32
    ensures { result ≡ reset_word i }
{
    if i < PAGE {
        return if i % VOICE_WORDS == CR { 3 } else { 0 };
    }
    match i {
        IRQV => NO_INTERRUPT,
        PAR => POT_LIMIT,
        ACTV => 31,
        MODE => 23,
        _ => 0,
    }
}
