//! Imports a WAVE file: its samples go into a part of the lent sample memory, and its loop is
//! answered as registers.
//! In order: the call; where the samples go, or why the file is refused; the loop as registers; the
//! refusals' tests; the samples. The part of the memory that the samples go into is lent to the
//! function that copies them, which sees no other word.
//!
//! Time: a round of the copy takes two bytes, so there are at most 32,746, beside the rounds over
//! the file's chunks. There is no other loop.
#![tactic(auto)]

ghost use Rattle.std.specs.Prelude.{◌≡◌, ◌*◌, ◌^◌, ◌≤◌, length};
ghost use Rattle.layout.specs.Parts.{with_part};
ghost use Rattle.layout.specs.Bytes.{little, twos};
ghost use Rattle.chunks.specs.Chunks.{most_file_bytes};
ghost use Rattle.wave.specs.Wave.{samples_of};
ghost use Rattle.wave_in.specs.Registers.{register_at, start_of, end_of, type_bits, loop_bits};
ghost use Rattle.wave_in.specs.Import.{is_loop_invalid, has_no_place, outcome_of, Imports};
ghost use Rattle.wave_in.specs.Steps.{settled_of, Placeable};

use answer::Refusal;
use chunks::Chunk;
use wave::Loop;

// END is a number of whole samples, so it fits its register exactly where it is not greater.
const GREATEST_OF_32_BITS: usize = 4294967295;

/// What an import gives. Without a loop START, END and the bits are 0.
// Zeros and no Option: these are the four numbers of the C interface.
#[derive(Clone, Copy, Debug, Default, PartialEq, Eq)]
pub struct Taken {
    /// START and END, within the bank.
    pub start: u32,
    pub end: u32,
    /// The loop bits BLE, LPE and DIR at their places in CR.
    pub bits: u32,
    /// How many samples were written.
    pub samples: u32,
}

/// Writes a file's samples into the memory, from a word on, and gives its loop as registers. A
/// refusal writes nothing.
pub fn import(file: &[u8], memory: &mut [u16], word: usize) -> Result<Taken, Refusal>
    ensures { Imports file.now memory.old word (outcome_of result) memory.new }
{
    let (pcm, looped) = settle(file, memory.len(), word)?;
    fill(file, pcm, memory, word);
    Ok(Taken {
        start: start_of(word, looped) as u32,
        end: end_of(word, looped) as u32,
        bits: loop_bits(looped),
        samples: (pcm.size / 2) as u32,
    })
}

// The samples' chunk and the loop, or the refusals in their order.
#[tactic(auto, unfolding(crate::specs::Steps::settled_of, crate::specs::Import::import_answer))]
fn settle(file: &[u8], room: usize, word: usize) -> Result<(Chunk, Option<Loop>), Refusal>
    ensures { result ≡ settled_of file.now room word }
{
    if sample::MOST_MEMORY_WORDS < room {
        return Err(Refusal::MemoryLength);
    }
    let found = wave::parse(file).ok_or(Refusal::FileBroken)?;
    let (format, pcm) = found.format_and_data().ok_or(Refusal::ChunkCount)?;
    let is_odd = pcm.size % 2 == 1;
    if !wave::is_mono16(file, format) || is_odd {
        return Err(Refusal::SampleFormat);
    }
    let looped = wave::first_loop(file, found.sampler);
    let count = pcm.size / 2;
    if is_loop_invalid(count, looped) {
        return Err(Refusal::LoopInvalid);
    }
    if has_no_place(room, word, count, looped) {
        return Err(Refusal::NoPlace);
    }
    Ok((pcm, looped))
}

// ---- the loop as registers

#[tactic(auto, unfolding(crate::specs::Registers::start_of))]
fn start_of(word: usize, looped: Option<Loop>) -> usize
    ensures { result ≡ start_of word looped }
{
    looped.map_or(0, |l| register_at(word, l.start as usize))
}

#[tactic(auto, unfolding(crate::specs::Registers::end_of))]
fn end_of(word: usize, looped: Option<Loop>) -> usize
    ensures { result ≡ end_of word looped }
{
    looped.map_or(0, |l| register_at(word, l.last as usize + 1))
}

fn register_at(word: usize, sample: usize) -> usize
    requires { sample ≤ 2 ^ 32 }
    ensures { result ≡ register_at word sample }
{
    (word % sample::BANK_WORDS as usize + sample) * sample::WHOLE_SAMPLE as usize
}

#[tactic(auto, unfolding(crate::specs::Registers::loop_bits))]
fn loop_bits(looped: Option<Loop>) -> u32
    ensures { result ≡ loop_bits looped }
{
    looped.map_or(0, |l| type_bits(l.form))
}

// The type stays the file's number: it is looked at here and in `is_loop_invalid`, and an enum of
// the three would have to be made of it in both.
fn type_bits(form: u32) -> u32
    ensures { result ≡ type_bits form }
{
    let one = control::with_bit(control::LPE, true, 0);
    match form {
        1 => control::with_bit(control::BLE, true, one),
        2 => control::with_bit(control::DIR, true, one),
        _ => one,
    }
}

// ---- refusals

#[tactic(auto, unfolding(crate::specs::Import::is_loop_invalid))]
fn is_loop_invalid(count: usize, looped: Option<Loop>) -> bool
    ensures { result ≡ is_loop_invalid count looped }
{
    looped.is_some_and(|l| count <= l.last as usize || l.last < l.start || 2 < l.form)
}

// The named word may be any number, so that its sum with the count might not fit: the count is
// taken from the room.
#[tactic(auto, using(crate::proofs::Placed::end_test), unfolding(crate::specs::Import::has_no_place))]
fn has_no_place(room: usize, word: usize, count: usize, looped: Option<Loop>) -> bool
    requires { count ≤ most_file_bytes }
    ensures { result ≡ has_no_place room word count looped }
{
    let bank_words = sample::BANK_WORDS as usize;
    room < count
        || room - count < word
        || bank_words < word % bank_words + count
        || GREATEST_OF_32_BITS < end_of(word, looped)
}

// ---- the samples

// The samples of a chunk into the memory, from a word on.
fn fill(file: &[u8], pcm: Chunk, memory: &mut [u16], word: usize)
    requires { Placeable file.now pcm (length memory.old) word }
    ensures { memory.new ≡ with_part memory.old word (samples_of file.now pcm) }
{
    let samples = &mut memory[word..word + pcm.size / 2];
    copy(samples, &file[pcm.place..pcm.place + pcm.size]);
}

// Bytes by twos, the lowest first, into just as many words.
fn copy(words: &mut [u16], bytes: &[u8])
    requires { length bytes.now ≡ 2 * length words.old }
    ensures { words.new ≡ twos little bytes.now }
{
    let (pairs, _) = bytes.as_chunks::<2>();
    // By number, as in `scores::fill`, which reads the other order: a proof knows nothing of what a
    // `zip` with the words to be changed goes over.
    for (i, word) in words.iter_mut().enumerate() {
        *word = u16::from_le_bytes(pairs[i]);
    }
}
