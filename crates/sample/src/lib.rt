//! The sample of a voice: the two words that it fetches from sample memory, where they are there;
//! how many were missing; what a word stands for, and the value between two.
#![tactic(auto)]

ghost use Rattle.std.specs.Prelude.{◌≡◌, if◌then◌else◌, ◌+◌, ◌*◌, ◌^◌, ◌<◌, length};
ghost use Rattle.numbers.specs.Numbers.{Bits};
ghost use Rattle.sample.specs.Sample.{as_word, word_at, fetched, missing_of, sample_of};
ghost use Rattle.sample.specs.Sample.{interpolated, sampled, bank_words};
ghost use Rattle.sample.specs.Lasts.{last_of, Lasts};

/// How many words a bank has.
pub const BANK_WORDS: u32 = 2097152;

/// How many words the memory may have at most: four banks.
pub const MOST_MEMORY_WORDS: usize = 4 * 2097152;

/// What one sample is in START, END and ACCUM.
pub const WHOLE_SAMPLE: u32 = 2048;

/// Sample memory as voices read it, with the last word of each bank that is lent: made once for all
/// fetches.
#[derive(Clone, Copy, Debug)]
pub struct Samples<'a> {
    /// The words that are lent, from the first of bank 0.
    pub memory: &'a [u16],
    lasts: [usize; 4],
    ghost last_words: { Lasts (length memory.now) lasts },
}

impl<'a> Samples<'a> {
    /// The memory that is lent.
    pub fn new(memory: &'a [u16]) -> Samples<'a>
        ensures { result.memory.now ≡ memory.now }
    {
        Samples {
            memory,
            lasts: lasts(memory.len()),
        }
    }

    /// The value between the two samples that the voice is at, of 18 bits. How many of their words
    /// are missing is added to `missing`. They are counted before it is asked what they stand for:
    /// then the compiler counts nothing on the way of a fetch that has both by one test.
    // `missing` is lent and not handed back: added up by each caller it took twelve instructions
    // more a voice.
    pub fn interpolate(&self, cr: u32, accum: u32, missing: &mut u32) -> i32
        requires cr_in_range { cr < 65536 }
        requires missing_fits { missing.old + 2 < 2 ^ 32 }
        ensures value { (result ≡ sampled self.now.memory.now cr accum) × Bits 18 result }
        ensures missing_after { missing.new ≡ missing.old + missing_of
            (fetched self.now.memory.now cr accum) }
    {
        let (first, second) = self.fetch(cr, accum);
        tally(first, missing);
        tally(second, missing);
        let s1 = sample_of(cr, first.unwrap_or(0));
        let s2 = sample_of(cr, second.unwrap_or(0));
        blend(accum % WHOLE_SAMPLE / 4, s1, s2)
    }

    /// The two words that the voice is at; None for one that is not there.
    // That CR has 16 bits is a clause here, at `interpolate` and at `address::step`: a type of it
    // would be made of the voice's word at each call, and owe the same there.
    pub fn fetch(&self, cr: u32, accum: u32) -> (Option<u16>, Option<u16>)
        requires { cr < 65536 }
        ensures first { as_word result.0 ≡ (fetched self.now.memory.now cr accum).first }
        ensures second { as_word result.1 ≡ (fetched self.now.memory.now cr accum).second }
    {
        let bank = control::bank(cr);
        let i = accum / WHOLE_SAMPLE;
        let at = place(bank, i);
        let last = self.lasts[bank as usize];
        // Below the bank's last word the second is the next, and both are lent: one test for all
        // three.
        if at < last {
            return (Some(self.memory[at]), Some(self.memory[at + 1]));
        }
        let next = place(bank, (i + 1) % BANK_WORDS);
        (self.word_at(at), self.word_at(next))
    }

    // A word of the memory.
    fn word_at(&self, at: usize) -> Option<u16>
        ensures { as_word result ≡ word_at self.now.memory.now at }
    {
        self.memory.get(at).copied()
    }
}

// One more where a word was missing.
fn tally(word: Option<u16>, missing: &mut u32)
    requires { missing.old + 1 < 2 ^ 32 }
    ensures { missing.new ≡ missing.old + (if (as_word word).there then 0 else 1) }
{
    if word.is_none() {
        *missing += 1;
    }
}

// The word of the memory that is word i of a bank.
fn place(bank: u32, i: u32) -> usize
    requires is_bank { bank < 4 }
    requires is_in_bank { i < bank_words }
    ensures { result ≡ bank * bank_words + i }
{
    (bank * BANK_WORDS + i) as usize
}

// What a word stands for.
fn sample_of(cr: u32, w: u16) -> i32
    ensures { (result ≡ sample_of cr w) × Bits 16 result }
{
    if control::flag(control::CMPD, cr) {
        i32::from(codes::expand((w / 256) as u8))
    } else {
        i32::from(w.cast_signed())
    }
}

// The value between two samples, f of 512 parts on from the first. f stands in ACCUM from bit 2 on,
// so where f is multiplied by 4 the compiler masks ACCUM and shifts nothing.
fn blend(f: u32, s1: i32, s2: i32) -> i32
    requires f_in_range { f < 512 }
    requires s1_fits { Bits 16 s1 }
    requires s2_fits { Bits 16 s2 }
    ensures { (result ≡ interpolated f s1 s2) × Bits 18 result }
{
    4 * s1 + ((4 * f as i32 * (s2 - s1)) >> 9)
}

/// Of each bank the last word that is lent, where n words of memory are.
pub fn lasts(n: usize) -> [usize; 4]
    ensures { Lasts n result }
{
    std::array::from_fn(|b| last(n, b))
}

// That of bank b. Where nothing of the bank is lent, no place in the bank is below it.
#[tactic(auto, unfolding(crate::specs::Lasts::last_of))]
fn last(n: usize, b: usize) -> usize
    requires { b < 4 }
    ensures { result ≡ last_of n b }
{
    let to = BANK_WORDS as usize * (b + 1);
    n.min(to).saturating_sub(1)
}
