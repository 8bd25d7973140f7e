//! What a WAVE file holds: its format, its data, its first loop; or that it is broken.
//! In order: the file, by one pass over its chunks; what is kept of them; the format; the sampler.
//! No byte of the file is copied: what is found is places in it.
//!
//! Time: a round of the pass goes on by eight bytes or more, or is the last, so a file of 65,536
//! bytes has at most 8,191. There is no other loop.
#![tactic(auto)]

ghost use Rattle.std.specs.Prelude.{◌≡◌, IsFalse, if◌then◌else◌, Some, None, ◌≤◌, length};
ghost use Rattle.chunks.specs.Chunks.{chunks_from, first_chunk};
ghost use Rattle.wave.specs.Wave.{is_short, is_mono16, is_sampler_short, format_bytes};
ghost use Rattle.wave.specs.Parse.{first_kept, kept_more, with_chunk, once_both, collected_of};
ghost use Rattle.wave.specs.Parse.{parsed_of, first_sampler_short_of, loop_of_kept, InFile};
ghost use Rattle.wave.specs.Parse.{FirstInFile};

use chunks::{Chunk, Kind};

// Bytes that a format chunk has at least, and a sampler chunk; and those of each loop after them.
const FORMAT_BYTES: usize = 16;

const SAMPLER_BYTES: usize = 36;

const LOOP_BYTES: usize = 24;

// Where a sampler chunk has the number of its loops.
const LOOP_COUNT: usize = 28;

/// The first loop of a file: its type (`type` is a word of the language), its first sample and its
/// last.
// The type is a number, since a file with one that is unknown parses: `import_tests` asks for its
// format (22) before it asks for its loop (23).
#[derive(Clone, Copy, Debug, PartialEq, Eq)]
pub struct Loop {
    pub form: u32,
    pub start: u32,
    pub last: u32,
}

/// What is kept of the chunks of a name: the first, and whether it is the only one.
#[derive(Clone, Copy, Debug, Default, PartialEq, Eq)]
pub enum Kept {
    #[default]
    Missing,
    Once(Chunk),
    Again(Chunk),
}

impl Kept {
    /// The first of them.
    pub fn first(self) -> Option<Chunk>
        ensures { result ≡ first_kept self }
    {
        match self {
            Kept::Missing => None,
            Kept::Once(first) | Kept::Again(first) => Some(first),
        }
    }

    fn add(&mut self, c: Chunk)
        ensures { self.new ≡ kept_more c self.old }
    {
        *self = match *self {
            Kept::Missing => Kept::Once(c),
            Kept::Once(first) | Kept::Again(first) => Kept::Again(first),
        };
    }
}

/// What one pass keeps. (The data chunk is `pcm`.)
#[derive(Clone, Copy, Debug, Default, PartialEq, Eq)]
pub struct Found {
    pub format: Kept,
    pub pcm: Kept,
    pub sampler: Kept,
}

impl Found {
    /// The format and the data, where each is there just once.
    pub fn format_and_data(self) -> Option<(Chunk, Chunk)>
        ensures { result ≡ once_both self }
    {
        match (self.format, self.pcm) {
            (Kept::Once(format), Kept::Once(pcm)) => Some((format, pcm)),
            _ => None,
        }
    }

    // One more chunk; None for a format chunk that has less than it must.
    #[tactic(auto, unfolding(layout::specs::Bytes::little))]
    fn add(&mut self, c: Chunk) -> Option<()>
        ensures full { result ≡ (if is_short c then None else Some tt) }
        ensures kept { self.new ≡ (if is_short c then self.old else with_chunk c self.old) }
    {
        match c.kind() {
            Kind::Format if c.size < FORMAT_BYTES => return None,
            Kind::Format => self.format.add(c),
            Kind::Data => self.pcm.add(c),
            Kind::Sampler => self.sampler.add(c),
            Kind::Other => {}
        }
        Some(())
    }
}

/// What a file that is not broken holds.
pub fn parse(file: &[u8]) -> Option<Found>
    ensures { result ≡ parsed_of file.now }
{
    let end = chunks::open(file)?;
    let found = collect(file, end)?;
    match found.sampler.first() {
        Some(sampler) if is_sampler_short(file, sampler) => None,
        _ => Some(found),
    }
}

// One pass over the chunks.
fn collect(file: &[u8], end: usize) -> Option<Found>
    requires first_before_end { first_chunk ≤ end }
    requires end_in_bounds { end ≤ length file.now }
    ensures { result ≡ collected_of (chunks_from end file.now end first_chunk) }
{
    let mut found = Found::default();
    // A chunk tells where the next one is: no range or iterator has the places.
    let mut at = chunks::FIRST_CHUNK;
    while at < end {
        let (chunk, next) = chunks::chunk_at(file, end, at)?;
        found.add(chunk)?;
        at = next;
    }
    Some(found)
}

// ---- the format

// `InFile` is a clause of the three that read a chunk: a type of a file and a chunk would owe the
// same where it is made, and it would be made in each call.

/// Whether the samples are PCM of 16 bits and one channel.
#[tactic(auto, using(layout::proofs::Endian::little_2_at), unfolding(crate::specs::Wave::is_mono16))]
pub fn is_mono16(file: &[u8], c: Chunk) -> bool
    requires in_file { InFile file.now c }
    requires format_is_whole { format_bytes ≤ c.size }
    ensures { result ≡ is_mono16 file.now c }
{
    let place = c.place;
    u16::from_le_bytes(layout::array_at(file, place)) == 1
        && u16::from_le_bytes(layout::array_at(file, place + 2)) == 1
        && u16::from_le_bytes(layout::array_at(file, place + 14)) == 16
}

// ---- the sampler

#[tactic(auto, using(layout::proofs::Endian::little_4_at), unfolding(crate::specs::Wave::is_sampler_short))]
fn is_sampler_short(file: &[u8], c: Chunk) -> bool
    requires { InFile file.now c }
    ensures { result ≡ is_sampler_short file.now c }
{
    if c.size < SAMPLER_BYTES {
        return true;
    }
    let loops = u32::from_le_bytes(layout::array_at(file, c.place + LOOP_COUNT)) as usize;
    c.size < SAMPLER_BYTES + LOOP_BYTES * loops
}

/// The first loop of the first sampler chunk, if there is one.
#[tactic(auto, using(layout::proofs::Endian::little_4_at), unfolding(crate::specs::Wave::is_sampler_short, crate::specs::Wave::loop_in))]
pub fn first_loop(file: &[u8], k: Kept) -> Option<Loop>
    requires in_file { FirstInFile file.now k }
    requires sampler_is_whole { IsFalse (first_sampler_short_of file.now k) }
    ensures { result ≡ loop_of_kept file.now k }
{
    let place = k.first()?.place;
    if u32::from_le_bytes(layout::array_at(file, place + LOOP_COUNT)) == 0 {
        return None;
    }
    let i = place + SAMPLER_BYTES;
    Some(Loop {
        form: u32::from_le_bytes(layout::array_at(file, i + 4)),
        start: u32::from_le_bytes(layout::array_at(file, i + 8)),
        last: u32::from_le_bytes(layout::array_at(file, i + 12)),
    })
}
