//! A RIFF/WAVE file as its chunks: where they end, and the chunk at a place.
//! Nothing is copied: a chunk is its name, and the place and the number of its bytes in the file.
//! Whoever walks over the chunks has the place of the next one as a number.
#![tactic(auto)]

ghost use Rattle.std.specs.Prelude.{◌≡◌, ◌+◌, ◌≤◌, length};
ghost use Rattle.layout.specs.Bytes.{little4_at};
ghost use Rattle.chunks.specs.Kind.{kind_of};
ghost use Rattle.chunks.specs.Walk.{opened_of, reach_of};

/// How many bytes a file may have at most.
pub const MOST_FILE_BYTES: usize = 65536;

/// The byte of a file at which its first chunk begins.
pub const FIRST_CHUNK: usize = 12;

/// The bytes of a chunk's header, its name and its size.
pub const HEADER_BYTES: usize = 8;

// Names are four letters as a number, the first in its lowest byte. They are written as numbers,
// since a constant can't call `u32::from_le_bytes`.

// "RIFF" begins a file, and "WAVE" stands after its length.
const RIFF: u32 = 0x4646_4952;

const WAVE: u32 = 0x4556_4157;

// "fmt ", "data" and "smpl".
const FORMAT: u32 = 0x2074_6d66;

const DATA: u32 = 0x6174_6164;

const SAMPLER: u32 = 0x6c70_6d73;

/// A chunk: its name, the place of its first byte in the file, and how many bytes it has.
// No letters and no slice: the rules of a file (`named`, `samples_of`, `InFile`) and the theorem of
// tuning (`in_tune`) are over these three numbers.
#[derive(Clone, Copy, Debug, PartialEq, Eq)]
pub struct Chunk {
    pub name: u32,
    pub place: usize,
    pub size: usize,
}

/// What a chunk holds.
#[derive(Clone, Copy, Debug, PartialEq, Eq)]
pub enum Kind {
    /// What the samples are.
    Format,
    /// The samples.
    Data,
    /// How a sampler plays them.
    Sampler,
    /// Nothing that is read.
    Other,
}

impl Chunk {
    /// What it holds, by its name.
    #[tactic(auto, unfolding(layout::specs::Bytes::little))]
    pub fn kind(self) -> Kind
        ensures { result ≡ kind_of self.name }
    {
        match self.name {
            FORMAT => Kind::Format,
            DATA => Kind::Data,
            SAMPLER => Kind::Sampler,
            _ => Kind::Other,
        }
    }
}

/// The byte up to which a file's chunks go; none where it is too long, no RIFF/WAVE, or shorter
/// than it says.
#[tactic(auto, unfolding(crate::specs::Walk::opened_of, crate::specs::Chunks::is_headed, layout::specs::Bytes::little))]
pub fn open(file: &[u8]) -> Option<usize>
    ensures { result ≡ opened_of file.now }
{
    if file.len() > MOST_FILE_BYTES || file.len() < FIRST_CHUNK {
        return None;
    }
    if number_at(file, 0) != RIFF || number_at(file, 8) != WAVE {
        return None;
    }
    let size = number_at(file, 4) as usize;
    let end = HEADER_BYTES + size;
    (size >= 4 && end <= file.len()).then_some(end)
}

/// The chunk whose header begins at a place, and the place of the next; none where it runs past
/// the end. Its size may be any number of 32 bits, which a sum of 64 holds.
#[tactic(auto, unfolding(crate::specs::Walk::reach_of, crate::specs::Chunks::is_whole, crate::specs::Chunks::chunk_at))]
pub fn chunk_at(file: &[u8], end: usize, at: usize) -> Option<(Chunk, usize)>
    requires at_before_end { at ≤ end }
    requires end_in_bounds { end ≤ length file.now }
    ensures { result ≡ reach_of file.now end at }
{
    if end - at < HEADER_BYTES {
        return None;
    }
    let name = number_at(file, at);
    let size = number_at(file, at + 4) as usize;
    let place = at + HEADER_BYTES;
    let next = place + (size + size % 2);
    (next <= end).then_some((Chunk { name, place, size }, next))
}

// A number of four bytes, the lowest first. The laws of bytes one by one are named too, so that a
// body that takes them so is judged by its value.
#[tactic(auto, using(layout::proofs::Endian::little_4, layout::proofs::Endian::little_4_at, layout::proofs::Bytes::part_4))]
fn number_at(file: &[u8], at: usize) -> u32
    requires { at + 4 ≤ length file.now }
    ensures { result ≡ little4_at file.now at }
{
    u32::from_le_bytes(layout::array_at(file, at))
}
