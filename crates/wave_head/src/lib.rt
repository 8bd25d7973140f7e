//! What a WAVE file begins with, in three pieces, which follow each other: its own head, the format
//! chunk, and the head of the data chunk.
#![tactic(auto)]

ghost use Rattle.std.specs.Prelude.{◌≡◌, ◌*◌, ◌≤◌, ◌<◌};
ghost use Rattle.wave_head.specs.Head.{riff_head, format_chunk, data_head};

/// The chip's frames a second, with all voices active and a clock of 16 MHz.
pub const RATE: u32 = 31250;

/// The bytes of the format chunk and of the data chunk's head.
pub const CHUNKS_BYTES: u32 = 32;

/// Before chunks that have so many bytes in all.
#[tactic(auto, using(layout::proofs::Endian::little_bytes_4), unfolding(crate::specs::Head::riff_head, layout::specs::Bytes::little, layout::specs::Bytes::little_bytes))]
pub fn riff_head(bytes: u32) -> [u8; 12]
    requires { bytes ≤ 4294967291 }
    ensures { result ≡ riff_head bytes }
{
    let n = (4 + bytes).to_le_bytes();
    [
        b'R', b'I', b'F', b'F', n[0], n[1], n[2], n[3], b'W', b'A', b'V', b'E',
    ]
}

/// PCM of 16 bits: so many channels, and samples a second.
#[tactic(auto, using(layout::proofs::Endian::little_bytes_2, layout::proofs::Endian::little_bytes_4), unfolding(crate::specs::Head::format_chunk, layout::specs::Bytes::little, layout::specs::Bytes::little_bytes))]
pub fn format_chunk(channels: u16, rate: u32) -> [u8; 24]
    requires channels_fit { channels < 32768 }
    requires rate_fits { 2 * channels * rate < 4294967296 }
    ensures { result ≡ format_chunk channels rate }
{
    let c = channels.to_le_bytes();
    let r = rate.to_le_bytes();
    let s = (2 * u32::from(channels) * rate).to_le_bytes();
    let b = (2 * channels).to_le_bytes();
    [
        b'f', b'm', b't', b' ', 16, 0, 0, 0, 1, 0, c[0], c[1], r[0], r[1], r[2], r[3], s[0], s[1],
        s[2], s[3], b[0], b[1], 16, 0,
    ]
}

/// Before so many bytes of sound.
#[tactic(auto, using(layout::proofs::Endian::little_bytes_4), unfolding(crate::specs::Head::data_head, layout::specs::Bytes::little, layout::specs::Bytes::little_bytes))]
pub fn data_head(bytes: u32) -> [u8; 8]
    ensures { result ≡ data_head bytes }
{
    let n = bytes.to_le_bytes();
    [b'd', b'a', b't', b'a', n[0], n[1], n[2], n[3]]
}
