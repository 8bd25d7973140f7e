//! Bytes at a place of a slice: read as an array, and four of them put.
//! The number that they are is std's `from_le_bytes` or `from_be_bytes`, and the bytes of a number
//! are its `to_le_bytes`: `proofs/Endian` says that these are this crate's `little`, `big` and
//! `little_bytes`.
//! What the places of a file are is the format's own; here is only how its numbers are written.
#![tactic(auto)]

ghost use Rattle.std.specs.Prelude.{◌≡◌, ◌+◌, ◌≤◌, length};
ghost use Rattle.layout.specs.Parts.{part, with_part};

/// The N bytes from `at` on.
pub fn array_at<const N: usize>(bytes: &[u8], at: usize) -> [u8; N]
    requires { at + N ≤ length bytes.now }
    ensures { result ≡ part bytes.now at N }
{
    let mut array = [0; N];
    array.copy_from_slice(&bytes[at..at + N]);
    array
}

/// Four bytes in the place of those from `at` on.
pub fn put4(bytes: &mut [u8], at: usize, four: [u8; 4])
    requires { at + 4 ≤ length bytes.old }
    ensures { bytes.new ≡ with_part bytes.old at four }
{
    bytes[at..at + 4].copy_from_slice(&four);
}
