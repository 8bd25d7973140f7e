//! Commands of four bytes, of which some repeat others, and the same commands in full.
//! A command is a kind, a number of two bytes, the high one first, and one byte. Kind 7 is a
//! repeat: as many commands as its byte says, once more, from the one on that stands, in full, as
//! many before it as its number says. One that goes back past the first command, or that asks for
//! more commands than it goes back by, stands for itself; so does every command of another kind, of
//! which nothing is known here.
//!
//! In order: a repeat; how many bytes there are in full; the commands in full.
#![tactic(auto)]

ghost use Rattle.std.specs.Prelude.{◌≡◌, if◌then◌else◌, ◌+◌, ◌≤◌, length, take};
ghost use Rattle.layout.specs.Parts.{with_part};
ghost use Rattle.repeats.specs.Repeats.{command_bytes, back_at, asked_at, repeats_at, stands_for};
ghost use Rattle.repeats.specs.Repeats.{in_full};

/// Of a command.
pub const COMMAND_BYTES: usize = 4;

/// The kind of a repeat.
pub const REPEAT: u8 = 7;

// ---- a repeat

// By how many bytes a command goes back.
#[tactic(auto, using(crate::proofs::Command::number_is))]
fn back(command: [u8; COMMAND_BYTES]) -> usize
    ensures { result ≡ back_at command 0 }
{
    let [_, high, low, _] = command;
    COMMAND_BYTES * usize::from(u16::from_be_bytes([high, low]))
}

// How many bytes it asks for: those of 255 commands at most, so that no sum of them wraps.
fn asked(command: [u8; COMMAND_BYTES]) -> usize
    ensures value { result ≡ asked_at command 0 }
    ensures few { result ≤ 1020 }
{
    COMMAND_BYTES * usize::from(command[3])
}

// Whether it repeats others, where so many bytes in full stand before it. (A truth and no range to
// be copied: bytes in full are counted by it too, where there is nothing to copy.)
#[tactic(auto, unfolding(crate::specs::Repeats::repeats_at))]
fn repeats_others(command: [u8; COMMAND_BYTES], before: usize) -> bool
    ensures { result ≡ repeats_at command 0 before }
{
    let back = back(command);
    let asked = asked(command);
    command[0] == REPEAT && asked <= back && back <= before
}

// ---- how many bytes there are in full

/// Of no more bytes than a score has, so that the sum does not wrap.
pub fn full_bytes(commands: &[u8]) -> usize
    requires { length commands.now ≤ 65536 }
    ensures { result ≡ length (in_full commands.now) }
{
    let (whole, _) = commands.as_chunks::<COMMAND_BYTES>();
    let mut n = 0;
    for command in whole {
        n += stands_bytes(*command, n);
    }
    n
}

// Of what a command stands for, where so many bytes stand before it. (`put_stands_for` is the same
// with the bytes: how many they are is asked before there is room for them.)
fn stands_bytes(command: [u8; COMMAND_BYTES], before: usize) -> usize
    ensures value { result ≡ (if repeats_at command 0 before then asked_at command 0
        else command_bytes) }
    ensures few { result ≤ 1020 }
{
    if repeats_others(command, before) {
        asked(command)
    } else {
        COMMAND_BYTES
    }
}

// ---- the commands in full

/// Puts them at the start of `full`, and answers how many bytes they are.
// The room is lent, and no `Vec` is handed back: so it can't fail, and needs no allocator.
pub fn put_in_full(commands: &[u8], full: &mut [u8]) -> usize
    requires { length (in_full commands.now) ≤ length full.old }
    ensures value { result ≡ length (in_full commands.now) }
    ensures full_after { full.new ≡ with_part full.old 0 (in_full commands.now) }
{
    let (whole, _) = commands.as_chunks::<COMMAND_BYTES>();
    let mut n = 0;
    for command in whole {
        n += put_stands_for(*command, full, n);
    }
    n
}

// What a command stands for, put after the first n bytes; answers how many bytes that is.
fn put_stands_for(command: [u8; COMMAND_BYTES], full: &mut [u8], n: usize) -> usize
    requires { n + length (stands_for (take n full.old) command 0) ≤ length full.old }
    ensures value { result ≡ length (stands_for (take n full.old) command 0) }
    ensures full_after { full.new ≡ with_part full.old n (stands_for (take n full.old) command 0) }
{
    if repeats_others(command, n) {
        let from = n - back(command);
        let asked = asked(command);
        full.copy_within(from..from + asked, n);
        asked
    } else {
        layout::put4(full, n, command);
        COMMAND_BYTES
    }
}
