//! Plays a score on one machine and prints what each call answers. What a score is, and which calls
//! it asks for, is the crate `scores`.
//!
//! Each call gives one line: the answer's number, for a read also the byte, for the question which
//! voices wait also their mask, for a frame also how many words were missing and the twelve values.
//! A command, in full, that makes no call gives the line "no call". A last command that is cut
//! short is left out, and so is all that stands after 65,536 bytes; a score whose sample memory is
//! cut short, or that has more than 65,536 commands in full, gives no line. A read or a write that
//! fails ends the program with its error; what was written until then stands.
#![tactic(auto)]

ghost use Rattle.std.specs.Prelude.{◌≤◌, length, OnOk};
ghost use Rattle.std.specs.Io.KnownBytes.{Appends};
ghost use Rattle.scores.specs.Score.{most_bytes, memory_bytes};
ghost use Rattle.score.specs.Values.{value_text, values_text};

use answer::Refusal;
use arrayvec::ArrayVec;
use calls::Ask;
use repeats::COMMAND_BYTES;
use scores::Command;
use std::io::{self, Write};

// A space, a sign and the digits of 64 bits.
const FIELD_BYTES: usize = 21;

// An array and how much of it was read, and no `Vec` that `read_to_end` fills: no memory is asked
// for, and a read that a signal interrupts ends the program, where `read_to_end` begins it again.
fn main(rt: HostRuntime) -> io::Result<()> {
    let mut input = [0; scores::MOST_BYTES];
    let n = streams::read_full(&mut rt.reader(), &mut input)?;
    if scores::MEMORY_BYTES <= n {
        let mut full = [0; scores::MOST_FULL_BYTES];
        play(&mut io::writer(&rt), &input[..n], &mut full)?;
    }
    Ok(())
}

// Its commands in full, on a record that is not valid at first.
fn play<W: Write>(out: &mut W, score: &[u8], full: &mut [u8]) -> io::Result<()>
    requires { (memory_bytes ≤ length score.now) × (length score.now ≤ most_bytes) }
{
    let commands = &score[scores::MEMORY_BYTES..];
    if full.len() < repeats::full_bytes(commands) {
        return Ok(());
    }
    let n = repeats::put_in_full(commands, full);
    let mut memory = [0; scores::MEMORY_WORDS];
    scores::fill(&mut memory, score);
    let mut m = [scores::FIRST_WORD; machine::RECORD_WORDS];
    let (whole, _) = full[..n].as_chunks::<COMMAND_BYTES>();
    for command in whole {
        obey(out, &mut m, &memory, Command::from(*command))?;
    }
    Ok(())
}

// A command's calls.
fn obey<W: Write>(out: &mut W, m: &mut [u32], memory: &[u16], command: Command) -> io::Result<()> {
    match command {
        Command::Once(ask) => make(out, m, memory, ask),
        Command::Frames(0) | Command::Nothing => writeln!(out, "no call"),
        Command::Frames(count) => {
            for _ in 0..count {
                make(out, m, memory, Ask::Frame)?;
            }
            Ok(())
        }
    }
}

// A call, and its line.
fn make<W: Write>(out: &mut W, m: &mut [u32], memory: &[u16], ask: Ask) -> io::Result<()> {
    let mut values = [0; machine::OUTPUT_VALUES];
    let answer = calls::perform(m, ask, memory, &mut values);
    put_answer(out, ask, answer)?;
    if let Ask::Frame = ask {
        put_values(out, &values)?;
    }
    writeln!(out, "")
}

// The answer's number, and after a space the number that the call gives, which is 0 where it is
// refused. A call that gives none has none there.
fn put_answer<W: Write>(out: &mut W, ask: Ask, answer: Result<u32, Refusal>) -> io::Result<()> {
    let number = answer::number(answer);
    write!(out, "{number}")?;
    if let Ask::Read(_) | Ask::Waiting | Ask::Frame = ask {
        put_field(out, i64::from(answer.unwrap_or(0)))?;
    }
    Ok(())
}

// A frame's values, each after a space.
fn put_values<W: Write>(out: &mut W, values: &[i32]) -> io::Result<()>
    ensures { OnOk result
        (Appends (W.contents out.old) (W.contents out.new) (values_text values.now)) }
{
    for value in values {
        put_field(out, i64::from(*value))?;
    }
    Ok(())
}

// A number after a space, handed on at once: a device that takes a write whole or not at all holds
// whole fields of a line.
fn put_field<W: Write>(out: &mut W, number: i64) -> io::Result<()>
    ensures { OnOk result (Appends (W.contents out.old) (W.contents out.new) (value_text number)) }
{
    let mut field = ArrayVec::<u8, FIELD_BYTES>::new();
    write!(field, " {number}")?;
    out.write_all(field.as_slice())
}
