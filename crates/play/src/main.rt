//! Plays a score from standard input and writes what is heard of it as a WAVE file: stereo, 16
//! bits, 31,250 samples a second.
//! On standard error it says how far it is, and at the end the loudest sample and how many calls
//! were refused. A score that is not good gives a line there and nothing else, and the status 2 (1
//! where the line cannot be written). What a score is, and what is heard of it, is the crate
//! `scores`. A failed read or write of standard input or output ends the program with its error and
//! the status 1; what was written until then stands.
#![tactic(auto)]

ghost use Rattle.std.specs.Prelude.{◌≡◌, ◌*◌, ◌≤◌, length, take, OnOk};
ghost use Rattle.std.specs.Io.KnownBytes.{Appends};
ghost use Rattle.wave_head.specs.Head.{sound_head};
ghost use Rattle.scores.specs.Score.{most_full_bytes, most_frames, Good, commands_of, verdict_of};
ghost use Rattle.scores.specs.Sound.{sample_size};
ghost use Rattle.scores.specs.Playing.{heard_from, left_from};
ghost use Rattle.play.specs.Wave.{WritesSound};

use repeats::COMMAND_BYTES;
use scores::Position;
use std::io::{self, Eprint, Write};
use std::process::ExitCode;

// The status where the score is not good.
const NOT_GOOD: u8 = 2;

// One byte more than a score may have is read, so that a longer one is seen. Nothing is written
// before the whole score is known to be good.
// An array and how much of it was read, and no `Vec` that `read_to_end` fills: no memory is asked
// for, and a read that a signal interrupts ends the program, where `read_to_end` begins it again.
fn main(rt: HostRuntime) -> io::Result<ExitCode> {
    let mut input = [0; 65537];
    let n = streams::read_full(&mut rt.reader(), &mut input)?;
    let score = &input[..n];
    let mut full = [0; scores::MOST_FULL_BYTES];
    match scores::judge(score, &mut full) {
        Ok(()) => play(&rt, &mut io::writer(&rt), score, &full)?,
        Err(error) => {
            eprintln!(rt; "play: {error}")?;
            return Ok(ExitCode::from(NOT_GOOD));
        }
    }
    Ok(ExitCode::SUCCESS)
}

// A good score, whose commands stand in full at the start of `full`.
fn play<W: Write>(rt: &impl Eprint, file: &mut W, score: &[u8], full: &[u8]) -> io::Result<()>
    requires { (verdict_of score.now ≡ Good) × (length full.now ≡ most_full_bytes)
        × (take (length (commands_of score.now)) full.now ≡ commands_of score.now) }
    ensures { OnOk result (WritesSound (W.contents file.old) (W.contents file.new) score.now) }
{
    let n = repeats::full_bytes(&score[scores::MEMORY_BYTES..]);
    sound(rt, file, score, &full[..n])
}

// The head of the file, and then the sound.
fn sound<W: Write>(rt: &impl Eprint, file: &mut W, score: &[u8], commands: &[u8]) -> io::Result<()>
    requires { (verdict_of score.now ≡ Good) × (commands.now ≡ commands_of score.now) }
    ensures { OnOk result (WritesSound (W.contents file.old) (W.contents file.new) score.now) }
{
    let mut memory = [0; scores::MEMORY_WORDS];
    scores::fill(&mut memory, score);
    let frames = scores::frames_of(commands);
    put_head(file, (scores::SAMPLE_BYTES as u64 * frames) as u32)?;
    let mut m = [scores::FIRST_WORD; machine::RECORD_WORDS];
    render(rt, file, &mut m, &memory, commands, frames)
}

// What stands before so many bytes of sound.
fn put_head<W: Write>(file: &mut W, bytes: u32) -> io::Result<()>
    requires { bytes ≤ sample_size * most_frames }
    ensures { OnOk result
        (Appends (W.contents file.old) (W.contents file.new) (sound_head 2 31250 bytes)) }
{
    file.write_all(&wave_head::riff_head(wave_head::CHUNKS_BYTES + bytes))?;
    file.write_all(&wave_head::format_chunk(2, wave_head::RATE))?;
    file.write_all(&wave_head::data_head(bytes))
}

// The score in parts, of 16,384 calls each. A score has at most 2^32 calls, so that no sum here
// wraps.
fn render<W: Write>(
    rt: &impl Eprint,
    file: &mut W,
    m: &mut [u32],
    memory: &[u16],
    commands: &[u8],
    frames: u64,
) -> io::Result<()>
    ensures { OnOk result
        (Appends (W.contents file.old) (W.contents file.new)
        (heard_from m.old (left_from memory.now commands.now 0 0))) }
{
    // One array for all parts, each of which fills some of it: no memory is asked for.
    let mut part = part_buffer();
    let mut position = Position::default();
    let mut played: u64 = 0;
    let mut refused: u64 = 0;
    let mut loud = 0;
    say_progress(rt, 0, frames);
    // A part tells where the next one begins.
    while position.command < commands.len() / COMMAND_BYTES {
        let next = scores::play(m, memory, commands, position, &mut part);
        loud = put(file, &part, next.frames, loud)?;
        played = played.wrapping_add(next.frames as u64);
        refused = refused.wrapping_add(next.refused as u64);
        position = next.position;
        say_progress(rt, played, frames);
    }
    say_end(rt, loud, refused);
    Ok(())
}

// Room for the sound of a part. A function of its own, so that the proof of `render` has the length
// and not the list.
fn part_buffer() -> [u8; 65536]
    ensures { 65536 ≡ length result }
{
    [0; 65536]
}

// The first frames of a part; answers the loudest sample until then.
fn put<W: Write>(file: &mut W, part: &[u8], frames: usize, loud: u32) -> io::Result<u32>
    requires { sample_size * frames ≤ length part.now }
    ensures { OnOk result
        (Appends (W.contents file.old) (W.contents file.new)
        (take (sample_size * frames) part.now)) }
{
    let sound = &part[..scores::SAMPLE_BYTES * frames];
    file.write_all(sound)?;
    Ok(scores::loudest(sound, loud))
}

// How far it is. Where standard error takes no line the sound goes on.
fn say_progress(rt: &impl Eprint, played: u64, frames: u64) {
    let now = played / u64::from(wave_head::RATE);
    let all = frames / u64::from(wave_head::RATE);
    eprint!(rt; "\rplay: {now} of {all} seconds").ok();
}

// The loudest sample, and how many calls were refused, likewise.
fn say_end(rt: &impl Eprint, loud: u32, refused: u64) {
    eprintln!(rt; "\nplay: loudest {loud} of 32768, {refused} calls refused").ok();
}
