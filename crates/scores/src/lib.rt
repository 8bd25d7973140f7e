//! A score: sample memory, and commands that ask for calls on one machine; and what is heard of it.
//! A score's first 8,192 bytes are 4,096 words of sample memory, the high byte first. Then come
//! commands of four bytes: a kind, a number of two bytes, the high byte first, and one byte.
//!
//! kind 0: reset. 1: write the byte at the address that the number gives. 2: read there. 3: set the
//! pot result to the number. 4: run a frame. 5: ask which voices wait. 6: run as many frames as the
//! number says. 7: commands that stand before it, once more (`repeats`).
//!
//! In order: a command; the memory; how many frames there are; whether a score is good; what is
//! heard of a frame; a score played. But for `fill` and `judge`, which take a score, all is of
//! commands in full, which `repeats::put_in_full` gives.
#![tactic(auto)]

ghost use Rattle.std.specs.Prelude.{◌≡◌, ◌+◌, ◌*◌, ◌/◌, ◌≤◌, ◌<◌, length, ◌+ℤ◌};
ghost use Rattle.numbers.specs.Numbers.{word};
ghost use Rattle.answer.specs.Answer.{answer_of};
ghost use Rattle.calls.specs.Asks.{call_of};
ghost use Rattle.layout.specs.Parts.{with_part};
ghost use Rattle.scores.specs.Score.{most_full_bytes, Filled, commands_of, command_at, command_no};
ghost use Rattle.scores.specs.Score.{times_of, call_after, silence, is_frame_ask, frames_of};
ghost use Rattle.scores.specs.Score.{all_frames};
ghost use Rattle.scores.specs.Score.{Good, all_below, commands_verdict, verdict_of};
ghost use Rattle.scores.specs.Sound.{sample_size, heard_of, sample_bytes, loudest_of};
ghost use Rattle.scores.specs.Playing.{Makes, Plays};

use answer::Refusal;
use calls::Ask;
use repeats::COMMAND_BYTES;
use thiserror::Error;

/// The words of sample memory, and their bytes.
pub const MEMORY_WORDS: usize = 4096;

pub const MEMORY_BYTES: usize = 8192;

/// Of a score.
pub const MOST_BYTES: usize = 65536;

/// Of 65,536 commands in full.
pub const MOST_FULL_BYTES: usize = 262144;

// Kinds 0 to 6 are calls, and 7 repeats commands.
const KINDS: u8 = 8;

/// Each word of the record that a score is played on: it is not valid, so that all that is asked
/// before a reset is refused.
pub const FIRST_WORD: u32 = 4294967295;

/// Of what is heard of a frame, left and right.
pub const SAMPLE_BYTES: usize = 4;

/// Four bytes each are at most what a WAVE file holds.
pub const MOST_FRAMES: u64 = 1073741814;

// ---- a command: which calls it makes

/// What a command asks for.
#[derive(Clone, Copy, Debug, PartialEq, Eq)]
pub enum Command {
    /// A call that is made once.
    Once(Ask),
    /// So many frames.
    Frames(u16),
    /// No call: a command of another kind, or a repeat that stands for itself.
    Nothing,
}

impl From<[u8; COMMAND_BYTES]> for Command {
    ghost from_gives = { λ bytes command. command ≡ command_at bytes 0 };

    #[tactic(auto, using(repeats::proofs::Command::number_is), unfolding(crate::specs::Score::command_of))]
    fn from(bytes: [u8; COMMAND_BYTES]) -> Self {
        let [kind, high, low, byte] = bytes;
        let number = u16::from_be_bytes([high, low]);
        match kind {
            0 => Command::Once(Ask::Reset),
            1 => Command::Once(Ask::Write(u32::from(number), byte)),
            2 => Command::Once(Ask::Read(u32::from(number))),
            3 => Command::Once(Ask::SetPot(u32::from(number))),
            4 => Command::Once(Ask::Frame),
            5 => Command::Once(Ask::Waiting),
            6 => Command::Frames(number),
            _ => Command::Nothing,
        }
    }
}

impl Command {
    /// The call that it makes where so many of its calls are made; none where these are all.
    #[tactic(auto, unfolding(crate::specs::Score::call_after))]
    pub fn call(self, made: u32) -> Option<Ask>
        ensures { result ≡ call_after self made }
    {
        match self {
            Command::Once(ask) if made == 0 => Some(ask),
            Command::Frames(count) if made < u32::from(count) => Some(Ask::Frame),
            _ => None,
        }
    }

    #[tactic(auto, unfolding(crate::specs::Score::frames_of))]
    fn frames(self) -> u64
        ensures value { result ≡ frames_of self }
        ensures few { result < 65536 }
    {
        match self {
            Command::Once(ask) => u64::from(is_frame(ask)),
            Command::Frames(count) => u64::from(count),
            Command::Nothing => 0,
        }
    }
}

#[tactic(auto, unfolding(crate::specs::Score::is_frame_ask))]
fn is_frame(ask: Ask) -> bool
    ensures { result ≡ is_frame_ask ask }
{
    matches!(ask, Ask::Frame)
}

// ---- the memory

/// The sample memory, from the bytes at the score's start.
pub fn fill(memory: &mut [u16], score: &[u8])
    requires { 2 * length memory.old ≤ length score.now }
    ensures { Filled (length memory.old) score.now memory.new }
{
    for (i, word) in memory.iter_mut().enumerate() {
        *word = u16::from_be_bytes(layout::array_at(score, 2 * i));
    }
}

// ---- how many frames there are

/// Of all commands.
pub fn frames_of(commands: &[u8]) -> u64
    requires { length commands.now ≤ most_full_bytes }
    ensures { result ≡ all_frames commands.now }
{
    let (whole, _) = commands.as_chunks::<COMMAND_BYTES>();
    let mut n = 0;
    for command in whole {
        n += Command::from(*command).frames();
    }
    n
}

// ---- whether a score is good

/// What is wrong with a score.
#[derive(Clone, Copy, Debug, PartialEq, Eq, Hash, Error)]
pub enum ScoreError {
    #[error("the score has more than 65,536 bytes")]
    TooLong,
    #[error("the score ends before its 8,192 bytes of sample memory do")]
    NoMemory,
    #[error("the score ends within a command")]
    Cut,
    #[error("the score has more than 65,536 commands in full")]
    TooManyCommands,
    #[error("a command is of an unknown kind")]
    Unknown,
    #[error("a repeat goes back past the first command, or asks for more than it goes back by")]
    NotThere,
    #[error("the score has more frames than a WAVE file holds")]
    TooManyFrames,
}

/// Where the score is good, its commands stand in full at the start of `full` then; else what
/// stands there says nothing.
// The room is lent, and no `Vec` handed back: so it needs no allocator.
#[tactic(auto, using(crate::proofs::Judged::too_long, crate::proofs::Judged::no_memory, crate::proofs::Judged::cut, crate::proofs::Judged::too_many))]
pub fn judge(score: &[u8], full: &mut [u8]) -> Result<(), ScoreError>
    requires { length full.old ≡ most_full_bytes }
    ensures value { result ≡ verdict_of score.now }
    ensures full_after { verdict_of score.now ≡ Good
        → full.new ≡ with_part full.old 0 (commands_of score.now) }
{
    if MOST_BYTES < score.len() {
        return Err(ScoreError::TooLong);
    }
    if score.len() < MEMORY_BYTES {
        return Err(ScoreError::NoMemory);
    }
    let commands = &score[MEMORY_BYTES..];
    if commands.len() % COMMAND_BYTES != 0 {
        return Err(ScoreError::Cut);
    }
    if MOST_FULL_BYTES < repeats::full_bytes(commands) {
        return Err(ScoreError::TooManyCommands);
    }
    let bytes = repeats::put_in_full(commands, full);
    judge_commands(&full[..bytes])
}

#[tactic(auto, unfolding(crate::specs::Score::commands_verdict))]
fn judge_commands(commands: &[u8]) -> Result<(), ScoreError>
    requires { length commands.now ≤ most_full_bytes }
    ensures { result ≡ commands_verdict commands.now }
{
    if !all_below(KINDS, commands) {
        return Err(ScoreError::Unknown);
    }
    if !all_below(repeats::REPEAT, commands) {
        return Err(ScoreError::NotThere);
    }
    if MOST_FRAMES < frames_of(commands) {
        return Err(ScoreError::TooManyFrames);
    }
    Ok(())
}

// Whether each command is of a kind below this one. The kind is the command's byte: an enum of the
// kinds would have no case for those that there are not, which are asked for here.
fn all_below(kind: u8, commands: &[u8]) -> bool
    ensures { result ≡ all_below kind commands.now }
{
    let (whole, _) = commands.as_chunks::<COMMAND_BYTES>();
    whole.iter().all(|command| command[0] < kind)
}

// ---- what is heard of a frame

// Of six values on one side: their sum without its four lowest bits, held to 16 bits.
// Six names and no iterator's `sum`: of that it stays open that each partial sum fits, since the
// library's laws of sums are of unsigned numbers. Six terms show it by themselves.
fn heard(a: i32, b: i32, c: i32, d: i32, e: i32, f: i32) -> u16
    ensures { result ≡ word 16 (heard_of (a +ℤ b +ℤ c +ℤ d +ℤ e +ℤ f)) }
{
    let sum = i64::from(a)
        + i64::from(b)
        + i64::from(c)
        + i64::from(d)
        + i64::from(e)
        + i64::from(f);
    numbers::word_of(16, numbers::hold(-32768, 32767, (sum >> 4) as i32)) as u16
}

// The four bytes of a frame's sound.
fn sample_bytes(out: &[i32; machine::OUTPUT_VALUES]) -> [u8; SAMPLE_BYTES]
    ensures { result ≡ sample_bytes out.now }
{
    let l = heard(out[0], out[2], out[4], out[6], out[8], out[10]).to_le_bytes();
    let r = heard(out[1], out[3], out[5], out[7], out[9], out[11]).to_le_bytes();
    [l[0], l[1], r[0], r[1]]
}

/// The loudest sample of a sound, or what was the loudest before.
pub fn loudest(sound: &[u8], before: u32) -> u32
    ensures { result ≡ loudest_of sound.now (length sound.now / 2) before }
{
    let (samples, _) = sound.as_chunks::<2>();
    samples.iter().fold(before, |most, sample| {
        most.max(u32::from(i16::from_le_bytes(*sample).unsigned_abs()))
    })
}

// ---- a score played

// The call, made once; what is heard of a frame is put at `at`.
fn make(
    m: &mut [u32],
    memory: &[u16],
    ask: Ask,
    sound: &mut [u8],
    at: usize,
) -> Result<u32, Refusal>
    requires { at + sample_size ≤ length sound.old }
    ensures { Makes m.old (call_of ask memory.now silence) sound.old at
        (answer_of result) m.new sound.new }
{
    let mut out = [0; machine::OUTPUT_VALUES];
    let answer = calls::perform(m, ask, memory, &mut out);
    if is_frame(ask) {
        layout::put4(sound, at, sample_bytes(&out));
    }
    answer
}

/// Where a score stands after some calls: its command, and how many of that one's calls are made.
#[derive(Clone, Copy, Debug, Default, PartialEq, Eq)]
pub struct Position {
    pub command: usize,
    pub made: u32,
}

/// Where a score stands after some calls, and what they came to.
#[derive(Clone, Copy, Debug, PartialEq, Eq)]
pub struct Played {
    pub position: Position,
    pub frames: usize,
    pub refused: usize,
}

/// Plays on from a position: as many calls as the sound has room for, if each were a frame.
// The sound is lent, and how many frames of it are filled is told: no memory is asked for.
pub fn play(
    m: &mut [u32],
    memory: &[u16],
    commands: &[u8],
    position: Position,
    sound: &mut [u8],
) -> Played
    requires { position.made ≤ times_of (command_no commands.now position.command) }
    ensures { Plays m.old memory.now commands.now position.command position.made sound.old result
        m.new sound.new }
{
    let (whole, _) = commands.as_chunks::<COMMAND_BYTES>();
    let room = sound.len() / SAMPLE_BYTES;
    let Position {
        mut command,
        mut made,
    } = position;
    let mut calls = 0;
    let mut frames = 0;
    let mut refused = 0;
    // No `for` over the commands: it begins and stops within one of them, and an iterator would
    // hold the same two numbers.
    while calls < room && command < whole.len() {
        match Command::from(whole[command]).call(made) {
            Some(ask) => {
                let answer = make(m, memory, ask, sound, SAMPLE_BYTES * frames);
                made += 1;
                calls += 1;
                frames += usize::from(is_frame(ask));
                refused += usize::from(answer.is_err());
            }
            None => {
                command += 1;
                made = 0;
            }
        }
    }
    Played {
        position: Position { command, made },
        frames,
        refused,
    }
}
