//! Imports each file that its arguments name, and prints what comes of it.
//! Every import is lent a sample memory of 512 words that all hold the same number, and puts its
//! samples from word 16 on. It gives a line: the file's name, all that is answered, and how many
//! words outside the samples' part are not as they were; and, where there are samples, a second
//! line with their words. A read or a write that fails ends the program with its error; what was
//! written until then stands.
#![tactic(auto)]

ghost use Rattle.std.specs.Prelude.{◌≤◌, length};

use answer::Refusal;
use std::env::{Env, FillError};
use std::rt::Files;
use std::{fs, io, str};
use wave_in::Taken;

// The named word, and what every word of the memory holds before.
const WORD: usize = 16;

const FILLER: u16 = 42405;

// A file that cannot be opened gives a line on standard error in place of its own, and so does a
// name that is not text or is too long. So the arguments are asked for one by one: `env::args` asks
// for memory, and fails for all of them where one is not text.
fn main(rt: HostRuntime) -> io::Result<()> {
    let mut name = [0; 4096];
    for i in 1..usize::MAX {
        match rt.arg(i, &mut name) {
            Ok(n) => take_argument(&rt, &name[..n])?,
            Err(FillError::TooLong) => complain(
                &rt,
                "the name of a file has more than 4,096 bytes",
            ),
            Err(FillError::NotPresent) => break,
        }
    }
    Ok(())
}

fn take_argument(rt: &(impl Files + Print + Eprint), name: &[u8]) -> io::Result<()> {
    match str::from_utf8(name) {
        Ok(name) => take(rt, name),
        Err(_) => {
            complain(rt, "the name of a file is not text");
            Ok(())
        }
    }
}

// The file of a name. One byte more than an import takes is read, so that a longer file is seen.
// An array and how much of it was read, and no `Vec` that `read_to_end` fills: no memory is asked
// for, and a read that a signal interrupts ends the program, where `read_to_end` begins it again.
fn take(rt: &(impl Files + Print + Eprint), name: &str) -> io::Result<()> {
    let mut source = match fs::open(rt, name) {
        Ok(source) => source,
        Err(error) => {
            eprintln!(rt; "{name}: {error}").ok();
            return Ok(());
        }
    };
    let mut file = [0; 65537];
    let bytes = streams::read_full(&mut source, &mut file)?;
    let mut memory = [FILLER; 512];
    let answer = wave_in::import(&file[..bytes], &mut memory, WORD);
    print!(rt; "{name}")?;
    say(rt, answer, &memory)
}

// Where standard error takes no line the run goes on.
fn complain(rt: &impl Eprint, text: &str) {
    eprintln!(rt; "wave_files: {text}").ok();
}

fn say(rt: &impl Print, answer: Result<Taken, Refusal>, memory: &[u16]) -> io::Result<()> {
    let number = answer::number(answer);
    let Taken {
        start,
        end,
        bits,
        samples,
    } = answer.unwrap_or_default();
    let past = WORD + samples as usize;
    let elsewhere = changed(memory, past);
    println!(rt;
        ": answer {number}, START {start}, END {end}, loop {bits}, samples {samples}, changed elsewhere {elsewhere}"
    )?;
    match memory.get(WORD..past) {
        Some(words) if !words.is_empty() => say_words(rt, words),
        _ => Ok(()),
    }
}

// How many words before the named one, and from the end of the samples on, are not as they were.
fn changed(memory: &[u16], past: usize) -> usize
    ensures { result ≤ length memory.now }
{
    memory
        .iter()
        .enumerate()
        .filter(|(k, word)| !(WORD..past).contains(k) && **word != FILLER)
        .count()
}

// A line of words, with a space between.
fn say_words(rt: &impl Print, words: &[u16]) -> io::Result<()> {
    for (i, word) in words.iter().enumerate() {
        if 0 < i {
            print!(rt; " ")?;
        }
        print!(rt; "{word}")?;
    }
    println!(rt; "")
}
