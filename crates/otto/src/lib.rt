//! The engine for hosts in C, C++ and Rust: each call under its C name, with the promise of the
//! call. A slice passes as a pointer and a length. `include/otto.h` is the other side.
#![tactic(auto, unfolding(calls::specs::Calls::answer_to, calls::specs::Calls::after, calls::specs::Calls::given_by, calls::specs::Calls::output_from))]

ghost use Rattle.std.specs.Prelude.{◌≡◌};
ghost use Rattle.codes.specs.Codes.{value_of, Compressed};
ghost use Rattle.calls.specs.Calls.{Reset, Write, SetPot};
ghost use Rattle.otto.specs.Promises.{Calling, Reading, TellingWaiting, Framing, Importing};

#[unsafe(no_mangle)]
pub extern "C" fn otto_reset(record: &mut [u32]) -> u32
    ensures { Calling «record».old Reset result «record».new }
{
    answer::number(machine::reset(record))
}

#[unsafe(no_mangle)]
pub extern "C" fn otto_write(record: &mut [u32], address: u32, value: u8) -> u32
    ensures { Calling «record».old (Write address value) result «record».new }
{
    answer::number(registers::write(record, address, value))
}

#[unsafe(no_mangle)]
pub extern "C" fn otto_read(record: &mut [u32], address: u32, byte: &mut u8) -> u32
    ensures { Reading «record».old address result byte.new «record».new }
{
    let got = registers::read(record, address);
    *byte = got.unwrap_or(0);
    answer::number(got)
}

#[unsafe(no_mangle)]
pub extern "C" fn otto_set_pot(record: &mut [u32], pot: u32) -> u32
    ensures { Calling «record».old (SetPot pot) result «record».new }
{
    answer::number(registers::set_pot(record, pot))
}

#[unsafe(no_mangle)]
pub extern "C" fn otto_waiting(record: &[u32], mask: &mut u32) -> u32
    ensures { TellingWaiting «record».now result mask.new }
{
    let told = machine::waiting(record);
    *mask = told.unwrap_or(0);
    answer::number(told)
}

#[unsafe(no_mangle)]
pub extern "C" fn otto_frame(
    record: &mut [u32],
    memory: &[u16],
    output: &mut [i32],
    missing: &mut u32,
) -> u32
    ensures { Framing «record».old memory.now output.old result missing.new «record».new
        output.new }
{
    let framed = frame::frame(record, memory, output);
    *missing = framed.unwrap_or(0);
    answer::number(framed)
}

#[unsafe(no_mangle)]
pub extern "C" fn otto_compress(sample: i16) -> u8
    ensures { Compressed sample result }
{
    codes::compress(sample)
}

#[unsafe(no_mangle)]
pub extern "C" fn otto_expand(code: u8) -> i16
    ensures { result ≡ value_of code }
{
    codes::expand(code)
}

/// What `loop` is in the header has another name here: `loop` is a word of the language.
#[unsafe(no_mangle)]
pub extern "C" fn otto_import(
    file: &[u8],
    memory: &mut [u16],
    word: usize,
    start: &mut u32,
    end: &mut u32,
    bits: &mut u32,
    samples: &mut u32,
) -> u32
    ensures { Importing file.now memory.old word result start.new end.new bits.new samples.new
        memory.new }
{
    let got = wave_in::import(file, memory, word);
    let taken = got.unwrap_or_default();
    *start = taken.start;
    *end = taken.end;
    *bits = taken.bits;
    *samples = taken.samples;
    answer::number(got)
}
