//! The registers by byte: write a byte, read a byte, set the pot result.
//! Each public call checks what it is lent, refuses, or hands on to one worker; `decode` is the one
//! map from page and register to word, for writes and reads alike.
#![tactic(auto)]

ghost use Rattle.std.specs.Prelude.{◌≡◌, IsTrue, ◌<◌, slice_index, slice_set};
ghost use Rattle.answer.specs.Answer.{answer_of, value_or};
ghost use Rattle.machine.specs.Lent.{Leaves};
ghost use Rattle.machine.specs.Words.{read_latch_word, wait_mask_word, cut, with_mask, valid};
ghost use Rattle.registers.specs.Registers.{register_of, byte_of, with_byte, stored, written_to};
ghost use Rattle.registers.specs.Registers.{after_load, read_from, acknowledged};
ghost use Rattle.registers.specs.Inside.{Inside};
ghost use Rattle.registers.specs.Access.{asked, Writes, Reads, SetsPot};

use answer::Refusal;
use machine::Machine;

// The greatest byte address: byte 3 of register 15.
const ADDRESS_LIMIT: u32 = 63;

/// What a page and a register number name.
#[derive(Clone, Copy, Debug, PartialEq, Eq)]
pub enum Register {
    /// A word of the record that reads and writes.
    Word(usize),
    /// A channel sum, which is written only.
    Sum(usize),
    /// The pot result and the interrupt vector, which the host only reads.
    Par,
    Irqv,
    Nothing,
}

/// A byte from the host. The registers are wider than its bus: byte 3 of a register sends off the
/// bytes gathered before it.
#[tactic(auto, using(crate::proofs::Laws::byte_valid, crate::proofs::Laws::byte_place))]
pub fn write(m: &mut [u32], address: u32, value: u8) -> Result<(), Refusal>
    ensures { Writes m.old address value result m.new }
{
    check_within(m, ADDRESS_LIMIT, address, Refusal::Address)?;
    let mut machine = Machine::lent(m);
    write_byte(&mut machine, address / 4, address % 4, value);
    Ok(())
}

/// A byte for the host. Byte 0 takes the register whole, so that the bytes after it belong
/// together.
#[tactic(auto, using(crate::proofs::Laws::byte_valid, crate::proofs::Laws::byte_place))]
pub fn read(m: &mut [u32], address: u32) -> Result<u8, Refusal>
    ensures { Reads m.old address (answer_of result) (value_or 0 result) m.new }
{
    check_within(m, ADDRESS_LIMIT, address, Refusal::Address)?;
    let mut machine = Machine::lent(m);
    Ok(read_byte(&mut machine, address / 4, address % 4))
}

/// A conversion result, for the host to read.
#[tactic(auto, using(crate::proofs::Laws::pot_long))]
pub fn set_pot(m: &mut [u32], value: u32) -> Result<(), Refusal>
    ensures { SetsPot m.old value result m.new }
{
    check_within(m, machine::POT_LIMIT, value, Refusal::Pot)?;
    m[machine::PAR] = value;
    Ok(())
}

// Why a call is refused that asks the record, and then that its number is within the limit.
#[tactic(auto, using(crate::proofs::Laws::asked_bad, crate::proofs::Laws::asked_far, crate::proofs::Laws::asked_done))]
fn check_within(m: &[u32], limit: u32, number: u32, beyond: Refusal) -> Result<(), Refusal>
    ensures { result ≡ asked m.now limit number beyond }
{
    machine::check(m)?;
    if limit < number {
        return Err(beyond);
    }
    Ok(())
}

// Byte k of register r is written.
// The two numbers go together from here to `decode`, `with_byte` and `byte`, which take one each: a
// type of both would be made twice, of an address that was checked, and taken apart at once.
#[tactic(auto, using(machine::proofs::Valid::valid_long, crate::proofs::Valid::valid_write_latch), unfolding(crate::specs::Registers::written_to))]
fn write_byte(machine: &mut Machine, r: u32, k: u32, b: u8)
    requires { (r < 16) × (k < 4) }
    ensures { Leaves machine.old machine.new (written_to machine.old.words.now r k b) }
{
    let latch = with_byte(k, b, machine.words[machine::WRITE_LATCH]);
    if k != 3 {
        machine.words[machine::WRITE_LATCH] = latch;
        return;
    }
    let register = decode(machine.words[machine::PAGE], r);
    store(machine, register, latch);
    machine.words[machine::WRITE_LATCH] = 0;
}

// Byte k of register r is read.
#[tactic(auto, using(machine::proofs::Valid::valid_long), unfolding(crate::specs::Registers::read_from))]
fn read_byte(machine: &mut Machine, r: u32, k: u32) -> u8
    requires { (r < 16) × (k < 4) }
    ensures leaves { Leaves machine.old machine.new (read_from machine.old.words.now r k) }
    ensures gives { result ≡ byte_of k (slice_index machine.new.words.now read_latch_word) }
{
    if k == 0 {
        let register = decode(machine.words[machine::PAGE], r);
        load(machine, register);
    }
    byte(k, machine.words[machine::READ_LATCH])
}

// The register that a page and a number name.
#[tactic(auto, using(crate::proofs::Inside::inside), unfolding(crate::specs::Registers::register_of, crate::specs::Registers::low_page, crate::specs::Registers::high_page, crate::specs::Registers::sum_page))]
fn decode(page: u32, r: u32) -> Register
    requires { r < 16 }
    ensures { (result ≡ register_of page r) × Inside result }
{
    match r {
        13 => Register::Par,
        14 => Register::Irqv,
        15 => Register::Word(machine::PAGE),
        _ => match page {
            0..=31 => match r {
                0..=10 => Register::Word(machine::VOICE_WORDS * page as usize + r as usize),
                11 => Register::Word(machine::ACTV),
                _ => Register::Word(machine::MODE),
            },
            32..=63 => match r {
                0 => Register::Word(machine::VOICE_WORDS * (page - 32) as usize + machine::CR),
                1..=3 => Register::Word(
                    machine::VOICE_WORDS * (page - 32) as usize
                        + (machine::START + (r - 1) as usize),
                ),
                4..=9 => Register::Word(
                    machine::VOICE_WORDS * (page - 32) as usize
                        + (machine::O4N1 + (r - 4) as usize),
                ),
                _ => Register::Word(machine::W_ST + (r - 10) as usize),
            },
            _ => match r {
                12 => Register::Nothing,
                _ => Register::Sum(machine::SUMS + r as usize),
            },
        },
    }
}

// x, cut to the bits kept, in a register that can be written. The others take nothing: their writes
// end in the latch.
// `Inside` is a clause here, at `load` and of `decode`'s answer, and no fact of `Register`: what
// `decode` answers is `register_of`, and the theorems (`named`) speak of its plain cases.
#[tactic(auto, using(machine::proofs::Valid::valid_long, crate::proofs::Valid::valid_stored, crate::proofs::Valid::valid_sum), unfolding(crate::specs::Registers::stored, machine::specs::Words::cut))]
fn store(machine: &mut Machine, register: Register, x: u32)
    requires { Inside register }
    ensures { Leaves machine.old machine.new (stored machine.old.words.now register x) }
{
    match register {
        Register::Word(i) => store_word(&mut *machine.words, i, x),
        Register::Sum(i) => machine.words[i] = x & machine::bits_of(i),
        Register::Par | Register::Irqv | Register::Nothing => {}
    }
}

// x, cut to the bits kept, in word i. Where that is a control register, its flag goes into the mask
// too: the record is valid again only then, so both are written here.
#[tactic(auto, using(machine::proofs::Valid::valid_long, machine::proofs::Valid::stored_long, crate::proofs::Valid::mark_stored, crate::proofs::Valid::kept_stored), unfolding(machine::specs::Words::cut))]
fn store_word(m: &mut [u32], i: usize, x: u32)
    requires is_valid { IsTrue (valid m.old) }
    requires is_before_mask { i < wait_mask_word }
    ensures { m.new ≡ with_mask (slice_set m.old i (cut i x)) }
{
    let y = x & machine::bits_of(i);
    m[i] = y;
    if i < machine::PAGE && i % machine::VOICE_WORDS == machine::CR {
        machine::mark(m, i / machine::VOICE_WORDS, control::flag(control::IRQ, y));
    }
}

// Byte 0 of a register is read: the register goes to the read latch. The pot result reads as all
// ones until the next one is there.
#[tactic(auto, using(machine::proofs::Valid::valid_long, crate::proofs::Valid::valid_word, crate::proofs::Valid::valid_read_latch, crate::proofs::Valid::valid_pot, crate::proofs::Valid::valid_acknowledged), unfolding(crate::specs::Registers::read_as, crate::specs::Registers::side_effect))]
fn load(machine: &mut Machine, register: Register)
    requires { Inside register }
    ensures { Leaves machine.old machine.new (after_load machine.old.words.now register) }
{
    match register {
        Register::Word(i) => machine.words[machine::READ_LATCH] = machine.words[i],
        Register::Par => {
            machine.words[machine::READ_LATCH] = machine.words[machine::PAR];
            machine.words[machine::PAR] = machine::POT_LIMIT;
        }
        Register::Irqv => {
            machine.words[machine::READ_LATCH] = machine.words[machine::IRQV];
            acknowledge(&mut *machine.words);
        }
        Register::Sum(_) | Register::Nothing => machine.words[machine::READ_LATCH] = 0,
    }
}

// The vector was read: the voice that it names loses its interrupt flag, in the mask too, and the
// vector is free for the next. The record is valid again only when all are written.
#[tactic(auto, using(machine::proofs::Valid::valid_long, machine::proofs::Valid::stored_long, crate::proofs::Valid::valid_cr, crate::proofs::Valid::mark_cleared, crate::proofs::Valid::acknowledges, crate::proofs::Valid::acknowledges_none))]
fn acknowledge(m: &mut [u32])
    requires { IsTrue (valid m.old) }
    ensures { m.new ≡ acknowledged m.old }
{
    let voice = m[machine::IRQV] as usize;
    if voice < machine::VOICES {
        let i = machine::VOICE_WORDS * voice + machine::CR;
        m[i] = control::with_bit(control::IRQ, false, m[i]);
        machine::mark(m, voice, false);
        m[machine::IRQV] = machine::NO_INTERRUPT;
    }
}

// x with its byte k, counted from the highest, replaced by b.
#[tactic(auto, using(crate::proofs::Valid::byte_put))]
fn with_byte(k: u32, b: u8, x: u32) -> u32
    requires { k < 4 }
    ensures { result ≡ with_byte k b x }
{
    let mut bytes = x.to_be_bytes();
    bytes[k as usize] = b;
    u32::from_be_bytes(bytes)
}

// Byte k of x, counted from the highest.
#[tactic(auto, unfolding(crate::specs::Registers::byte_of))]
fn byte(k: u32, x: u32) -> u8
    requires { k < 4 }
    ensures { result ≡ byte_of k x }
{
    x.to_be_bytes()[k as usize]
}
