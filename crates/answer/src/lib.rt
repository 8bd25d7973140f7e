//! What a call answers: that it is done, with what it gives, or why it is refused.
#![tactic(auto)]

ghost use Rattle.std.specs.Prelude.{◌≡◌};
ghost use Rattle.answer.specs.Answer.{answer_number, answer_of};

use thiserror::Error;

/// Why a call is refused.
#[derive(Clone, Copy, Debug, PartialEq, Eq, Hash, Error)]
pub enum Refusal {
    #[error("the record has not as many words as a record has")]
    RecordLength,
    #[error("a word of the record has a bit or a value that it may not have")]
    RecordInvalid,
    #[error("the byte address is above 63")]
    Address,
    #[error("the pot value is above 1023")]
    Pot,
    #[error("there is more sample memory than four banks")]
    MemoryLength,
    #[error("the output is not twelve values")]
    OutputLength,
    #[error("fewer than five voices are active")]
    TooFewVoices,
    #[error("the file is too long, is no RIFF/WAVE, or has a part that runs past its end")]
    FileBroken,
    #[error("there is no format chunk or no data chunk, or two of one")]
    ChunkCount,
    #[error("the samples are not mono 16-bit PCM, or an odd number of bytes")]
    SampleFormat,
    /// A loop with a point past the last sample, with its last before its start, or of no known
    /// type.
    #[error("the loop is not within the samples, ends before it starts, or is of no known type")]
    LoopInvalid,
    /// Memory or a bank that ends before the samples do, or an END that its register does not hold.
    #[error("the samples do not fit in the memory or the bank, or END does not fit its register")]
    NoPlace,
}

/// The number of what a call answers, for hosts: 0 where it is done, whatever it gives.
// The numbers are those of the C interface, and no part of a refusal: a match, as in the rule.
pub fn number<T: Drop>(answer: Result<T, Refusal>) -> u32
    ensures { result ≡ answer_number (answer_of answer) }
{
    match answer {
        Ok(_) => 0,
        Err(Refusal::RecordLength) => 1,
        Err(Refusal::RecordInvalid) => 2,
        Err(Refusal::Address) => 3,
        Err(Refusal::Pot) => 4,
        Err(Refusal::MemoryLength) => 5,
        Err(Refusal::OutputLength) => 6,
        Err(Refusal::TooFewVoices) => 7,
        Err(Refusal::FileBroken) => 20,
        Err(Refusal::ChunkCount) => 21,
        Err(Refusal::SampleFormat) => 22,
        Err(Refusal::LoopInvalid) => 23,
        Err(Refusal::NoPlace) => 24,
    }
}
