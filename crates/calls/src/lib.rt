//! A call as a value, performed on a record: the six calls that take a record, in one.
#![tactic(auto)]

ghost use Rattle.answer.specs.Answer.{answer_of, value_or};
ghost use Rattle.calls.specs.Asks.{Performs};

use answer::Refusal;

/// A call, with what it is asked beside the record that it is lent.
#[derive(Clone, Copy, Debug, PartialEq, Eq)]
pub enum Ask {
    Reset,
    Write(u32, u8),
    Read(u32),
    SetPot(u32),
    Waiting,
    Frame,
}

/// The call that is asked, and the number that it gives: a read its byte, `Waiting` the mask of the
/// waiting voices, a frame how many words were missing; any other 0. Only a frame looks at the
/// sample memory and the output.
// 0 and no Option: that is `given_by`, which is a number for every call.
pub fn perform(m: &mut [u32], ask: Ask, memory: &[u16], out: &mut [i32]) -> Result<u32, Refusal>
    ensures { Performs m.old memory.now out.old ask (answer_of result)
        (value_or 0 result) m.new out.new }
{
    match ask {
        Ask::Reset => machine::reset(m).map(|()| 0),
        Ask::Write(a, b) => registers::write(m, a, b).map(|()| 0),
        Ask::Read(a) => registers::read(m, a).map(u32::from),
        Ask::SetPot(p) => registers::set_pot(m, p).map(|()| 0),
        Ask::Waiting => machine::waiting(m),
        Ask::Frame => frame::frame(m, memory, out),
    }
}
