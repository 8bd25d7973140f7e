//! The code chart programs, but for their `main`: reads an input and writes its chart. One byte
//! more than a chart takes is read, so that a longer input is seen.
#![tactic(auto)]

ghost use Rattle.std.specs.Prelude.{◌≡◌, ◌≤◌, length, IfSome, OnOk, OnErr};
ghost use Rattle.std.specs.Io.KnownBytes.{Appends, IsAtEnd};
ghost use Rattle.streams.specs.Parts.{AppendsPart, ConsumesSome};
ghost use Rattle.chart.specs.Chart.{chart_of};

use std::io;
use std::io::{Input, Print, Read, Write};

// A byte more than a chart takes, and nine bytes for each, in which any chart has room. Both lie on
// the stack: `write_chart` is lent a reader and a writer and no allocator, and succeeds where both
// do.
const MOST_READ: usize = 65537;

const MOST_WRITTEN: usize = 589833;

/// The chart of standard input, to standard output. Its error is that of a read or a write there. A
/// read that fails leaves nothing written; a write that fails leaves a part of the chart, from its
/// start. What was read is gone from the input.
pub fn run(rt: &(impl Input + Print)) -> io::Result<()> {
    write_chart(&mut rt.reader(), &mut io::writer(rt))
}

/// The chart of all that the reader has, and nothing else, to the writer; where a read or a write
/// fails, a part of it. What was read is gone from the reader, also where that fails; of an input
/// that is too long no more is read than shows it.
pub fn write_chart<R: Read, W: Write>(reader: &mut R, writer: &mut W) -> io::Result<()>
    ensures taken { ConsumesSome (R.remaining reader.old) (R.remaining reader.new) }
    ensures all_taken { OnOk result (IfSome (R.remaining reader.old) (λ input.
        length input ≤ 65536 → IsAtEnd (R.remaining reader.new))) }
    ensures ok { OnOk result (IfSome (R.remaining reader.old) (λ input.
        Appends (W.contents writer.old) (W.contents writer.new) (chart_of input))) }
    ensures err { OnErr result (IfSome (R.remaining reader.old) (λ input.
        AppendsPart (W.contents writer.old) (W.contents writer.new) (chart_of input))) }
{
    let mut input = zeros::<MOST_READ>();
    let n = streams::read_full(reader, &mut input)?;
    let mut out = zeros::<MOST_WRITTEN>();
    if let Some(k) = chart::chart(&input[..n], &mut out) {
        streams::write_full(writer, &out[..k])?;
    }
    Ok(())
}

// So many zeros. A function of its own, so that the proof of `write_chart` has the length and not
// the list.
fn zeros<const N: usize>() -> [u8; N]
    ensures { N ≡ length result }
{
    [0; N]
}

#[cfg(test)]
mod tests {
    use super::write_chart;
    use std::test::*;

    // The bytes, and the chart, are those of the rules' example.
    #[test]
    fn charts_what_is_read(rt: HostRuntime) -> Result<(), Fail> {
        let mut reader: &[u8] = &[0x7F, 0xFF, 0, 0, 0x80, 0];
        let mut chart = Vec::new(rt.alloc());
        write_chart(&mut reader, &mut chart)?;
        let want = b"32767 255 31744\n0 0 0\n-32768 224 -32768\n";
        assert!(rt; chart.as_slice() == want.as_slice());
        assert!(rt; reader.is_empty());
        Ok(())
    }
}
