//! The code chart as text: for each sample of the input its code and the code's value.
//! Everything but reading and writing is here. Each `put_` function stores its bytes from `at` on
//! and answers the place after them. The output and the place stay two parameters: a type for both
//! would have to say what it leaves past the text, which `Stored` does in one clause.
#![tactic(auto)]

ghost use Rattle.std.specs.Prelude.{◌≡◌, ◌++◌, ◌+◌, ◌*◌, ◌≤◌, length};
ghost use Rattle.numbers.specs.Numbers.{signed};
ghost use Rattle.chart.specs.Chart.{number, line, lines, chart_answer, chart_output, Stored};

/// The chart of the input, at the start of the output: answers how many bytes of it the chart is.
/// An output that has less than nine bytes for each byte of input is no room: it is as it was, and
/// the answer is none.
// The room is lent, and no `Vec` handed back: so it needs no allocator.
pub fn chart(input: &[u8], out: &mut [u8]) -> Option<usize>
    ensures value { result ≡ chart_answer input.now out.old }
    ensures out_after { out.new ≡ chart_output input.now out.old }
{
    if out.len() / 9 < input.len() {
        return None;
    }
    if 65536 < input.len() {
        return Some(put(out, 0, b"too long\n"));
    }
    Some(put_lines(out, input))
}

// The lines of the input's pairs, and that of a last odd byte.
fn put_lines(out: &mut [u8], input: &[u8]) -> usize
    requires { 9 * length input.now ≤ length out.old }
    ensures { Stored out.old 0 (lines input.now) out.new result }
{
    let (pairs, odd) = input.as_chunks::<2>();
    let mut at = 0;
    for &[high, low] in pairs {
        at = put_line(out, at, high, low);
    }
    if !odd.is_empty() {
        at = put(out, at, b"odd byte\n");
    }
    at
}

// The line of the sample whose bytes are high and low.
fn put_line(out: &mut [u8], at: usize, high: u8, low: u8) -> usize
    requires { at + 18 ≤ length out.old }
    ensures { Stored out.old at (line (signed 16 (256 * high + low))) out.new result }
{
    let sample = i16::from_be_bytes([high, low]);
    let code = codes::compress(sample);
    let at_code = put_field(out, at, sample, b" ");
    let at_value = put_field(out, at_code, i16::from(code), b" ");
    put_field(out, at_value, codes::expand(code), b"\n")
}

// A number of a line in decimal, and what stands after it.
fn put_field(out: &mut [u8], at: usize, z: i16, end: &[u8]) -> usize
    requires { at + 6 + length end.now ≤ length out.old }
    ensures { Stored out.old at (number z ++ end.now) out.new result }
{
    let mut digits = itoa::Buffer::new();
    let after = put(out, at, digits.format(z).as_bytes());
    put(out, after, end)
}

// The bytes of text.
fn put(out: &mut [u8], at: usize, text: &[u8]) -> usize
    requires { at + length text.now ≤ length out.old }
    ensures { Stored out.old at text.now out.new result }
{
    let end = at + text.len();
    out[at..end].copy_from_slice(text);
    end
}
