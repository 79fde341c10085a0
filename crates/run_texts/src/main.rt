// Runs the answer on many texts, which stand one behind the other on standard input.
//
// Each begins with a line of its own: five digits, how many bytes it has; a space; five digits, how often the last of them is to stand; and
// words. That line is written again, and then what the answer is. A line's end stands behind each text.
#![tactic(auto)]

ghost use Rattle.std.specs.Prelude.{◌≤◌, ◌<◌, length, IfOk};

use lines::{least, line_end};
use std::io;

// One byte more than a text may have.
const ROOM: usize = 65537;

// The number that five digits stand for at the front of these bytes, at most `ROOM`; 0 where they are not there.
fn number(bytes: &[u8]) -> usize
    ensures { result ≤ 65537 }
{
    let Some(digits) = bytes.first_chunk::<5>() else {
        return 0;
    };
    let mut n = 0;
    for digit in digits {
        if !digit.is_ascii_digit() {
            return 0;
        }
        n = (10 * n + (*digit - b'0') as usize).min(ROOM);
    }
    n
}

// Makes a text of these bytes, the last of which is to stand so often, as far as the room holds it; how long it is.
fn lengthen(bytes: &[u8], times: usize, room: &mut [u8]) -> usize
    ensures { result ≤ length room.new }
{
    let n = least(bytes.len(), room.len());
    room[..n].copy_from_slice(&bytes[..n]);
    let Some(last) = bytes.last() else {
        return n;
    };
    let end = n + times.saturating_sub(1).min(room.len() - n);
    room[n..end].fill(*last);
    end
}

// Writes the answer to one text.
fn run(rt: &impl Print, bytes: &[u8], times: usize) -> io::Result<()> {
    let mut room = [0; ROOM];
    let n = lengthen(bytes, times, &mut room);
    let mut out = [0; 16384];
    let written = answer::answer(&room[..n], &mut out);
    rt.write_all(&out[..written])
}

// Runs the text whose line stands at the front of the input; what stands behind it.
fn run_first<'a>(rt: &impl Print, input: &'a [u8]) -> io::Result<&'a [u8]>
    requires { 0 < length input.now }
    ensures { IfOk result (λ rest. length rest.now < length input.now) }
{
    let start = line_end(input, 0);
    let (line, rest) = input.split_at(start);
    rt.write_all(line)?;
    let count = number(input);
    if rest.len() < count {
        return Ok(&[]);
    }
    if line.len() < 6 {
        return Ok(rest);
    }
    let (text, behind) = rest.split_at(count);
    run(rt, text, number(&input[6..]))?;
    Ok(behind.get(1..).unwrap_or(&[]))
}

// Runs the texts, one behind the other.
fn run_all(rt: &impl Print, input: &[u8]) -> io::Result<()> {
    let mut rest = input;
    // Stays: the new form is no plainer. How far a turn goes is what the text's own line says, which no range or iterator knows.
    while !rest.is_empty() {
        rest = run_first(rt, rest)?;
    }
    Ok(())
}

fn main(rt: HostRuntime) -> io::Result<()> {
    let mut input = [0; 65536];
    let n = reading::read_full(&mut rt.stdin(), &mut input)?;
    run_all(&rt, &input[..n])
}
