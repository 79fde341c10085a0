// Replays a list of cases, in which the calls' answers are known: each line of standard input is a case for one call; what the call gives and
// what it leaves in the memory that it was lent is a line of standard output.
//
// A line that begins with # is a title; it is written again. Each other line is numbers, each with a byte behind it that is no digit:
//
//     call                            1 to 18, as call.rt numbers them
//     wd xd layer                     the maps' declared targets; the layer for layer_at
//     room room room workspace        how many words are lent of each output and of workspace
//     w x sl sv tl tv                 six lists: the drawing (the maps' target)
//     w x sl sv tl tv                 six lists: the maps' source
//     fw fx                           the maps
//     inputs outputs values           three lists; the calls over offsets take operations and offsets in the first two
//
// A list is its count and then its entries; a long list of equal entries is its count and 65,536 more, and the entry.
#![tactic(auto)]

mod call;
mod case;
mod show;

use call::Lent;
use case::Case;
use std::io;

// How many words there are of each output, and of workspace.
const OUTPUT: usize = 512;

const WORKSPACE: usize = 4608;

// Makes the call and prints what it gives and leaves. All memory that it lends holds 777.
fn run_case(rt: &impl Print, case: &Case) -> io::Result<()> {
    let mut first = [777; OUTPUT];
    let mut second = [777; OUTPUT];
    let mut third = [777; OUTPUT];
    let mut workspace = [777; WORKSPACE];
    let mut word = 777;
    let first = &mut first[..case.room(4, OUTPUT)];
    let second = &mut second[..case.room(5, OUTPUT)];
    let third = &mut third[..case.room(6, OUTPUT)];
    let workspace = &mut workspace[..case.room(7, WORKSPACE)];
    let lent = Lent {
        first,
        second,
        third,
        ws: workspace,
        word: &mut word,
    };
    let refusal = call::make(case, lent);
    show::answer(rt, refusal, word)?;
    show::words(rt, first)?;
    show::words(rt, second)?;
    show::words(rt, third)?;
    show::workspace(rt, workspace)
}

// Runs the case whose numbers these are.
fn run(rt: &impl Print, numbers: &[u32]) -> io::Result<()> {
    let mut words = [0; 32768];
    let mut ends = [0; case::LISTS];
    case::lay_out(numbers, &mut words, &mut ends);
    let case = Case {
        numbers,
        words: &words,
        ends: &ends,
    };
    run_case(rt, &case)
}

// A line, with its end: a title or a case.
fn run_line(rt: &impl Print, line: &[u8]) -> io::Result<()> {
    if line.starts_with(b"#") {
        return rt.write_all(line);
    }
    let mut numbers = [0; 8192];
    let count = case::numbers(line, &mut numbers);
    run(rt, &numbers[..count])
}

// Runs each line, with its end.
fn run_all(rt: &impl Print, input: &[u8]) -> io::Result<()> {
    for line in input.split_inclusive(|byte| *byte == b'\n') {
        run_line(rt, line)?;
    }
    Ok(())
}

fn main(rt: HostRuntime) -> io::Result<()> {
    let mut input = [0; 262144];
    let n = reading::read_full(&mut rt.stdin(), &mut input)?;
    run_all(&rt, &input[..n])
}
