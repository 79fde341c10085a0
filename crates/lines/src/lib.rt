// For programs that read many cases from one input, line by line.
#![tactic(auto)]

ghost use Rattle.std.specs.Prelude.{◌≡◌, ◌+◌, min, drop};
ghost use Rattle.lines.specs.Line.{line_length};

// The smaller of two numbers.
// Stays: what may not change: it is public, `run_texts` goes through it, and the edit larger_taken stands on it.
pub fn least(a: usize, b: usize) -> usize
    ensures { result ≡ min a b }
{
    a.min(b)
}

// The place behind the line that a place stands in; at the end of the input and past it, the place itself.
pub fn line_end(input: &[u8], at: usize) -> usize
    ensures { result ≡ at + line_length (drop at input.now) }
{
    let rest = &input[at.min(input.len())..];
    match rest.iter().position(|b| *b == b'\n') {
        Some(n) => at + n + 1,
        None => at + rest.len(),
    }
}
