// The program: a text on standard input, the answer to it on standard output.
#![tactic(auto)]

ghost use Rattle.std.specs.Prelude.{IfSome, OnOk};
ghost use Rattle.std.specs.Io.KnownBytes.{Appends};
ghost use Rattle.rules.specs.Program.{output_of};

use std::io::{self, Read, Write};

// Reads a text and writes the answer to it. An input that is too long is read as far as shows it.
fn run<R: Read, W: Write>(input: &mut R, output: &mut W) -> io::Result<()>
    ensures { OnOk result (IfSome (R.remaining input.old) (λ text. Appends (W.contents output.old) (W.contents output.new) (output_of text))) }
{
    // One byte more than a text may have.
    let mut text = [0u8; 65537];
    let n = reading::read_full(input, &mut text)?;
    let mut out = [0u8; 16384];
    let written = answer::answer(&text[..n], &mut out);
    output.write_all(&out[..written])
}

fn main(rt: HostRuntime) -> io::Result<()> {
    run(&mut rt.stdin(), &mut rt.stdout())
}
