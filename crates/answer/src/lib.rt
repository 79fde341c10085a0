// All of the program as one function from bytes to bytes.
#![tactic(auto)]

ghost use Rattle.std.specs.Prelude.{◌≡◌, ◌+◌, ◌≤◌, length};
ghost use Rattle.rules.specs.Lent.{drawing_of, boundary_of};
ghost use Rattle.rules.specs.Calls.{boundary_refusal, layer_refusal};
ghost use Rattle.rules.specs.Text.{most_counted};
ghost use Rattle.rules.specs.Program.{answer as answer_of, operation_lines, output_of, most_words, most_written};
ghost use Rattle.text.specs.Reading.{sections_of};
ghost use Rattle.text.specs.Writing.{HasRoom, Wrote};
ghost use Rattle.answer.specs.Promise.{Answered};
ghost use Rattle.answer.specs.Answering.{Small, Nine, answer_in, closing};

use eval::eval;
use hypergraph::check::check_boundary;
use layers::layer::layer;
use rules::{Boundary, Drawing, IndexedCoproduct, Refusal};
use text::reader::{read_text, section};
use text::writer::Writer;

// The operations' header and lines, of a drawing that `layer` does not refuse.
fn write_layers(d: &Drawing, writer: &mut Writer)
    requires taken { (layer_refusal (drawing_of d.now) most_counted most_counted most_words ≡ 0) × (length d.now.ops.now ≤ most_counted) }
    requires room { HasRoom (operation_lines (drawing_of d.now)) writer.old }
    ensures { Wrote (operation_lines (drawing_of d.now)) writer.old writer.new }
{
    let mut orders = [0u32; 256];
    let mut marks = [0u32; 256];
    let mut ws = [0u32; 8200];
    // It answers Ok: the drawing was checked before, and these rooms hold what every drawing of a text needs.
    let _ = layer(d, &mut orders, &mut marks, &mut ws);
    let m = d.ops.len();
    writer.put_operations(&orders[..m], &marks[..m]);
}

// Behind them: the values' header and lines, or `refused` with 13 or 14.
fn write_closing(d: &Drawing, b: &Boundary, values: &[u32], writer: &mut Writer)
    requires passed { boundary_refusal (drawing_of d.now) (boundary_of b.now) ≡ 0 }
    requires small { Small (drawing_of d.now) (boundary_of b.now) values.now }
    requires room { HasRoom (closing (drawing_of d.now) (boundary_of b.now) values.now) writer.old }
    ensures { Wrote (closing (drawing_of d.now) (boundary_of b.now) values.now) writer.old writer.new }
{
    let mut results = [0u32; 256];
    let mut ws = [0u32; 8200];
    match eval(d, b, values, &mut results, &mut ws) {
        Err(fault) => writer.put_refused(fault),
        Ok(()) => {
            let k = b.outputs.len();
            writer.put_values(&results[..k]);
        }
    }
}

// What is written for a drawing, a boundary and input values.
fn write_answer(d: &Drawing, b: &Boundary, values: &[u32], writer: &mut Writer)
    requires small { Small (drawing_of d.now) (boundary_of b.now) values.now }
    requires room { HasRoom (answer_of (drawing_of d.now) (boundary_of b.now) values.now) writer.old }
    ensures { Wrote (answer_of (drawing_of d.now) (boundary_of b.now) values.now) writer.old writer.new }
{
    match check_boundary(d, b) {
        Err(why) => writer.put_refused(why),
        Ok(()) => {
            write_layers(d, writer);
            write_closing(d, b, values, writer);
        }
    }
}

// What is written for the nine sections of a text, given as their counts and their numbers.
fn write_sections(counts: &[u32], numbers: &[u32], writer: &mut Writer)
    requires nine { Nine counts.now numbers.now }
    requires room { HasRoom (answer_in (sections_of counts.now numbers.now)) writer.old }
    ensures { Wrote (answer_in (sections_of counts.now numbers.now)) writer.old writer.new }
{
    let d = Drawing {
        nodes: section(counts, numbers, 0),
        ops: section(counts, numbers, 1),
        sources: IndexedCoproduct {
            lengths: section(counts, numbers, 2),
            values: section(counts, numbers, 3),
        },
        targets: IndexedCoproduct {
            lengths: section(counts, numbers, 4),
            values: section(counts, numbers, 5),
        },
    };
    let b = Boundary {
        inputs: section(counts, numbers, 6),
        outputs: section(counts, numbers, 7),
    };
    write_answer(&d, &b, section(counts, numbers, 8), writer);
}

// What is written for a text, by a writer with room for it.
#[tactic(auto, using(rules::proofs::Facts::Output::output_over))]
fn write_output(text: &[u8], writer: &mut Writer)
    requires { writer.old.at + most_written ≤ length writer.old.out.now }
    ensures { Wrote (output_of text.now) writer.old writer.new }
{
    if 65536 < text.len() {
        return writer.put_refused(Refusal::OverLimit);
    }
    let mut counts = [0u32; 9];
    let mut numbers = [0u32; 3840];
    match read_text(text, &mut counts, &mut numbers) {
        Err(reason) => writer.put_refused(reason),
        Ok(()) => write_sections(&counts, &numbers, writer),
    }
}

// All of the program: what it writes for a text stands at the front of `out`, and the answer is how many bytes that is. Where `out` has fewer
// than 16,384 bytes it writes nothing, and the answer is 0.
pub fn answer(text: &[u8], out: &mut [u8]) -> usize
    ensures { Answered text.now out.old out.new result }
{
    if out.len() < 16384 {
        return 0;
    }
    let mut writer = Writer { out, at: 0 };
    write_output(text, &mut writer);
    writer.at
}
