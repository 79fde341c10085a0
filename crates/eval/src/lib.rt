// Evaluation of a drawing on input values, layer by layer. The workspace is laid out as the crate `pass` says.
#![tactic(auto)]

ghost use Rattle.std.specs.Prelude.{true, ◌≡◌, ℕ, ◌<◌, length, replicate, IfOk};
ghost use Rattle.rules.specs.Lists.{all, range};
ghost use Rattle.rules.specs.Lent.{drawing_of, boundary_of};
ghost use Rattle.rules.specs.Drawing.{node_count, op_count};
ghost use Rattle.rules.specs.Refusals.{refusal_of, workspace_need};
ghost use Rattle.rules.specs.Evaluation.{suits_at, start_memory, evaluated};
ghost use Rattle.rules.specs.Promises.{Eval};
ghost use Rattle.rules.specs.Inner.Layering.{Layering};
ghost use Rattle.rules.specs.Inner.Evaluating.{input_refusal, late_by, suits_by, Prepared, Attempted, Evaluated};

mod page;

use page::Page;
use rules::{Boundary, Checked, Drawing, Refusal};

// Whether each operation's label is known and has so many inputs and outputs.
fn all_suit(d: &Checked) -> bool
    ensures { result ≡ all (suits_by d.now.drawing.ops.now d.now.drawing.sources.lengths.now d.now.drawing.targets.lengths.now) (range (length d.now.drawing.ops.now)) }
{
    let Drawing {
        ops,
        sources,
        targets,
        ..
    } = d.drawing;
    for (e, label) in ops.iter().enumerate() {
        if !operation::suits(
            *label,
            sources.lengths[e] as usize,
            targets.lengths[e] as usize,
        ) {
            return false;
        }
    }
    true
}

// 13: some operation is unplaced; 14: some operation does not suit its label.
fn find_fault(marks: &[u32], d: &Checked) -> Result<(), Refusal>
    ensures { refusal_of result ≡ late_by marks.now d.now.drawing.ops.now d.now.drawing.sources.lengths.now d.now.drawing.targets.lengths.now }
{
    if marks.contains(&1) {
        return Err(Refusal::Unplaced);
    }
    if !all_suit(d) {
        return Err(Refusal::WrongOperation);
    }
    Ok(())
}

// Behind the layers: where each operation's sources and targets begin, and a memory that is all 0.
fn prepare(ws: &mut [u32], d: &Checked)
    requires ws_len { length ws.old ≡ workspace_need (drawing_of d.now.drawing) }
    requires layering { Layering (drawing_of d.now.drawing) ws.old ws.old }
    requires suited { (e : ℕ) → e < op_count (drawing_of d.now.drawing) → suits_at (drawing_of d.now.drawing) e ≡ true }
    ensures { Prepared (drawing_of d.now.drawing) (replicate (node_count (drawing_of d.now.drawing)) 0) ws.old ws.new }
{
    let m = d.drawing.ops.len();
    let sources = 4 * m + 1;
    let targets = sources + m;
    let base = targets + m;
    let room = base + d.drawing.nodes.len();
    indexed_coproduct::starts(&mut ws[sources..targets], d.drawing.sources.lengths);
    indexed_coproduct::starts(&mut ws[targets..base], d.drawing.targets.lengths);
    ws[base..room].fill(0);
}

// The same, and the input values are stored.
fn load(ws: &mut [u32], page: &Page)
    requires ws_len { length ws.old ≡ workspace_need (drawing_of page.now.drawing.drawing) }
    requires layering { Layering (drawing_of page.now.drawing.drawing) ws.old ws.old }
    requires suited { (e : ℕ) → e < op_count (drawing_of page.now.drawing.drawing) → suits_at (drawing_of page.now.drawing.drawing) e ≡ true }
    ensures { Prepared (drawing_of page.now.drawing.drawing) (start_memory (drawing_of page.now.drawing.drawing) (boundary_of page.now.boundary) page.now.values.now) ws.old ws.new }
{
    let d = &page.drawing;
    let base = 6 * d.drawing.ops.len() + 1;
    let room = base + d.drawing.nodes.len();
    prepare(ws, d);
    memory::scatter(&mut ws[base..room], page.boundary.inputs, page.values);
}

// Runs the layers on the input values, and reads the answer.
fn compute(ws: &mut [u32], page: &Page, out: &mut [u32])
    requires ws_len { length ws.old ≡ workspace_need (drawing_of page.now.drawing.drawing) }
    requires layering { Layering (drawing_of page.now.drawing.drawing) ws.old ws.old }
    requires suited { (e : ℕ) → e < op_count (drawing_of page.now.drawing.drawing) → suits_at (drawing_of page.now.drawing.drawing) e ≡ true }
    requires out_len { length out.old ≡ length page.now.boundary.outputs.now }
    ensures { (length ws.new ≡ length ws.old) × (out.new ≡ evaluated (drawing_of page.now.drawing.drawing) (boundary_of page.now.boundary) page.now.values.now) }
{
    let d = &page.drawing.drawing;
    let base = 6 * d.ops.len() + 1;
    let room = base + d.nodes.len();
    load(ws, page);
    pass::run_layers(ws, d);
    array::gather(out, &ws[base..room], page.boundary.outputs);
}

// Sorts the operations into layers and runs these, unless 13 or 14 is given.
fn attempt(ws: &mut [u32], page: &Page, out: &mut [u32]) -> Result<(), Refusal>
    requires ws_len { length ws.old ≡ workspace_need (drawing_of page.now.drawing.drawing) }
    requires out_len { length out.old ≡ length page.now.boundary.outputs.now }
    ensures { Attempted (drawing_of page.now.drawing.drawing) (boundary_of page.now.boundary) page.now.values.now out.old out.new ws.old ws.new result }
{
    let d = &page.drawing;
    let m = d.drawing.ops.len();
    let end = m + m;
    layers::layer::sort_operations(ws, d);
    find_fault(&ws[m..end], d)?;
    compute(ws, page, out);
    Ok(())
}

// The same, and the workspace is cleared.
fn evaluate(ws: &mut [u32], page: &Page, out: &mut [u32]) -> Result<(), Refusal>
    requires ws_len { length ws.old ≡ workspace_need (drawing_of page.now.drawing.drawing) }
    requires out_len { length out.old ≡ length page.now.boundary.outputs.now }
    ensures { Evaluated (drawing_of page.now.drawing.drawing) (boundary_of page.now.boundary) page.now.values.now out.old out.new ws.new result }
{
    let done = attempt(ws, page, out);
    ws.fill(0);
    done
}

// A valid drawing with a valid boundary and not too many values, or what they are refused with: 1, 2, 3 or 12.
#[tactic(auto, unfolding(rules::specs::Inner::Evaluating::input_refusal, rules::specs::Inner::Checks::boundary_lists_refusal))]
fn accept<'a>(d: &Drawing<'a>, b: &Boundary<'a>, values: &'a [u32]) -> Result<Page<'a>, Refusal>
    ensures refusal { refusal_of result ≡ input_refusal (drawing_of d.now) (boundary_of b.now) values.now }
    ensures same { IfOk result (λ page. (page.drawing.drawing ≡ d.now) × (page.boundary ≡ b.now) × (page.values.now ≡ values.now)) }
{
    if !(hypergraph::check::counts_within(d)
        & hypergraph::check::boundary_within(b)
        & (values.len() <= 4096))
    {
        return Err(Refusal::OverLimit);
    }
    hypergraph::check::check_boundary_lists(d, b)?;
    Ok(Page {
        drawing: Checked { drawing: *d },
        boundary: *b,
        values,
    })
}

// Writes the values at the outputs, from the values at the inputs. Lent a workspace of W words or more.
pub fn eval(
    d: &Drawing,
    b: &Boundary,
    values: &[u32],
    out: &mut [u32],
    ws: &mut [u32],
) -> Result<(), Refusal>
    ensures { Eval (drawing_of d.now) (boundary_of b.now) values.now out.old out.new ws.old ws.new result }
{
    let page = accept(d, b, values)?;
    let count = b.outputs.len();
    let words = page.drawing.workspace_need();
    if (out.len() < count) | (ws.len() < words) {
        return Err(Refusal::ShortRoom);
    }
    evaluate(&mut ws[..words], &page, &mut out[..count])
}
