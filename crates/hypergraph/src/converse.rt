// The converses of a drawing: for each node, the operations that list it, ascending, once per listing.
ghost use Rattle.std.specs.Prelude.{◌+◌, ◌≤◌, ◌≡◌, length, replicate};
ghost use Rattle.rules.specs.Lists.{row_entries};
ghost use Rattle.rules.specs.Lent.{drawing_of};
ghost use Rattle.rules.specs.Analysis.{converse};
ghost use Rattle.rules.specs.Calls.{two_outputs_refusal};
ghost use Rattle.rules.specs.Refusals.{workspace_need};
ghost use Rattle.rules.specs.Promises.{WritesRows, SourceConverse, TargetConverse};
ghost use Rattle.rules.specs.Inner.Loops.{Listed};
ghost use Rattle.rules.specs.Inner.Rows.{put_at};
ghost use Rattle.rules.specs.Inner.Words.{counts};

use crate::check::accept;
use rules::{Checked, Drawing, IndexedCoproduct, Refusal};

// The entries of the converse of lists are written, where it is known how often each number is listed. Its table stands in the front of the workspace, which is cleared.
fn write_entries(ws: &mut [u32], listed: &[u32], lists: &IndexedCoproduct, vals: &mut [u32])
    requires listed { Listed (length listed.now) 0 lists.now.lengths.now lists.now.values.now × (listed.now ≡ counts (length listed.now) lists.now.values.now) }
    requires room { (length listed.now + 1 + length lists.now.values.now ≤ length ws.old) × (length lists.now.values.now ≤ length vals.old) }
    ensures { (vals.new ≡ put_at 0 (row_entries (converse lists.now.lengths.now lists.now.values.now) (length listed.now)) vals.old) × (ws.new ≡ replicate (length ws.old) 0) }
{
    let items = listed.len() + 1;
    let size = lists.values.len();
    let table = items + size;
    indexed_coproduct::converse::converse_counted(&mut ws[..table], listed, lists);
    array::copy(&mut vals[..size], &ws[items..table]);
    ws.fill(0);
}

// The converse of a drawing's sources or targets is written, or 11 is given.
fn write_converse(
    d: &Checked,
    lists: &IndexedCoproduct,
    lens: &mut [u32],
    vals: &mut [u32],
    ws: &mut [u32],
) -> Result<(), Refusal>
    requires listed { Listed (length d.now.drawing.nodes.now) 0 lists.now.lengths.now lists.now.values.now }
    requires room { length d.now.drawing.nodes.now + 1 + length lists.now.values.now ≤ workspace_need (drawing_of d.now.drawing) }
    ensures { WritesRows (converse lists.now.lengths.now lists.now.values.now) (length d.now.drawing.nodes.now) (two_outputs_refusal (drawing_of d.now.drawing) (length d.now.drawing.nodes.now) (length lens.old) (length lists.now.values.now) (length vals.old) (length ws.old)) (workspace_need (drawing_of d.now.drawing)) lens.old lens.new vals.old vals.new ws.old ws.new result }
{
    let n = d.drawing.nodes.len();
    let words = d.workspace_need();
    if (lens.len() < n) | (vals.len() < lists.values.len()) | (ws.len() < words) {
        return Err(Refusal::ShortRoom);
    }
    let listed = &mut lens[..n];
    array::bincount(listed, lists.values);
    write_entries(&mut ws[..words], listed, lists, vals);
    Ok(())
}

// For each node the operations that list it as a source: n lengths and S values. Lent a workspace of W words or more.
pub fn source_converse(
    d: &Drawing,
    lens: &mut [u32],
    vals: &mut [u32],
    ws: &mut [u32],
) -> Result<(), Refusal>
    ensures { SourceConverse (drawing_of d.now) lens.old lens.new vals.old vals.new ws.old ws.new result }
{
    let d = accept(d)?;
    write_converse(&d, &d.drawing.sources, lens, vals, ws)
}

// For each node the operations that list it as a target: n lengths and T values. Lent a workspace of W words or more.
pub fn target_converse(
    d: &Drawing,
    lens: &mut [u32],
    vals: &mut [u32],
    ws: &mut [u32],
) -> Result<(), Refusal>
    ensures { TargetConverse (drawing_of d.now) lens.old lens.new vals.old vals.new ws.old ws.new result }
{
    let d = accept(d)?;
    write_converse(&d, &d.drawing.targets, lens, vals, ws)
}
