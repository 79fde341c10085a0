// Whether a drawing is acyclic.
ghost use Rattle.std.specs.Prelude.{◌≡◌, length};
ghost use Rattle.rules.specs.Lent.{drawing_of};
ghost use Rattle.rules.specs.Promises.{IsAcyclic};
ghost use Rattle.rules.specs.Refusals.{workspace_need};
ghost use Rattle.rules.specs.Inner.Acyclic.{Told, Decided};

use crate::kahn::kahn;
use hypergraph::check::accept;
use hypergraph::incidence::incidence;
use rules::{Checked, Drawing, Refusal};

// Walks the incidence graph, in W words of workspace: how many nodes and operations are placed. Behind the table, degrees and depths tell of
// each operation.
pub fn walk(ws: &mut [u32], d: &Checked) -> usize
    requires ws_len { length ws.old ≡ workspace_need (drawing_of d.now.drawing) }
    ensures { Told (drawing_of d.now.drawing) ws.new result }
{
    let items = d.drawing.nodes.len() + d.drawing.ops.len();
    let words = items + 1 + d.drawing.sources.values.len() + d.drawing.targets.values.len();
    let (table, rest) = ws.split_at_mut(words);
    let (degrees, rest) = rest.split_at_mut(items);
    let (queue, rest) = rest.split_at_mut(items);
    incidence(table, d);
    kahn(table, degrees, queue, &mut rest[..items])
}

// Decides, in W words of workspace, and clears them.
fn decide(ws: &mut [u32], d: &Checked) -> bool
    requires ws_len { length ws.old ≡ workspace_need (drawing_of d.now.drawing) }
    ensures { Decided (drawing_of d.now.drawing) ws.new result }
{
    let items = d.drawing.nodes.len() + d.drawing.ops.len();
    let placed = walk(ws, d);
    ws.fill(0);
    placed == items
}

// Whether no node lies on a directed cycle. Lent a workspace of W words or more.
pub fn is_acyclic(d: &Drawing, ws: &mut [u32]) -> Result<bool, Refusal>
    ensures { IsAcyclic (drawing_of d.now) ws.old ws.new result }
{
    let d = accept(d)?;
    let words = d.workspace_need();
    if ws.len() < words {
        return Err(Refusal::ShortRoom);
    }
    Ok(decide(&mut ws[..words], &d))
}
