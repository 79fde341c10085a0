// Whether there is a road: a path of one or more operations from a selected node to a selected node that begins with an
// unselected operation.
ghost use Rattle.std.specs.Prelude.{◌≡◌, ℕ, ◌<◌, length, All, get_or, ltb};
ghost use Rattle.std.specs.List.{list_any};
ghost use Rattle.rules.specs.Drawing.{node_count};
ghost use Rattle.rules.specs.Lent.{drawing_of};
ghost use Rattle.rules.specs.Lists.{◌∈◌};
ghost use Rattle.rules.specs.Refusals.{workspace_need};
ghost use Rattle.rules.specs.Maps.{Road};
ghost use Rattle.rules.specs.Inner.Decides.{Decides};
ghost use Rattle.rules.specs.Inner.Selected.{SelectedOps};

use crate::tables::tables;
use crate::walk::walk;
use hypergraph::incidence::Rows;
use rules::{Checked, Maps};

// Whether some entry of a list has a mark.
fn any_marked(marks: &[u32], list: &[u32]) -> bool
    requires { All (λ v. v < length marks.now) list.now }
    ensures { result ≡ list_any (λ v. ltb 0 (get_or marks.now v 0)) list.now }
{
    list.iter().any(|v| 0 < marks[*v as usize])
}

// Decides it, in W words of workspace, which it clears. The nodes and the operations that f names are selected.
pub(crate) fn has_road(d: &Checked, f: &Maps, ws: &mut [u32]) -> bool
    requires by_index { ((v : ℕ) → v ∈ f.now.w.entries.now → v < node_count (drawing_of d.now.drawing)) × SelectedOps (drawing_of d.now.drawing) f.now.x.entries.now }
    requires ws_len { length ws.old ≡ workspace_need (drawing_of d.now.drawing) }
    ensures { Decides (Road (drawing_of d.now.drawing) f.now.w.entries.now f.now.x.entries.now) (workspace_need (drawing_of d.now.drawing)) ws.new result }
{
    let n = d.drawing.nodes.len();
    let k = n + d.drawing.ops.len();
    let values = d.drawing.sources.values.len() + d.drawing.targets.values.len();
    let (full, rest) = ws.split_at_mut(k + 1 + values);
    let (unselected, rest) = rest.split_at_mut(n + 1 + values);
    let (marks, rest) = rest.split_at_mut(k);
    tables(d, f.x.entries, full, unselected, marks);
    let unselected = Rows {
        count: n,
        words: unselected,
    };
    let full = Rows {
        count: k,
        words: full,
    };
    walk(unselected, full, f.w.entries, marks, &mut rest[..k]);
    let found = any_marked(marks, f.w.entries);
    ws.fill(0);
    found
}
