// Whether a group is convex, from the source c into the target d. (In the Rust: `is_convex_subgraph_morphism`.)
ghost use Rattle.std.specs.Prelude.{◌≡◌, ℕ, ◌<◌, ◌≤◌, length};
ghost use Rattle.rules.specs.Lists.{◌∈◌};
ghost use Rattle.rules.specs.Drawing.{most_items, node_count};
ghost use Rattle.rules.specs.Lent.{drawing_of, maps_of};
ghost use Rattle.rules.specs.Maps.{Convex};
ghost use Rattle.rules.specs.Promises.{IsConvexSubgraph};
ghost use Rattle.rules.specs.Refusals.{workspace_need};
ghost use Rattle.rules.specs.Inner.Decides.{Decides, GroupConvex};
ghost use Rattle.rules.specs.Inner.Selected.{SelectedOps};

use crate::road::has_road;
use arrow::inputs::{Arrow, accept};
use arrow::monomorphism::both_injective;
use arrow::naturality::naturality;
use rules::{Checked, Drawing, Maps, Refusal};

// Of natural maps: whether no entry stands twice and there is no road. In W words of workspace, which it clears.
fn decide_natural(d: &Checked, f: &Maps, ws: &mut [u32]) -> bool
    requires by_index { ((v : ℕ) → v ∈ f.now.w.entries.now → v < node_count (drawing_of d.now.drawing)) × (length f.now.w.entries.now ≤ most_items) × SelectedOps (drawing_of d.now.drawing) f.now.x.entries.now }
    requires ws_len { length ws.old ≡ workspace_need (drawing_of d.now.drawing) }
    ensures { Decides (GroupConvex (drawing_of d.now.drawing) f.now.w.entries.now f.now.x.entries.now) (workspace_need (drawing_of d.now.drawing)) ws.new result }
{
    let items = d.drawing.nodes.len() + d.drawing.ops.len();
    if !both_injective(f, &mut ws[..items]) {
        ws.fill(0);
        return false;
    }
    !has_road(d, f, ws)
}

// Whether the group is convex; no where validation gives 5 to 10. In W words of workspace, which it clears.
fn decide(f: &Arrow, ws: &mut [u32]) -> bool
    requires ws_len { length ws.old ≡ workspace_need (drawing_of f.now.target.now) }
    ensures { Decides (Convex (drawing_of f.now.source.now) (drawing_of f.now.target.now) (maps_of f.now.maps.now)) (workspace_need (drawing_of f.now.target.now)) ws.new result }
{
    if naturality(f).is_err() {
        ws.fill(0);
        return false;
    }
    let target = Checked { drawing: *f.target };
    decide_natural(&target, f.maps, ws)
}

// Whether the maps are natural and injective and no path that begins with an unselected operation leads from a selected node to one.
// Lent a workspace of W words or more.
pub fn is_convex_subgraph(
    c: &Drawing,
    d: &Drawing,
    f: &Maps,
    ws: &mut [u32],
) -> Result<bool, Refusal>
    ensures { IsConvexSubgraph (drawing_of c.now) (drawing_of d.now) (maps_of f.now) ws.old ws.new result }
{
    let f = accept(c, d, f)?;
    let target = Checked { drawing: *f.target };
    let words = target.workspace_need();
    if ws.len() < words {
        return Err(Refusal::ShortRoom);
    }
    Ok(decide(&f, &mut ws[..words]))
}
