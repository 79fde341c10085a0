// Whether maps are natural: the refusals 5 to 10, in this order. (In the Rust: `validate_hypergraph_morphism`.)
ghost use Rattle.std.specs.Prelude.{◌<◌, ◌&&◌, ◌≡◌, length, take, eqb};
ghost use Rattle.rules.specs.Lists.{sum, all, range};
ghost use Rattle.rules.specs.Lent.{drawing_of, maps_of};
ghost use Rattle.rules.specs.Refusals.{refusal_of};
ghost use Rattle.rules.specs.Calls.{natural_refusal};
ghost use Rattle.rules.specs.Inner.Loops.{Starting};
ghost use Rattle.rules.specs.Inner.Arrow.{Carrying, carried_list};

use crate::inputs::Arrow;
use finite_function::carries;
use indexed_coproduct::part;
use rules::{IndexedCoproduct, Map, Maps, Refusal};

// Whether operation e's list, which begins at `from`, is carried to the list of its image.
// Both are handed to the comparison as parts of their values. `starts` tells where the lists of the target begin.
fn list_carried(
    f: &Maps,
    c: &IndexedCoproduct,
    d: &IndexedCoproduct,
    starts: &[u32],
    e: usize,
    from: usize,
) -> bool
    requires carrying { Carrying f.now.w.entries.now f.now.x.entries.now c.now.lengths.now c.now.values.now d.now.lengths.now d.now.values.now }
    requires starting { Starting d.now.lengths.now starts.now }
    requires e_in_bounds { (e < length f.now.x.entries.now) × (from ≡ sum (take e c.now.lengths.now)) }
    ensures { result ≡ carried_list f.now.w.entries.now f.now.x.entries.now c.now.lengths.now c.now.values.now d.now.lengths.now d.now.values.now e }
{
    let image = f.x.entries[e] as usize;
    let first = starts[image] as usize;
    let list = part(c, e, from);
    array::same_through(f.w.entries, list, part(d, image, first))
}

// Whether every operation's list is carried to that of its image: its sources, or its targets.
fn lists_carried(f: &Maps, c: &IndexedCoproduct, d: &IndexedCoproduct) -> bool
    requires { Carrying f.now.w.entries.now f.now.x.entries.now c.now.lengths.now c.now.values.now d.now.lengths.now d.now.values.now }
    ensures { result ≡ all (carried_list f.now.w.entries.now f.now.x.entries.now c.now.lengths.now c.now.values.now d.now.lengths.now d.now.values.now) (range (length f.now.x.entries.now)) }
{
    // Stays: no heap: the room is as large as the limit allows.
    let mut starts = [0u32; 4096];
    indexed_coproduct::starts(&mut starts, d.lengths);
    let mut from = 0;
    for e in 0..f.x.entries.len() {
        if !list_carried(f, c, d, &starts, e, from) {
            return false;
        }
        from += c.lengths[e] as usize;
    }
    true
}

// Whether a map has an entry for each item of the source and declares the target's count.
fn type_matches(map: &Map, source: &[u32], target: &[u32]) -> bool
    ensures { result ≡ (eqb (length map.now.entries.now) (length source.now) && eqb map.now.target (length target.now)) }
{
    (map.entries.len() == source.len()) & (map.target as usize == target.len())
}

// 5 and 6: the types of the maps do not match; 7 and 8: labels are not carried; 9 and 10: lists are not.
#[tactic(auto, unfolding(rules::specs::Calls::natural_refusal))]
pub fn naturality(f: &Arrow) -> Result<(), Refusal>
    ensures { refusal_of result ≡ natural_refusal (drawing_of f.now.source.now) (drawing_of f.now.target.now) (maps_of f.now.maps.now) }
{
    let c = f.source;
    let d = f.target;
    let f = f.maps;
    if !type_matches(&f.w, c.nodes, d.nodes) {
        return Err(Refusal::TypeMismatchW);
    }
    if !type_matches(&f.x, c.ops, d.ops) {
        return Err(Refusal::TypeMismatchX);
    }
    if !carries(d.nodes, f.w.entries, c.nodes) {
        return Err(Refusal::NotNaturalW);
    }
    if !carries(d.ops, f.x.entries, c.ops) {
        return Err(Refusal::NotNaturalX);
    }
    if !lists_carried(f, &c.sources, &d.sources) {
        return Err(Refusal::NotNaturalS);
    }
    if !lists_carried(f, &c.targets, &d.targets) {
        return Err(Refusal::NotNaturalT);
    }
    Ok(())
}
