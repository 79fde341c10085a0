// The checks of what is lent, in the order in which refusals are given.
ghost use Rattle.std.specs.Prelude.{◌≡◌, ◌&&◌, eqb, length, IfOk};
ghost use Rattle.rules.specs.Lent.{drawing_of, maps_of, boundary_of};
ghost use Rattle.rules.specs.Calls.{drawing_refusal};
ghost use Rattle.rules.specs.Lists.{sum};
ghost use Rattle.rules.specs.Refusals.{refusal_of, within, lengths_fit, values_below, maps_within, entries_below, boundary_within, boundary_below};
ghost use Rattle.rules.specs.Promises.{CheckDrawing, CheckMaps, CheckBoundary};
ghost use Rattle.rules.specs.Inner.Checks.{lists_refusal, boundary_lists_refusal};

use rules::{Boundary, Checked, Drawing, IndexedCoproduct, Maps, Refusal};

// 1: whether the counts are within their limits.
pub fn counts_within(d: &Drawing) -> bool
    ensures { result ≡ within (drawing_of d.now) }
{
    (d.nodes.len() <= 4096)
        & (d.ops.len() <= 4096)
        & (d.sources.values.len() <= 16384)
        & (d.targets.values.len() <= 16384)
}

// Whether there are so many lists, whose lengths add up to the count of values.
fn has_lists(lists: &IndexedCoproduct, count: usize) -> bool
    ensures { result ≡ (eqb (length lists.now.lengths.now) count && eqb (sum lists.now.lengths.now) (length lists.now.values.now)) }
{
    (lists.lengths.len() == count) & array::sums_to(lists.lengths, lists.values.len())
}

// 2: whether each operation has a list of sources and one of targets.
fn lengths_fit(d: &Drawing) -> bool
    ensures { result ≡ lengths_fit (drawing_of d.now) }
{
    has_lists(&d.sources, d.ops.len()) & has_lists(&d.targets, d.ops.len())
}

// 3: whether each value is a node.
fn values_below(d: &Drawing) -> bool
    ensures { result ≡ values_below (drawing_of d.now) }
{
    array::all_below(d.sources.values, d.nodes.len())
        & array::all_below(d.targets.values, d.nodes.len())
}

// 2, then 3.
#[tactic(auto, unfolding(rules::specs::Inner::Checks::lists_refusal))]
pub fn check_lists(d: &Drawing) -> Result<(), Refusal>
    ensures { refusal_of result ≡ lists_refusal (drawing_of d.now) }
{
    if !lengths_fit(d) {
        return Err(Refusal::BadLengths);
    }
    if !values_below(d) {
        return Err(Refusal::BadValue);
    }
    Ok(())
}

// Whether a drawing is valid, and if not, with which number it is refused.
#[tactic(auto, unfolding(rules::specs::Calls::drawing_refusal, rules::specs::Inner::Checks::lists_refusal))]
pub fn check_drawing(d: &Drawing) -> Result<(), Refusal>
    ensures { CheckDrawing (drawing_of d.now) result }
{
    if !counts_within(d) {
        return Err(Refusal::OverLimit);
    }
    check_lists(d)
}

// The same, and hands a valid drawing back as one that is known to be valid.
pub fn accept<'a>(d: &Drawing<'a>) -> Result<Checked<'a>, Refusal>
    ensures refusal { refusal_of result ≡ drawing_refusal (drawing_of d.now) }
    ensures same { IfOk result (λ c. c.drawing ≡ d.now) }
{
    check_drawing(d)?;
    Ok(Checked { drawing: *d })
}

// 1: whether two maps are within their limits.
pub fn maps_within(f: &Maps) -> bool
    ensures { result ≡ maps_within (maps_of f.now) }
{
    (f.w.target <= 4096)
        & (f.w.entries.len() <= 4096)
        & (f.x.target <= 4096)
        & (f.x.entries.len() <= 4096)
}

// 4: whether each entry is below its map's declared target.
pub fn entries_below(f: &Maps) -> bool
    ensures { result ≡ entries_below (maps_of f.now) }
{
    array::all_below(f.w.entries, f.w.target as usize)
        & array::all_below(f.x.entries, f.x.target as usize)
}

// Whether two maps are valid, and if not, with which number they are refused.
#[tactic(auto, unfolding(rules::specs::Calls::maps_refusal))]
pub fn check_maps(f: &Maps) -> Result<(), Refusal>
    ensures { CheckMaps (maps_of f.now) result }
{
    if !maps_within(f) {
        return Err(Refusal::OverLimit);
    }
    if !entries_below(f) {
        return Err(Refusal::BadEntry);
    }
    Ok(())
}

// 1: whether the counts of a boundary are within their limits.
pub fn boundary_within(b: &Boundary) -> bool
    ensures { result ≡ boundary_within (boundary_of b.now) }
{
    (b.inputs.len() <= 4096) & (b.outputs.len() <= 4096)
}

// 12: whether each entry of a boundary is one of n nodes.
pub(crate) fn boundary_below(n: usize, b: &Boundary) -> bool
    ensures { result ≡ boundary_below n (boundary_of b.now) }
{
    array::all_below(b.inputs, n) & array::all_below(b.outputs, n)
}

// 2 and 3 of a drawing, then 12 of its boundary.
#[tactic(auto, unfolding(rules::specs::Inner::Checks::boundary_lists_refusal, rules::specs::Inner::Checks::lists_refusal))]
pub fn check_boundary_lists(d: &Drawing, b: &Boundary) -> Result<(), Refusal>
    ensures { refusal_of result ≡ boundary_lists_refusal (drawing_of d.now) (boundary_of b.now) }
{
    check_lists(d)?;
    if !boundary_below(d.nodes.len(), b) {
        return Err(Refusal::BadBoundary);
    }
    Ok(())
}

// Whether a drawing and a boundary of it are valid, and if not, with which number they are refused.
#[tactic(auto, unfolding(rules::specs::Calls::boundary_refusal, rules::specs::Inner::Checks::boundary_lists_refusal))]
pub fn check_boundary(d: &Drawing, b: &Boundary) -> Result<(), Refusal>
    ensures { CheckBoundary (drawing_of d.now) (boundary_of b.now) result }
{
    if !(counts_within(d) & boundary_within(b)) {
        return Err(Refusal::OverLimit);
    }
    check_boundary_lists(d, b)
}
