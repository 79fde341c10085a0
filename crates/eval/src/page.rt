// What an evaluation works on.
ghost use Rattle.rules.specs.Drawing.{AcceptedBoundary, node_count};
ghost use Rattle.rules.specs.Lent.{drawing_of, boundary_of};

use rules::{Boundary, Checked};

// A valid drawing with a valid boundary of it, and the values that come in there.
#[derive(Clone, Copy)]
pub struct Page<'a> {
    pub drawing: Checked<'a>,
    pub boundary: Boundary<'a>,
    pub values: &'a [u32],
    pub ghost accepted: { AcceptedBoundary (node_count (drawing_of drawing.drawing)) (boundary_of boundary) },
}
