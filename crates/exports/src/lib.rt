// The C face: every public call as tiwelzam_NAME, thin over the proved call (but for the layer lookup) and with the same promise. The crate
// exports_c hands these functions to C.
//
// A slice is a pointer and a length. Each returns the refusal's number, 0 for none. A yes or no, or a size, is written into one
// word that the caller lends. Parameters stand in this order: first drawing, second drawing (each w, x, sl, sv, tl, tv: node labels,
// operation labels, source lengths, source values, target lengths, target values), map w and its declared target, map x and its, boundary
// inputs, boundary outputs, input values, outputs in the order that the call names them, workspace, the answer's word.
//
// Stays: the C interface: a slice is two words in C, and the names and the order of the parameters are what C programs link.
#![tactic(auto)]

ghost use Rattle.std.specs.Prelude.{◌≡◌};
ghost use Rattle.rules.specs.Drawing.{drawing, maps, boundary};
ghost use Rattle.rules.specs.Lent.{drawing_of, maps_of};
ghost use Rattle.rules.specs.Refusals.{refusal_of};
ghost use Rattle.rules.specs.Faces.{DoneFace, VerdictFace, SizeFace, SoundFace, LayerAtFace, Told, Measured};
ghost use Rattle.rules.specs.Promises.{CheckDrawing, CheckMaps, CheckBoundary, SourceConverse, TargetConverse, NodeAdjacency, OperationAdjacency, NodeAdjacencySize, OperationAdjacencySize, IsAcyclic, Layer, LayeredOperations, Validate, IsMonomorphism, IsConvexSubgraph, Eval};

use rules::{Boundary, Drawing, IndexedCoproduct, Map, Maps, Refusal};

// The number of an answer that only refuses or does not.
fn done(answer: Result<(), Refusal>) -> u32
    ensures { result ≡ refusal_of answer }
{
    match answer {
        Ok(()) => 0,
        Err(why) => why.into(),
    }
}

// The number of a verdict; a yes or no goes into the lent word.
fn tell(answer: Result<bool, Refusal>, word: &mut u32) -> u32
    ensures { Told answer word.old word.new result }
{
    measure(answer.map(u32::from), word)
}

// The number of a size; the size goes into the lent word.
fn measure(answer: Result<u32, Refusal>, word: &mut u32) -> u32
    ensures { Measured answer word.old word.new result }
{
    match answer {
        Ok(size) => {
            *word = size;
            0
        }
        Err(why) => why.into(),
    }
}

// The drawing of six lists, as C lends them.
fn drawing_from<'a>(
    w: &'a [u32],
    x: &'a [u32],
    sl: &'a [u32],
    sv: &'a [u32],
    tl: &'a [u32],
    tv: &'a [u32],
) -> Drawing<'a>
    ensures { drawing_of result ≡ drawing w.now x.now sl.now sv.now tl.now tv.now }
{
    Drawing {
        nodes: w,
        ops: x,
        sources: IndexedCoproduct {
            lengths: sl,
            values: sv,
        },
        targets: IndexedCoproduct {
            lengths: tl,
            values: tv,
        },
    }
}

// The two maps, each of its entries and its declared target.
fn maps_from<'a>(fw: &'a [u32], wd: u32, fx: &'a [u32], xd: u32) -> Maps<'a>
    ensures { maps_of result ≡ maps fw.now wd fx.now xd }
{
    Maps {
        w: Map {
            entries: fw,
            target: wd,
        },
        x: Map {
            entries: fx,
            target: xd,
        },
    }
}

// 1, 2, 3 of a drawing.
pub fn tiwelzam_check_drawing(
    w: &[u32],
    x: &[u32],
    sl: &[u32],
    sv: &[u32],
    tl: &[u32],
    tv: &[u32],
) -> u32
    ensures { DoneFace (CheckDrawing (drawing w.now x.now sl.now sv.now tl.now tv.now)) result }
{
    let d = drawing_from(w, x, sl, sv, tl, tv);
    done(hypergraph::check::check_drawing(&d))
}

// 1 and 4 of two maps.
pub fn tiwelzam_check_maps(fw: &[u32], wd: u32, fx: &[u32], xd: u32) -> u32
    ensures { DoneFace (CheckMaps (maps fw.now wd fx.now xd)) result }
{
    let f = maps_from(fw, wd, fx, xd);
    done(hypergraph::check::check_maps(&f))
}

// 1, 2, 3 of a drawing and 12 of its boundary.
pub fn tiwelzam_check_boundary(
    w: &[u32],
    x: &[u32],
    sl: &[u32],
    sv: &[u32],
    tl: &[u32],
    tv: &[u32],
    inputs: &[u32],
    outputs: &[u32],
) -> u32
    ensures { DoneFace (CheckBoundary (drawing w.now x.now sl.now sv.now tl.now tv.now) (boundary inputs.now outputs.now)) result }
{
    let d = drawing_from(w, x, sl, sv, tl, tv);
    let b = Boundary { inputs, outputs };
    done(hypergraph::check::check_boundary(&d, &b))
}

// For each node the operations that list it as a source: n lengths, S values.
pub fn tiwelzam_source_converse(
    w: &[u32],
    x: &[u32],
    sl: &[u32],
    sv: &[u32],
    tl: &[u32],
    tv: &[u32],
    lens: &mut [u32],
    vals: &mut [u32],
    ws: &mut [u32],
) -> u32
    ensures { DoneFace (SourceConverse (drawing w.now x.now sl.now sv.now tl.now tv.now) lens.old lens.new vals.old vals.new ws.old ws.new) result }
{
    let d = drawing_from(w, x, sl, sv, tl, tv);
    done(hypergraph::converse::source_converse(&d, lens, vals, ws))
}

// For each node the operations that list it as a target: n lengths, T values.
pub fn tiwelzam_target_converse(
    w: &[u32],
    x: &[u32],
    sl: &[u32],
    sv: &[u32],
    tl: &[u32],
    tv: &[u32],
    lens: &mut [u32],
    vals: &mut [u32],
    ws: &mut [u32],
) -> u32
    ensures { DoneFace (TargetConverse (drawing w.now x.now sl.now sv.now tl.now tv.now) lens.old lens.new vals.old vals.new ws.old ws.new) result }
{
    let d = drawing_from(w, x, sl, sv, tl, tv);
    done(hypergraph::converse::target_converse(&d, lens, vals, ws))
}

// The nodes that each node leads to: n lengths, and as many values as node_adjacency_size says.
pub fn tiwelzam_node_adjacency(
    w: &[u32],
    x: &[u32],
    sl: &[u32],
    sv: &[u32],
    tl: &[u32],
    tv: &[u32],
    lens: &mut [u32],
    vals: &mut [u32],
    ws: &mut [u32],
) -> u32
    ensures { DoneFace (NodeAdjacency (drawing w.now x.now sl.now sv.now tl.now tv.now) lens.old lens.new vals.old vals.new ws.old ws.new) result }
{
    let d = drawing_from(w, x, sl, sv, tl, tv);
    done(hypergraph::adjacency::node_adjacency(&d, lens, vals, ws))
}

// The operations that each operation leads to: m lengths, and as many values as operation_adjacency_size says.
pub fn tiwelzam_operation_adjacency(
    w: &[u32],
    x: &[u32],
    sl: &[u32],
    sv: &[u32],
    tl: &[u32],
    tv: &[u32],
    lens: &mut [u32],
    vals: &mut [u32],
    ws: &mut [u32],
) -> u32
    ensures { DoneFace (OperationAdjacency (drawing w.now x.now sl.now sv.now tl.now tv.now) lens.old lens.new vals.old vals.new ws.old ws.new) result }
{
    let d = drawing_from(w, x, sl, sv, tl, tv);
    done(hypergraph::adjacency::operation_adjacency(&d, lens, vals, ws))
}

// How many values node_adjacency writes.
pub fn tiwelzam_node_adjacency_size(
    w: &[u32],
    x: &[u32],
    sl: &[u32],
    sv: &[u32],
    tl: &[u32],
    tv: &[u32],
    word: &mut u32,
) -> u32
    ensures { SizeFace (NodeAdjacencySize (drawing w.now x.now sl.now sv.now tl.now tv.now)) word.old word.new result }
{
    let d = drawing_from(w, x, sl, sv, tl, tv);
    measure(hypergraph::adjacency::node_adjacency_size(&d), word)
}

// How many values operation_adjacency writes.
pub fn tiwelzam_operation_adjacency_size(
    w: &[u32],
    x: &[u32],
    sl: &[u32],
    sv: &[u32],
    tl: &[u32],
    tv: &[u32],
    word: &mut u32,
) -> u32
    ensures { SizeFace (OperationAdjacencySize (drawing w.now x.now sl.now sv.now tl.now tv.now)) word.old word.new result }
{
    let d = drawing_from(w, x, sl, sv, tl, tv);
    measure(hypergraph::adjacency::operation_adjacency_size(&d), word)
}

// Whether no node lies on a directed cycle.
pub fn tiwelzam_is_acyclic(
    w: &[u32],
    x: &[u32],
    sl: &[u32],
    sv: &[u32],
    tl: &[u32],
    tv: &[u32],
    ws: &mut [u32],
    word: &mut u32,
) -> u32
    ensures { VerdictFace (IsAcyclic (drawing w.now x.now sl.now sv.now tl.now tv.now) ws.old ws.new) word.old word.new result }
{
    let d = drawing_from(w, x, sl, sv, tl, tv);
    tell(graph::acyclic::is_acyclic(&d, ws), word)
}

// The operations' orders and marks: m each.
pub fn tiwelzam_layer(
    w: &[u32],
    x: &[u32],
    sl: &[u32],
    sv: &[u32],
    tl: &[u32],
    tv: &[u32],
    orders: &mut [u32],
    marks: &mut [u32],
    ws: &mut [u32],
) -> u32
    ensures { DoneFace (Layer (drawing w.now x.now sl.now sv.now tl.now tv.now) orders.old orders.new marks.old marks.new ws.old ws.new) result }
{
    let d = drawing_from(w, x, sl, sv, tl, tv);
    done(layers::layer::layer(&d, orders, marks, ws))
}

// The operations layer by layer: m operations, m + 1 offsets, m marks.
pub fn tiwelzam_layered_operations(
    w: &[u32],
    x: &[u32],
    sl: &[u32],
    sv: &[u32],
    tl: &[u32],
    tv: &[u32],
    operations: &mut [u32],
    offsets: &mut [u32],
    marks: &mut [u32],
    ws: &mut [u32],
) -> u32
    ensures { DoneFace (LayeredOperations (drawing w.now x.now sl.now sv.now tl.now tv.now) operations.old operations.new offsets.old offsets.new marks.old marks.new ws.old ws.new) result }
{
    let d = drawing_from(w, x, sl, sv, tl, tv);
    done(layers::layer::layered_operations(&d, operations, offsets, marks, ws))
}

// Whether two maps from the first drawing into the second are natural: 5 to 10 if not, 1 to 4 for lists that are no drawings or maps.
pub fn tiwelzam_validate(
    cw: &[u32],
    cx: &[u32],
    csl: &[u32],
    csv: &[u32],
    ctl: &[u32],
    ctv: &[u32],
    dw: &[u32],
    dx: &[u32],
    dsl: &[u32],
    dsv: &[u32],
    dtl: &[u32],
    dtv: &[u32],
    fw: &[u32],
    wd: u32,
    fx: &[u32],
    xd: u32,
) -> u32
    ensures { DoneFace (Validate (drawing cw.now cx.now csl.now csv.now ctl.now ctv.now) (drawing dw.now dx.now dsl.now dsv.now dtl.now dtv.now) (maps fw.now wd fx.now xd)) result }
{
    let c = drawing_from(cw, cx, csl, csv, ctl, ctv);
    let d = drawing_from(dw, dx, dsl, dsv, dtl, dtv);
    let f = maps_from(fw, wd, fx, xd);
    done(arrow::validate::validate(&c, &d, &f))
}

// Whether neither map has an entry twice.
pub fn tiwelzam_is_monomorphism(
    fw: &[u32],
    wd: u32,
    fx: &[u32],
    xd: u32,
    ws: &mut [u32],
    word: &mut u32,
) -> u32
    ensures { VerdictFace (IsMonomorphism (maps fw.now wd fx.now xd) ws.old ws.new) word.old word.new result }
{
    let f = maps_from(fw, wd, fx, xd);
    tell(arrow::monomorphism::is_monomorphism(&f, ws), word)
}

// Whether the group that two maps select is convex.
pub fn tiwelzam_is_convex_subgraph(
    cw: &[u32],
    cx: &[u32],
    csl: &[u32],
    csv: &[u32],
    ctl: &[u32],
    ctv: &[u32],
    dw: &[u32],
    dx: &[u32],
    dsl: &[u32],
    dsv: &[u32],
    dtl: &[u32],
    dtv: &[u32],
    fw: &[u32],
    wd: u32,
    fx: &[u32],
    xd: u32,
    ws: &mut [u32],
    word: &mut u32,
) -> u32
    ensures { VerdictFace (IsConvexSubgraph (drawing cw.now cx.now csl.now csv.now ctl.now ctv.now) (drawing dw.now dx.now dsl.now dsv.now dtl.now dtv.now) (maps fw.now wd fx.now xd) ws.old ws.new) word.old word.new result }
{
    let c = drawing_from(cw, cx, csl, csv, ctl, ctv);
    let d = drawing_from(dw, dx, dsl, dsv, dtl, dtv);
    let f = maps_from(fw, wd, fx, xd);
    tell(convexity::convex::is_convex_subgraph(&c, &d, &f, ws), word)
}

// The values at the output list.
pub fn tiwelzam_eval(
    w: &[u32],
    x: &[u32],
    sl: &[u32],
    sv: &[u32],
    tl: &[u32],
    tv: &[u32],
    inputs: &[u32],
    outputs: &[u32],
    values: &[u32],
    out: &mut [u32],
    ws: &mut [u32],
) -> u32
    ensures { DoneFace (Eval (drawing w.now x.now sl.now sv.now tl.now tv.now) (boundary inputs.now outputs.now) values.now out.old out.new ws.old ws.new) result }
{
    let d = drawing_from(w, x, sl, sv, tl, tv);
    let b = Boundary { inputs, outputs };
    done(eval::eval(&d, &b, values, out, ws))
}

// Whether offsets are sound: one more than the operations, first 0, never falling, last their number.
pub fn tiwelzam_offsets_sound(operations: &[u32], offsets: &[u32], word: &mut u32) -> u32
    ensures { SoundFace operations.now offsets.now word.new result }
{
    *word = u32::from(layers::lookup::offsets_sound(operations, offsets));
    0
}

// Layer i as a part of the operations: where it starts and how long it is, since C has no part to hand back.
pub fn tiwelzam_layer_at(
    operations: &[u32],
    offsets: &[u32],
    i: usize,
    start: &mut u32,
    count: &mut u32,
) -> u32
    ensures { LayerAtFace operations.now offsets.now i start.new count.new result }
{
    if layers::lookup::offsets_sound(operations, offsets) & (i < operations.len()) {
        *start = offsets[i];
        *count = offsets[i + 1] - offsets[i];
    } else {
        *start = 0;
        *count = 0;
    }
    0
}
