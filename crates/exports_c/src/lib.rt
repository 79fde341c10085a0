// What C links: each function of `exports` under its own name, and with the same promise.
// Stays: the C interface: a static library is linked by no crate, and `replay` and the benchmarks' crates call the functions of `exports`.
#![tactic(auto)]

ghost use Rattle.rules.specs.Drawing.{drawing, maps, boundary};
ghost use Rattle.rules.specs.Faces.{DoneFace, VerdictFace, SizeFace, SoundFace, LayerAtFace};
ghost use Rattle.rules.specs.Promises.{CheckDrawing, CheckMaps, CheckBoundary, SourceConverse, TargetConverse, NodeAdjacency, OperationAdjacency, NodeAdjacencySize, OperationAdjacencySize, IsAcyclic, Layer, LayeredOperations, Validate, IsMonomorphism, IsConvexSubgraph, Eval};

// 1, 2, 3 of a drawing.
#[unsafe(no_mangle)]
pub extern "C" fn tiwelzam_check_drawing(
    w: &[u32],
    x: &[u32],
    sl: &[u32],
    sv: &[u32],
    tl: &[u32],
    tv: &[u32],
) -> u32
    ensures { DoneFace (CheckDrawing (drawing w.now x.now sl.now sv.now tl.now tv.now)) result }
{
    exports::tiwelzam_check_drawing(w, x, sl, sv, tl, tv)
}

// 1 and 4 of two maps.
#[unsafe(no_mangle)]
pub extern "C" fn tiwelzam_check_maps(fw: &[u32], wd: u32, fx: &[u32], xd: u32) -> u32
    ensures { DoneFace (CheckMaps (maps fw.now wd fx.now xd)) result }
{
    exports::tiwelzam_check_maps(fw, wd, fx, xd)
}

// 1, 2, 3 of a drawing and 12 of its boundary.
#[unsafe(no_mangle)]
pub extern "C" fn tiwelzam_check_boundary(
    w: &[u32],
    x: &[u32],
    sl: &[u32],
    sv: &[u32],
    tl: &[u32],
    tv: &[u32],
    inputs: &[u32],
    outputs: &[u32],
) -> u32
    ensures { DoneFace (CheckBoundary (drawing w.now x.now sl.now sv.now tl.now tv.now) (boundary inputs.now outputs.now)) result }
{
    exports::tiwelzam_check_boundary(w, x, sl, sv, tl, tv, inputs, outputs)
}

// For each node the operations that list it as a source: n lengths, S values.
#[unsafe(no_mangle)]
pub extern "C" fn tiwelzam_source_converse(
    w: &[u32],
    x: &[u32],
    sl: &[u32],
    sv: &[u32],
    tl: &[u32],
    tv: &[u32],
    lens: &mut [u32],
    vals: &mut [u32],
    ws: &mut [u32],
) -> u32
    ensures { DoneFace (SourceConverse (drawing w.now x.now sl.now sv.now tl.now tv.now) lens.old lens.new vals.old vals.new ws.old ws.new) result }
{
    exports::tiwelzam_source_converse(w, x, sl, sv, tl, tv, lens, vals, ws)
}

// For each node the operations that list it as a target: n lengths, T values.
#[unsafe(no_mangle)]
pub extern "C" fn tiwelzam_target_converse(
    w: &[u32],
    x: &[u32],
    sl: &[u32],
    sv: &[u32],
    tl: &[u32],
    tv: &[u32],
    lens: &mut [u32],
    vals: &mut [u32],
    ws: &mut [u32],
) -> u32
    ensures { DoneFace (TargetConverse (drawing w.now x.now sl.now sv.now tl.now tv.now) lens.old lens.new vals.old vals.new ws.old ws.new) result }
{
    exports::tiwelzam_target_converse(w, x, sl, sv, tl, tv, lens, vals, ws)
}

// The nodes that each node leads to: n lengths, and as many values as node_adjacency_size says.
#[unsafe(no_mangle)]
pub extern "C" fn tiwelzam_node_adjacency(
    w: &[u32],
    x: &[u32],
    sl: &[u32],
    sv: &[u32],
    tl: &[u32],
    tv: &[u32],
    lens: &mut [u32],
    vals: &mut [u32],
    ws: &mut [u32],
) -> u32
    ensures { DoneFace (NodeAdjacency (drawing w.now x.now sl.now sv.now tl.now tv.now) lens.old lens.new vals.old vals.new ws.old ws.new) result }
{
    exports::tiwelzam_node_adjacency(w, x, sl, sv, tl, tv, lens, vals, ws)
}

// The operations that each operation leads to: m lengths, and as many values as operation_adjacency_size says.
#[unsafe(no_mangle)]
pub extern "C" fn tiwelzam_operation_adjacency(
    w: &[u32],
    x: &[u32],
    sl: &[u32],
    sv: &[u32],
    tl: &[u32],
    tv: &[u32],
    lens: &mut [u32],
    vals: &mut [u32],
    ws: &mut [u32],
) -> u32
    ensures { DoneFace (OperationAdjacency (drawing w.now x.now sl.now sv.now tl.now tv.now) lens.old lens.new vals.old vals.new ws.old ws.new) result }
{
    exports::tiwelzam_operation_adjacency(w, x, sl, sv, tl, tv, lens, vals, ws)
}

// How many values node_adjacency writes.
#[unsafe(no_mangle)]
pub extern "C" fn tiwelzam_node_adjacency_size(
    w: &[u32],
    x: &[u32],
    sl: &[u32],
    sv: &[u32],
    tl: &[u32],
    tv: &[u32],
    word: &mut u32,
) -> u32
    ensures { SizeFace (NodeAdjacencySize (drawing w.now x.now sl.now sv.now tl.now tv.now)) word.old word.new result }
{
    exports::tiwelzam_node_adjacency_size(w, x, sl, sv, tl, tv, word)
}

// How many values operation_adjacency writes.
#[unsafe(no_mangle)]
pub extern "C" fn tiwelzam_operation_adjacency_size(
    w: &[u32],
    x: &[u32],
    sl: &[u32],
    sv: &[u32],
    tl: &[u32],
    tv: &[u32],
    word: &mut u32,
) -> u32
    ensures { SizeFace (OperationAdjacencySize (drawing w.now x.now sl.now sv.now tl.now tv.now)) word.old word.new result }
{
    exports::tiwelzam_operation_adjacency_size(w, x, sl, sv, tl, tv, word)
}

// Whether no node lies on a directed cycle.
#[unsafe(no_mangle)]
pub extern "C" fn tiwelzam_is_acyclic(
    w: &[u32],
    x: &[u32],
    sl: &[u32],
    sv: &[u32],
    tl: &[u32],
    tv: &[u32],
    ws: &mut [u32],
    word: &mut u32,
) -> u32
    ensures { VerdictFace (IsAcyclic (drawing w.now x.now sl.now sv.now tl.now tv.now) ws.old ws.new) word.old word.new result }
{
    exports::tiwelzam_is_acyclic(w, x, sl, sv, tl, tv, ws, word)
}

// The operations' orders and marks: m each.
#[unsafe(no_mangle)]
pub extern "C" fn tiwelzam_layer(
    w: &[u32],
    x: &[u32],
    sl: &[u32],
    sv: &[u32],
    tl: &[u32],
    tv: &[u32],
    orders: &mut [u32],
    marks: &mut [u32],
    ws: &mut [u32],
) -> u32
    ensures { DoneFace (Layer (drawing w.now x.now sl.now sv.now tl.now tv.now) orders.old orders.new marks.old marks.new ws.old ws.new) result }
{
    exports::tiwelzam_layer(w, x, sl, sv, tl, tv, orders, marks, ws)
}

// The operations layer by layer: m operations, m + 1 offsets, m marks.
#[unsafe(no_mangle)]
pub extern "C" fn tiwelzam_layered_operations(
    w: &[u32],
    x: &[u32],
    sl: &[u32],
    sv: &[u32],
    tl: &[u32],
    tv: &[u32],
    operations: &mut [u32],
    offsets: &mut [u32],
    marks: &mut [u32],
    ws: &mut [u32],
) -> u32
    ensures { DoneFace (LayeredOperations (drawing w.now x.now sl.now sv.now tl.now tv.now) operations.old operations.new offsets.old offsets.new marks.old marks.new ws.old ws.new) result }
{
    exports::tiwelzam_layered_operations(w, x, sl, sv, tl, tv, operations, offsets, marks, ws)
}

// Whether two maps from the first drawing into the second are natural: 5 to 10 if not, 1 to 4 for lists that are no drawings or maps.
#[unsafe(no_mangle)]
pub extern "C" fn tiwelzam_validate(
    cw: &[u32],
    cx: &[u32],
    csl: &[u32],
    csv: &[u32],
    ctl: &[u32],
    ctv: &[u32],
    dw: &[u32],
    dx: &[u32],
    dsl: &[u32],
    dsv: &[u32],
    dtl: &[u32],
    dtv: &[u32],
    fw: &[u32],
    wd: u32,
    fx: &[u32],
    xd: u32,
) -> u32
    ensures { DoneFace (Validate (drawing cw.now cx.now csl.now csv.now ctl.now ctv.now) (drawing dw.now dx.now dsl.now dsv.now dtl.now dtv.now) (maps fw.now wd fx.now xd)) result }
{
    exports::tiwelzam_validate(
        cw, cx, csl, csv, ctl, ctv, dw, dx, dsl, dsv, dtl, dtv, fw, wd, fx, xd,
    )
}

// Whether neither map has an entry twice.
#[unsafe(no_mangle)]
pub extern "C" fn tiwelzam_is_monomorphism(
    fw: &[u32],
    wd: u32,
    fx: &[u32],
    xd: u32,
    ws: &mut [u32],
    word: &mut u32,
) -> u32
    ensures { VerdictFace (IsMonomorphism (maps fw.now wd fx.now xd) ws.old ws.new) word.old word.new result }
{
    exports::tiwelzam_is_monomorphism(fw, wd, fx, xd, ws, word)
}

// Whether the group that two maps select is convex.
#[unsafe(no_mangle)]
pub extern "C" fn tiwelzam_is_convex_subgraph(
    cw: &[u32],
    cx: &[u32],
    csl: &[u32],
    csv: &[u32],
    ctl: &[u32],
    ctv: &[u32],
    dw: &[u32],
    dx: &[u32],
    dsl: &[u32],
    dsv: &[u32],
    dtl: &[u32],
    dtv: &[u32],
    fw: &[u32],
    wd: u32,
    fx: &[u32],
    xd: u32,
    ws: &mut [u32],
    word: &mut u32,
) -> u32
    ensures { VerdictFace (IsConvexSubgraph (drawing cw.now cx.now csl.now csv.now ctl.now ctv.now) (drawing dw.now dx.now dsl.now dsv.now dtl.now dtv.now) (maps fw.now wd fx.now xd) ws.old ws.new) word.old word.new result }
{
    exports::tiwelzam_is_convex_subgraph(
        cw, cx, csl, csv, ctl, ctv, dw, dx, dsl, dsv, dtl, dtv, fw, wd, fx, xd, ws, word,
    )
}

// The values at the output list.
#[unsafe(no_mangle)]
pub extern "C" fn tiwelzam_eval(
    w: &[u32],
    x: &[u32],
    sl: &[u32],
    sv: &[u32],
    tl: &[u32],
    tv: &[u32],
    inputs: &[u32],
    outputs: &[u32],
    values: &[u32],
    out: &mut [u32],
    ws: &mut [u32],
) -> u32
    ensures { DoneFace (Eval (drawing w.now x.now sl.now sv.now tl.now tv.now) (boundary inputs.now outputs.now) values.now out.old out.new ws.old ws.new) result }
{
    exports::tiwelzam_eval(w, x, sl, sv, tl, tv, inputs, outputs, values, out, ws)
}

// Whether offsets are sound: one more than the operations, first 0, never falling, last their number.
#[unsafe(no_mangle)]
pub extern "C" fn tiwelzam_offsets_sound(operations: &[u32], offsets: &[u32], word: &mut u32) -> u32
    ensures { SoundFace operations.now offsets.now word.new result }
{
    exports::tiwelzam_offsets_sound(operations, offsets, word)
}

// Layer i as a part of the operations: where it starts and how long it is, since C has no part to hand back.
#[unsafe(no_mangle)]
pub extern "C" fn tiwelzam_layer_at(
    operations: &[u32],
    offsets: &[u32],
    i: usize,
    start: &mut u32,
    count: &mut u32,
) -> u32
    ensures { LayerAtFace operations.now offsets.now i start.new count.new result }
{
    exports::tiwelzam_layer_at(operations, offsets, i, start, count)
}
