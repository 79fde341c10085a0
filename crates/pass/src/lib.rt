// The two passes of a layer: each of its operations reads its inputs and writes its outputs into its own part of the room;
// then their outputs are stored in memory, in ascending operation order.
//
// The workspace, for m operations and n nodes: m orders, m marks, m operations layer by layer, m + 1 offsets; where each operation's
// sources begin, and its targets, m each; n words of memory; the room, in which each operation has a part for its outputs.
#![tactic(auto)]

ghost use Rattle.std.specs.Prelude.{true, map, ◌≡◌, ℕ, ◌+◌, ◌≤◌, ◌<◌, ◌^◌, length};
ghost use Rattle.rules.specs.Lists.{◌∈◌, at, seg};
ghost use Rattle.rules.specs.Lent.{drawing_of};
ghost use Rattle.rules.specs.Drawing.{node_count, op_count, targets_of};
ghost use Rattle.rules.specs.Analysis.{orders, layers};
ghost use Rattle.rules.specs.Evaluation.{operation, suits, outcome, store_all, run};
ghost use Rattle.rules.specs.Inner.Running.{Runs, Reads, ReadUpTo, StoredUpTo, Ran, Ready, memory_at, memory_of, outputs_in, operation_at};
ghost use Rattle.rules.specs.Inner.Words.{back};

use rules::Drawing;

// An operation reads its inputs, at places of the n words of memory that begin at word base, and writes its outputs into its own part of
// the room, which begins at word `from`.
fn work(ws: &mut [u32], base: usize, n: usize, from: usize, label: u32, places: &[u32], outs: usize)
    requires by_index { ((u : ℕ) → u ∈ places.now → u < n) × (base + n ≤ length ws.old) × (from + outs ≤ length ws.old) }
    requires outs_value { (suits (operation label) (length places.now) outs ≡ true) × (length places.now < 2 ^ 32) }
    ensures { ws.new ≡ back from outs (outcome (operation label) (map (at (seg base n ws.old)) places.now) outs) ws.old }
{
    let room = base + n;
    let end = from + outs;
    let value = operation::value(label, &ws[base..room], places);
    operation::write(&mut ws[from..end], value);
}

// Operation e reads its inputs and writes its outputs into its own part of the room.
fn read_one(ws: &mut [u32], d: &Drawing, e: usize)
    requires runs { Runs (drawing_of d.now) ws.old }
    requires e_in_bounds { e < op_count (drawing_of d.now) }
    ensures { Reads (drawing_of d.now) e ws.old ws.new }
{
    let m = d.ops.len();
    let n = d.nodes.len();
    let base = 6 * m + 1;
    let s = ws[4 * m + 1 + e] as usize;
    let t = ws[5 * m + 1 + e] as usize;
    let end = s + d.sources.lengths[e] as usize;
    work(
        ws,
        base,
        n,
        base + n + t,
        d.ops[e],
        &d.sources.values[s..end],
        d.targets.lengths[e] as usize,
    );
}

// Operation e stores its outputs.
fn store_one(ws: &mut [u32], d: &Drawing, e: usize)
    requires runs { Runs (drawing_of d.now) ws.old }
    requires e_in_bounds { e < op_count (drawing_of d.now) }
    ensures { ws.new ≡ back (memory_at (drawing_of d.now)) (node_count (drawing_of d.now)) (store_all (targets_of (drawing_of d.now) e) (outputs_in (drawing_of d.now) ws.old e) (memory_of (drawing_of d.now) ws.old)) ws.old }
{
    let m = d.ops.len();
    let n = d.nodes.len();
    let base = 6 * m + 1;
    let t = ws[5 * m + 1 + e] as usize;
    let end = t + d.targets.lengths[e] as usize;
    memory::scatter_within(ws, base, n, base + n + t, &d.targets.values[t..end]);
}

// The operations that stand at places lo to hi - 1, layer by layer, read.
fn read_layer(ws: &mut [u32], d: &Drawing, lo: usize, hi: usize)
    requires runs { Runs (drawing_of d.now) ws.old }
    requires lo_le_hi { (lo ≤ hi) × (hi ≤ op_count (drawing_of d.now)) }
    ensures { ReadUpTo (drawing_of d.now) lo hi ws.old ws.new }
{
    let operations = 2 * d.ops.len();
    for p in lo..hi {
        let e = ws[operations + p] as usize;
        read_one(ws, d, e);
    }
}

// The same operations, which have read, store their outputs, in this order.
// Stays: the new form is no plainer: `read_layer` and this are one `for` of two lines each, with invariants of their own.
fn store_layer(ws: &mut [u32], d: &Drawing, lo: usize, hi: usize)
    requires runs { Runs (drawing_of d.now) ws.old }
    requires lo_le_hi { (lo ≤ hi) × (hi ≤ op_count (drawing_of d.now)) }
    requires by_index { (q : ℕ) → lo ≤ q → q < hi → Ready (drawing_of d.now) (memory_of (drawing_of d.now) ws.old) ws.old (operation_at (drawing_of d.now) ws.old q) }
    ensures { StoredUpTo (drawing_of d.now) lo hi ws.old ws.new }
{
    let operations = 2 * d.ops.len();
    for q in lo..hi {
        let e = ws[operations + q] as usize;
        store_one(ws, d, e);
    }
}

// One layer: all its operations read, then all store.
fn run_layer(ws: &mut [u32], d: &Drawing, lo: usize, hi: usize)
    requires runs { Runs (drawing_of d.now) ws.old }
    requires lo_le_hi { (lo ≤ hi) × (hi ≤ op_count (drawing_of d.now)) }
    ensures { StoredUpTo (drawing_of d.now) lo hi ws.old ws.new }
{
    read_layer(ws, d, lo, hi);
    store_layer(ws, d, lo, hi);
}

// All layers, one after the other.
pub fn run_layers(ws: &mut [u32], d: &Drawing)
    requires { Runs (drawing_of d.now) ws.old }
    ensures { Ran (drawing_of d.now) (run (drawing_of d.now) (layers (orders (drawing_of d.now))) (memory_of (drawing_of d.now) ws.old)) ws.old ws.new }
{
    let m = d.ops.len();
    let offsets = 3 * m;
    for i in 0..m {
        let lo = ws[offsets + i] as usize;
        let hi = ws[offsets + i + 1] as usize;
        run_layer(ws, d, lo, hi);
    }
}
