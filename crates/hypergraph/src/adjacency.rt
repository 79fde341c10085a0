// The adjacencies of a drawing, and how many entries they have.
ghost use Rattle.std.specs.Prelude.{◌+◌, ◌≤◌, ◌<◌, ◌^◌, ◌≡◌, length, replicate};
ghost use Rattle.rules.specs.Lists.{sum, row_entries};
ghost use Rattle.rules.specs.Lent.{drawing_of};
ghost use Rattle.rules.specs.Calls.{two_outputs_refusal};
ghost use Rattle.rules.specs.Drawing.{node_count, op_count};
ghost use Rattle.rules.specs.Analysis.{node_next, op_next};
ghost use Rattle.rules.specs.Refusals.{workspace_need};
ghost use Rattle.rules.specs.Promises.{WritesRows, NodeAdjacencySize, OperationAdjacencySize, NodeAdjacency, OperationAdjacency};
ghost use Rattle.rules.specs.Inner.Loops.{Listed};
ghost use Rattle.rules.specs.Inner.Rows.{Tables, PutRows};
ghost use Rattle.hypergraph.specs.Items.{next_of, count_of};

use crate::check::accept;
use indexed_coproduct::flatmap::{Table, flatmap};
use rules::{Checked, Drawing, Refusal};

// What an adjacency leads from, and to.
// Stays: the new form is no plainer: three matches of two arms, where a trait would be two types, two impls and laws.
#[derive(Clone, Copy, PartialEq, Eq, Debug)]
pub enum Items {
    Nodes,
    Operations,
}

// How many entries the node adjacency has: for each operation its sources times its targets.
fn node_entries(d: &Checked) -> u32
    ensures { result ≡ length (row_entries (node_next (drawing_of d.now.drawing)) (node_count (drawing_of d.now.drawing))) }
{
    array::dot(d.drawing.sources.lengths, d.drawing.targets.lengths)
}

// How many entries the operation adjacency has: how often the nodes of all targets are listed as sources, added up. A refusal leaves the
// lent memory untouched, so the counts are local. Not inlined: their room would be taken from the stack for the nodes too.
#[inline(never)]
fn operation_entries(d: &Checked) -> u32
    ensures { result ≡ length (row_entries (op_next (drawing_of d.now.drawing)) (op_count (drawing_of d.now.drawing))) }
{
    // Stays: no heap: the room is as large as the limit allows.
    let mut counts = [0u32; 4096];
    array::count_values(&mut counts, d.drawing.sources.values);
    array::sum_at(&counts, d.drawing.targets.values)
}

// How many values `node_adjacency` writes.
pub fn node_adjacency_size(d: &Drawing) -> Result<u32, Refusal>
    ensures { NodeAdjacencySize (drawing_of d.now) result }
{
    let d = accept(d)?;
    Ok(node_entries(&d))
}

// How many values `operation_adjacency` writes.
pub fn operation_adjacency_size(d: &Drawing) -> Result<u32, Refusal>
    ensures { OperationAdjacencySize (drawing_of d.now) result }
{
    let d = accept(d)?;
    Ok(operation_entries(&d))
}

// How many rows the adjacency has.
fn rows(items: Items, d: &Checked) -> usize
    ensures { result ≡ count_of items (drawing_of d.now.drawing) }
{
    match items {
        Items::Nodes => d.drawing.nodes.len(),
        Items::Operations => d.drawing.ops.len(),
    }
}

// How many entries they have.
fn entries(items: Items, d: &Checked) -> u32
    ensures { result ≡ length (row_entries (next_of items (drawing_of d.now.drawing)) (count_of items (drawing_of d.now.drawing))) }
{
    match items {
        Items::Nodes => node_entries(d),
        Items::Operations => operation_entries(d),
    }
}

// The tables of the sources' converse, and of where each operation's targets start, in the front of the workspace.
fn tables(ws: &mut [u32], d: &Checked)
    requires { length ws.old ≡ workspace_need (drawing_of d.now.drawing) }
    ensures { Tables (length d.now.drawing.nodes.now) d.now.drawing.sources.lengths.now d.now.drawing.sources.values.now d.now.drawing.targets.lengths.now ws.new }
{
    let d = &d.drawing;
    let n = d.nodes.len();
    let table = n + 1 + d.sources.values.len();
    let end = table + (d.targets.lengths.len() + 1);
    indexed_coproduct::converse::converse(&mut ws[..table], n, &d.sources);
    indexed_coproduct::converse::starts(&mut ws[table..end], d.targets.lengths);
}

// The two tables are joined. A node leads to the targets of each operation that lists it as a source: t after the converse of s. An
// operation leads to each operation that lists one of its targets as a source: the converse of s after t.
fn join(items: Items, ws: &[u32], d: &Checked, lens: &mut [u32], vals: &mut [u32])
    requires tables { Tables (length d.now.drawing.nodes.now) d.now.drawing.sources.lengths.now d.now.drawing.sources.values.now d.now.drawing.targets.lengths.now ws.now }
    requires room { (count_of items (drawing_of d.now.drawing) ≤ length lens.old) × (length (row_entries (next_of items (drawing_of d.now.drawing)) (count_of items (drawing_of d.now.drawing))) ≤ length vals.old) }
    ensures { PutRows (next_of items (drawing_of d.now.drawing)) (count_of items (drawing_of d.now.drawing)) lens.old lens.new vals.old vals.new }
{
    let d = &d.drawing;
    let first = d.nodes.len() + 1;
    let table = first + d.sources.values.len();
    let end = table + (d.targets.lengths.len() + 1);
    let sources = Table {
        offsets: &ws[..first],
        entries: &ws[first..table],
    };
    let targets = Table {
        offsets: &ws[table..end],
        entries: d.targets.values,
    };
    match items {
        Items::Nodes => flatmap(d.nodes.len(), &sources, &targets, lens, vals),
        Items::Operations => flatmap(d.ops.len(), &targets, &sources, lens, vals),
    }
}

// An adjacency is written, with W words of workspace, which are cleared.
fn write(items: Items, ws: &mut [u32], d: &Checked, lens: &mut [u32], vals: &mut [u32])
    requires ws_len { length ws.old ≡ workspace_need (drawing_of d.now.drawing) }
    requires room { (count_of items (drawing_of d.now.drawing) ≤ length lens.old) × (length (row_entries (next_of items (drawing_of d.now.drawing)) (count_of items (drawing_of d.now.drawing))) ≤ length vals.old) }
    ensures { PutRows (next_of items (drawing_of d.now.drawing)) (count_of items (drawing_of d.now.drawing)) lens.old lens.new vals.old vals.new × (ws.new ≡ replicate (length ws.old) 0) }
{
    tables(ws, d);
    join(items, ws, d, lens, vals);
    ws.fill(0);
}

// An adjacency of a drawing, or what it is refused with.
#[tactic(auto, using(crate::proofs::Rooms::room_laws))]
fn adjacency(
    items: Items,
    d: &Drawing,
    lens: &mut [u32],
    vals: &mut [u32],
    ws: &mut [u32],
) -> Result<(), Refusal>
    ensures { WritesRows (next_of items (drawing_of d.now)) (count_of items (drawing_of d.now)) (two_outputs_refusal (drawing_of d.now) (count_of items (drawing_of d.now)) (length lens.old) (length (row_entries (next_of items (drawing_of d.now)) (count_of items (drawing_of d.now)))) (length vals.old) (length ws.old)) (workspace_need (drawing_of d.now)) lens.old lens.new vals.old vals.new ws.old ws.new result }
{
    let d = accept(d)?;
    let words = d.workspace_need();
    if (lens.len() < rows(items, &d))
        | (vals.len() < entries(items, &d) as usize)
        | (ws.len() < words)
    {
        return Err(Refusal::ShortRoom);
    }
    write(items, &mut ws[..words], &d, lens, vals);
    Ok(())
}

// For each node the nodes that it leads to: n lengths, and the values of all. Lent a workspace of W words or more.
pub fn node_adjacency(
    d: &Drawing,
    lens: &mut [u32],
    vals: &mut [u32],
    ws: &mut [u32],
) -> Result<(), Refusal>
    ensures { NodeAdjacency (drawing_of d.now) lens.old lens.new vals.old vals.new ws.old ws.new result }
{
    adjacency(Items::Nodes, d, lens, vals, ws)
}

// For each operation the operations that it leads to: m lengths, and the values of all. Lent a workspace of W words or more.
pub fn operation_adjacency(
    d: &Drawing,
    lens: &mut [u32],
    vals: &mut [u32],
    ws: &mut [u32],
) -> Result<(), Refusal>
    ensures { OperationAdjacency (drawing_of d.now) lens.old lens.new vals.old vals.new ws.old ws.new result }
{
    adjacency(Items::Operations, d, lens, vals, ws)
}
