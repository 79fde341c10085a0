// Tables of items and what each leads to, and that of a drawing's incidence graph: n + m + 1 offsets, then S + T items.
ghost use Rattle.std.specs.Prelude.{ℕ, ◌<◌, ◌≡◌, length};
ghost use Rattle.rules.specs.Lists.{◌∈◌};
ghost use Rattle.rules.specs.Lent.{drawing_of};
ghost use Rattle.rules.specs.Inner.IncidenceTable.{Offsets, Incident, table_length};
ghost use Rattle.rules.specs.Inner.Loops.{Few};
ghost use Rattle.rules.specs.Inner.Table.{successors};
ghost use Rattle.rules.specs.Inner.Search.{Row};

use rules::Checked;

// A table of so many rows: where each begins, and behind that the items of all.
#[derive(Clone, Copy)]
pub struct Rows<'a> {
    pub count: usize,
    pub words: &'a [u32],
}

impl<'a> Rows<'a> {
    // Row i: what item i leads to.
    #[tactic(auto, using(rules::proofs::Facts::Tables::row))]
    pub fn row(self, i: usize) -> &'a [u32]
        requires { Row self.count self.words.now i }
        ensures { result.now ≡ successors self.entry.count self.entry.words.now i }
    {
        let from = self.count + 1 + self.words[i] as usize;
        let end = self.count + 1 + self.words[i + 1] as usize;
        &self.words[from..end]
    }
}

// The offsets of n nodes and the operations: each node's points behind its row, which is still empty.
fn offsets(t: &mut [u32], n: usize, sv: &[u32], tl: &[u32])
    requires by_index { (u : ℕ) → u ∈ sv.now → u < n }
    requires few { Few n sv.now tl.now t.old }
    ensures { Offsets n sv.now tl.now t.new }
{
    let (nodes, ops) = t.split_at_mut(n + 1);
    nodes.fill(0);
    array::count_values(nodes, sv);
    array::copy(ops, tl);
    array::running(t);
}

// The table of a drawing's incidence graph.
pub fn incidence(t: &mut [u32], d: &Checked)
    requires { length t.old ≡ table_length (drawing_of d.now.drawing) }
    ensures { Incident (drawing_of d.now.drawing) t.new }
{
    let d = &d.drawing;
    let n = d.nodes.len();
    let (first, items) = t.split_at_mut(n + d.ops.len() + 1);
    let (rows, targets) = items.split_at_mut(d.sources.values.len());
    offsets(first, n, d.sources.values, d.targets.lengths);
    indexed_coproduct::place(&mut first[..n], rows, n, &d.sources);
    array::copy(targets, d.targets.values);
}
