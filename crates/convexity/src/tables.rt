// The two tables of the walk. The full one is the incidence table, whose rows of nodes are the converse of the sources.
// The other one has these rows without the selected operations.
ghost use Rattle.std.specs.Prelude.{◌≡◌, ℕ, ◌+◌, ◌-◌, ◌<◌, ◌≤◌, ◌^◌, length};
ghost use Rattle.convexity.specs.Tables.{Kept, Filtered, TwoTables, unflagged, other_length};
ghost use Rattle.rules.specs.Drawing.{most_items};
ghost use Rattle.rules.specs.Lent.{drawing_of};
ghost use Rattle.rules.specs.Lists.{◌∈◌};
ghost use Rattle.rules.specs.Inner.Incidence.{items};
ghost use Rattle.rules.specs.Inner.IncidenceTable.{table_length};
ghost use Rattle.rules.specs.Inner.Table.{Table};
ghost use Rattle.rules.specs.Inner.Selected.{SelectedOps, Flags};

use hypergraph::incidence::Rows;
use rules::Checked;

// The items of a row are put into a table from word q on, but those whose flag is set. Gives the word behind.
fn keep_row(row: &[u32], flags: &[u32], table: &mut [u32], q: usize) -> usize
    requires by_index { (j : ℕ) → j ∈ row.now → j < length flags.now }
    requires room { q + length row.now ≤ length table.old }
    ensures { Kept flags.now q row.now table.old result table.new }
{
    let mut to = q;
    for item in row {
        if flags[*item as usize] == 0 {
            table[to] = *item;
            to += 1;
        }
    }
    to
}

// The table of n rows: those of the full table, without the items that are flagged.
fn without_flagged(full: Rows, flags: &[u32], n: usize, table: &mut [u32])
    requires full { Table full.count full.words.now × (n ≤ full.count) × (length full.words.now < 2 ^ 31) }
    requires room { (length flags.now ≡ full.count) × (n + 1 + (length full.words.now - (full.count + 1)) ≤ length table.old) }
    ensures { Filtered (unflagged flags.now full.entry.count full.entry.words.now) n table.new }
{
    let first = n + 1;
    table[0] = 0;
    let mut q = first;
    for v in 0..n {
        q = keep_row(full.row(v), flags, table, q);
        table[v + 1] = (q - first) as u32;
    }
}

// The flags of n nodes and of the operations behind them: those of the selected operations, x, are not 0.
fn select(flags: &mut [u32], n: usize, x: &[u32])
    requires n_in_bounds { (n ≤ length flags.old) × (length x.now ≤ most_items) }
    requires by_index { (e : ℕ) → e ∈ x.now → n + e < length flags.old }
    ensures { Flags n x.now flags.new }
{
    flags.fill(0);
    array::count_values(&mut flags[n..], x);
}

// Both tables. The operations x are selected, and flagged in the lent words.
pub(crate) fn tables(d: &Checked, x: &[u32], full: &mut [u32], other: &mut [u32], flags: &mut [u32])
    requires selected_ops { SelectedOps (drawing_of d.now.drawing) x.now }
    requires room { (length full.old ≡ table_length (drawing_of d.now.drawing)) × (length other.old ≡ other_length (drawing_of d.now.drawing)) × (length flags.old ≡ items (drawing_of d.now.drawing)) }
    ensures { TwoTables (drawing_of d.now.drawing) x.now full.new other.new }
{
    let n = d.drawing.nodes.len();
    hypergraph::incidence::incidence(full, d);
    select(flags, n, x);
    let full = Rows {
        count: flags.len(),
        words: full,
    };
    without_flagged(full, flags, n, other);
}
