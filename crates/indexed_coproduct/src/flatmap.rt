// Two tables joined: each entry of the first gives way to its row of the second.
ghost use Rattle.std.specs.Prelude.{ℕ, ◌+◌, ◌≤◌, ◌<◌, map, ◌≡◌, length, get_or};
ghost use Rattle.rules.specs.Lists.{◌∈◌, concat, row_entries};
ghost use Rattle.rules.specs.Inner.Rows.{row_of, Sections, Put, flat_row, Joinable, PutRows};

// A table: where each row begins and the last one ends, and the entries of all, one row behind the other.
#[derive(Clone, Copy)]
pub struct Table<'a> {
    pub offsets: &'a [u32],
    pub entries: &'a [u32],
}

impl<'a> Table<'a> {
    // Row j.
    #[tactic(auto, unfolding(rules::specs::Inner::Rows::row_of))]
    fn row(&self, j: usize) -> &'a [u32]
        requires { Sections self.now.offsets.now self.now.entries.now × (j + 1 < length self.now.offsets.now) }
        ensures { result.now ≡ row_of self.now.offsets.now self.now.entries.now j }
    {
        let start = self.offsets[j] as usize;
        let end = self.offsets[j + 1] as usize;
        &self.entries[start..end]
    }
}

// A row is put into an output. Gives the place behind it.
fn put(vals: &mut [u32], at: usize, row: &[u32]) -> usize
    requires { at + length row.now ≤ length vals.old }
    ensures { Put at row.now vals.old vals.new result }
{
    let to = at + row.len();
    array::copy(&mut vals[at..to], row);
    to
}

// The rows that a list names are put into an output, one behind the other. Gives the place behind them.
fn copy_rows(list: &[u32], table: &Table, vals: &mut [u32], at: usize) -> usize
    requires sections { Sections table.now.offsets.now table.now.entries.now × ((u : ℕ) → u ∈ list.now → u + 1 < length table.now.offsets.now) }
    requires list_in_bounds { at + length (concat (map (row_of table.now.offsets.now table.now.entries.now) list.now)) ≤ length vals.old }
    ensures { Put at (concat (map (row_of table.now.offsets.now table.now.entries.now) list.now)) vals.old vals.new result }
{
    let mut to = at;
    // Stays: what may not change: each row has its number, so that the wrong order is an edit of one line (`rows_reversed`).
    for p in 0..list.len() {
        to = put(vals, to, table.row(list[p] as usize));
    }
    to
}

// The joined table's k rows, as lengths and as entries.
pub fn flatmap(k: usize, first: &Table, second: &Table, lens: &mut [u32], vals: &mut [u32])
    requires joinable { Joinable k first.now.offsets.now first.now.entries.now second.now.offsets.now second.now.entries.now }
    requires k_in_bounds { (k ≤ length lens.old) × (length (row_entries (flat_row first.now.offsets.now first.now.entries.now second.now.offsets.now second.now.entries.now) k) ≤ length vals.old) }
    ensures { PutRows (flat_row first.now.offsets.now first.now.entries.now second.now.offsets.now second.now.entries.now) k lens.old lens.new vals.old vals.new }
{
    let mut at = 0;
    for i in 0..k {
        let to = copy_rows(first.row(i), second, vals, at);
        lens[i] = (to - at) as u32;
        at = to;
    }
}
