// The walk in two stages over two plain tables. It knows nothing of drawings.
//
// Each item has a mark: 0, or one more than the item from which it was first reached. Reached items stand in a queue, of so many words too.
ghost use Rattle.std.specs.Prelude.{◌≡◌, ℕ, ◌<◌, ◌^◌, length};
ghost use Rattle.convexity.specs.Stages.{rows_of, table_of};
ghost use Rattle.convexity.specs.Walk.{Held, Followed, Pair};
ghost use Rattle.rules.specs.Lists.{◌∈◌};
ghost use Rattle.rules.specs.Inner.Table.{successors};
ghost use Rattle.rules.specs.Inner.Search.{Row, Found};

use crate::Stage;
use hypergraph::incidence::Rows;

// What item i leads to: the stage picks the table that supplies the row.
// Stays: what may not change: the part comes from one of two lent tables, and the stage picks which (docs/DECISIONS.md names the form).
fn leaving<'a>(stage: Stage, unselected: Rows<'a>, full: Rows<'a>, i: usize) -> &'a [u32]
    requires { Row (rows_of stage unselected.count full.count) (table_of stage unselected.words.now full.words.now) i }
    ensures { result.now ≡ successors (rows_of stage unselected.entry.count full.entry.count) (table_of stage unselected.entry.words.now full.entry.words.now) i }
{
    match stage {
        Stage::Inside => unselected.row(i),
        Stage::Outside => full.row(i),
    }
}

// Each item of a row is reached. Where it is new, it gets a mark and joins the queue. Gives the queue's length.
fn follow(row: &[u32], via: u32, marks: &mut [u32], queue: &mut [u32], tail: usize) -> usize
    requires held { Held tail marks.old queue.old × (0 < via) }
    requires by_index { (j : ℕ) → j ∈ row.now → j < length queue.old }
    ensures { Followed row.now tail marks.old queue.old result marks.new queue.new }
{
    let mut len = tail;
    for item in row {
        let mark = *item as usize;
        if marks[mark] == 0 {
            marks[mark] = via;
            queue[len] = *item;
            len += 1;
        }
    }
    len
}

// Marks every item that can be reached from w by a first step inside and any number of later ones outside.
pub(crate) fn walk(unselected: Rows, full: Rows, w: &[u32], marks: &mut [u32], queue: &mut [u32])
    requires pair { Pair unselected.count unselected.words.now full.count full.words.now × ((v : ℕ) → v ∈ w.now → v < unselected.count) }
    requires room { (length marks.old ≡ full.count) × (length queue.old ≡ full.count) × (full.count < 2 ^ 31) }
    ensures { Found (successors full.entry.count full.entry.words.now) (successors unselected.entry.count unselected.entry.words.now) w.now marks.new }
{
    marks.fill(0);
    let mut tail = 0;
    for v in w {
        let row = leaving(Stage::Inside, unselected, full, *v as usize);
        tail = follow(row, v + 1, marks, queue, tail);
    }
    let mut head = 0;
    // Stays: the new form is no plainer (the queue grows while it is worked off, so its end is not known when the loop begins).
    while head < tail {
        let i = queue[head];
        let row = leaving(Stage::Outside, unselected, full, i as usize);
        tail = follow(row, i + 1, marks, queue, tail);
        head += 1;
    }
}
