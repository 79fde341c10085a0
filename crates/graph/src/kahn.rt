// Kahn's walk over one plain table. It knows nothing of drawings.
//
// For k items it is lent three lists of k words: degrees, a queue and depths.
// A root that leads to every item once starts the walk, so each degree begins with one for the root.
ghost use Rattle.std.specs.Prelude.{ℕ, [], ◌≡◌, ◌+◌, ◌<◌, ◌^◌, length, set, eqb};
ghost use Rattle.rules.specs.Inner.Table.{Table, Walked, successors};
ghost use Rattle.rules.specs.Inner.Walk.{Standing};
ghost use Rattle.rules.specs.Inner.Words.{bit};

use hypergraph::incidence::Rows;

// One listing of the item s is followed: it gets a new degree and depth. It is put behind the queue, which gets longer by it
// only where no listing is left: a store costs less than a jump that cannot be foreseen. Gives the queue's length.
fn release(
    degrees: &mut [u32],
    queue: &mut [u32],
    depths: &mut [u32],
    tail: usize,
    s: u32,
    left: u32,
    depth: u32,
) -> usize
    requires { (s < length degrees.old) × (tail < length queue.old) × (s < length depths.old) }
    ensures { (degrees.new ≡ set degrees.old s left) × (queue.new ≡ set queue.old tail s) × (depths.new ≡ set depths.old s depth) × (result ≡ tail + bit (eqb left 0)) }
{
    degrees[s as usize] = left;
    depths[s as usize] = depth;
    queue[tail] = s;
    if left == 0 { tail + 1 } else { tail }
}

// The walk begins: a degree is one for the root and one for each listing, and every depth is 0. Then the root is worked off:
// each item has one listing less. Gives the queue's length.
fn begin(table: &[u32], degrees: &mut [u32], queue: &mut [u32], depths: &mut [u32]) -> usize
    requires table { Table (length degrees.old) table.now × (length table.now < 2 ^ 31) }
    requires lengths { (length queue.old ≡ length degrees.old) × (length depths.old ≡ length degrees.old) }
    ensures { Standing (successors (length degrees.old) table.now) (length degrees.old) 0 result [] 0 degrees.new queue.new depths.new }
{
    let k = degrees.len();
    degrees.fill(1);
    depths.fill(0);
    array::count_values(degrees, &table[k + 1..]);
    let mut tail = 0;
    for i in 0..k {
        let left = degrees[i] - 1;
        let depth = depths[i];
        tail = release(degrees, queue, depths, tail, i as u32, left, depth);
    }
    tail
}

// The item at the queue's head is worked off: each of its listings is followed. Of the item `last`, which was followed last,
// the degree and the depth are known.
fn follow(
    table: &[u32],
    degrees: &mut [u32],
    queue: &mut [u32],
    depths: &mut [u32],
    head: usize,
    tail: usize,
) -> usize
    requires table { Table (length degrees.old) table.now × (length table.now < 2 ^ 31) }
    requires standing { Standing (successors (length degrees.old) table.now) (length degrees.old) head tail [] 0 degrees.old queue.old depths.old × (head < tail) }
    ensures { Standing (successors (length degrees.old) table.now) (length degrees.old) (head + 1) result [] 0 degrees.new queue.new depths.new }
{
    let i = queue[head] as usize;
    let far = depths[i] + 1;
    let rows = Rows {
        count: degrees.len(),
        words: table,
    };
    let listed = rows.row(i);
    let mut len = tail;
    let mut last = i;
    let mut left = degrees[i];
    let mut depth = depths[i];
    for &s in listed {
        let at = s as usize;
        left = array::known(degrees, at, last, left) - 1;
        depth = array::larger(array::known(depths, at, last, depth), far);
        len = release(degrees, queue, depths, len, s, left, depth);
        last = at;
    }
    len
}

// How many of the k items are neither on a cycle nor behind one. Degrees and depths tell which, and their orders.
pub(crate) fn kahn(
    table: &[u32],
    degrees: &mut [u32],
    queue: &mut [u32],
    depths: &mut [u32],
) -> usize
    requires table { Table (length degrees.old) table.now × (length table.now < 2 ^ 31) }
    requires lengths { (length queue.old ≡ length degrees.old) × (length depths.old ≡ length degrees.old) }
    ensures { Walked (successors (length degrees.old) table.now) (length degrees.old) result degrees.new depths.new }
{
    let mut tail = begin(table, degrees, queue, depths);
    let mut head = 0;
    // Stays: the new form is no plainer (the queue grows while it is worked off, so its end is not known when the loop begins).
    while head < tail {
        tail = follow(table, degrees, queue, depths, head, tail);
        head += 1;
    }
    tail
}
