// Memory: words that are written at listed places, in a slice of their own or within a workspace.
#![tactic(auto)]

ghost use Rattle.std.specs.Prelude.{◌≡◌, ℕ, ◌+◌, ◌≤◌, ◌<◌, length};
ghost use Rattle.rules.specs.Lists.{◌∈◌, seg};
ghost use Rattle.rules.specs.Evaluation.{store_all};
ghost use Rattle.rules.specs.Inner.Words.{back};

// Stores values at places one by one, stopping at the shorter list, later ones over earlier ones.
pub fn scatter(memory: &mut [u32], places: &[u32], values: &[u32])
    requires { (u : ℕ) → u ∈ places.now → u < length memory.old }
    ensures { memory.new ≡ store_all places.now values.now memory.old }
{
    let count = places.len().min(values.len());
    // Stays: what may not change: each pair has its number, so that the wrong order is an edit of one line (`earlier_value_stays`); over a zip
    // no edit could tell it from a right one.
    for i in 0..count {
        memory[places[i] as usize] = values[i];
    }
}

// Stores values at places of the n words of memory that begin at word base. The values stand behind it, from word `from` on.
pub fn scatter_within(ws: &mut [u32], base: usize, n: usize, from: usize, places: &[u32])
    requires { ((u : ℕ) → u ∈ places.now → u < n) × (base + n ≤ from) × (from + length places.now ≤ length ws.old) }
    ensures { ws.new ≡ back base n (store_all places.now (seg from (length places.now) ws.old) (seg base n ws.old)) ws.old }
{
    for (i, place) in places.iter().enumerate() {
        ws[base + *place as usize] = ws[from + i];
    }
}
