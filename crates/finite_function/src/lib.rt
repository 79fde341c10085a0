// Finite functions: the entries of a map, below a declared target.
#![tactic(auto)]

ghost use Rattle.std.specs.Prelude.{map, ◌≡◌, ℕ, ◌<◌, ◌^◌, length};
ghost use Rattle.rules.specs.Lists.{◌∈◌, at, same_list};
ghost use Rattle.rules.specs.Maps.{Injective};
ghost use Rattle.rules.specs.Inner.Decides.{Decides};

// One map after the other: what g makes of each entry of f.
pub fn compose(out: &mut [u32], f: &[u32], g: &[u32])
    requires { (length out.old ≡ length f.now) × ((u : ℕ) → u ∈ f.now → u < length g.now) }
    ensures { out.new ≡ map (at g.now) f.now }
{
    array::gather(out, g, f);
}

// Whether a map carries labels: those of its entries are the given ones, in order and as many.
#[tactic(auto, using(rules::proofs::Facts::SameLists::same_list_sym))]
pub fn carries(labels: &[u32], entries: &[u32], list: &[u32]) -> bool
    requires { (u : ℕ) → u ∈ entries.now → u < length labels.now }
    ensures { result ≡ same_list (map (at labels.now) entries.now) list.now }
{
    array::same_through(labels, entries, list)
}

// Whether no entry stands twice, by counts in the lent words, one for each number below the target.
// They are zero afterwards.
pub fn is_injective(entries: &[u32], seen: &mut [u32]) -> bool
    requires by_index { (u : ℕ) → u ∈ entries.now → u < length seen.old }
    requires entries_len_bound { length entries.now < 2 ^ 32 }
    ensures { Decides (Injective entries.now) (length seen.old) seen.new result }
{
    array::bincount(seen, entries);
    let once = array::all_below(seen, 2);
    seen.fill(0); // also where an entry stands twice
    once
}
