// Whether maps are injective. Naturality is not looked at.
ghost use Rattle.std.specs.Prelude.{ℕ, ◌<◌, ◌^◌, length};
ghost use Rattle.rules.specs.Lists.{◌∈◌};
ghost use Rattle.rules.specs.Lent.{maps_of};
ghost use Rattle.rules.specs.Maps.{Injective};
ghost use Rattle.rules.specs.Promises.{IsMonomorphism};
ghost use Rattle.rules.specs.Inner.Decides.{Decides};

use finite_function::is_injective;
use hypergraph::check::check_maps;
use rules::{Maps, Refusal};

// Whether no entry stands twice in w and none in x. Lent a word for each number below either declared target; all are zero afterwards.
pub fn both_injective(f: &Maps, seen: &mut [u32]) -> bool
    requires by_index { ((u : ℕ) → u ∈ f.now.w.entries.now → u < length seen.old) × ((u : ℕ) → u ∈ f.now.x.entries.now → u < length seen.old) }
    requires len_bound { (length f.now.w.entries.now < 2 ^ 32) × (length f.now.x.entries.now < 2 ^ 32) }
    ensures { Decides (Injective f.now.w.entries.now × Injective f.now.x.entries.now) (length seen.old) seen.new result }
{
    is_injective(f.w.entries, seen) && is_injective(f.x.entries, seen)
}

// Whether no entry stands twice in w and none in x. Lent a workspace of as many words as the larger declared target, or more.
pub fn is_monomorphism(f: &Maps, ws: &mut [u32]) -> Result<bool, Refusal>
    ensures { IsMonomorphism (maps_of f.now) ws.old ws.new result }
{
    check_maps(f)?;
    let words = f.w.target.max(f.x.target) as usize;
    if ws.len() < words {
        return Err(Refusal::ShortRoom);
    }
    Ok(both_injective(f, &mut ws[..words]))
}
