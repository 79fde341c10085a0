// The checks that validation and convexity share, in the order in which refusals are given: of two drawings, the source c and the target d,
// and of the maps f between them.
ghost use Rattle.std.specs.Prelude.{◌≡◌, IfOk};
ghost use Rattle.rules.specs.Lent.{drawing_of, maps_of};
ghost use Rattle.rules.specs.Drawing.{Accepted, AcceptedMaps};
ghost use Rattle.rules.specs.Refusals.{refusal_of};
ghost use Rattle.rules.specs.Inner.Arrow.{arrow_inputs_refusal};

use hypergraph::check::{check_lists, counts_within, entries_below, maps_within};
use rules::{Drawing, Maps, Refusal};

// Maps from a drawing into another, all of which have passed the checks. It holds them where they stand: by value it would be copied by
// `memcpy`, which the archive for C needs from outside for nothing else.
#[derive(Clone, Copy)]
pub struct Arrow<'a> {
    pub source: &'a Drawing<'a>,
    pub target: &'a Drawing<'a>,
    pub maps: &'a Maps<'a>,
    pub ghost source_accepted: { Accepted (drawing_of source.now) },
    pub ghost target_accepted: { Accepted (drawing_of target.now) },
    pub ghost accepted: { AcceptedMaps (maps_of maps.now) },
}

// 1 over everything, then 2 and 3 of the source and of the target, then 4 of the maps.
#[tactic(auto, unfolding(rules::specs::Inner::Arrow::arrow_inputs_refusal, rules::specs::Inner::Checks::lists_refusal))]
pub fn check_arrow_inputs(c: &Drawing, d: &Drawing, f: &Maps) -> Result<(), Refusal>
    ensures { refusal_of result ≡ arrow_inputs_refusal (drawing_of c.now) (drawing_of d.now) (maps_of f.now) }
{
    if !(counts_within(c) & counts_within(d) & maps_within(f)) {
        return Err(Refusal::OverLimit);
    }
    check_lists(c)?;
    check_lists(d)?;
    if !entries_below(f) {
        return Err(Refusal::BadEntry);
    }
    Ok(())
}

// The same, and hands what is valid back as an arrow.
pub fn accept<'a>(
    c: &'a Drawing<'a>,
    d: &'a Drawing<'a>,
    f: &'a Maps<'a>,
) -> Result<Arrow<'a>, Refusal>
    ensures refusal { refusal_of result ≡ arrow_inputs_refusal (drawing_of c.now) (drawing_of d.now) (maps_of f.now) }
    ensures same { IfOk result (λ a. (a.source.now ≡ c.now) × (a.target.now ≡ d.now) × (a.maps.now ≡ f.now)) }
{
    check_arrow_inputs(c, d, f)?;
    Ok(Arrow {
        source: c,
        target: d,
        maps: f,
    })
}
