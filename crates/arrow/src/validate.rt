// Map validation, from the source c into the target d. It takes no workspace.
ghost use Rattle.rules.specs.Lent.{drawing_of, maps_of};
ghost use Rattle.rules.specs.Promises.{Validate};

use crate::inputs::accept;
use crate::naturality::naturality;
use rules::{Drawing, Maps, Refusal};

// Whether two maps between two drawings are natural, and if not, with which number they are refused.
pub fn validate(c: &Drawing, d: &Drawing, f: &Maps) -> Result<(), Refusal>
    ensures { Validate (drawing_of c.now) (drawing_of d.now) (maps_of f.now) result }
{
    let f = accept(c, d, f)?;
    naturality(&f)
}
