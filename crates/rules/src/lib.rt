// What calls are lent, and why they refuse it. What must be believed stands in specs/.
#![tactic(auto)]

ghost use Rattle.std.specs.Prelude.{◌≡◌};
ghost use Rattle.rules.specs.Refusals.{number};

mod lent;

pub use lent::{Boundary, Checked, Drawing, IndexedCoproduct, Map, Maps};

// Why a call is refused.
#[derive(Clone, Copy, PartialEq, Eq, Debug)]
pub enum Refusal {
    OverLimit,
    BadLengths,
    BadValue,
    BadEntry,
    TypeMismatchW,
    TypeMismatchX,
    NotNaturalW,
    NotNaturalX,
    NotNaturalS,
    NotNaturalT,
    ShortRoom,
    BadBoundary,
    Unplaced,
    WrongOperation,
    BadText,
}

// The number that stands for a refusal in C and in what is printed.
impl From<Refusal> for u32 {
    ghost from_gives = { λ why n. n ≡ number why };

    fn from(why: Refusal) -> u32 {
        match why {
            Refusal::OverLimit => 1,
            Refusal::BadLengths => 2,
            Refusal::BadValue => 3,
            Refusal::BadEntry => 4,
            Refusal::TypeMismatchW => 5,
            Refusal::TypeMismatchX => 6,
            Refusal::NotNaturalW => 7,
            Refusal::NotNaturalX => 8,
            Refusal::NotNaturalS => 9,
            Refusal::NotNaturalT => 10,
            Refusal::ShortRoom => 11,
            Refusal::BadBoundary => 12,
            Refusal::Unplaced => 13,
            Refusal::WrongOperation => 14,
            Refusal::BadText => 15,
        }
    }
}
