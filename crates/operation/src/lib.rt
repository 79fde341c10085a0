// The operation table: which operation a label stands for, with how many inputs and outputs, and what it computes.
//
// An operation reads its inputs where they stand, at places of the memory, in order; then it writes its outputs into the part that it is lent.
#![tactic(auto)]

ghost use Rattle.std.specs.Prelude.{◌≡◌, ℕ, ◌^◌, ◌<◌, ◌≤◌, List, map, length, replicate, IfSome};
ghost use Rattle.rules.specs.Lists.{at};
ghost use Rattle.rules.specs.Evaluation.{operation, suits, least, most, place_of, outcome};
ghost use Rattle.rules.specs.Inner.Operating.{Suited, Placed};
ghost use Rattle.operation.specs.Kinds.{kind, kind_of, ShiftFits};

use std::marker::Model;

// The inputs of an operation, in order: the numbers that stand at some places of the memory.
#[derive(Drop)]
struct Inputs<'a> {
    memory: &'a [u32],
    places: &'a [u32],
}

impl<'a> Model for Inputs<'a> {
    ghost Value = { List ℕ };

    ghost view = { λ s. map (at s.memory.now) s.places.now };

    ghost invariant = { λ s. Placed s.memory.now s.places.now × (length s.places.now < 2 ^ 32) };
}

impl Inputs<'_> {
    // How many there are.
    fn len(&self) -> usize
        ensures count { result ≡ length self.now }
        ensures few { result < 2 ^ 32 }
    {
        self.places.len()
    }

    // Input i.
    fn get(&self, i: usize) -> u32
        requires { i < length self.now }
        ensures { result ≡ at self.now i }
    {
        let Inputs { memory, places } = self;
        memory[places[i] as usize]
    }

    // The smallest, 0 if there are none.
    fn smallest(&self) -> u32
        ensures { result ≡ least self.now }
    {
        (0..self.len()).map(|i| self.get(i)).min().unwrap_or(0)
    }

    // The largest, 0 if there are none.
    fn largest(&self) -> u32
        ensures { result ≡ most self.now }
    {
        (0..self.len()).map(|i| self.get(i)).max().unwrap_or(0)
    }

    // The position of the first smallest of one or more.
    fn first_smallest(&self) -> u32
        requires { 1 ≤ length self.now }
        ensures { result ≡ place_of (least self.now) self.now }
    {
        let mut best = 0;
        for i in 1..self.len() {
            if self.get(i) < self.get(best) {
                best = i;
            }
        }
        best as u32
    }
}

// What a label may stand for.
#[derive(Clone, Copy, PartialEq, Eq, Debug)]
pub enum Operation {
    // The input, in one or more outputs.
    Copy,
    // The sum of two, modulo 2^32.
    Add,
    // The larger of two minus the smaller.
    Difference,
    // The smallest of one or more.
    Smallest,
    // The largest of one or more.
    Largest,
    // Half of the sum of two, which is taken modulo 2^32.
    Middle,
    // Of three, the second if the first is not 0, else the third.
    Choose,
    // The position of the first smallest of one or more.
    FirstSmallest,
    // The input divided by 2 to this power.
    Shift(u32),
    // This number, from no input.
    Constant(u32),
}

impl Operation {
    // What a label stands for, if it is known.
    #[tactic(auto, unfolding(rules::specs::Evaluation::operation))]
    pub fn of(label: u32) -> Option<Self>
        ensures meaning { kind_of result ≡ operation label }
        ensures shift { IfSome result ShiftFits }
    {
        match label {
            0 => Some(Self::Copy),
            1 => Some(Self::Add),
            2 => Some(Self::Difference),
            3 => Some(Self::Smallest),
            4 => Some(Self::Largest),
            5 => Some(Self::Middle),
            6 => Some(Self::Choose),
            7 => Some(Self::FirstSmallest),
            16..=31 => Some(Self::Shift(label - 16)),
            256..=511 => Some(Self::Constant(label - 256)),
            _ => None,
        }
    }

    // Whether it has so many inputs and outputs.
    fn suits(self, ins: usize, outs: usize) -> bool
        ensures { result ≡ suits (kind self) ins outs }
    {
        match self {
            Self::Copy => ins == 1 && 1 <= outs,
            Self::Add | Self::Difference | Self::Middle => ins == 2 && outs == 1,
            Self::Smallest | Self::Largest | Self::FirstSmallest => 1 <= ins && outs == 1,
            Self::Choose => ins == 3 && outs == 1,
            Self::Shift(_) => ins == 1 && outs == 1,
            Self::Constant(_) => ins == 0 && outs == 1,
        }
    }

    // What each of its outputs is.
    fn value(self, inputs: &Inputs) -> u32
        requires suited { Suited (kind self) (length inputs.now) }
        requires shift { ShiftFits self }
        ensures { result ≡ at (outcome (kind self) inputs.now 1) 0 }
    {
        match self {
            Self::Copy => inputs.get(0),
            Self::Add => inputs.get(0).wrapping_add(inputs.get(1)),
            Self::Difference => inputs.get(0).abs_diff(inputs.get(1)),
            Self::Smallest => inputs.smallest(),
            Self::Largest => inputs.largest(),
            Self::Middle => inputs.get(0).wrapping_add(inputs.get(1)) / 2,
            // Which input it is cannot be foreseen: a number, so that there is no jump.
            Self::Choose => inputs.get(if inputs.get(0) == 0 { 2 } else { 1 }),
            Self::FirstSmallest => inputs.first_smallest(),
            Self::Shift(k) => inputs.get(0) >> k,
            Self::Constant(k) => k,
        }
    }
}

// Whether a label is known and its operation has so many inputs and outputs.
pub fn suits(label: u32, ins: usize, outs: usize) -> bool
    ensures { result ≡ suits (operation label) ins outs }
{
    match Operation::of(label) {
        Some(operation) => operation.suits(ins, outs),
        None => false,
    }
}

// What each output of the label's operation is: only copying has more than one.
pub fn value(label: u32, memory: &[u32], places: &[u32]) -> u32
    requires placed { Placed memory.now places.now × (length places.now < 2 ^ 32) }
    requires suited { Suited (operation label) (length places.now) }
    ensures { result ≡ at (outcome (operation label) (map (at memory.now) places.now) 1) 0 }
{
    let inputs = Inputs { memory, places };
    match Operation::of(label) {
        Some(operation) => operation.value(&inputs),
        None => 0,
    }
}

// An operation writes its outputs, each of them the value, into its own part of a lent room.
pub fn write(outputs: &mut [u32], value: u32)
    ensures { outputs.new ≡ replicate (length outputs.old) value }
{
    outputs.fill(value);
}
