// What a call is lent: lists of numbers, in the caller's memory.
ghost use Rattle.std.specs.Prelude.{◌≡◌};
ghost use Rattle.rules.specs.Drawing.{Accepted};
ghost use Rattle.rules.specs.Refusals.{workspace_need};
ghost use Rattle.rules.specs.Lent.{drawing_of};

// A list of lists: their lengths, and their values one list behind the other.
#[derive(Clone, Copy)]
pub struct IndexedCoproduct<'a> {
    pub lengths: &'a [u32],
    pub values: &'a [u32],
}

// A drawing: a label for each node, a label for each operation, and each operation's sources and targets.
#[derive(Clone, Copy)]
pub struct Drawing<'a> {
    pub nodes: &'a [u32],
    pub ops: &'a [u32],
    pub sources: IndexedCoproduct<'a>,
    pub targets: IndexedCoproduct<'a>,
}

// A drawing that has passed the checks.
#[derive(Clone, Copy)]
pub struct Checked<'a> {
    pub drawing: Drawing<'a>,
    pub ghost accepted: { Accepted (drawing_of drawing) },
}

impl Checked<'_> {
    // W: how many words of workspace a call on a drawing needs.
    pub fn workspace_need(&self) -> usize
        ensures { result ≡ workspace_need (drawing_of self.now.drawing) }
    {
        let Drawing {
            nodes,
            ops,
            sources,
            targets,
        } = self.drawing;
        8 * (nodes.len() + ops.len()) + 2 * (sources.values.len() + targets.values.len()) + 8
    }
}

// A map: its entries, below a declared target.
#[derive(Clone, Copy)]
pub struct Map<'a> {
    pub entries: &'a [u32],
    pub target: u32,
}

// The two maps from a drawing into another: w of nodes, x of operations.
#[derive(Clone, Copy)]
pub struct Maps<'a> {
    pub w: Map<'a>,
    pub x: Map<'a>,
}

// A boundary: the nodes that values come in at, and those that they go out at.
#[derive(Clone, Copy)]
pub struct Boundary<'a> {
    pub inputs: &'a [u32],
    pub outputs: &'a [u32],
}
