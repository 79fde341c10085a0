// The calls, through their C faces, on the lists of a case.
use crate::case::{Case, Lists, Maps};
use exports::{
    tiwelzam_check_boundary, tiwelzam_check_drawing, tiwelzam_check_maps, tiwelzam_eval,
    tiwelzam_is_acyclic, tiwelzam_is_convex_subgraph, tiwelzam_is_monomorphism, tiwelzam_layer,
    tiwelzam_layer_at, tiwelzam_layered_operations, tiwelzam_node_adjacency,
    tiwelzam_node_adjacency_size, tiwelzam_offsets_sound, tiwelzam_operation_adjacency,
    tiwelzam_operation_adjacency_size, tiwelzam_source_converse, tiwelzam_target_converse,
    tiwelzam_validate,
};

// The calls; each has the number that a case begins with.
#[derive(Clone, Copy)]
enum Call {
    CheckDrawing,
    CheckMaps,
    CheckBoundary,
    SourceConverse,
    TargetConverse,
    NodeAdjacency,
    OperationAdjacency,
    NodeAdjacencySize,
    OperationAdjacencySize,
    IsAcyclic,
    Layer,
    LayeredOperations,
    OffsetsSound,
    LayerAt,
    Validate,
    IsMonomorphism,
    IsConvexSubgraph,
    Eval,
}

// No call has this number.
#[derive(Drop)]
struct Unknown;

impl TryFrom<u32> for Call {
    type Error = Unknown;

    fn try_from(number: u32) -> Result<Call, Unknown> {
        match number {
            1 => Ok(Call::CheckDrawing),
            2 => Ok(Call::CheckMaps),
            3 => Ok(Call::CheckBoundary),
            4 => Ok(Call::SourceConverse),
            5 => Ok(Call::TargetConverse),
            6 => Ok(Call::NodeAdjacency),
            7 => Ok(Call::OperationAdjacency),
            8 => Ok(Call::NodeAdjacencySize),
            9 => Ok(Call::OperationAdjacencySize),
            10 => Ok(Call::IsAcyclic),
            11 => Ok(Call::Layer),
            12 => Ok(Call::LayeredOperations),
            13 => Ok(Call::OffsetsSound),
            14 => Ok(Call::LayerAt),
            15 => Ok(Call::Validate),
            16 => Ok(Call::IsMonomorphism),
            17 => Ok(Call::IsConvexSubgraph),
            18 => Ok(Call::Eval),
            _ => Err(Unknown),
        }
    }
}

// The memory that a call is lent to write to.
pub(crate) struct Lent<'a> {
    pub(crate) first: &'a mut [u32],
    pub(crate) second: &'a mut [u32],
    pub(crate) third: &'a mut [u32],
    pub(crate) ws: &'a mut [u32],
    pub(crate) word: &'a mut u32,
}

// Whether the maps between two drawings are natural.
fn validate(from: Lists, to: Lists, maps: Maps) -> u32 {
    let Maps { fw, wd, fx, xd } = maps;
    tiwelzam_validate(
        from.w, from.x, from.sl, from.sv, from.tl, from.tv, to.w, to.x, to.sl, to.sv, to.tl, to.tv,
        fw, wd, fx, xd,
    )
}

// Whether the maps between two drawings select a convex group.
fn is_convex(from: Lists, to: Lists, maps: Maps, ws: &mut [u32], word: &mut u32) -> u32 {
    let Maps { fw, wd, fx, xd } = maps;
    tiwelzam_is_convex_subgraph(
        from.w, from.x, from.sl, from.sv, from.tl, from.tv, to.w, to.x, to.sl, to.sv, to.tl, to.tv,
        fw, wd, fx, xd, ws, word,
    )
}

// A layer of operations and offsets; where it starts goes into the first output.
fn layer_at(ops: &[u32], offsets: &[u32], i: u32, first: &mut [u32], word: &mut u32) -> u32 {
    let mut start = 0;
    let refusal = tiwelzam_layer_at(ops, offsets, i as usize, &mut start, word);
    if let Some(entry) = first.first_mut() {
        *entry = start;
    }
    refusal
}

impl Call {
    // Makes the call on the lists of a case; its refusal's number, 0 for none.
    fn make(self, case: &Case, lent: Lent) -> u32 {
        let drawing = case.lists(0);
        let Lists {
            w,
            x,
            sl,
            sv,
            tl,
            tv,
        } = drawing;
        let maps = case.maps();
        let Maps { fw, wd, fx, xd } = maps;
        let inputs = case.list(14);
        let outputs = case.list(15);
        let values = case.list(16);
        let Lent {
            first,
            second,
            third,
            ws,
            word,
        } = lent;
        match self {
            Call::CheckDrawing => tiwelzam_check_drawing(w, x, sl, sv, tl, tv),
            Call::CheckMaps => tiwelzam_check_maps(fw, wd, fx, xd),
            Call::CheckBoundary => tiwelzam_check_boundary(w, x, sl, sv, tl, tv, inputs, outputs),
            Call::SourceConverse => tiwelzam_source_converse(
                w, x, sl, sv, tl, tv, first, second, ws,
            ),
            Call::TargetConverse => tiwelzam_target_converse(
                w, x, sl, sv, tl, tv, first, second, ws,
            ),
            Call::NodeAdjacency => tiwelzam_node_adjacency(w, x, sl, sv, tl, tv, first, second, ws),
            Call::OperationAdjacency => tiwelzam_operation_adjacency(
                w, x, sl, sv, tl, tv, first, second, ws,
            ),
            Call::NodeAdjacencySize => tiwelzam_node_adjacency_size(w, x, sl, sv, tl, tv, word),
            Call::OperationAdjacencySize => tiwelzam_operation_adjacency_size(
                w, x, sl, sv, tl, tv, word,
            ),
            Call::IsAcyclic => tiwelzam_is_acyclic(w, x, sl, sv, tl, tv, ws, word),
            Call::Layer => tiwelzam_layer(w, x, sl, sv, tl, tv, first, second, ws),
            Call::LayeredOperations => tiwelzam_layered_operations(
                w, x, sl, sv, tl, tv, first, second, third, ws,
            ),
            Call::OffsetsSound => tiwelzam_offsets_sound(inputs, outputs, word),
            Call::LayerAt => layer_at(inputs, outputs, case.number(3), first, word),
            Call::Validate => validate(case.lists(6), drawing, maps),
            Call::IsMonomorphism => tiwelzam_is_monomorphism(fw, wd, fx, xd, ws, word),
            Call::IsConvexSubgraph => is_convex(case.lists(6), drawing, maps, ws, word),
            Call::Eval => tiwelzam_eval(w, x, sl, sv, tl, tv, inputs, outputs, values, first, ws),
        }
    }
}

// Makes the call that a case's first number names; a number that names none stands for `IsAcyclic`, as 10 does.
pub(crate) fn make(case: &Case, lent: Lent) -> u32 {
    Call::try_from(case.number(0))
        .unwrap_or(Call::IsAcyclic)
        .make(case, lent)
}
