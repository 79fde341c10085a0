// The lookup of one layer in what `layered_operations` wrote.
ghost use Rattle.rules.specs.Promises.{OffsetsSound, LayerAt};

// Whether offsets are sound: one more than the operations, first 0, never falling, last their number.
pub fn offsets_sound(operations: &[u32], offsets: &[u32]) -> bool
    ensures { OffsetsSound operations.now offsets.now result }
{
    let m = operations.len();
    if offsets.len() != m + 1 {
        return false;
    }
    (offsets[0] == 0) & offsets.is_sorted() & (offsets[m] as usize == m)
}

// Layer i, as a part of the operations: the empty part for an unknown layer or bad offsets.
pub fn layer_at<'a>(operations: &'a [u32], offsets: &[u32], i: usize) -> &'a [u32]
    ensures { LayerAt operations.now offsets.now i result.now }
{
    if offsets_sound(operations, offsets) & (i < operations.len()) {
        let start = offsets[i] as usize;
        let end = offsets[i + 1] as usize;
        return &operations[start..end];
    }
    &operations[..0]
}
