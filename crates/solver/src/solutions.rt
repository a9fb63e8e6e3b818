// What a whole search tells: a cheapest plan, by its cost and the number of its moves, which are then in the buffer; that there
// is no plan; or that the space ran out.
#[derive(Clone, Copy)]
pub enum Solved<K> {
    Found(K, usize),
    NoPlan,
    OutOfSpace,
}
