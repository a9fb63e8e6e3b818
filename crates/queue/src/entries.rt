// A node number with its cost, as it waits in a queue.
#[derive(Clone, Copy)]
pub struct Entry<K> {
    pub cost: K,
    pub number: u16,
}
