ghost use Rattle.std.specs.Prelude.{◌≡◌};
ghost use Rattle.store.specs.Stores.{space_of};

use rows::checks::is_usable;

// The most rows that a store can count: ranks are numbers of 16 bits.
const MOST: usize = u16::MAX as usize;

// How many rows a store over this values table has space for, where each variable of a row takes one of `size` units of memory.
pub fn capacity_of(values: &[u8], size: usize) -> usize
    ensures { result ≡ space_of values.now size }
{
    if !is_usable(values) {
        return 0;
    }
    let rows = size / values.len();
    rows.min(MOST)
}
