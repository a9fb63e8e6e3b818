ghost use Rattle.std.specs.Prelude.{◌≡◌, ◌<◌};
ghost use Rattle.queue.specs.declared.entries.Entry.{Entry};
ghost use Rattle.queue.specs.Orders.{goes};
ghost use Rattle.queue.specs.Places.{used};

use crate::entries::Entry;
use cost::costs::Cost;

// How many of so many places are in use at a count.
pub fn in_use(count: usize, places: usize) -> usize
    ensures { result ≡ used count places }
{
    count.min(places).min(65535)
}

// Whether one entry comes before another: by cost, and of equal costs by the lower number.
pub fn goes_before<K: Cost>(a: Entry<K>, b: Entry<K>) -> bool
    ensures { result ≡ goes K.Cost a b }
{
    a.cost.precedes(b.cost) || !b.cost.precedes(a.cost) && a.number < b.number
}
