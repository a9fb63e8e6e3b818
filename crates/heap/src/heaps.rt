ghost use Rattle.std.specs.Prelude.{◌≡◌, ◌-◌, ◌/◌, ◌<◌, min, [], length, slice_index_or};
ghost use Rattle.std.specs.List.Sorted.{IsPermutation};
ghost use Rattle.queue.specs.declared.entries.Entry.{Entry};
ghost use Rattle.queue.specs.Orders.{goes};
ghost use Rattle.queue.specs.Places.{room, front_fits};
ghost use Rattle.queue.specs.Items.{items};
ghost use Rattle.heap.specs.Heaps.{Heaped, Rooted, Lower, none_heaped};
ghost use Rattle.heap.specs.Makes.{heap_entries, heap_room};

use cost::costs::Cost;
use queue::entries::Entry;
use queue::places::goes_before;
use queue::queues::Queue;
use queue::waiting::Waiting;
use rows::refusals::Refusal;

// A queue as a binary heap: put and take compare O(log n) entries, least none.
#[derive(Drop)]
pub struct Heap<'a, K> {
    waiting: Waiting<'a, Entry<K>>,
}

impl<'a, K: Cost> Heap<'a, K> {
    // An empty queue over the memory handed, whatever it holds.
    pub fn new(entries: &'a mut [Entry<K>]) -> Heap<'a, K>
        ensures empty { heap_entries result ≡ [] }
        ensures room { heap_room result ≡ min (length entries.old) 65535 }
        ensures same { result.waiting.places.now ≡ entries.old }
        ensures lent { result.waiting.places.ghost_name ≡ entries.entry.ghost_name }
    {
        Heap {
            waiting: Waiting::new(entries),
        }
    }
}

impl<'a, K: Cost> Queue<K> for Heap<'a, K> {
    ghost entries = { heap_entries };

    ghost room = { heap_room };

    ghost ordered = { λ q. Heaped K.Cost (heap_entries q) (length (heap_entries q)) };

    ghost empty = { λ q e. none_heaped K.Cost (heap_entries q) e };

    ghost fits = { λ q. front_fits q.waiting.count q.waiting.places.now };

    ghost lent = { λ q. q.waiting.places.ghost_name };

    fn put(&mut self, cost: K, number: u16) -> Result<(), Refusal> {
        self.waiting.push(Entry { cost, number })?;
        sift_up(&mut self.waiting);
        Ok(())
    }

    fn least(&self) -> Option<u16> {
        let root = self.waiting.as_slice().first()?;
        Some(root.number)
    }

    fn take(&mut self) -> Option<Entry<K>> {
        let root = self.waiting.swap_remove(0)?;
        sift_down(&mut self.waiting);
        Some(root)
    }

    fn count(&self) -> usize {
        self.waiting.len()
    }

    fn capacity(&self) -> usize {
        self.waiting.capacity()
    }
}

// Whether the entry at place a comes before the one at place b.
fn ahead<K: Cost>(row: &[Entry<K>], a: usize, b: usize) -> bool
    requires a { a < length row.now }
    requires b { b < length row.now }
    ensures { (d : Entry K) → result ≡ goes K.Cost (slice_index_or row.now a d) (slice_index_or row.now b d) }
{
    goes_before(row[a], row[b])
}

// Moves the last entry up to where it belongs.
fn sift_up<K: Cost>(heap: &mut Waiting<Entry<K>>)
    requires { 0 < length (items heap.old) }
    ensures lent { heap.new.places.ghost_name ≡ heap.old.places.ghost_name }
    ensures room { room heap.new.places.now ≡ room heap.old.places.now }
    ensures same { IsPermutation (items heap.old) (items heap.new) }
    ensures heaped { Heaped K.Cost (items heap.old) (length (items heap.old) - 1) → Heaped K.Cost (items heap.new) (length (items heap.new)) }
{
    // A while: the places on the way up a tree stand in no slice or range.
    let mut at = heap.len() - 1;
    while at > 0 {
        let up = (at - 1) / 2;
        if !ahead(heap.as_slice(), at, up) {
            return;
        }
        heap.swap(at, up);
        at = up;
    }
}

// The place right below `at` whose entry comes first.
fn lower<K: Cost>(row: &[Entry<K>], at: usize) -> usize
    requires { at < length row.now / 2 }
    ensures { Lower K.Cost row.now (length row.now) at result }
{
    let left = 2 * at + 1;
    if left + 1 < row.len() && ahead(row, left + 1, left) {
        left + 1
    } else {
        left
    }
}

// Moves the entry at place 0 down to where it belongs.
fn sift_down<K: Cost>(heap: &mut Waiting<Entry<K>>)
    ensures lent { heap.new.places.ghost_name ≡ heap.old.places.ghost_name }
    ensures room { room heap.new.places.now ≡ room heap.old.places.now }
    ensures same { IsPermutation (items heap.old) (items heap.new) }
    ensures heaped { Rooted K.Cost (items heap.old) (length (items heap.old)) → Heaped K.Cost (items heap.new) (length (items heap.new)) }
{
    // A while: the places on the way down a tree stand in no slice or range.
    let mut at = 0;
    while at < heap.len() / 2 {
        let child = lower(heap.as_slice(), at);
        if !ahead(heap.as_slice(), child, at) {
            return;
        }
        heap.swap(at, child);
        at = child;
    }
}
