ghost use Rattle.std.specs.Prelude.{◌≡◌, ◌+◌, ◌-◌, ◌<◌, min, ◌++◌, length, take, drop};
ghost use Rattle.std.specs.List.Sorted.{IsPermutation};
ghost use Rattle.queue.specs.Batches.{numbered, Drained};

use crate::queues::Queue;
use cost::costs::Cost;

// Puts each cost under the number of its place, as far as there is room, and answers how many.
pub fn put_all<K: Cost, Q: Queue<K>>(q: &mut Q, costs: &[K]) -> usize
    ensures lent { Q.lent q.new ≡ Q.lent q.old }
    ensures room { Q.room q.new ≡ Q.room q.old }
    ensures count { (result ≡ min (length costs.now) (Q.room q.old - length (Q.entries q.old))) × (length (Q.entries q.new) ≡ length (Q.entries q.old) + result) }
    ensures ordered { Q.ordered q.old → Q.ordered q.new }
    ensures entries { Q.ordered q.old → IsPermutation (numbered (take result costs.now) 0 ++ Q.entries q.old) (Q.entries q.new) }
{
    let free = q.capacity() - q.count();
    let n = costs.len().min(free);
    for (i, cost) in costs[..n].iter().enumerate() {
        // as: i is below a capacity of at most 65,535, and u16::try_from would bring an error that cannot be
        let _ = q.put(*cost, i as u16);
    }
    n
}

// Takes entries out, as far as there are places for their numbers, and answers how many.
pub fn take_all<K: Cost, Q: Queue<K>>(q: &mut Q, numbers: &mut [u16]) -> usize
    ensures lent { Q.lent q.new ≡ Q.lent q.old }
    ensures room { Q.room q.new ≡ Q.room q.old }
    ensures count { (result ≡ min (length (Q.entries q.old)) (length numbers.old)) × (length (Q.entries q.new) + result ≡ length (Q.entries q.old)) }
    ensures rest { drop result numbers.new ≡ drop result numbers.old }
    ensures ordered { Q.ordered q.old → Q.ordered q.new }
    ensures order { Q.ordered q.old → Drained K.Cost (Q.entries q.old) (take result numbers.new) (Q.entries q.new) }
{
    for (i, number) in numbers.iter_mut().enumerate() {
        match q.take() {
            Some(e) => *number = e.number,
            None => return i,
        }
    }
    numbers.len()
}

// The order in which the costs, each under the number of its place, come out of a queue, with what it holds already.
pub fn in_order<K: Cost, Q: Queue<K>>(q: &mut Q, costs: &[K], numbers: &mut [u16]) -> usize
    ensures lent { Q.lent q.new ≡ Q.lent q.old }
    ensures room { Q.room q.new ≡ Q.room q.old }
    ensures count { (result ≡ min (length (Q.entries q.old) + min (length costs.now) (Q.room q.old - length (Q.entries q.old))) (length numbers.old)) × (length (Q.entries q.new) + result ≡ length (Q.entries q.old) + min (length costs.now) (Q.room q.old - length (Q.entries q.old))) }
    ensures rest { drop result numbers.new ≡ drop result numbers.old }
    ensures ordered { Q.ordered q.old → Q.ordered q.new }
    ensures order { Q.ordered q.old → Drained K.Cost (numbered (take (Q.room q.old - length (Q.entries q.old)) costs.now) 0 ++ Q.entries q.old) (take result numbers.new) (Q.entries q.new) }
{
    let _ = put_all(q, costs);
    take_all(q, numbers)
}
