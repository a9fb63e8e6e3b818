ghost use Rattle.std.specs.Prelude.{◌≡◌, ℕ, ◌+◌, ◌<◌, ◌≤◌, List, [], length, IfSome, MatchOption, MatchResult, OnOk};
ghost use Rattle.queue.specs.declared.entries.Entry.{Entry};
ghost use Rattle.queue.specs.Orders.{Least, Names, Added};

use crate::entries::Entry;
use cost::costs::Cost;
use rows::refusals::Refusal;

// A queue of entries over lent memory. It means a collection of entries and a capacity.
//
// What the calls answer of the entries rests on an order inside, which an empty queue has and every call leaves. A queue
// is made empty and only its calls change it, so nobody has to check it. Without it every call still ends, is safe, and
// does to count and capacity what it says.
pub trait Queue<K: Cost> {
    // the collection: the places in the list say nothing
    ghost entries: { Self → List (Entry K) };

    // the capacity
    ghost room: { Self → ℕ };

    ghost ordered: { Self → Type 0 };

    ghost empty: { (q : Self) → entries q ≡ [] → ordered q };

    ghost fits: { (q : Self) → (length (entries q) ≤ room q) × (room q ≤ 65535) };

    // the name under which the lent memory is known: what it holds at the end is what its lender finds
    ghost lent: { Self → ℕ };

    // Adds an entry; refused exactly when the queue is full.
    fn put(&mut self, cost: K, number: u16) -> Result<(), Refusal>
        ensures lent { lent self.new ≡ lent self.old }
        ensures room { room self.new ≡ room self.old }
        ensures count { MatchResult result (λ _. (length (entries self.old) < room self.old) × (length (entries self.new) ≡ length (entries self.old) + 1)) (λ e. (length (entries self.old) ≡ room self.old) × (e ≡ Refusal.Full) × (self.new ≡ self.old)) }
        ensures ordered { ordered self.old → ordered self.new }
        ensures entries { ordered self.old → OnOk result (Added (entries self.old) (record { cost = cost; number = number }) (entries self.new)) };

    // The number of the entry that no other comes before; of equal costs the lowest. Nothing exactly when there is none.
    fn least(&self) -> Option<u16>
        ensures count { MatchOption result (entries self.now ≡ []) (λ _. 0 < length (entries self.now)) }
        ensures names { ordered self.now → IfSome result (λ n. Names K.Cost (entries self.now) n) };

    // Removes that entry. Which one goes among entries that tie in cost and number is left open.
    fn take(&mut self) -> Option<Entry<K>>
        ensures lent { lent self.new ≡ lent self.old }
        ensures room { room self.new ≡ room self.old }
        ensures count { MatchOption result ((entries self.old ≡ []) × (self.new ≡ self.old)) (λ _. length (entries self.new) + 1 ≡ length (entries self.old)) }
        ensures ordered { ordered self.old → ordered self.new }
        ensures entries { ordered self.old → IfSome result (λ e. Least K.Cost (entries self.old) e × Added (entries self.new) e (entries self.old)) };

    fn count(&self) -> usize
        ensures { result ≡ length (entries self.now) };

    fn capacity(&self) -> usize
        ensures { result ≡ room self.now };
}
