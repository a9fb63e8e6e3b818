ghost use Rattle.std.specs.Prelude.{◌≡◌, ◌+◌, ◌<◌, ◌≤◌, ◌∷◌, ◌++◌, [], length, slice_index_or, slice_set, IfSome, MatchOption, MatchResult, OnOk, ◌-◌};
ghost use Rattle.std.specs.List.{swap, swap_remove};
ghost use Rattle.queue.specs.Places.{room};

use crate::places::in_use;
use rows::refusals::Refusal;

// The first places of lent memory, as many as are in use: at most 65,535.
#[derive(Drop)]
pub struct Waiting<'a, T> {
    places: &'a mut [T],
    count: usize,
    ghost inside: { count ≤ length places.now },
    ghost few: { count ≤ 65535 },
}

impl<'a, T> Waiting<'a, T> {
    ghost use Rattle.queue.specs.Items.{items};

    // None of the places in use, whatever they hold.
    pub fn new(places: &'a mut [T]) -> Waiting<'a, T>
        ensures empty { items result ≡ [] }
        ensures same { result.places.now ≡ places.old }
        ensures lent { result.places.ghost_name ≡ places.entry.ghost_name }
    {
        Waiting { places, count: 0 }
    }
}

impl<T> Waiting<'_, T> {
    ghost use Rattle.queue.specs.Items.{items};

    // How many places are in use.
    pub fn len(&self) -> usize
        ensures { result ≡ length (items self.now) }
    {
        self.as_slice().len()
    }

    // How many places were lent, in use or not.
    pub fn lent(&self) -> usize
        ensures { result ≡ length self.now.places.now }
    {
        self.places.len()
    }

    // How many can be in use.
    pub fn capacity(&self) -> usize
        ensures { result ≡ room self.now.places.now }
    {
        in_use(self.lent(), self.lent())
    }

    // What they hold.
    pub fn as_slice(&self) -> &[T]
        ensures { result.now ≡ items self.now }
    {
        &self.places[..self.count]
    }
}

impl<T: Copy> Waiting<'_, T> {
    ghost use Rattle.queue.specs.Items.{items};

    // Takes the next place into use; refused exactly when there is none.
    pub fn push(&mut self, x: T) -> Result<(), Refusal>
        ensures lent { self.new.places.ghost_name ≡ self.old.places.ghost_name }
        ensures room { room self.new.places.now ≡ room self.old.places.now }
        ensures memory { OnOk result (self.new.places.now ≡ slice_set self.old.places.now (length (items self.old)) x) }
        ensures done { MatchResult result (λ _. (length (items self.old) < room self.old.places.now) × (items self.new ≡ items self.old ++ x ∷ [])) (λ e. (length (items self.old) ≡ room self.old.places.now) × (e ≡ Refusal.Full) × (self.new ≡ self.old)) }
    {
        let at = self.count;
        if at == self.capacity() {
            return Err(Refusal::Full);
        }
        self.places[at] = x;
        self.count = at + 1;
        Ok(())
    }

    // Exchanges what two places hold; nothing changes unless both are in use.
    pub fn swap(&mut self, a: usize, b: usize)
        ensures lent { self.new.places.ghost_name ≡ self.old.places.ghost_name }
        ensures room { room self.new.places.now ≡ room self.old.places.now }
        ensures memory { a < length (items self.old) → b < length (items self.old) → self.new.places.now ≡ swap self.old.places.now a b }
        ensures items { a < length (items self.old) → b < length (items self.old) → items self.new ≡ swap (items self.old) a b }
        ensures still { (a < length (items self.old) → b < length (items self.old) → ⊥) → self.new ≡ self.old }
    {
        if a < self.count && b < self.count {
            self.places.swap(a, b);
        }
    }

    // Takes out what this place holds, and moves the last there; nothing unless the place is in use.
    pub fn swap_remove(&mut self, at: usize) -> Option<T>
        ensures lent { self.new.places.ghost_name ≡ self.old.places.ghost_name }
        ensures room { room self.new.places.now ≡ room self.old.places.now }
        ensures memory { IfSome result (λ x. self.new.places.now ≡ slice_set self.old.places.now at (slice_index_or self.old.places.now (length (items self.old) - 1) x)) }
        ensures taken { MatchOption result ((length (items self.old) ≤ at) × (self.new ≡ self.old)) (λ x. (at < length (items self.old)) × (x ≡ slice_index_or (items self.old) at x) × (items self.new ≡ swap_remove (items self.old) at x)) }
    {
        if at >= self.count {
            return None;
        }
        let taken = self.places[at];
        let last = self.count - 1;
        self.places[at] = self.places[last];
        self.count = last;
        Some(taken)
    }
}
