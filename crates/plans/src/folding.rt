// What the distances of all points come to: their greatest with the drops, and their total.
ghost use Rattle.std.specs.Prelude.{◌≡◌, ℕ, ◌-◌, ◌≤◌, length, slice_index_or, if◌then◌else◌};
ghost use Rattle.books.specs.States.{stands};
ghost use Rattle.books.specs.declared.states.State.{State as AState};
ghost use Rattle.plans.specs.Ways.{Point};
ghost use Rattle.plans.specs.Measures.{Reach, Total};
ghost use Rattle.plans.specs.Drawn.{Reads, drawn, drop_of};
ghost use Rattle.plans.specs.Passing.{Distances, larger_of};

use crate::drawing::Drawing;
use lengths::{Length, larger};

impl<K: Length> Drawing<K> {
    /// The greater of a figure and a tag's drop plus distance, where the tag is a point.
    fn greater_at(&self, tag: usize, memory: &[K], most: K) -> K
        requires { (1 ≤ tag) × (tag ≤ length memory.now) }
        ensures { result ≡ (if stands (drawn self.now.states tag) then larger_of K.figures most (K.figures.sum (drop_of K.figures (drawn self.now.states tag)) (slice_index_or memory.now (tag - 1) K.figures.zero)) else most) }
    {
        if !self.is_point(tag) {
            return most;
        }
        larger(most, self.drop_of(tag).plus(memory[tag - 1]))
    }

    /// The greatest, over all points, of drop plus distance, where the memory has the distance of each point to a path.
    pub(crate) fn greatest(&self, memory: &[K]) -> K
        requires { self.now.size ≤ length memory.now }
        ensures { (state : ℕ → AState K) (a b : ℕ) → Reads K.figures self.now.size state (drawn self.now.states) → Point state a → Point state b → Distances K.figures state a b memory.now → Reach K.figures state a b result }
    {
        let mut most = K::zero();
        for tag in 1..=self.size {
            most = self.greater_at(tag, memory, most);
        }
        most
    }

    /// A figure with a tag's distance added, where the tag is a point.
    fn added_at(&self, tag: usize, memory: &[K], all: K) -> K
        requires { (1 ≤ tag) × (tag ≤ length memory.now) }
        ensures { result ≡ (if stands (drawn self.now.states tag) then K.figures.sum all (slice_index_or memory.now (tag - 1) K.figures.zero) else all) }
    {
        if !self.is_point(tag) {
            return all;
        }
        all.plus(memory[tag - 1])
    }

    /// The total, over all points, of the distance, where the memory has the distance of each point to a path.
    pub(crate) fn total(&self, memory: &[K]) -> K
        requires { self.now.size ≤ length memory.now }
        ensures { (state : ℕ → AState K) (a b : ℕ) → Reads K.figures self.now.size state (drawn self.now.states) → Point state a → Point state b → Distances K.figures state a b memory.now → Total K.figures state a b self.now.size result }
    {
        let mut all = K::zero();
        for tag in 1..=self.size {
            all = self.added_at(tag, memory, all);
        }
        all
    }
}
