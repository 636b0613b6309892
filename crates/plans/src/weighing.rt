// What is measured of a path: its length, its reach and its sum.
ghost use Rattle.std.specs.Prelude.{◌≡◌, ℕ, ◌≤◌, length, drop as after};
ghost use Rattle.books.specs.declared.states.State.{State as AState};
ghost use Rattle.plans.specs.Ways.{Point};
ghost use Rattle.plans.specs.Measures.{Distance, Reach, Total};
ghost use Rattle.plans.specs.Drawn.{Reads, drawn};

use crate::drawing::Drawing;
use lengths::Length;

/// What is measured of a path: a figure, from the tree and the ends of the path.
pub(crate) trait Measure<K: Length> {
    // `is size state first last figure`: on a loom of this size with these states, the figure is the measure of this path.
    ghost is: { ℕ → (ℕ → AState K) → ℕ → ℕ → K → Type 0 };

    /// The measure of a path. The places of the tags in the memory are written; what lies after them stays.
    fn of(drawing: &Drawing<K>, first: usize, last: usize, memory: &mut [K]) -> K
        requires { (1 ≤ first) × (first ≤ drawing.now.size) × (1 ≤ last) × (last ≤ drawing.now.size) × (drawing.now.size ≤ length memory.old) }
        ensures figure { (state : ℕ → AState K) → Reads K.figures drawing.now.size state (drawn drawing.now.states) → Point state first → Point state last → is drawing.now.size state first last result }
        ensures only { (state : ℕ → AState K) (other : K) → Reads K.figures drawing.now.size state (drawn drawing.now.states) → Point state first → Point state last → is drawing.now.size state first last other → other ≡ result }
        ensures long { length memory.new ≡ length memory.old }
        ensures rest { after drawing.now.size memory.new ≡ after drawing.now.size memory.old };
}

/// The length of a path, which is the distance of its ends.
pub(crate) struct Lengths;

/// The reach of a path.
pub(crate) struct Reaches;

/// The sum of a path.
pub(crate) struct Sums;

impl<K: Length> Measure<K> for Lengths {
    ghost is = { λ size state a b d. Distance K.Length.figures state a b d };

    fn of(drawing: &Drawing<K>, first: usize, last: usize, memory: &mut [K]) -> K {
        drawing.distances_to(first, first, memory);
        memory[last - 1]
    }
}

impl<K: Length> Measure<K> for Reaches {
    ghost is = { λ size state a b r. Reach K.Length.figures state a b r };

    fn of(drawing: &Drawing<K>, first: usize, last: usize, memory: &mut [K]) -> K {
        drawing.distances_to(first, last, memory);
        drawing.greatest(memory)
    }
}

impl<K: Length> Measure<K> for Sums {
    ghost is = { λ size state a b s. Total K.Length.figures state a b size s };

    fn of(drawing: &Drawing<K>, first: usize, last: usize, memory: &mut [K]) -> K {
        drawing.distances_to(first, last, memory);
        drawing.total(memory)
    }
}
