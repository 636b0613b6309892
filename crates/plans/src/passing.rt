// Passes over a tree that give the distance of every point to a path.
ghost use Rattle.std.specs.Prelude.{◌≡◌, ℕ, ◌≤◌, false, length, drop as after, slice_index_or};
ghost use Rattle.trees.proofs.Trees.{Tree};
ghost use Rattle.books.specs.declared.states.State.{State as AState};
ghost use Rattle.plans.specs.Ways.{Point};
ghost use Rattle.plans.specs.Drawn.{Climbed, Reads, parent_of, run_of, drawn};
ghost use Rattle.plans.specs.Passing.{Given, Common, Near, Distances, up_to};

use crate::drawing::Drawing;
use crate::sides::Sides;
use lengths::Length;

impl<K: Length> Drawing<K> {
    /// The two ways up from the ends of a path.
    pub(crate) fn sides(&self, first: usize, last: usize) -> Sides
        requires { (first ≤ 256) × (last ≤ 256) }
        ensures first { Climbed (drawn self.now.states) first result.first }
        ensures last { Climbed (drawn self.now.states) last result.last }
    {
        Sides {
            first: self.chain(first),
            last: self.chain(last),
        }
    }

    // The memory is lent to each pass by itself and is as long as its caller has it, so each asks that it is long enough.

    /// To the root, from the greatest tag on: at each tag that both ways up meet, how far it is from there to the tag where they first
    /// meet.
    pub(crate) fn pass_to_root(&self, sides: &Sides, memory: &mut [K])
        requires { self.now.size ≤ length memory.old }
        ensures common { (T : Tree K.figures) (a b : ℕ) → Given T a b self.now.size (drawn self.now.states) sides.now → Common T a b self.now.size memory.new }
        ensures long { length memory.new ≡ length memory.old }
        ensures rest { after self.now.size memory.new ≡ after self.now.size memory.old }
    {
        let mut beyond = K::zero();
        for tag in (1..=self.size).rev() {
            if sides.both(tag) {
                memory[tag - 1] = beyond;
                beyond = self.run_of(tag).plus(beyond);
            }
        }
    }

    /// One tag of the pass from the root: a tag on the path is at no distance, and one off it is its run farther than its parent. A tag
    /// that does not stand, and one that both ways up meet, are left.
    fn step_from_root(&self, sides: &Sides, tag: usize, memory: &mut [K])
        requires { (1 ≤ tag) × (tag ≤ self.now.size) × (self.now.size ≤ length memory.old) }
        ensures { memory.new ≡ up_to K.figures memory.old (parent_of (drawn self.now.states tag)) (slice_index_or sides.now.first tag false) (slice_index_or sides.now.last tag false) tag (run_of K.figures (drawn self.now.states tag)) }
    {
        let parent = self.parent_of(tag);
        if parent == 0 {
            return;
        }
        match (sides.first[tag], sides.last[tag]) {
            (true, true) => {}
            (false, false) => memory[tag - 1] = memory[parent - 1].plus(self.run_of(tag)),
            _ => memory[tag - 1] = K::zero(),
        }
    }

    /// From the root, from the smallest tag on: with what the pass to the root put down, the distance of every point to the path.
    pub(crate) fn pass_from_root(&self, sides: &Sides, memory: &mut [K])
        requires { self.now.size ≤ length memory.old }
        ensures near { (T : Tree K.figures) (a b : ℕ) → Given T a b self.now.size (drawn self.now.states) sides.now → Common T a b self.now.size memory.old → Near T a b memory.new }
        ensures long { length memory.new ≡ length memory.old }
        ensures rest { after self.now.size memory.new ≡ after self.now.size memory.old }
    {
        for tag in 2..=self.size {
            self.step_from_root(sides, tag, memory);
        }
    }

    /// The distance of every point to the path with these ends, each in the place of its tag.
    pub(crate) fn distances_to(&self, first: usize, last: usize, memory: &mut [K])
        requires { (first ≤ 256) × (last ≤ 256) × (self.now.size ≤ length memory.old) }
        ensures distances { (state : ℕ → AState K) → Reads K.figures self.now.size state (drawn self.now.states) → Point state first → Point state last → Distances K.figures state first last memory.new }
        ensures long { length memory.new ≡ length memory.old }
        ensures rest { after self.now.size memory.new ≡ after self.now.size memory.old }
    {
        let sides = self.sides(first, last);
        self.pass_to_root(&sides, memory);
        self.pass_from_root(&sides, memory);
    }
}
