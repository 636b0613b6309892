// The search for the best path.
ghost use Rattle.std.specs.Prelude.{◌≡◌, ℕ, ◌+◌, ◌-◌, ◌<◌, ◌≤◌, length, drop as after, MatchOption, slice_index_or};
ghost use Rattle.books.specs.declared.states.State.{State as AState};
ghost use Rattle.cells.specs.Columns.{held};
ghost use Rattle.plans.specs.Ways.{Point};
ghost use Rattle.plans.specs.Measures.{Distance};
ghost use Rattle.plans.specs.Drawn.{Reads, drawn};
ghost use Rattle.plans.specs.Searching.{beats, exceeds, Far, Within, Fits, Foremost};

use crate::answers::Plan;
use crate::drawing::Drawing;
use crate::weighing::Measure;
use cells::Column;
use lengths::Length;

/// A path that was found: its ends, what it weighs in the search, and its length.
#[derive(Clone, Copy)]
pub(crate) struct Found<K> {
    pub(crate) first: usize,
    pub(crate) last: usize,
    pub(crate) weight: K,
    pub(crate) length: K,
}

impl<K: Length> Found<K> {
    /// The plan that this path is, with what it weighs as its figure.
    pub(crate) fn plan(self) -> Plan<K>
        requires { (self.first ≤ 256) × (self.last ≤ 256) }
        ensures { (result.first ≡ self.first) × (result.last ≡ self.last) × (result.figure ≡ self.weight) }
    {
        Plan {
            first: self.first as u32,
            last: self.last as u32,
            figure: self.weight,
        }
    }

    /// Whether this path is better than another one: it weighs less, or as much and is shorter.
    fn beats(&self, other: &Found<K>) -> bool
        ensures { result ≡ beats K.figures self.now other.now }
    {
        self.weight.less(&other.weight)
            || !other.weight.less(&self.weight) && self.length.less(&other.length)
    }
}

/// Whether a length is more than a limit, where there is one.
fn exceeds<K: Length>(limit: Option<K>, length: K) -> bool
    ensures { result ≡ exceeds K.figures limit length }
{
    match limit {
        Some(limit) => limit.less(&length),
        None => false,
    }
}

/// Where paths begin: a tag, and the distance of every point from it.
#[derive(Drop)]
pub(crate) struct Start<K> {
    pub(crate) tag: usize,
    pub(crate) far: Column<K>,
}

impl<K: Length> Drawing<K> {
    /// What the memory has of each tag, in a column.
    fn column_of(&self, memory: &[K]) -> Column<K>
        requires { self.now.size ≤ length memory.now }
        ensures { (t : ℕ) → 1 ≤ t → t ≤ self.now.size → held result (t - 1) ≡ slice_index_or memory.now (t - 1) K.figures.zero }
    {
        let mut column = Column::filled(K::zero());
        for tag in 1..=self.size {
            column.put(tag - 1, memory[tag - 1]);
        }
        column
    }

    /// A tag, with the distance of every point from it.
    fn start(&self, tag: usize, memory: &mut [K]) -> Start<K>
        requires { (1 ≤ tag) × (tag ≤ self.now.size) × (self.now.size ≤ length memory.old) }
        ensures tag { result.tag ≡ tag }
        ensures far { (state : ℕ → AState K) → Reads K.figures self.now.size state (drawn self.now.states) → Point state tag → Far K.figures state result }
        ensures long { length memory.new ≡ length memory.old }
        ensures rest { after self.now.size memory.new ≡ after self.now.size memory.old }
    {
        self.distances_to(tag, tag, memory);
        let far = self.column_of(memory);
        Start { tag, far }
    }

    /// The path from a start to this tag, if that is a point and the length is within the limit.
    fn candidate<M: Measure<K>>(
        &self,
        start: &Start<K>,
        last: usize,
        limit: Option<K>,
        memory: &mut [K],
    ) -> Option<Found<K>>
        requires { (1 ≤ start.now.tag) × (start.now.tag ≤ last) × (last ≤ self.now.size) × (self.now.size ≤ length memory.old) }
        ensures found { (state : ℕ → AState K) → Reads K.figures self.now.size state (drawn self.now.states) → Point state start.now.tag → Far K.figures state start.now → MatchOption result ((l : K) → Point state last → Distance K.figures state start.now.tag last l → Within K.figures limit l → ⊥) (λ x. (x.first ≡ start.now.tag) × (x.last ≡ last) × Fits K.figures state (M.Measure.is self.now.size state) limit x × ((w : K) → M.Measure.is self.now.size state start.now.tag last w → w ≡ x.weight)) }
        ensures long { length memory.new ≡ length memory.old }
        ensures rest { after self.now.size memory.new ≡ after self.now.size memory.old }
    {
        if !self.is_point(last) {
            return None;
        }
        let first = start.tag;
        let length = *start.far.get(last - 1);
        if exceeds(limit, length) {
            return None;
        }
        let weight = M::of(self, first, last, memory);
        Some(Found {
            first,
            last,
            weight,
            length,
        })
    }

    /// The better of two paths: of the best one so far, and of that from a start to this tag.
    fn offer<M: Measure<K>>(
        &self,
        best: Found<K>,
        start: &Start<K>,
        last: usize,
        limit: Option<K>,
        memory: &mut [K],
    ) -> Found<K>
        requires { (1 ≤ start.now.tag) × (start.now.tag ≤ last) × (last ≤ self.now.size) × (self.now.size ≤ length memory.old) }
        ensures foremost { (state : ℕ → AState K) → Reads K.figures self.now.size state (drawn self.now.states) → Point state start.now.tag → Far K.figures state start.now → Foremost K.figures state (M.Measure.is self.now.size state) limit start.now.tag last best → Foremost K.figures state (M.Measure.is self.now.size state) limit start.now.tag (last + 1) result }
        ensures long { length memory.new ≡ length memory.old }
        ensures rest { after self.now.size memory.new ≡ after self.now.size memory.old }
    {
        match self.candidate::<M>(start, last, limit, memory) {
            Some(found) if found.beats(&best) => found,
            _ => best,
        }
    }

    /// The better of two paths: of the best one so far, and of those from this tag to itself or to a greater one.
    fn search_from<M: Measure<K>>(
        &self,
        best: Found<K>,
        first: usize,
        limit: Option<K>,
        memory: &mut [K],
    ) -> Found<K>
        requires { (1 ≤ first) × (first ≤ self.now.size) × (self.now.size ≤ length memory.old) }
        ensures foremost { (state : ℕ → AState K) → Reads K.figures self.now.size state (drawn self.now.states) → Foremost K.figures state (M.Measure.is self.now.size state) limit first first best → Foremost K.figures state (M.Measure.is self.now.size state) limit (first + 1) (first + 1) result }
        ensures long { length memory.new ≡ length memory.old }
        ensures rest { after self.now.size memory.new ≡ after self.now.size memory.old }
    {
        if !self.is_point(first) {
            return best;
        }
        let start = self.start(first, memory);
        let mut best = best;
        for last in first..=self.size {
            best = self.offer::<M>(best, &start, last, limit, memory);
        }
        best
    }

    /// The best path: of those whose length is within the limit the one of least weight, and by the ties the first of these.
    pub(crate) fn search<M: Measure<K>>(&self, limit: Option<K>, memory: &mut [K]) -> Found<K>
        requires { self.now.size ≤ length memory.old }
        ensures foremost { (state : ℕ → AState K) → Reads K.figures self.now.size state (drawn self.now.states) → Foremost K.figures state (M.Measure.is self.now.size state) limit (self.now.size + 1) (self.now.size + 1) result }
        ensures long { length memory.new ≡ length memory.old }
        ensures rest { after self.now.size memory.new ≡ after self.now.size memory.old }
    {
        let mut best = Found {
            first: 1,
            last: 1,
            weight: M::of(self, 1, 1, memory),
            length: K::zero(),
        };
        for first in 1..=self.size {
            best = self.search_from::<M>(best, first, limit, memory);
        }
        best
    }
}
