// Cells as nested twos.
ghost use Rattle.std.specs.Prelude.{◌*◌, ◌/◌, ◌%◌};
ghost use Rattle.cells.specs.Twos.{of_two};

use crate::interface::Cells;

/// One place. (Not a `Two` of one part: what is nested must end at an item, and this is where it does.)
#[derive(Clone, Copy)]
pub struct One<T> {
    item: T,
}

/// Twice as many places as a part has: the remainder of a number by 2 says which part, and the quotient which place in it.
#[derive(Clone, Copy)]
pub struct Two<C> {
    a: C,
    b: C,
}

/// 16 times as many places as a part has.
pub type Sixteen<C> = Two<Two<Two<Two<C>>>>;

/// 256 places.
pub type Cells256<T> = Sixteen<Sixteen<One<T>>>;

impl<T: Copy> Cells for One<T> {
    type Item = T;

    ghost count = { 1 };

    ghost at = { λ c i. c.item };

    fn filled(item: T) -> One<T> {
        One { item }
    }

    fn get(&self, index: usize) -> &T {
        &self.item
    }

    fn put(&mut self, index: usize, item: T) {
        self.item = item;
    }
}

impl<C: Cells> Cells for Two<C> {
    type Item = C::Item;

    ghost count = { C.Cells.count * 2 };

    ghost at = { λ c i. C.Cells.at (of_two c.a c.b (i % 2)) (i / 2) };

    fn filled(item: C::Item) -> Two<C> {
        let part = C::filled(item);
        Two { a: part, b: part }
    }

    fn get(&self, index: usize) -> &C::Item {
        let inner = index / 2;
        // an if and no array of two: over a type parameter its size would be owed
        if index % 2 == 0 {
            self.a.get(inner)
        } else {
            self.b.get(inner)
        }
    }

    fn put(&mut self, index: usize, item: C::Item) {
        let inner = index / 2;
        // the if of `get` once more: a part lent to be read and one lent to be written are two borrows, with an if each
        if index % 2 == 0 {
            self.a.put(inner, item);
        } else {
            self.b.put(inner, item);
        }
    }
}
