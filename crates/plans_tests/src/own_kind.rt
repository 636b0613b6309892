// A kind of a user's own, whose type has no order and no `==`: a kind needs only its figures, its calls and its laws.
ghost use Rattle.lengths.specs.Whole.{whole};
ghost use Rattle.lengths.specs.WholeLaws.{whole_laws};
ghost use Rattle.std.specs.Prelude.{refl};
ghost use Rattle.std.proofs.Common.{arith};

use books::{Book, Edit, Entry, Refusal, Spur, apply};
use lengths::{Length, larger, sum_of};
use logs::LogBook;
use plans::{Denial, Plan, hub, spine, trunk};
use std::process::Abort;
use tables::{Row, TableBook};

/// Joints on a run, of which an entry has at most 20.
#[derive(Clone, Copy)]
struct Joints {
    count: u64,
}

impl Length for Joints {
    ghost figures = { whole (λ n. record { count = n }) (λ x. x.count) 20 };

    ghost laws = { whole_laws (λ n. record { count = n }) (λ x. x.count) (λ x. refl) (λ n. refl) 20 (omega arith) };

    fn zero() -> Joints {
        Joints { count: 0 }
    }

    fn plus(self, other: Joints) -> Joints {
        Joints {
            count: self.count.saturating_add(other.count),
        }
    }

    fn less(&self, other: &Joints) -> bool {
        self.count < other.count
    }

    fn is_entry(&self) -> bool {
        self.count <= 20
    }
}

/// So many joints.
fn joints_of(count: u64) -> Joints {
    Joints { count }
}

/// Whether a call answered the plan with these ends and this figure.
fn is_plan(answer: Result<Plan<Joints>, Denial>, first: u32, last: u32, figure: u64) -> bool {
    answer.is_ok_and(|plan| plan.first == first
        && plan.last == last
        && plan.figure.same(&joints_of(figure)))
}

/// A chain of three points in a book, by `apply`, with one edit that is refused for its run; and its plans.
fn check_plans<B: Book<Kind = Joints>>(rt: &impl Abort, book: &mut B) {
    let grown = |tag: u32, run: u64| {
        let spur = Spur {
            parent: tag - 1,
            run: joints_of(run),
            drop: joints_of(1),
        };
        Entry {
            edit: Edit::Growth { tag, spur },
            answer: None,
        }
    };
    let mut entries = [grown(2, 20), grown(3, 21), grown(3, 4)];
    apply(book, &mut entries);
    let [first, second, third] = entries;
    assert!(rt; matches!(first.answer, Some(Ok(()))) && matches!(third.answer, Some(Ok(()))));
    assert!(rt; second.answer == Some(Err(Refusal::BadRun.of_tag(3))));
    let mut memory = [joints_of(7); 3];
    assert!(rt; is_plan(hub(book, &mut memory), 2, 2, 20));
    assert!(rt; is_plan(spine(book, &mut memory), 1, 3, 1));
    assert!(rt; is_plan(trunk(book, joints_of(20), &mut memory), 1, 2, 4));
}

#[test]
fn a_kind_whose_type_has_no_order_is_done_in_both_books(rt: HostRuntime) {
    let mut rows = [Row::<Joints>::blank(); 2];
    check_plans(&rt, &mut TableBook::open(&mut rows));
    let mut entries = [Edit::<Joints>::Strike { tag: 2 }; 4];
    check_plans(&rt, &mut LogBook::open(&mut entries));
    assert!(rt; larger(joints_of(3), joints_of(4)).same(&joints_of(4)));
    assert!(rt; sum_of(&[joints_of(3), joints_of(4), joints_of(20)]).same(&joints_of(27)));
}
