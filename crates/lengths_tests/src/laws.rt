// The laws, cited in generic code: what is promised here of any kind is proved from its laws alone, and then run.
ghost use Rattle.std.specs.Prelude.{◌≡◌, true};

use lengths::{Length, kind_c};

/// Whether `a` and `b` compare as they do after `c` was added to both: always, of entries.
fn stays_less<L: Length>(a: L, b: L, c: L) -> bool
    ensures { L.figures.entry a ≡ true → L.figures.entry b ≡ true → L.figures.entry c ≡ true → result ≡ true }
{
    a.plus(c).less(&b.plus(c)) == a.less(&b)
}

/// Whether three figures come to the same in another order and bracketing: always, of entries.
fn adds_alike<L: Length>(a: L, b: L, c: L) -> bool
    ensures { L.figures.entry a ≡ true → L.figures.entry b ≡ true → L.figures.entry c ≡ true → result ≡ true }
{
    a.plus(b).plus(c).same(&c.plus(b.plus(a)))
}

#[test]
fn the_laws_hold_of_kind_c(rt: HostRuntime) {
    let most = kind_c(9, 1_000_000);
    assert!(rt; stays_less(kind_c(0, 1_000_000), kind_c(1, 0), most));
    assert!(rt; stays_less(kind_c(1, 0), kind_c(0, 1_000_000), most));
    assert!(rt; adds_alike(kind_c(0, 1), most, kind_c(3, 400)));
}
