// What the cases share.
use draft::pairing::{Pairing, Side};
use draft::refusal::Refusal;
use draft::shape::Shape;
use draft::store::Store;
use std::array;
use std::process::Abort;

// Three courses of two choices. Courses 0 and 1, and 1 and 2, allow equal numbers; 0 and 2 allow all.
pub(crate) const EQUAL: [u8; 2] = [0x4B, 0xB4];

// A pairing that no shape has.
pub(crate) const NOTHING: Pairing = Pairing {
    one: Side {
        course: 0,
        choice: 9,
    },
    other: Side {
        course: 1,
        choice: 9,
    },
};

// The shape of these choice counts.
pub(crate) fn shape(counts: &[u8]) -> Result<Shape, Refusal> {
    Shape::try_from(counts)
}

// The names with courses up to 3 and choices up to 2.
pub(crate) fn pairings() -> [Pairing; 144] {
    array::from_fn(|k| Pairing::new(k / 36, k / 12 % 3, k / 3 % 4, k % 3))
}

// The store has three courses of two choices, and no others.
pub(crate) fn has_three_of_two<S: Store>(rt: &impl Abort, store: &S) {
    assert_eq!(rt; store.courses(), 3);
    for i in 0..3 {
        assert_eq!(rt; store.choices(i), 2);
    }
    assert_eq!(rt; store.choices(3), 0);
    assert_eq!(rt; store.choices(usize::MAX), 0);
}

// Whether the pairing stands in the draft of EQUAL.
fn equal_numbers(pairing: Pairing) -> bool {
    let Pairing { one, other } = pairing;
    if one.course == other.course
        || one.course > 2
        || other.course > 2
        || one.choice > 1
        || other.choice > 1
    {
        return false;
    }
    one.choice == other.choice || one.course != 1 && other.course != 1
}

// The number of standing pairings among those names, each pairing counted under both names.
pub(crate) fn standing<S: Store>(store: &S) -> usize {
    pairings()
        .iter()
        .filter(|pairing| store.stands(**pairing))
        .count()
}

// Just the pairings of EQUAL stand, less one.
pub(crate) fn has_equal_numbers_less<S: Store>(rt: &impl Abort, store: &S, struck: Pairing) {
    for pairing in pairings() {
        assert_eq!(rt;
            store.stands(pairing),
            equal_numbers(pairing) && pairing != struck && pairing != struck.mirrored()
        );
    }
}
