// Shapes: their counts, labels and pair numbers.
use draft::pairing::{Pairing, Side};
use draft::refusal::Refusal;
use draft::shape::Shape;
use std::process::Abort;
use std::test::Fail;

// The shape has just these choice counts.
fn has_counts(rt: &impl Abort, shape: &Shape, counts: &[u8]) {
    assert_eq!(rt; shape.courses(), counts.len());
    for (i, count) in counts.iter().enumerate() {
        assert_eq!(rt; shape.choices(i), usize::from(*count));
    }
    assert_eq!(rt; shape.choices(counts.len()), 0);
}

// The label of choice `b` of course `i`.
fn label(shape: &Shape, i: usize, b: usize) -> Option<usize> {
    shape.label(Side {
        course: i,
        choice: b,
    })
}

// The pair number of (`i`,`b`)-(`j`,`c`).
fn pair(shape: &Shape, i: usize, b: usize, j: usize, c: usize) -> Option<usize> {
    shape.pair(Pairing::new(i, b, j, c))
}

#[test]
fn a_new_shape_has_two_courses_of_one_choice(rt: HostRuntime) {
    let shape = Shape::new();
    has_counts(&rt, &shape, &[1, 1]);
    assert_eq!(rt; shape.labels(), 2);
    assert_eq!(rt; shape.pair_numbers(), 1);
    assert_eq!(rt; pair(&shape, 0, 0, 1, 0), Some(0));
}

#[test]
fn a_shape_takes_counts_up_to_the_limits(rt: HostRuntime) {
    let mut shape = Shape::new();
    assert_eq!(rt; shape.set(&[8; 24]), Ok(()));
    has_counts(&rt, &shape, &[8; 24]);
    assert_eq!(rt; shape.set(&[1; 24]), Ok(()));
    has_counts(&rt, &shape, &[1; 24]);
    assert_eq!(rt; shape.set(&[8, 1]), Ok(()));
    has_counts(&rt, &shape, &[8, 1]);
}

#[test]
fn a_refused_shape_stays_as_it_was(rt: HostRuntime) -> Result<(), Fail> {
    let mut shape = Shape::try_from([2, 3, 1].as_slice())?;
    assert_eq!(rt; shape.set(&[]), Err(Refusal::Limit));
    assert_eq!(rt; shape.set(&[4]), Err(Refusal::Limit));
    assert_eq!(rt; shape.set(&[1; 25]), Err(Refusal::Limit));
    assert_eq!(rt; shape.set(&[4, 0, 4]), Err(Refusal::Limit));
    assert_eq!(rt; shape.set(&[4, 4, 9]), Err(Refusal::Limit));
    has_counts(&rt, &shape, &[2, 3, 1]);
    assert_eq!(rt; shape.labels(), 6);
    Ok(())
}

#[test]
fn labels_go_through_the_courses_in_order(rt: HostRuntime) -> Result<(), Fail> {
    let shape = Shape::try_from([2, 3, 1].as_slice())?;
    assert_eq!(rt; shape.labels(), 6);
    let choices = [(0, 0), (0, 1), (1, 0), (1, 1), (1, 2), (2, 0)];
    for (number, (i, b)) in choices.into_iter().enumerate() {
        assert_eq!(rt; label(&shape, i, b), Some(number));
    }
    assert_eq!(rt; label(&shape, 0, 2), None);
    assert_eq!(rt; label(&shape, 1, 3), None);
    assert_eq!(rt; label(&shape, 2, 1), None);
    assert_eq!(rt; label(&shape, 3, 0), None);
    Ok(())
}

#[test]
fn pair_numbers_go_by_the_higher_label_and_then_the_lower(rt: HostRuntime) -> Result<(), Fail> {
    let shape = Shape::try_from([2, 3, 1].as_slice())?;
    assert_eq!(rt; shape.pair_numbers(), 15);
    for (i, b, j, c, number) in [
        (0, 0, 1, 0, 1),
        (0, 1, 1, 0, 2),
        (0, 0, 1, 1, 3),
        (0, 1, 1, 2, 7),
        (0, 1, 2, 0, 11),
        (1, 2, 2, 0, 14),
    ] {
        assert_eq!(rt; pair(&shape, i, b, j, c), Some(number));
        assert_eq!(rt; pair(&shape, j, c, i, b), Some(number));
    }
    Ok(())
}

#[test]
fn only_choices_of_two_courses_have_a_pair_number(rt: HostRuntime) -> Result<(), Fail> {
    let shape = Shape::try_from([2, 3, 1].as_slice())?;
    assert_eq!(rt; pair(&shape, 0, 0, 0, 1), None);
    assert_eq!(rt; pair(&shape, 1, 1, 1, 1), None);
    assert_eq!(rt; pair(&shape, 0, 2, 1, 0), None);
    assert_eq!(rt; pair(&shape, 0, 0, 2, 1), None);
    assert_eq!(rt; pair(&shape, 3, 0, 0, 0), None);
    assert_eq!(rt; pair(&shape, 0, 0, 3, 0), None);
    Ok(())
}

#[test]
fn the_largest_shape_has_192_labels_and_18336_pair_numbers(rt: HostRuntime) -> Result<(), Fail> {
    let shape = Shape::try_from([8; 24].as_slice())?;
    assert_eq!(rt; shape.labels(), 192);
    assert_eq!(rt; shape.pair_numbers(), 18336);
    assert_eq!(rt; label(&shape, 0, 0), Some(0));
    assert_eq!(rt; label(&shape, 1, 0), Some(8));
    assert_eq!(rt; label(&shape, 23, 7), Some(191));
    assert_eq!(rt; label(&shape, 23, 8), None);
    assert_eq!(rt; label(&shape, 24, 0), None);
    assert_eq!(rt; pair(&shape, 0, 0, 1, 0), Some(28));
    assert_eq!(rt; pair(&shape, 22, 7, 23, 7), Some(18328));
    assert_eq!(rt; pair(&shape, 23, 7, 22, 7), Some(18328));
    Ok(())
}
