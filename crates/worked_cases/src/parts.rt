// Refusals, faults and choice records.
use draft::fault::Fault;
use draft::refusal::Refusal;
use layout::choice::Choice;
use layout::rows::ChoiceRow;
use std::process::Abort;

const REFUSALS: [Refusal; 16] = [
    Refusal::SheetEnds,
    Refusal::Edition,
    Refusal::Limit,
    Refusal::Evening,
    Refusal::BarName,
    Refusal::BarOrder,
    Refusal::Filling,
    Refusal::Memory,
    Refusal::Course,
    Refusal::Choice,
    Refusal::SameCourse,
    Refusal::NothingStands,
    Refusal::DeadPlan,
    Refusal::Letter,
    Refusal::Number,
    Refusal::Trailing,
];

#[test]
fn the_refusals_are_numbered_from_1_to_16(rt: HostRuntime) {
    for (k, refusal) in REFUSALS.iter().enumerate() {
        assert_eq!(rt; usize::from(u8::from(*refusal)), k + 1);
    }
}

#[test]
fn a_fault_of_a_sheet_names_its_refusal_and_its_bit(rt: HostRuntime) {
    for (bit, refusal) in REFUSALS.into_iter().enumerate() {
        let fault = Fault::Sheet { refusal, bit };
        assert_eq!(rt; fault.refusal(), refusal);
        assert_eq!(rt; fault.bit(), Some(bit));
    }
}

// The fault names that refusal and no bit.
fn names_no_bit(rt: &impl Abort, fault: Fault, refusal: Refusal) {
    assert_eq!(rt; fault.refusal(), refusal);
    assert_eq!(rt; fault.bit(), None);
}

#[test]
fn a_fault_of_a_line_names_its_refusal_and_no_bit(rt: HostRuntime) {
    for refusal in REFUSALS {
        names_no_bit(&rt, Fault::Line { refusal }, refusal);
    }
}

#[test]
fn a_fault_of_a_plan_names_its_refusal_and_no_bit(rt: HostRuntime) {
    for refusal in REFUSALS {
        names_no_bit(&rt, Fault::Plan { refusal }, refusal);
    }
}

// The evening and the room of the row's record, or the refusal.
fn record(evening: u8, room: u8) -> Result<(u8, u8), Refusal> {
    let choice = Choice::try_from(ChoiceRow { evening, room })?;
    Ok((choice.evening(), choice.room()))
}

#[test]
fn a_choice_record_has_an_evening_to_6_and_a_room_to_31(rt: HostRuntime) {
    assert_eq!(rt; record(0, 0), Ok((0, 0)));
    assert_eq!(rt; record(6, 31), Ok((6, 31)));
    assert_eq!(rt; record(7, 0), Err(Refusal::Evening));
    assert_eq!(rt; record(0, 32), Err(Refusal::Limit));
    assert_eq!(rt; record(255, 255), Err(Refusal::Evening));
}
