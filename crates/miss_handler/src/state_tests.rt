// Rows, and what the states cover.
use crate::{CallState, Row, covers, explains, is_transition};
use program::{ClassId, MethodId, Target};
use std::test::Fail;

#[test]
fn a_row_keeps_its_checks_in_order(rt: HostRuntime) -> Result<(), Fail> {
    let row = Row::empty()
        .added(ClassId(8), Target::Method(MethodId(49)))
        .added(ClassId(7), Target::Nsm(MethodId(2)));
    assert_eq!(rt; row.len(), 2);
    assert_eq!(rt; row.class_at(0), ClassId(8));
    assert_eq!(rt; row.target_at(1), Target::Nsm(MethodId(2)));
    assert_eq!(rt; row.target_of(ClassId(9)), None);
    assert!(rt; covers(CallState::Cached, &row, ClassId(7)));
    assert!(rt; !covers(CallState::Mega, &row, ClassId(7)));
    assert!(rt; !is_transition(CallState::Cached, &row));
    Ok(())
}

#[test]
fn a_range_covers_its_ends(rt: HostRuntime) -> Result<(), Fail> {
    let row = Row::empty();
    let range = CallState::Single(ClassId(7), ClassId(9), Target::Method(MethodId(49)));
    assert!(rt; covers(range, &row, ClassId(7)));
    assert!(rt; covers(range, &row, ClassId(9)));
    assert!(rt; !explains(range, ClassId(10)));
    assert!(rt; is_transition(range, &row));
    Ok(())
}
