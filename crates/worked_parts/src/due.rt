use due_list::Due;
use std::test::Fail;

#[test]
fn entries_go_by_time_and_id(rt: HostRuntime) -> Result<(), Fail> {
    let mut due = Due::new(rt.alloc());
    due.reserve(3)?;
    let one = due.insert(5, 1)?;
    let two = due.insert(3, 2)?;
    let zero = due.insert(5, 0)?;
    assert_eq!(rt; due.first_due(), Some((3, 2)));
    assert_eq!(rt;
        due.until(rt.alloc(), 4)?.as_slice(),
        [(3, 2, None)].as_slice()
    );
    due.shift(two, 9);
    assert_eq!(rt; due.first_due(), Some((5, 0)));
    assert_eq!(rt; due.unlink(one), 1);
    assert_eq!(rt; due.unlink(zero), 0);
    assert_eq!(rt; due.first_due(), Some((9, 2)));
    assert_eq!(rt; due.unlink(two), 2);
    assert_eq!(rt; due.first_due(), None);
    Ok(())
}
