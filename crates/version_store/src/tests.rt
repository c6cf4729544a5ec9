// A hall of numbered rows.
ghost use Rattle.std.specs.Prelude.{◌≡◌, ◌+◌, ⊤, IfOk};

use crate::{Follows, Hall, HallAct, HallEntry, HallFault, MOST_ROWS, PinFault};
use std::alloc::{AllocError, Global};
use std::sync::Arc;
use std::test::Fail;

#[derive(Drop)]
struct Step {
    number: u32,
}

impl Follows for Step {
    ghost follows = { λ row parent. row.number ≡ parent.number + 1 };
}

#[derive(Drop)]
struct Plain;

impl Follows for Plain {
    ghost follows = { λ _ _. ⊤ };
}

fn entry(session: u16, act: HallAct) -> HallEntry {
    HallEntry { session, act }
}

#[test]
fn each_call_leaves_its_entry(rt: HostRuntime) -> Result<(), Fail> {
    let alloc = rt.alloc();
    let mut hall = Hall::open(alloc, Arc::new(alloc, Step { number: 0 })?, 6)?;
    let pin = hall.pin_latest(1)?;
    assert!(rt; pin.number == 0 && pin.row.number == 0);
    let row = Arc::new(alloc, Step { number: 1 })?;
    assert!(rt; hall.publish(1, 0, row) == Ok(1));
    let row = Arc::new(alloc, Step { number: 1 })?;
    assert!(rt; hall.publish(2, 0, row) == Err(HallFault::Stale(1)));
    assert!(rt; matches!(hall.pin_at(2, 5), Err(PinFault::NoVersion(1))));
    assert!(rt; matches!(hall.pin_at(2, 1), Ok(pin) if pin.number == 1 && pin.row.number == 1));
    hall.pass(3);
    assert!(rt; hall.head() == 1);
    let entries = [
        entry(1, HallAct::Latest),
        entry(1, HallAct::Publish(0)),
        entry(2, HallAct::Publish(0)),
        entry(2, HallAct::At(5)),
        entry(2, HallAct::At(1)),
        entry(3, HallAct::Pass),
    ];
    assert!(rt; hall.entries() == entries.as_slice());
    Ok(())
}

// A hall with all rows that may stand, and room for one call more.
fn full_hall(alloc: Global) -> Result<Hall<Plain>, AllocError>
    ensures { IfOk result (λ h. h.room ≡ 1) }
{
    let mut hall = Hall::open(alloc, Arc::new(alloc, Plain)?, 256)?;
    for _ in 1..MOST_ROWS {
        let head = hall.head();
        let row = Arc::new(alloc, Plain)?;
        let _ = hall.publish(1, head, row);
    }
    Ok(hall)
}

#[test]
fn no_row_is_added_to_all_that_may_stand(rt: HostRuntime) -> Result<(), Fail> {
    let alloc = rt.alloc();
    let mut hall = full_hall(alloc)?;
    let head = hall.head();
    assert!(rt; head == 255);
    assert!(rt; hall.publish(1, head, Arc::new(alloc, Plain)?) == Err(HallFault::Full));
    assert!(rt; hall.head() == 255 && hall.entries().len() == 256);
    Ok(())
}
