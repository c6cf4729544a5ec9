// The drivers of nets, by the nets' places.
ghost use Rattle.std.specs.Prelude.{◌≡◌, ◌<◌, ◌≤◌, ℕ, None, cond, length, map, nat_eq, remove, slice_set, if◌then◌else◌, nat_lt, OnOk};
ghost use Rattle.netlist_model.specs.Circuit as circuit;
ghost use Rattle.netlist_model.specs.Circuit.{is_net};
ghost use Rattle.netlist_model.specs.Keyed.{place_after, told_at};

use crate::parts::NetRef;
use std::alloc::AllocError;

/// Makes room to tell the driver of a net. What is told stays.
pub(crate) fn reach(drivers: &mut Vec<Option<usize>>, net: usize) -> Result<(), AllocError>
    ensures told { (n : ℕ) → told_at drivers.new.items n ≡ told_at drivers.old.items n }
    ensures room { OnOk result (net < length drivers.new.items) }
    ensures grows { length drivers.old.items ≤ length drivers.new.items }
{
    let Some(count) = net.checked_add(1) else {
        return Err(AllocError);
    };
    if count > drivers.len() {
        drivers.resize(count, None)?;
    }
    Ok(())
}

/// The place of a driver, once the instance at `gone` is away.
fn moved(gone: usize, driver: Option<usize>) -> Option<usize>
    ensures { result ≡ place_after gone driver }
{
    match driver {
        Some(at) => {
            if at == gone {
                None
            } else if gone < at {
                Some(at - 1)
            } else {
                Some(at)
            }
        }
        None => None,
    }
}

/// Tells the drivers' places, once the instance at `gone` is away.
pub(crate) fn close_up(drivers: &mut [Option<usize>], gone: usize)
    ensures { drivers.new ≡ map (place_after gone) drivers.old }
{
    for driver in drivers.iter_mut() {
        *driver = moved(gone, *driver);
    }
}

/// Tells that an instance with these pins drives no net any longer.
pub(crate) fn release(drivers: &mut Vec<Option<usize>>, pins: &[NetRef])
    ensures { (n : ℕ) → told_at drivers.new.items n ≡ cond (is_net n (circuit.last_of pins.now)) None (told_at drivers.old.items n) }
{
    match last_pin(pins) {
        Some(NetRef::Net(net)) => free(drivers, net as usize),
        Some(NetRef::Const(_)) => {}
        None => {}
    }
}

/// The last of the pins.
pub(crate) fn last_pin(pins: &[NetRef]) -> Option<NetRef>
    ensures { result ≡ circuit.last_of pins.now }
{
    pins.last().copied()
}

/// Tells that a net has no driver.
fn free(drivers: &mut Vec<Option<usize>>, net: usize)
    ensures { (n : ℕ) → told_at drivers.new.items n ≡ cond (nat_eq n net) None (told_at drivers.old.items n) }
{
    if net < drivers.len() {
        drivers[net] = None;
    }
}

/// Takes the place of a net away, which none drives.
pub(crate) fn forget(drivers: &mut Vec<Option<usize>>, net: usize)
    ensures { drivers.new.items ≡ (if nat_lt net (length drivers.old.items) then remove drivers.old.items net else drivers.old.items) }
{
    if net < drivers.len() {
        let _ = drivers.remove(net);
    }
}
