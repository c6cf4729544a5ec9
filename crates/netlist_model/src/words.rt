// Events and pins as words that are lent.
ghost use Rattle.std.specs.Prelude.{◌≡◌, IfOk};

use crate::parts::{EventName, PinNet};
use cyc_text::Text;
use std::alloc::{AllocError, Global};
use std::marker::Model;

/// An event by words that are lent: a net's name, and whether the net rises or falls.
#[derive(Drop)]
pub struct EventWord<'a> {
    net: &'a [u8],
    rising: bool,
}

impl<'a> Model for EventWord<'a> {
    ghost use Rattle.netlist_model.specs.declared.parts.EventName.{EventName};

    ghost Value = { EventName };

    ghost view = { λ e. record { net = e.net.now; rising = e.rising } };
}

impl<'a> EventWord<'a> {
    /// The event of these words.
    pub fn of(net: &'a [u8], rising: bool) -> EventWord<'a>
        ensures { result ≡ record { net = net.now; rising = rising } }
    {
        EventWord { net, rising }
    }

    pub(crate) fn net(&self) -> &'a [u8]
        ensures { result.now ≡ self.now.net }
    {
        self.net
    }

    pub(crate) fn rising(&self) -> bool
        ensures { result ≡ self.now.rising }
    {
        self.rising
    }

    /// The same event in a text of its own. `AllocError` only for want of memory.
    pub fn own(&self, alloc: Global) -> Result<EventName, AllocError>
        ensures { IfOk result (λ e. e ≡ self.now) }
    {
        Ok(EventName {
            net: Text::of(alloc, self.net)?,
            rising: self.rising,
        })
    }
}

impl EventName {
    /// The same event, its words lent.
    pub(crate) fn lent(&self) -> EventWord<'_>
        ensures { result ≡ self.now }
    {
        EventWord {
            net: self.net.bytes(),
            rising: self.rising,
        }
    }
}

/// A pin and the net or constant that it goes to, by names that are lent.
#[derive(Drop)]
pub struct PinWord<'a> {
    pin: &'a [u8],
    net: &'a [u8],
}

impl<'a> Model for PinWord<'a> {
    ghost use Rattle.netlist_model.specs.declared.parts.PinNet.{PinNet};

    ghost Value = { PinNet };

    ghost view = { λ p. record { pin = p.pin.now; net = p.net.now } };
}

impl<'a> PinWord<'a> {
    /// The pin and net of these names.
    pub fn of(pin: &'a [u8], net: &'a [u8]) -> PinWord<'a>
        ensures { result ≡ record { pin = pin.now; net = net.now } }
    {
        PinWord { pin, net }
    }

    pub(crate) fn pin(&self) -> &'a [u8]
        ensures { result.now ≡ self.now.pin }
    {
        self.pin
    }

    pub(crate) fn net(&self) -> &'a [u8]
        ensures { result.now ≡ self.now.net }
    {
        self.net
    }

    /// The same names in texts of their own. `AllocError` only for want of memory.
    pub fn own(&self, alloc: Global) -> Result<PinNet, AllocError>
        ensures { IfOk result (λ p. p ≡ self.now) }
    {
        Ok(PinNet {
            pin: Text::of(alloc, self.pin)?,
            net: Text::of(alloc, self.net)?,
        })
    }
}

impl PinNet {
    /// The same names, lent.
    fn lent(&self) -> PinWord<'_>
        ensures { result ≡ self.now }
    {
        PinWord {
            pin: self.pin.bytes(),
            net: self.net.bytes(),
        }
    }
}

/// The same pins, their names lent.
pub(crate) fn lent_pins(alloc: Global, pins: &[PinNet]) -> Result<Vec<PinWord<'_>>, AllocError>
    ensures { IfOk result (λ v. v.items ≡ pins.now) }
{
    let mut words = Vec::with_capacity(alloc, pins.len())?;
    for pin in pins {
        words.push(pin.lent())?;
    }
    Ok(words)
}
