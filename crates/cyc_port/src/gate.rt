// A place where a test can hold a thread.

/// A place where a test can hold a thread. It has no meaning beyond returning.
pub trait Gate {
    /// Returns. Session `s` calls it with `who` = `s` before each shared call; worker `w`, counted from 1, with `who` = 1000 + `w` before
    /// its part of a round.
    fn pass(&self, who: u64);
}

/// A gate that returns at once.
#[derive(Clone, Copy, Debug)]
pub struct OpenGate;

impl Gate for OpenGate {
    fn pass(&self, _who: u64) {}
}

impl<'g> Gate for &'g (dyn Gate + Sync) {
    fn pass(&self, who: u64) {
        (**self).pass(who);
    }
}
