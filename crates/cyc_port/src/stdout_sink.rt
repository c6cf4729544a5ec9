// A sink over any writer.
ghost use Rattle.std.specs.Prelude.{◌≡◌, ◌≤◌, ◌<◌, length, IfOk, true};
ghost use Rattle.std.specs.Io.KnownBytes.{Appends};
ghost use Rattle.cyc_port.specs.Written.{AppendsFront};

use crate::{Sink, SinkFailed};
use std::io::{ErrorKind, Write};

/// A sink over a writer, such as standard output. It tells what the writer tells.
#[derive(Drop)]
pub struct StdoutSink<W: Write + Drop> {
    out: W,
    faults: u64,
}

impl<W: Write + Drop> StdoutSink<W> {
    /// A sink over the writer, with its count at 0.
    pub fn new(out: W) -> Self
        ensures written { (⟦<StdoutSink<W> as Sink>⟧.seen result).written ≡ W.contents out }
        ensures faults { (⟦<StdoutSink<W> as Sink>⟧.seen result).faults ≡ 0 }
    {
        StdoutSink { out, faults: 0 }
    }
}

// Writes piece by piece, and says whether all was taken. Interrupted writes are tried again.
fn write_pieces<W: Write>(out: &mut W, bytes: &[u8]) -> bool
    ensures done { result ≡ true → Appends (W.contents out.old) (W.contents out.new) bytes.now }
    ensures front { AppendsFront (W.contents out.old) (W.contents out.new) bytes.now }
{
    let mut taken = 0;
    'pieces: for _ in 0..u64::MAX {
        if taken == bytes.len() {
            return true;
        }
        match out.write(&bytes[taken..]) {
            Ok(0) => return false,
            Ok(count) => taken += count,
            Err(fault) => {
                if fault.kind() != ErrorKind::Interrupted {
                    return false;
                }
            }
        }
    }
    false
}

impl<W: Write + Drop> Sink for StdoutSink<W> {
    ghost seen = { λ s. record { written = W.contents s.out; faults = s.faults } };

    fn write_all(&mut self, bytes: &[u8]) -> Result<(), SinkFailed> {
        if bytes.is_empty() {
            return Ok(());
        }
        if write_pieces(&mut self.out, bytes) && self.out.flush().is_ok() {
            return Ok(());
        }
        self.faults = self.faults.saturating_add(1);
        Err(SinkFailed)
    }
}
