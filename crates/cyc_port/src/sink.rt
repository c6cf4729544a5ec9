// Where a text goes.
ghost use Rattle.std.specs.Prelude.{◌≡◌, ◌≤◌, [], OnOk, OnErr, IsOk};
ghost use Rattle.std.specs.Io.KnownBytes.{Appends};
ghost use Rattle.cyc_port.specs.Counts.{Rose};
ghost use Rattle.cyc_port.specs.Seen.{SinkSeen};
ghost use Rattle.cyc_port.specs.Written.{AppendsFront};

/// A write failed. A front of its piece may have been taken.
#[derive(Clone, Copy, Debug, PartialEq, Eq)]
pub struct SinkFailed;

/// Where texts are written, one piece after the other.
pub trait Sink {
    // The bytes that were written, where they are told, and how often a write failed.
    ghost seen: { Self → SinkSeen };

    /// Appends all bytes of the piece. An empty piece is always `Ok` and changes nothing.
    ///
    /// # Errors
    /// `SinkFailed` comes only where the count of faults rose in this call, and a front of the piece was appended.
    fn write_all(&mut self, bytes: &[u8]) -> Result<(), SinkFailed>
        ensures later { (seen self.old).faults ≤ (seen self.new).faults }
        ensures ok { OnOk result (Appends (seen self.old).written (seen self.new).written bytes.now) }
        ensures failed { OnErr result (Rose (seen self.old).faults (seen self.new).faults) }
        ensures front { OnErr result (AppendsFront (seen self.old).written (seen self.new).written bytes.now) }
        ensures empty_ok { bytes.now ≡ [] → IsOk result }
        ensures empty { bytes.now ≡ [] → self.new ≡ self.old };
}
