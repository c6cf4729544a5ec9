//! An answer is written to the sink.
ghost use Rattle.std.specs.Prelude.{◌≡◌, ◌≤◌, ◌<◌, []};
ghost use Rattle.std.specs.Io.KnownBytes.{Appends, Keeps};
ghost use Rattle.cyc_port.specs.Counts.{Rose};
ghost use Rattle.cyc_port.specs.Written.{AppendsFront};
ghost use Rattle.engine.specs.Answers.{order_of, status_of, text_of};

use crate::faults::{Fault, status};
use crate::outcome::{Outcome, Written, no_order};
use cyc_port::Sink;
use report_writer::fault_text;
use session_run::Order;
use std::alloc::Global;

/// Memory was wanting.
fn no_memory(alloc: Global) -> Outcome
    ensures status { result.status ≡ 8 }
    ensures order { result.order ≡ [] }
{
    Outcome {
        status: 8,
        order: no_order(alloc),
    }
}

/// Writes a text at once, and tells its order with the status, or with 7.
fn write_text<K: Sink>(status: u8, text: &[u8], order: Order, sink: &mut K) -> Outcome
    requires { status < 7 }
    ensures whole { result.status < 7 → (result.status ≡ status) × Appends (K.seen sink.old).written (K.seen sink.new).written text.now }
    ensures cut { result.status ≡ 7 → Rose (K.seen sink.old).faults (K.seen sink.new).faults × AppendsFront (K.seen sink.old).written (K.seen sink.new).written text.now }
    ensures known { result.status ≤ 7 }
    ensures order { result.order ≡ order }
{
    match sink.write_all(text) {
        Ok(()) => Outcome { status, order },
        Err(_) => Outcome { status: 7, order },
    }
}

/// Writes an answer, and tells its order.
pub(crate) fn write_answer<K: Sink>(
    alloc: Global,
    answer: Result<Written, Fault>,
    sink: &mut K,
) -> Outcome
    ensures whole { result.status < 7 → (result.status ≡ status_of answer) × Appends (K.seen sink.old).written (K.seen sink.new).written (text_of answer) }
    ensures cut { result.status ≡ 7 → (status_of answer < 7) × Rose (K.seen sink.old).faults (K.seen sink.new).faults
        × AppendsFront (K.seen sink.old).written (K.seen sink.new).written (text_of answer) }
    ensures memory { result.status ≡ 8 → Keeps (K.seen sink.old).written (K.seen sink.new).written }
    ensures known { result.status ≤ 8 }
    ensures order { result.status < 8 → result.order ≡ order_of answer }
    ensures untold { result.status ≡ 8 → result.order ≡ [] }
{
    let status = status(&answer);
    match answer {
        Ok(Written { text, order }) => write_text(status, text.bytes(), order, sink),
        Err(Fault::Memory) => no_memory(alloc),
        Err(Fault::Line(line)) => match fault_text(alloc, &line) {
            Ok(text) => write_text(status, text.bytes(), no_order(alloc), sink),
            Err(_) => no_memory(alloc),
        },
    }
}
