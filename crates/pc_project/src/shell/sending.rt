//! Writing a text to a sink, and the line that refuses a deck.
ghost use Rattle.pc_edges.specs.inside.Writes.{Writes};
ghost use Rattle.pc_faults.specs.inside.FaultText.{IsTold};
ghost use Rattle.pc_project.specs.inside.shell.Refusing.{Refusal};
ghost use Rattle.pc_project.specs.shell.Sides.{side};

use crate::shell::status::Status;
use pc_edges::{Failed, Sink, push_all};
use pc_faults::{Fault, fault_line};
use std::alloc::Global;

/// Pushes the text and flushes the sink. Takes no memory.
///
/// # Errors
///
/// Returns `Failed` if a push or the flush failed. The sink has then taken the beginning of the text.
pub fn send<O: Sink>(sink: &mut O, text: &[u8]) -> Result<(), Failed>
    ensures { Writes result (O.taken sink.old) (O.taken sink.new) (O.faults sink.old) (O.faults sink.new) text.now }
{
    push_all(sink, text)?;
    sink.flush()
}

/// Writes the line of a fault on `err`, flushes it and returns the status.
pub fn refuse<E: Sink>(alloc: Global, fault: &Fault, err: &mut E) -> Status
    requires { IsTold fault.now }
    ensures { Refusal fault.now (side E.taken E.faults err.old err.new) result }
{
    let Ok(line) = fault_line(alloc, fault) else {
        return Status::OutOfMemory;
    };
    match send(err, line.bytes()) {
        Ok(()) => Status::Refused,
        Err(Failed) => Status::WriteFault,
    }
}
