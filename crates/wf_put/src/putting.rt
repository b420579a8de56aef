//! Putting bytes in pieces.
ghost use Rattle.std.specs.Prelude.{◌≤◌, OnOk, IfErr};
ghost use Rattle.wf_outside.specs.Puts.{Appends, AppendsPrefix};
ghost use Rattle.wf_put.specs.Putting.{IsPutFault};

use wf_outside::{Sink, SinkFault};
use wf_status::Status;

/// The greatest length of a piece.
pub const MAX_PIECE: usize = 65_536;

/// Puts all bytes, in pieces.
pub fn put_all<K: Sink>(sink: &mut K, bytes: &[u8]) -> Result<(), Status>
    ensures ok { OnOk result (Appends (K.got sink.old) (K.got sink.new) bytes.now) }
    ensures prefix { AppendsPrefix (K.got sink.old) (K.got sink.new) bytes.now }
    ensures fault { IfErr result
        (λ status. IsPutFault (K.faults sink.old) (K.faults sink.new) status) }
    ensures count { K.faults sink.old ≤ K.faults sink.new }
{
    for piece in bytes.chunks(MAX_PIECE) {
        match sink.put(piece) {
            Ok(()) => {}
            Err(SinkFault::Failed) => return Err(Status::Sink),
            Err(SinkFault::Memory) => return Err(Status::Memory),
        }
    }
    Ok(())
}
