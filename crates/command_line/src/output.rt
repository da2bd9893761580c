// An answer that is written to the output.
ghost use Rattle.std.specs.Prelude.{◌≡◌};
ghost use Rattle.command_line.specs.Endings.{IsEndOfWriting, IsOutput};

use crate::endings::Ending;
use cc_outside::{Sink, WriteEnd, write_all};

/// Writes an answer, and says how that ended.
pub fn put<K: Sink>(answer: &[u8], output: &mut K) -> Ending
    ensures end { IsEndOfWriting result }
    ensures output { IsOutput K.written K.faults (λ text. text ≡ answer.now) output.old output.new result }
{
    match write_all(output, answer) {
        Ok(()) => Ending::Done,
        Err(WriteEnd::Fault) => Ending::WriteFault,
        Err(WriteEnd::Memory) => Ending::Memory,
    }
}
