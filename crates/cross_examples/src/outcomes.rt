// What a command came to, over memory.
ghost use Rattle.std.specs.Prelude.{◌≡◌, ◌++◌, codes};
ghost use Rattle.std.specs.Bool.{OnTrue};
ghost use Rattle.std.specs.Fmt.{decimal};
ghost use Rattle.cross_examples.specs.Lines.{notes_of};

use cc_outside::{SteadySink, SteadySource};
use cross_core::cross;
use itoa::Buffer;
use std::alloc::Global;

/// The status of a command, and what it wrote to its output and to its notes.
#[derive(Drop)]
pub struct Outcome {
    pub status: u8,
    pub output: SteadySink,
    pub notes: SteadySink,
}

/// Carries out a command line on an input.
pub fn outcome_of(alloc: Global, words: &[&str], input: Vec<u8>) -> Outcome {
    let mut input = SteadySource::new(input);
    let mut output = SteadySink::new(alloc);
    let mut notes = SteadySink::new(alloc);
    let status = cross(alloc, words, &mut input, &mut output, &mut notes);
    Outcome {
        status,
        output,
        notes,
    }
}

/// Whether a word is this status.
fn is_status(word: &str, status: u8) -> bool
    ensures { OnTrue result (word.now ≡ decimal status) }
{
    Buffer::new().format(status) == word
}

/// Whether notes are this line.
fn is_one_line(notes: &[u8], line: &[u8]) -> bool
    ensures { OnTrue result (notes.now ≡ line.now ++ codes "\n") }
{
    match notes.split_last() {
        Some((last, front)) => *last == b'\n' && front == line,
        None => false,
    }
}

/// Whether notes are one line, or nothing where the line is `-`.
fn are_notes(notes: &[u8], line: &str) -> bool
    ensures { OnTrue result (notes.now ≡ notes_of line.now) }
{
    if line == "-" {
        notes.is_empty()
    } else {
        is_one_line(notes, line.as_bytes())
    }
}

impl Outcome {
    /// Whether it has this status, output and line.
    pub fn is_as(&self, status: &str, output: &[u8], line: &str) -> bool
        ensures status { OnTrue result (status.now ≡ decimal self.now.status) }
        ensures output { OnTrue result (self.now.output.0 ≡ output.now) }
        ensures notes { OnTrue result (self.now.notes.0 ≡ notes_of line.now) }
    {
        is_status(status, self.status)
            && self.output.bytes() == output
            && are_notes(self.notes.bytes(), line)
    }
}
