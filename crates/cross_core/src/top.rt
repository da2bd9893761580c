// The top call.
ghost use Rattle.std.specs.Prelude.{◌≡◌, ◌≤◌, map, None, Some, IfSome};
ghost use Rattle.cc_outside.specs.Causes.{Rose};
ghost use Rattle.spv_words.specs.Words.{octets_of};
ghost use Rattle.command_line.specs.Endings.{IsCause, HasCause, ReadFails, IsRead, IsOutput};
ghost use Rattle.module_gen.specs.Generated.{generated};
ghost use Rattle.typed_law.specs.Words.{AreGivenWords};
ghost use Rattle.command_line.specs.Commands.{command_of as command_named};
ghost use Rattle.command_line.specs.Asked.{bytes_of};
ghost use Rattle.cross_core.specs.Answers.{IsAnswer, above};
ghost use Rattle.command_line.specs.Carried.{Carried, IsComplete, IsTurnedAway};
ghost use Rattle.command_line.specs.Wrote.{Said};

use crate::answers::answer;
use cc_outside::{ReadEnd, Sink, Source, read_all};
use command_line::{Command, Ending, command_of, say};
use module_gen::generate;
use spec_constants::Unparsed;
use spv_words::Limit;
use std::alloc::Global;

/// Carries out a command on the input.
fn run_on_input<S: Source, K: Sink>(
    alloc: Global,
    command: &Command,
    input: &mut S,
    output: &mut K,
) -> Ending
    requires { AreGivenWords command.now.options.overrides }
    ensures cause { HasCause command.now.options (above command.now) (S.left input.old) (Rose (S.faults input.old) (S.faults input.new)) result }
    ensures read { IsRead (S.left input.old) (S.left input.new) result }
    ensures output { IsOutput K.written K.faults (IsAnswer command.now (S.left input.old)) output.old output.new result }
{
    match read_all(alloc, input, Limit::Bytes.number() as usize) {
        Ok(bytes) => answer(alloc, command, bytes, output),
        Err(ReadEnd::Fault) => Ending::ReadFault,
        Err(ReadEnd::TooLong) => Ending::Limit(Limit::Bytes),
        Err(ReadEnd::Memory) => Ending::Memory,
    }
}

/// Carries out a command on the module that is generated of so many pieces.
fn run_on_generated<K: Sink>(
    alloc: Global,
    command: &Command,
    pieces: u32,
    output: &mut K,
) -> Ending
    requires positive { 1 ≤ pieces }
    requires small { pieces ≤ 1000 }
    requires given { AreGivenWords command.now.options.overrides }
    ensures cause { IsCause command.now.options (above command.now (octets_of (generated pieces))) (octets_of (generated pieces)) result }
    ensures output { IsOutput K.written K.faults (IsAnswer command.now (Some (octets_of (generated pieces)))) output.old output.new result }
{
    match generate(alloc, pieces) {
        Err(_) => Ending::Memory,
        Ok(bytes) => {
            if bytes.len() > Limit::Bytes.number() as usize {
                return Ending::Limit(Limit::Bytes);
            }
            answer(alloc, command, bytes, output)
        }
    }
}

/// Carries out a command, and says how it ended.
fn carry_out<S: Source, K: Sink, N: Sink>(
    alloc: Global,
    command: &Command,
    input: &mut S,
    output: &mut K,
    notes: &mut N,
) -> u8
    requires { AreGivenWords command.now.options.overrides }
    ensures no_usage { result ≡ 1 → ⊥ }
    ensures complete { IfSome (bytes_of command.now (S.left input.old)) (λ bytes.
        IsComplete command.now.options (above command.now bytes) bytes (ReadFails command.now.pieces (S.faults input.old) (S.faults input.new)) (Rose (K.faults output.old) (K.faults output.new)) result) }
    ensures carried { Carried command.now (above command.now) (S.left input.old) (S.left input.new) (S.faults input.old) (S.faults input.new) (input.new ≡ input.old)
        (λ ending. IsOutput K.written K.faults (IsAnswer command.now (bytes_of command.now (S.left input.old))) output.old output.new ending)
        (λ line. Said N.written N.faults N.wants notes.old notes.new line) (notes.new ≡ notes.old) result }
{
    let ending = match command.pieces() {
        None => run_on_input(alloc, command, input, output),
        Some(pieces) => run_on_generated(alloc, command, pieces, output),
    };
    say(ending, notes);
    ending.status()
}

/// Carries out a command line, given without the program's name, and answers the exit status: 0 where it was done, 1 where
/// the words are no command line, 2 where a rule is broken, 3 where a limit is exceeded, 4 where a read failed, 5 where a
/// write failed, and 6 where there was no memory. A line on each but 0 goes to `notes`. `gen` reads no input.
pub fn cross<S: Source, K: Sink, N: Sink>(
    alloc: Global,
    words: &[&str],
    input: &mut S,
    output: &mut K,
    notes: &mut N,
) -> u8
    ensures status { result ≤ 6 }
    ensures usage { result ≡ 1 → command_named (map (λ w. w.now) words.now) ≡ None }
    ensures untouched { command_named (map (λ w. w.now) words.now) ≡ None →
        IsTurnedAway (input.new ≡ input.old) (output.new ≡ output.old) (λ line. Said N.written N.faults N.wants notes.old notes.new line) result }

    // What the command did, and why it ended so.
    ensures carried { IfSome (command_named (map (λ w. w.now) words.now)) (λ command.
        Carried command (above command) (S.left input.old) (S.left input.new) (S.faults input.old) (S.faults input.new) (input.new ≡ input.old)
        (λ ending. IsOutput K.written K.faults (IsAnswer command (bytes_of command (S.left input.old))) output.old output.new ending)
        (λ line. Said N.written N.faults N.wants notes.old notes.new line) (notes.new ≡ notes.old) result) }

    // It succeeds, refuses or comes to a limit wherever it should, but for want of memory.
    ensures complete { IfSome (command_named (map (λ w. w.now) words.now)) (λ command. IfSome (bytes_of command (S.left input.old)) (λ bytes.
        IsComplete command.options (above command bytes) bytes (ReadFails command.pieces (S.faults input.old) (S.faults input.new)) (Rose (K.faults output.old) (K.faults output.new)) result)) }
{
    match command_of(alloc, words) {
        Err(Unparsed::Usage) => {
            say(Ending::Usage, notes);
            1
        }
        Err(Unparsed::Memory) => {
            say(Ending::Memory, notes);
            6
        }
        Ok(command) => carry_out(alloc, &command, input, output, notes),
    }
}
