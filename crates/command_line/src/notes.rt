// The line in notes that says how a command ended. It takes no memory.
ghost use Rattle.std.specs.Prelude.{◌≡◌, ◌∷◌, []};
ghost use Rattle.std.specs.Fmt.{decimal};
ghost use Rattle.spv_words.specs.Rule.{letter_of, number_of};
ghost use Rattle.command_line.specs.Wrote.{Wrote, Goes, Said};
ghost use Rattle.command_line.specs.Lines.{refusal_line, limit_line, plain_line, line_of};
ghost use Rattle.command_line.specs.declared.endings.Ending.TheVariants.{Done};

use crate::endings::Ending;
use cc_outside::{Sink, WriteEnd, write_all};
use itoa::Buffer;
use spv_words::{Refusal, Rule};

type Status = Result<(), WriteEnd>;

/// Writes bytes, where nothing ended the writing before.
fn put<N: Sink>(bytes: &[u8], notes: &mut N, status: Status) -> Status
    ensures { Goes N.written N.faults N.wants notes.old status bytes.now notes.new result }
{
    match status {
        Ok(()) => write_all(notes, bytes),
        Err(end) => Err(end),
    }
}

fn put_number<N: Sink>(number: u32, notes: &mut N, status: Status) -> Status
    ensures { Goes N.written N.faults N.wants notes.old status (decimal number) notes.new result }
{
    let mut buffer = Buffer::new();
    put(buffer.format(number).as_bytes(), notes, status)
}

fn say_bytes<N: Sink>(line: &[u8], notes: &mut N) -> Status
    ensures { Wrote N.written N.faults N.wants notes.old notes.new line.now result }
{
    write_all(notes, line)
}

fn put_letter<N: Sink>(rule: Rule, notes: &mut N, status: Status) -> Status
    ensures { Goes N.written N.faults N.wants notes.old status (letter_of rule ∷ []) notes.new result }
{
    put(&[rule.letter()], notes, status)
}

fn put_rule_number<N: Sink>(rule: Rule, notes: &mut N, status: Status) -> Status
    ensures { Goes N.written N.faults N.wants notes.old status (decimal (number_of rule)) notes.new result }
{
    put_number(u32::from(rule.number()), notes, status)
}

fn say_refusal<N: Sink>(refusal: Refusal, notes: &mut N) -> Status
    ensures { Wrote N.written N.faults N.wants notes.old notes.new (refusal_line refusal.rule refusal.at) result }
{
    let refused = put(b"refused ", notes, Ok(()));
    let letter = put_letter(refusal.rule, notes, refused);
    let number = put_rule_number(refusal.rule, notes, letter);
    let at = put(b" at ", notes, number);
    let word = put_number(refusal.at, notes, at);
    put(b"\n", notes, word)
}

/// Says that a quantity is above its largest number.
fn say_limit<N: Sink>(name: &str, number: u32, notes: &mut N) -> Status
    ensures { Wrote N.written N.faults N.wants notes.old notes.new (limit_line name.now number) result }
{
    let start = put(b"limit ", notes, Ok(()));
    let named = put(name.as_bytes(), notes, start);
    let blank = put(b" ", notes, named);
    let numbered = put_number(number, notes, blank);
    put(b"\n", notes, numbered)
}

/// The line of an ending that names neither a rule nor a limit.
#[tactic(auto, unfolding(crate::specs::Lines::plain_line))]
fn plain_bytes(ending: Ending) -> &'static [u8]
    ensures { result.now ≡ plain_line ending }
{
    match ending {
        Ending::Done | Ending::Refused(_) | Ending::Limit(_) | Ending::RunLimit(_) => b"",
        Ending::Usage => {
            b"usage: cross glsl|check|report [--entry NAME] [ID=VALUE]... or cross gen NUMBER\n"
        }
        Ending::ReadFault => b"read fault\n",
        Ending::WriteFault => b"write fault\n",
        Ending::Memory => b"memory\n",
    }
}

fn say_line<N: Sink>(ending: Ending, notes: &mut N) -> Status
    ensures line { Wrote N.written N.faults N.wants notes.old notes.new (line_of ending) result }
    ensures quiet { ending ≡ Done → notes.new ≡ notes.old }
{
    match ending {
        Ending::Done => Ok(()),
        Ending::Refused(refusal) => say_refusal(refusal, notes),
        Ending::Limit(limit) => say_limit(limit.name(), limit.number(), notes),
        Ending::RunLimit(limit) => say_limit(limit.name(), limit.number(), notes),
        _ => say_bytes(plain_bytes(ending), notes),
    }
}

/// Says in a line how a command ended, and nothing where all was done. Whether that fails changes nothing else.
#[tactic(auto, using(crate::proofs::Writes::said))]
pub fn say<N: Sink>(ending: Ending, notes: &mut N)
    ensures line { Said N.written N.faults N.wants notes.old notes.new (line_of ending) }
    ensures quiet { ending ≡ Done → notes.new ≡ notes.old }
{
    let _ = say_line(ending, notes);
}
