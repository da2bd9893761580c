// The command line.
ghost use Rattle.std.specs.Prelude.{◌≡◌, ◌≤◌, ◌&&◌, nat_le, slice_index, Some, map, option_map, option_and_then, string_bytes, IfOk, IfErr, IfSome, IsTrue};
ghost use Rattle.profile_rules.specs.Overrides.{at_most, above_zero};
ghost use Rattle.spec_constants.specs.declared.overrides.Unparsed.TheVariants.{Memory as OutOfMemory};
ghost use Rattle.module_check.specs.Asked.{asked};
ghost use Rattle.command_line.specs.State.{task_of, is_allowed};
ghost use Rattle.command_line.specs.Commands.{command_of as command_named, verb_of as verb_named, with_entry, with_task, with_case, with_verb, named, asking, generating, pieces_of, is_name as is_entry_name};
ghost use Rattle.command_line.specs.Unread.{IsUnread};

use dispatch_case::Case;
use profile_check::Options;
use spec_constants::{Overrides, Unparsed};
use std::alloc::Global;
use std::marker::Model;

/// What is done with a module: its text is printed, it is judged, the report on it is written, or the summary of its text; or a
/// case is run on it.
#[derive(Drop)]
pub enum Action {
    Glsl,
    Check,
    Report,
    Summary,
    Run(Case),
}

/// What is asked of the input.
#[derive(Clone, Copy, Debug, PartialEq, Eq)]
enum Verb {
    Glsl,
    Check,
    Report,
    Run,
}

/// What is asked of the program: an action; the number of pieces of the module, from 1 to 1000, where it is one that is
/// generated, and none where it is the input; the name of the entry point that is meant where one is given, and what
/// specialization constants are overridden by.
#[derive(Drop)]
pub struct Command {
    action: Action,
    pieces: Option<u32>,
    options: Options,
}

impl Model for Command {
    ghost use Rattle.std.specs.Prelude.{◌≤◌, IsTrue};
    ghost use Rattle.std.specs.Option.{ForSome};
    ghost use Rattle.module_check.specs.Asked.{asked};
    ghost use Rattle.command_line.specs.State.{CommandState, task_of, is_allowed};

    ghost Value = { CommandState };

    ghost view = { λ c. record { task = task_of c.action; pieces = c.pieces; options = asked c.options } };

    ghost invariant = { λ c. ForSome c.pieces (λ n. (1 ≤ n) × (n ≤ 1000)) × IsTrue (is_allowed (task_of c.action)) };
}

impl Command {
    /// What is done with the module.
    pub fn action(&self) -> &Action
        ensures task { task_of result.now ≡ self.now.task }
        ensures allowed { IsTrue (is_allowed (task_of result.now)) }
    {
        &self.action
    }

    /// The number of pieces of the module, where it is generated.
    pub fn pieces(&self) -> Option<u32>
        ensures pieces { result ≡ self.now.pieces }
        ensures positive { IfSome result (λ n. 1 ≤ n) }
        ensures small { IfSome result (λ n. n ≤ 1000) }
    {
        self.pieces
    }

    /// What is asked of the module.
    pub fn options(&self) -> &Options
        ensures { asked result.now ≡ self.now.options }
    {
        &self.options
    }
}

fn verb_of(word: &str) -> Option<Verb>
    ensures { result ≡ verb_named word.now }
{
    match word {
        "glsl" => Some(Verb::Glsl),
        "check" => Some(Verb::Check),
        "report" => Some(Verb::Report),
        "run" => Some(Verb::Run),
        _ => None,
    }
}

fn is_name(word: &str) -> bool
    ensures { result ≡ is_entry_name word.now }
{
    let bytes = word.as_bytes();
    !bytes.is_empty() && bytes[0] != b'-'
}

/// A name of its own.
fn copied(alloc: Global, name: Option<&str>) -> Result<Option<String>, Unparsed>
    ensures same { IfOk result (λ n. option_map string_bytes n ≡ option_map (λ w. w.now) name.entry) }
    ensures memory { IfErr result (λ e. e ≡ OutOfMemory) }
{
    match name {
        None => Ok(None),
        Some(name) => match String::from_str(alloc, name) {
            Ok(name) => Ok(Some(name)),
            Err(_) => Err(Unparsed::Memory),
        },
    }
}

/// A command, or why words are none.
type Parsed = Result<Command, Unparsed>;

/// The options with this entry point, where one is given, and these words as overrides.
fn options_with(alloc: Global, entry: Option<&str>, words: &[&str]) -> Result<Options, Unparsed>
    ensures read { IfOk result (λ o. with_entry (option_map (λ n. n.now) entry.entry) (map (λ w. w.now) words.now) ≡ Some (asked o)) }
    ensures unread { IfErr result (IsUnread (with_entry (option_map (λ n. n.now) entry.entry) (map (λ w. w.now) words.now))) }
{
    let overrides = Overrides::parse(alloc, words)?;
    let entry = copied(alloc, entry)?;
    Ok(Options { entry, overrides })
}

/// The command of an action, of this entry point, where one is given, and with these words as overrides.
fn command_with(alloc: Global, action: Action, entry: Option<&str>, words: &[&str]) -> Parsed
    requires { IsTrue (is_allowed (task_of action)) }
    ensures read { IfOk result (λ c. with_task (option_map (λ n. n.now) entry.entry) (map (λ w. w.now) words.now) (task_of action) ≡ Some c) }
    ensures unread { IfErr result (IsUnread (with_task (option_map (λ n. n.now) entry.entry) (map (λ w. w.now) words.now) (task_of action))) }
{
    let options = options_with(alloc, entry, words)?;
    Ok(Command {
        action,
        pieces: None,
        options,
    })
}

/// The command that runs a case: the first word, and overrides.
fn run_command(alloc: Global, entry: Option<&str>, words: &[&str]) -> Parsed
    ensures read { IfOk result (λ c. with_case (option_map (λ n. n.now) entry.entry) (map (λ w. w.now) words.now) ≡ Some c) }
    ensures unread { IfErr result (IsUnread (with_case (option_map (λ n. n.now) entry.entry) (map (λ w. w.now) words.now))) }
{
    let [word, rest @ ..] = words else {
        return Err(Unparsed::Usage);
    };
    let case = Case::parse(alloc, *word)?;
    command_with(alloc, Action::Run(case), entry, rest)
}

/// The command that a verb asks for, of this entry point, where one is given, by the words behind.
fn verb_command(alloc: Global, verb: Verb, entry: Option<&str>, words: &[&str]) -> Parsed
    ensures read { IfOk result (λ c. with_verb (option_map (λ n. n.now) entry.entry) (map (λ w. w.now) words.now) verb ≡ Some c) }
    ensures unread { IfErr result (IsUnread (with_verb (option_map (λ n. n.now) entry.entry) (map (λ w. w.now) words.now) verb)) }
{
    match verb {
        Verb::Glsl => command_with(alloc, Action::Glsl, entry, words),
        Verb::Check => command_with(alloc, Action::Check, entry, words),
        Verb::Report => command_with(alloc, Action::Report, entry, words),
        Verb::Run => run_command(alloc, entry, words),
    }
}

/// The command that a verb asks for, by the words behind `--entry`.
fn named_command(alloc: Global, verb: Verb, words: &[&str]) -> Parsed
    ensures read { IfOk result (λ c. named (map (λ w. w.now) words.now) verb ≡ Some c) }
    ensures unread { IfErr result (IsUnread (named (map (λ w. w.now) words.now) verb)) }
{
    match words {
        [name, rest @ ..] if is_name(*name) => verb_command(alloc, verb, Some(*name), rest),
        _ => Err(Unparsed::Usage),
    }
}

/// The command that a verb asks for, by the words behind it.
fn input_command(alloc: Global, verb: Verb, words: &[&str]) -> Parsed
    ensures read { IfOk result (λ c. asking (map (λ w. w.now) words.now) verb ≡ Some c) }
    ensures unread { IfErr result (IsUnread (asking (map (λ w. w.now) words.now) verb)) }
{
    match words {
        [first, rest @ ..] if *first == "--entry" => named_command(alloc, verb, rest),
        _ => verb_command(alloc, verb, None, words),
    }
}

/// Whether a word begins with a digit other than 0.
fn begins_above_zero(word: &[u8]) -> bool
    ensures { result ≡ (nat_le 49 (slice_index word.now 0) && nat_le (slice_index word.now 0) 57) }
{
    !word.is_empty() && b'1' <= word[0] && word[0] <= b'9'
}

/// A number of pieces, where it is from 1 to 1000.
fn in_range(number: u32) -> Option<u32>
    ensures pieces { result ≡ option_and_then above_zero (at_most 1000 number) }
    ensures positive { IfSome result (λ n. 1 ≤ n) }
    ensures small { IfSome result (λ n. n ≤ 1000) }
{
    if 1 <= number && number <= 1000 {
        Some(number)
    } else {
        None
    }
}

/// The number of pieces that a word is: from 1 to 1000, in decimal without leading zeros.
fn pieces_in(word: &str) -> Option<u32>
    ensures pieces { result ≡ pieces_of word.now }
    ensures positive { IfSome result (λ n. 1 ≤ n) }
    ensures small { IfSome result (λ n. n ≤ 1000) }
{
    if !begins_above_zero(word.as_bytes()) {
        return None;
    }
    match word.parse::<u32>() {
        Ok(number) => in_range(number),
        Err(_) => None,
    }
}

/// The command that the words behind `gen` are.
fn generating_command(alloc: Global, words: &[&str]) -> Parsed
    ensures read { IfOk result (λ c. generating (map (λ w. w.now) words.now) ≡ Some c) }
    ensures unread { IfErr result (IsUnread (generating (map (λ w. w.now) words.now))) }
{
    let [word] = words else {
        return Err(Unparsed::Usage);
    };
    let Some(pieces) = pieces_in(*word) else {
        return Err(Unparsed::Usage);
    };
    Ok(Command {
        action: Action::Summary,
        pieces: Some(pieces),
        options: Options {
            entry: None,
            overrides: Overrides {
                pairs: Vec::new(alloc),
            },
        },
    })
}

/// The command that these words are. `Unparsed::Usage` comes only where they are no command line.
pub fn command_of(alloc: Global, words: &[&str]) -> Result<Command, Unparsed>
    ensures read { IfOk result (λ c. command_named (map (λ w. w.now) words.now) ≡ Some c) }
    ensures unread { IfErr result (IsUnread (command_named (map (λ w. w.now) words.now))) }
{
    let [word, rest @ ..] = words else {
        return Err(Unparsed::Usage);
    };
    if *word == "gen" {
        return generating_command(alloc, rest);
    }
    let Some(verb) = verb_of(*word) else {
        return Err(Unparsed::Usage);
    };
    input_command(alloc, verb, rest)
}
