// The answer of each action, written to the output.
ghost use Rattle.std.specs.Prelude.{◌≡◌, ◌≤◌, Some, IfOk, IfErr, OnOk, OnErr, IsTrue, length};
ghost use Rattle.spv_words.specs.Limit.{limit_number};
ghost use Rattle.spv_words.specs.declared.rule.Limit.TheVariants.{Bytes};
ghost use Rattle.glsl_ast.specs.View.{unit_of};
ghost use Rattle.glsl_grammar.specs.InGrammar.{IsInGrammar};
ghost use Rattle.glsl_grammar.specs.Layout.{unit_text};
ghost use Rattle.spv_module.specs.State.{ModuleState};
ghost use Rattle.conformance.specs.Rules.{Conforms, IsRight, IsWithinLimits, Options as Asked};
ghost use Rattle.module_check.specs.Asked.{asked};
ghost use Rattle.module_check.specs.Judged.{IsFault, IsFine};
ghost use Rattle.module_check.specs.ReadFrom.{IsReadFrom, IsUnread};
ghost use Rattle.typed_law.specs.Words.{AreBytes, AreGivenWords};
ghost use Rattle.emit_glsl.specs.Given.{IsGiven};
ghost use Rattle.dispatch_case.specs.Cases.{CaseParts};
ghost use Rattle.run_module.specs.Ends.{IsRunOf};
ghost use Rattle.command_line.specs.State.{task_of, is_allowed, runs};
ghost use Rattle.command_line.specs.Endings.{IsCause, IsEndOfWriting, IsEndOfTask, IsOutput};
ghost use Rattle.cross_core.specs.Answers.{IsAnswer, IsAnswerBy, above_by, above};

use crate::texts::Subject;
use cc_outside::Sink;
use command_line::{Action, Command, Ending, ending_of, put};
use glsl_ast::Unit;
use glsl_print::{PrintEnd, print};
use module_check::{judge, read_module};
use profile_check::Options;
use run_module::{CaseRun, run_case};
use spv_decor::Decor;
use spv_module::Module;
use spv_words::Fault;
use std::alloc::Global;
use std::mem::forget;

/// Prints a text.
fn put_text<K: Sink>(unit: &Unit, output: &mut K) -> Ending
    requires { IsInGrammar (unit_of unit.now) }
    ensures end { IsEndOfWriting result }
    ensures output { IsOutput K.written K.faults (λ text. text ≡ unit_text (unit_of unit.now)) output.old output.new result }
{
    match print(unit, output) {
        Ok(()) => Ending::Done,
        Err(PrintEnd::Fault) => Ending::WriteFault,
        Err(PrintEnd::Memory) => Ending::Memory,
    }
}

/// Writes what a run of a case says, if it is not too much.
fn put_run<K: Sink>(run: CaseRun, output: &mut K) -> Ending
    ensures end { (m : ModuleState) (o : Asked) (c : CaseParts) → IsRunOf m o c run → IsEndOfTask (above_by (runs c) o m) result }
    ensures output { (m : ModuleState) (o : Asked) (c : CaseParts) → IsRunOf m o c run → IsOutput K.written K.faults (IsAnswerBy (runs c) o (Some m)) output.old output.new result }
{
    match run {
        CaseRun::Said(lines) => put(lines.as_bytes(), output),
        CaseRun::Above(limit) => Ending::RunLimit(limit),
    }
}

/// Writes the answer to an action on a module; where this has a fault, nothing.
fn written<K: Sink>(subject: &Subject, action: &Action, output: &mut K) -> Result<Ending, Fault>
    requires given { IsGiven subject.now.«module».now (asked subject.now.options.now) }
    requires allowed { IsTrue (is_allowed (task_of action.now)) }
    ensures end { IfOk result (IsEndOfTask (above_by (task_of action.now) (asked subject.now.options.now) subject.now.«module».now)) }
    ensures passes { OnOk result (IsFine subject.now.«module».now (asked subject.now.options.now)) }
    ensures output { IfOk result (IsOutput K.written K.faults (IsAnswerBy (task_of action.now) (asked subject.now.options.now) (Some subject.now.«module».now)) output.old output.new) }
    ensures refused { IfErr result (IsFault subject.now.«module».now (asked subject.now.options.now)) }
    ensures unwritten { OnErr result (output.new ≡ output.old) }
{
    match action {
        Action::Glsl => {
            let unit = subject.tree()?;
            let ending = put_text(&unit, output);
            // its many parts are not given back one by one, since the process ends
            forget(unit);
            Ok(ending)
        }
        Action::Check => {
            judge(
                subject.alloc,
                subject.module,
                subject.decor,
                subject.options,
            )?;
            Ok(put(b"ok\n", output))
        }
        Action::Report => {
            let line = subject.report_line()?;
            Ok(put(line.as_bytes(), output))
        }
        Action::Summary => {
            let line = subject.summary_line()?;
            Ok(put(line.as_bytes(), output))
        }
        Action::Run(case) => {
            let run = run_case(
                subject.alloc,
                subject.module,
                subject.decor,
                subject.options,
                case,
            )?;
            Ok(put_run(run, output))
        }
    }
}

/// The module in these bytes, which are octets, as their type says.
fn read_octets(alloc: Global, bytes: &[u8]) -> Result<Module, Fault>
    requires { length bytes.now ≤ limit_number Bytes }
    ensures read { IfOk result (IsReadFrom bytes.now) }
    ensures refused { IfErr result (IsUnread bytes.now) }
    ensures octets { AreBytes bytes.now }
{
    read_module(alloc, bytes)
}

/// The module in these bytes, which are given back once it is read: its words hold all that is asked for.
fn read_given(alloc: Global, bytes: Vec<u8>) -> Result<Module, Fault>
    requires { length bytes.items ≤ limit_number Bytes }
    ensures read { IfOk result (IsReadFrom bytes.items) }
    ensures refused { IfErr result (IsUnread bytes.items) }
    ensures octets { AreBytes bytes.items }
{
    read_octets(alloc, &bytes)
}

/// Reads a module and writes the answer to a command on it; where it has a fault, nothing. The module is not given back.
fn answered<K: Sink>(
    alloc: Global,
    command: &Command,
    bytes: Vec<u8>,
    output: &mut K,
) -> Result<Ending, Fault>
    requires short { length bytes.items ≤ limit_number Bytes }
    requires given { AreGivenWords command.now.options.overrides }
    ensures end { IfOk result (IsEndOfTask (above command.now bytes.items)) }
    ensures passes { OnOk result (Conforms bytes.items command.now.options × IsWithinLimits bytes.items command.now.options) }
    ensures output { IfOk result (IsOutput K.written K.faults (IsAnswer command.now (Some bytes.items)) output.old output.new) }
    ensures refused { IfErr result (IsRight bytes.items command.now.options) }
    ensures unwritten { OnErr result (output.new ≡ output.old) }
{
    let module = read_given(alloc, bytes)?;
    let decor = Decor::read(alloc, &module)?;
    let subject = Subject {
        alloc,
        module: &module,
        decor: &decor,
        options: command.options(),
    };
    let ending = written(&subject, command.action(), output)?;
    forget(decor);
    forget(module);
    Ok(ending)
}

/// Carries out a command on the bytes of a module.
#[tactic(auto, using(command_line::proofs::Ends::met_cause, command_line::proofs::Ends::fault_cause))]
pub fn answer<K: Sink>(alloc: Global, command: &Command, bytes: Vec<u8>, output: &mut K) -> Ending
    requires short { length bytes.items ≤ limit_number Bytes }
    requires given { AreGivenWords command.now.options.overrides }
    ensures cause { IsCause command.now.options (above command.now bytes.items) bytes.items result }
    ensures output { IsOutput K.written K.faults (IsAnswer command.now (Some bytes.items)) output.old output.new result }
{
    match answered(alloc, command, bytes, output) {
        Ok(ending) => ending,
        Err(fault) => ending_of(fault),
    }
}
