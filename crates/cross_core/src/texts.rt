// What actions write of a module: the tree of its text, and the lines that tell of it.
ghost use Rattle.std.specs.Prelude.{◌≡◌, ◌++◌, [], ◌∷◌, codes, false, Some, IfOk, IfErr, OnOk, string_bytes};
ghost use Rattle.glsl_ast.specs.View.{unit_of};
ghost use Rattle.glsl_grammar.specs.InGrammar.{IsInGrammar};
ghost use Rattle.glsl_grammar.specs.Layout.{unit_text};
ghost use Rattle.serde_json.specs.Written.{compact_text, has_float};
ghost use Rattle.command_line.specs.State.{reports, sums};
ghost use Rattle.serde_json.specs.View.{view};
ghost use Rattle.spv_words.specs.Breaks.{NoRuleBroken};
ghost use Rattle.spv_decor.specs.Broken.{Broken};
ghost use Rattle.spv_words.specs.declared.rule.Rule.TheVariants.{P11, P12};
ghost use Rattle.module_check.specs.Judged.{IsFault, IsFine};
ghost use Rattle.module_check.specs.Asked.{asked};
ghost use Rattle.emit_glsl.specs.Given.{IsGiven};
ghost use Rattle.cross_core.specs.Trees.{IsOfModule};
ghost use Rattle.cross_core.specs.Answers.{IsAnswerBy};

use cc_outside::SteadySink;
use command_line::summary_of;
use emit_glsl::translate;
use glsl_ast::Unit;
use glsl_print::print;
use profile_check::Options;
use serde_json::Value;
use spv_decor::Decor;
use spv_module::Module;
use spv_words::Fault;
use std::alloc::{AllocError, Global};
use text_report::report_of;

/// A module that was read, its decorations, and what is asked of it.
#[derive(Clone, Copy)]
pub struct Subject<'a> {
    pub module: &'a Module,
    pub decor: &'a Decor<'a>,
    pub options: &'a Options,
    pub alloc: Global,
    pub ghost heads: { decor.now ≡ «module».now.heads },
    pub ghost decorated: { NoRuleBroken (Broken «module».now) (P11 ∷ P12 ∷ []) },
}

/// A report as a line.
fn line_of(alloc: Global, report: &Value) -> Result<String, AllocError>
    ensures { IfOk result (λ line. has_float (view report.now) ≡ false → string_bytes line ≡ compact_text (view report.now) ++ codes "\n") }
{
    let mut line = report.to_string(alloc)?;
    line.push_str("\n")?;
    Ok(line)
}

/// The text of a tree.
fn printed(alloc: Global, unit: &Unit) -> Result<SteadySink, AllocError>
    requires { IsInGrammar (unit_of unit.now) }
    ensures { IfOk result (λ text. text.0 ≡ unit_text (unit_of unit.now)) }
{
    let mut text = SteadySink::new(alloc);
    match print(unit, &mut text) {
        Ok(()) => Ok(text),
        Err(_) => Err(AllocError),
    }
}

impl<'a> Subject<'a> {
    /// The tree of the module's text. What it was made by is not given back part by part, since the process ends.
    pub fn tree(&self) -> Result<Unit, Fault>
        requires { IsGiven self.now.«module».now (asked self.now.options.now) }
        ensures passes { OnOk result (IsFine self.now.«module».now (asked self.now.options.now)) }
        ensures tree { IfOk result (λ unit. IsOfModule self.now.«module».now (asked self.now.options.now) (unit_of unit)) }
        ensures refused { IfErr result (IsFault self.now.«module».now (asked self.now.options.now)) }
    {
        Ok(translate(self.alloc, self.module, self.decor, self.options)?.forget_parts())
    }

    /// The line of the report on the module.
    pub fn report_line(&self) -> Result<String, Fault>
        requires { IsGiven self.now.«module».now (asked self.now.options.now) }
        ensures passes { OnOk result (IsFine self.now.«module».now (asked self.now.options.now)) }
        ensures line { IfOk result (λ line. IsAnswerBy reports (asked self.now.options.now) (Some self.now.«module».now) (string_bytes line)) }
        ensures refused { IfErr result (IsFault self.now.«module».now (asked self.now.options.now)) }
    {
        let unit = self.tree()?;
        let name = self.options.entry_name();
        let report = report_of(self.alloc, &unit, self.module, self.decor, name)?;
        Ok(line_of(self.alloc, &report)?)
    }

    /// The line of the summary of the module's text.
    pub fn summary_line(&self) -> Result<String, Fault>
        requires { IsGiven self.now.«module».now (asked self.now.options.now) }
        ensures passes { OnOk result (IsFine self.now.«module».now (asked self.now.options.now)) }
        ensures line { IfOk result (λ line. IsAnswerBy sums (asked self.now.options.now) (Some self.now.«module».now) (string_bytes line)) }
        ensures refused { IfErr result (IsFault self.now.«module».now (asked self.now.options.now)) }
    {
        let unit = self.tree()?;
        let text = printed(self.alloc, &unit)?;
        Ok(summary_of(self.alloc, self.module, text.bytes())?)
    }
}
