// The instructions of a module with their opcodes and kinds.
ghost use Rattle.std.specs.Prelude.{◌≡◌, ◌<◌, ◌≤◌, ◌+◌, IfOk, IfErr, OnOk, length, slice_index};
ghost use Rattle.spv_words.specs.declared.rule.Rule.TheVariants.{P1, P2};
ghost use Rattle.spv_words.specs.Words.{insts, nth_inst, slice};
ghost use Rattle.spv_module.specs.Inst.{word as word_of, inst_of, known};
ghost use Rattle.spv_module.specs.Kinds.{kinds as kinds_in, kind_of};
ghost use Rattle.spv_module.specs.Broken.{IsCause, IsUnbroken};

use crate::counts::checked_opcode;
use crate::decode::{op_at, operands_in, outcome_of, refused, result_in, type_in, word};
use crate::kind::{Kind, imports, kind_among};
use crate::{Args, Inst};
use spv_ops::Op;
use spv_words::{Fault, Inst1, Rule, Words};
use std::alloc::{AllocError, Global};
use std::marker::Model;

/// The words of a module, with the opcode and the kind of each instruction. Contracts see the words.
#[derive(Drop)]
pub struct Rows<'a> {
    words: &'a Words,
    ops: Vec<Op>,
    kinds: Vec<Kind>,
}

impl<'a> Model for Rows<'a> {
    ghost use Rattle.std.specs.Prelude.{ℕ, List, ◌≡◌};
    ghost use Rattle.spv_words.specs.Words.{insts};
    ghost use Rattle.spv_module.specs.Inst.{AreOpcodes};
    ghost use Rattle.spv_module.specs.Kinds.{kinds as kinds_in};

    ghost Value = { List ℕ };

    ghost view = { λ r. r.words.now };

    ghost invariant = { λ r. AreOpcodes (insts r.words.now) r.ops.items × (r.kinds.items ≡ kinds_in r.words.now) };
}

impl<'a> Rows<'a> {
    /// The instructions of these words, where none breaks a rule on opcodes and numbers of words.
    pub fn of(alloc: Global, words: &'a Words) -> Result<Rows<'a>, Fault>
        ensures rows { IfOk result (λ rows. rows ≡ words.now) }
        ensures known { OnOk result (IsUnbroken words.now P1) }
        ensures fitting { OnOk result (IsUnbroken words.now P2) }
        ensures refused { IfErr result (IsCause words.now) }
    {
        let imports = imports(alloc, words)?;
        let mut ops = Vec::with_capacity(alloc, words.count())?;
        let mut kinds = Vec::with_capacity(alloc, words.count())?;
        for i in 0..words.count() {
            let op = checked_opcode(words, i)?;
            ops.push(op)?;
            kinds.push(kind_among(words, i, op, &imports))?;
        }
        Ok(Rows { words, ops, kinds })
    }

    /// The bound of the ids.
    pub fn bound(&self) -> u32
        ensures { result ≡ slice_index self.now 3 }
    {
        self.words.header(3)
    }

    /// How many instructions there are.
    pub fn count(&self) -> usize
        ensures { result ≡ length (insts self.now) }
    {
        self.words.count()
    }

    /// The kinds of all instructions.
    pub fn kinds(&self) -> &[Kind]
        ensures { result.now ≡ kinds_in self.now }
    {
        &self.kinds
    }

    /// The instruction with this number. It ends within the words.
    pub fn at(&self, i: usize) -> Inst1
        requires { i < length (insts self.now) }
        ensures value { result ≡ nth_inst self.now i }
        ensures whole { result.start + result.len ≤ length self.now }
    {
        self.words.at(i)
    }

    /// Its kind.
    #[tactic(auto, using(crate::proofs::Behind::kind_at))]
    pub fn kind(&self, i: usize) -> Kind
        requires { i < length (insts self.now) }
        ensures { result ≡ kind_of self.now (nth_inst self.now i) }
    {
        self.kinds[i]
    }

    /// Its opcode.
    pub fn op(&self, i: usize) -> Op
        requires { i < length (insts self.now) }
        ensures { result ≡ known (nth_inst self.now i).opcode }
    {
        op_at(self.words, &self.ops, i)
    }

    /// Its words, the one with its opcode first.
    pub fn own_words(&self, i: usize) -> &[u32]
        requires { i < length (insts self.now) }
        ensures { result.now ≡ slice self.now (nth_inst self.now i) }
    {
        self.words.inst_words(i)
    }

    /// Its word k, or 0 where it has none.
    pub fn word(&self, i: usize, k: usize) -> u32
        requires { i < length (insts self.now) }
        ensures { result ≡ word_of self.now (nth_inst self.now i) k }
    {
        word(self.words, i, k)
    }

    /// It with its operands.
    #[inline(always)]
    pub fn decoded(&self, alloc: Global, i: usize) -> Result<Inst, AllocError>
        requires { i < length (insts self.now) }
        ensures { IfOk result (λ inst. inst ≡ inst_of self.now (nth_inst self.now i)) }
    {
        let own = self.own_words(i);
        let op = self.op(i);
        let outcome = outcome_of(op);
        let args = Args::of(alloc, operands_in(own, outcome))?;
        Ok(Inst {
            op,
            at: self.at(i).start,
            ty: type_in(own, outcome),
            result: result_in(own, outcome),
            args,
        })
    }

    /// The refusal by a rule at it.
    pub fn refused(&self, rule: Rule, i: usize) -> Fault
        requires { i < length (insts self.now) }
        ensures { result ≡ Fault.Refused (record { rule = rule; at = (nth_inst self.now i).start }) }
    {
        refused(rule, self.words, i)
    }
}
