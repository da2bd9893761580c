// Runners of invocations.
ghost use Rattle.std.specs.Prelude.{◌≡◌, ◌≢◌, ◌<◌, ◌+◌, ◌++◌, ℕ, List, Option, None, IfOk, OnOk, OnErr, IsSome};
ghost use Rattle.traces.specs.Invocations.{Invocation as Told};
ghost use Rattle.traces.specs.Runs.{Run, waiting};
ghost use Rattle.group_items.specs.Sides.{told_of, IsWhole, Begun, fresh, with_at, IsNext, behind_pause, event_with, behind_event};

use crate::event::Pause;
use spv_module::Value;
use spv_words::Memory;
use std::alloc::Global;
use std::collections::BTreeMap;

/// What an invocation is told: the values of the built-in variables NumWorkgroups, WorkgroupId, LocalInvocationId,
/// GlobalInvocationId and LocalInvocationIndex (SPIR-V 1.6, section 3.21), in this order; the bytes of buffers by descriptor set
/// and binding, where a pair that is not listed has none; and the specialization (section 2.12).
#[derive(Drop)]
pub struct Invocation {
    pub builtins: Vec<Value>,
    pub sizes: Vec<(u32, u32, u32)>,
    pub special: BTreeMap<u32, u32>,
}

impl Invocation {
    /// The bytes of buffers once more. There is an error only for want of memory.
    pub fn copied_sizes(&self, alloc: Global) -> Result<Vec<(u32, u32, u32)>, Memory>
        ensures { IfOk result (λ copy. copy.items ≡ self.now.sizes.items) }
    {
        let mut copy = Vec::with_capacity(alloc, self.sizes.len())?;
        copy.extend_from_slice(&self.sizes)?;
        Ok(copy)
    }

    /// The specialization once more. There is an error only for want of memory.
    pub fn copied_special(&self) -> Result<BTreeMap<u32, u32>, Memory>
        ensures { IfOk result (λ copy. copy.entries ≡ self.now.special.entries) }
    {
        Ok(self.special.clone()?)
    }
}

/// Runs invocations event by event. Each does what its run does with its answers, within a number of steps or turns that the
/// runner has. A refusal for memory leaves all events as they were.
pub trait Runner {
    /// what an invocation that is told this does with these answers
    ghost runs: { Self → Told → List (List ℕ) → Run };

    /// the specializations that it takes
    ghost takes: { Self → (ℕ → Option ℕ) → Type 0 };

    /// how many invocations have begun
    ghost count: { Self → ℕ };

    /// how far each is
    ghost at: { Self → ℕ → Begun };

    /// Adds an invocation, and answers its number.
    fn begin(&mut self, inv: &Invocation) -> Result<usize, Memory>
        requires told { IsWhole inv.now }
        requires special { takes self.old (told_of inv.now).specialization }
        ensures number { IfOk result (λ who. who ≡ count self.old) }
        ensures counted { OnOk result (count self.new ≡ count self.old + 1) }
        ensures begun { OnOk result (at self.new ≡ with_at (at self.old) (count self.old) (fresh (told_of inv.now))) }
        ensures err_count { OnErr result (count self.new ≡ count self.old) }
        ensures err_at { OnErr result (at self.new ≡ at self.old) }
        ensures runs { runs self.new ≡ runs self.old }
        ensures takes { (special : ℕ → Option ℕ) → takes self.old special → takes self.new special };

    /// Goes on with an invocation of which nothing is asked, to its next event, or tells why there is none.
    fn advance(&mut self, who: usize) -> Result<Pause, Memory>
        requires begun { who < count self.old }
        requires free { (at self.old who).asked ≡ None }
        ensures next { IfOk result (IsNext (runs self.old) (at self.old who)) }
        ensures moved { IfOk result (λ pause. at self.new ≡ with_at (at self.old) who (behind_pause (at self.old who) pause)) }
        ensures err { OnErr result (at self.new ≡ at self.old) }
        ensures counted { count self.new ≡ count self.old }
        ensures runs { runs self.new ≡ runs self.old };

    /// Gives the words that are asked of an invocation. It takes no memory.
    fn give(&mut self, who: usize, words: &[u32])
        requires begun { who < count self.old }
        requires fits { IsSome (event_with (at self.old who) words.now) }
        ensures moved { at self.new ≡ with_at (at self.old) who (behind_event (at self.old who) (event_with (at self.old who) words.now)) }
        ensures counted { count self.new ≡ count self.old }
        ensures runs { runs self.new ≡ runs self.old };

    /// a run that does not wait does the same with more answers
    ghost settled: { (s : Self) (told : Told) (answers more : List (List ℕ)) → (runs s told answers).status ≢ waiting → runs s told (answers ++ more) ≡ runs s told answers };
}
