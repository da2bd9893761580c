// Words that were asked for.
ghost use Rattle.std.specs.Prelude.{◌≡◌, OnOk, OnErr};
ghost use Rattle.run_acts.specs.About.{ForEach, conf_of, told_words, IsStill};
ghost use Rattle.spv_run.specs.Runs.{act_by};
ghost use Rattle.spv_run.specs.States.{HasTaken, IsThere};

use crate::kernel::ModuleProgram;
use crate::state::State;
use run_acts::Site;
use run_memory::take;
use run_state::Conf;
use spv_words::Memory;

impl<'a> ModuleProgram<'a> {
    /// The instruction that has asked for these words takes them.
    fn take_words(&self, conf: &mut Conf, words: &[u32]) -> Result<(), Memory>
        ensures took { ForEach self.now.map (λ s. OnOk result (conf_of s.of.functions conf.new ≡ told_words (act_by s (conf_of s.of.functions conf.old)) words.now (conf_of s.of.functions conf.old))) }
        ensures err { OnErr result (IsStill self.now.map conf.old conf.new) }
    {
        match self.fetch(conf) {
            None => Ok(()),
            Some((_, inst)) => {
                let site = Site {
                    alloc: self.alloc,
                    map: &self.map,
                    inst,
                };
                take(&site, conf, words)
            }
        }
    }

    /// The instruction that has asked for words takes them, if there are any.
    pub(crate) fn take_all(&self, state: &mut State) -> Result<(), Memory>
        ensures taken { OnOk result (HasTaken self.now.map state.old state.new) }
        ensures err { OnErr result (IsThere self.now.map state.old state.new) }
    {
        if state.taken {
            self.take_words(&mut state.conf, &state.words)?;
            state.taken = false;
        }
        Ok(())
    }
}
