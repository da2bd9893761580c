// Copies that happen at once, as moves one after another.
ghost use Rattle.std.specs.Prelude.{◌≡◌, IfOk, filter};
ghost use Rattle.phi_copies.specs.Sequence.{HaveOwnTargets, IsSequence, is_proper as is_proper_pair};
ghost use Rattle.phi_copies.specs.Meaning.{AreAtOnce};
ghost use Rattle.phi_copies.specs.Cycles.{HaveSparesOfCycles};

use crate::moves::{Move, Src, Var};
use crate::work::Work;
use spv_words::Memory;
use std::alloc::Global;

/// The two sides are not one variable.
fn is_proper(pair: &(Var, Src)) -> bool
    ensures { result ≡ is_proper_pair pair.now }
{
    match pair.1 {
        Src::Var(v) => v.0 != pair.0.0,
        Src::Constant(_) => true,
    }
}

/// The pairs whose two sides differ.
fn proper_pairs(alloc: Global, pairs: &[(Var, Src)]) -> Result<Vec<(Var, Src)>, Memory>
    ensures { IfOk result (λ v. v.items ≡ filter is_proper_pair pairs.now) }
{
    let proper: Vec<(Var, Src)> = pairs
        .iter()
        .filter(|p| is_proper(p))
        .copied()
        .collect(alloc)?;
    Ok(proper)
}

/// The moves that give, one after another, each target the value that its source has before the
/// first of them; all other variables keep theirs. So OpPhi instructions of one block take their
/// values (SPIR-V 1.6, section 2.11: they are executed as if all at once).
///
/// A pair whose two sides are one variable makes no move. Of the others the first in order whose
/// target is no source of a pair that is left comes next. Where there is none, each pair that is
/// left is on a cycle: the target of the first is saved in a new spare, which from there on stands
/// for it as a source. So there is one spare for each cycle, and none beside.
///
/// It takes time in the number of pairs, up to a logarithm, and fails by want of memory alone.
pub fn copies(alloc: Global, pairs: &[(Var, Src)]) -> Result<Vec<Move>, Memory>
    requires { HaveOwnTargets pairs.now }
    ensures sequence { IfOk result (λ moves. IsSequence pairs.now moves.items) }
    ensures at_once { IfOk result (λ moves. AreAtOnce pairs.now moves.items) }
    ensures spares { IfOk result (λ moves. HaveSparesOfCycles pairs.now moves.items) }
{
    let proper = proper_pairs(alloc, pairs)?;
    let mut work = Work::new(alloc, &proper)?;
    work.list(&proper)?;
    Ok(work.moves)
}
