// Copies, and the moves that they are.
ghost use Rattle.std.specs.Prelude.{◌≡◌};
ghost use Rattle.std.specs.List.{All};
ghost use Rattle.std.specs.Bool.{OnTrue};
ghost use Rattle.phi_copies.specs.Sequence.{HaveOwnTargets, target};

use phi_copies::{Move, Src, Var, copies};
use spv_module::Id;
use spv_words::Memory;
use std::alloc::Global;
use std::test::Fail;

type Pair = (Var, Src);

fn is_new(variable: u32, pairs: &[Pair]) -> bool
    ensures { OnTrue result (All (λ p. variable ≡ target p → ⊥) pairs.now) }
{
    pairs.iter().all(|p| p.0.0 != variable)
}

fn have_own_targets(pairs: &[Pair]) -> bool
    ensures { OnTrue result (HaveOwnTargets pairs.now) }
{
    match pairs {
        [] => true,
        [first, rest @ ..] => is_new(first.0.0, rest) && have_own_targets(rest),
    }
}

// Whether these pairs, whose targets differ, have these moves.
fn have_moves(alloc: Global, pairs: &[Pair], wanted: &[Move]) -> Result<bool, Memory> {
    if have_own_targets(pairs) {
        return Ok(copies(alloc, pairs)?.as_slice() == wanted);
    }
    Ok(false)
}

// A pair of two variables.
fn pair(target: u32, source: u32) -> Pair {
    (Var(target), Src::Var(Var(source)))
}

fn constant(target: u32, source: u32) -> Pair {
    (Var(target), Src::Constant(Id(source)))
}

fn set(pair: Pair) -> Move {
    Move::Set(pair.0, pair.1)
}

fn save(spare: u32, source: u32) -> Move {
    Move::Save(spare, Var(source))
}

fn restore(target: u32, spare: u32) -> Move {
    Move::Restore(Var(target), spare)
}

#[test]
fn moves_with_a_spare(rt: HostRuntime) -> Result<(), Fail> {
    let alloc = rt.alloc();
    let pairs = [pair(1, 2), pair(2, 1), constant(3, 3), pair(4, 4)];
    let moves = [
        set(constant(3, 3)),
        save(0, 1),
        set(pair(1, 2)),
        restore(2, 0),
    ];
    assert!(rt; have_moves(alloc, &pairs, &moves)?);
    Ok(())
}
