// The pieces of a generated module.
ghost use Rattle.std.specs.Prelude.{◌≡◌, ◌≤◌, ◌<◌, ◌^◌, ◌+◌, ◌*◌, ◌++◌, OnOk, IfOk};
ghost use Rattle.module_gen.specs.Generated.{loaded, straight_line, selection, loop, kind_of, piece, block_after};

use crate::Builder;
use crate::ids::{BOOL, BUFFER, BUFFER_UINT, EIGHT, INDEX, ONE, UINT, ZERO};
use crate::rows::put_rows;
use spv_ops::Op;
use spv_words::Memory;

/// What a piece does to an element of the buffer.
#[derive(Clone, Copy)]
enum Kind {
    /// adds 1
    StraightLine,
    /// adds 1 where it is below 8
    Selection,
    /// adds each of the numbers below 8
    Loop,
}

impl Kind {
    fn of(number: u32) -> Kind
        ensures { result ≡ kind_of number }
    {
        match number % 3 {
            1 => Kind::StraightLine,
            2 => Kind::Selection,
            _ => Kind::Loop,
        }
    }
}

/// Loads the element of the invocation as a number.
fn put_loaded(builder: &mut Builder, element: u32, number: u32) -> Result<(), Memory>
    ensures { OnOk result (builder.new ≡ record builder.old { insts = builder.old.insts ++ loaded element number }) }
{
    put_rows(
        builder,
        &[
            (
                Op::AccessChain,
                &[BUFFER_UINT, element, BUFFER, ZERO, INDEX],
            ),
            (Op::Load, &[UINT, number, element]),
        ],
    )
}

fn put_straight_line(builder: &mut Builder, first: u32) -> Result<(), Memory>
    requires { first < 2 ^ 31 }
    ensures { OnOk result (builder.new ≡ record builder.old { insts = builder.old.insts ++ straight_line first }) }
{
    let element = first;
    let number = first + 1;
    let sum = first + 2;
    put_loaded(builder, element, number)?;
    put_rows(
        builder,
        &[
            (Op::IAdd, &[UINT, sum, number, ONE]),
            (Op::Store, &[element, sum]),
        ],
    )
}

/// Answers the block in which it ends.
fn put_selection(builder: &mut Builder, first: u32, current: u32) -> Result<u32, Memory>
    requires { first < 2 ^ 31 }
    ensures insts { OnOk result (builder.new ≡ record builder.old { insts = builder.old.insts ++ selection first current }) }
    ensures block { IfOk result (λ block. block ≡ first + 4) }
{
    let (element, number, is_below) = (first, first + 1, first + 2);
    let (taken, merge) = (first + 3, first + 4);
    let (sum, chosen, target) = (first + 5, first + 6, first + 7);
    put_loaded(builder, element, number)?;
    put_rows(
        builder,
        &[
            (Op::ULessThan, &[BOOL, is_below, number, EIGHT]),
            (Op::SelectionMerge, &[merge, 0]),
            (Op::BranchConditional, &[is_below, taken, merge]),
            (Op::Label, &[taken]),
            (Op::IAdd, &[UINT, sum, number, ONE]),
            (Op::Branch, &[merge]),
            (Op::Label, &[merge]),
            (Op::Phi, &[UINT, chosen, number, current, sum, taken]),
            (Op::AccessChain, &[BUFFER_UINT, target, BUFFER, ZERO, INDEX]),
            (Op::Store, &[target, chosen]),
        ],
    )?;
    Ok(merge)
}

/// Answers the block in which it ends.
fn put_loop(builder: &mut Builder, first: u32, current: u32) -> Result<u32, Memory>
    requires { first < 2 ^ 31 }
    ensures insts { OnOk result (builder.new ≡ record builder.old { insts = builder.old.insts ++ loop first current }) }
    ensures block { IfOk result (λ block. block ≡ first + 5) }
{
    let (header, counter, test) = (first, first + 1, first + 2);
    let (body, next, merge) = (first + 3, first + 4, first + 5);
    let (is_below, counted) = (first + 6, first + 7);
    let (element, number, sum) = (first + 8, first + 9, first + 10);
    put_rows(
        builder,
        &[
            (Op::Branch, &[header]),
            (Op::Label, &[header]),
            (Op::Phi, &[UINT, counter, ZERO, current, counted, next]),
            (Op::LoopMerge, &[merge, next, 0]),
            (Op::Branch, &[test]),
            (Op::Label, &[test]),
            (Op::ULessThan, &[BOOL, is_below, counter, EIGHT]),
            (Op::BranchConditional, &[is_below, body, merge]),
            (Op::Label, &[body]),
        ],
    )?;
    put_loaded(builder, element, number)?;
    put_rows(
        builder,
        &[
            (Op::IAdd, &[UINT, sum, number, counter]),
            (Op::Store, &[element, sum]),
            (Op::Branch, &[next]),
            (Op::Label, &[next]),
            (Op::IAdd, &[UINT, counted, counter, ONE]),
            (Op::Branch, &[header]),
            (Op::Label, &[merge]),
        ],
    )?;
    Ok(merge)
}

/// Puts the piece of this number, which begins in the block `current`, and answers the block in which it ends.
pub fn put_piece(builder: &mut Builder, number: u32, current: u32) -> Result<u32, Memory>
    requires { number ≤ 1000 }
    ensures insts { OnOk result (builder.new ≡ record builder.old {
      insts = builder.old.insts ++ piece (kind_of number) (16 + 16 * number) current;
    }) }
    ensures block { IfOk result (λ block. block ≡ block_after (kind_of number) (16 + 16 * number) current) }
{
    let first = 16 + 16 * number;
    match Kind::of(number) {
        Kind::StraightLine => {
            put_straight_line(builder, first)?;
            Ok(current)
        }
        Kind::Selection => put_selection(builder, first, current),
        Kind::Loop => put_loop(builder, first, current),
    }
}
