// The parts of a case, one after another.
ghost use Rattle.std.specs.Prelude.{◌≡◌, map, option_map, option_and_then, Some, IfOk, OnOk};
ghost use Rattle.dispatch_case.specs.Cases.{parts_of};
ghost use Rattle.dispatch_case.specs.Written.{said_by, said_of, stage_with, with_said, after_said, after_parts, unsaid};

use crate::case::Case;
use crate::part::{Part, part_of};
use spv_words::Memory;
use std::alloc::Global;

/// What a case has so far: nothing, its groups and maybe buffers, push constants, a first list, or all.
#[derive(Clone, Copy, Debug, PartialEq, Eq)]
enum Stage {
    Start,
    Buffers,
    Push,
    First,
    Done,
}

/// What it has with a part more, if that may stand there.
fn stage_behind(stage: Stage, part: &Part) -> Option<Stage>
    ensures { result ≡ stage_with stage (said_by part.now) }
{
    match (stage, part) {
        (Stage::Start, Part::Groups(_)) => Some(Stage::Buffers),
        (Stage::Buffers, Part::Buffer(_)) => Some(Stage::Buffers),
        (Stage::Buffers, Part::Push(_)) => Some(Stage::Push),
        (Stage::Buffers | Stage::Push, Part::First(_)) => Some(Stage::First),
        (Stage::Buffers | Stage::Push | Stage::First, Part::Steps(_)) => Some(Stage::Done),
        _ => None,
    }
}

/// Notes what a part says.
fn note(case: &mut Case, part: Part) -> Result<(), Memory>
    ensures { OnOk result (parts_of case.new ≡ with_said (parts_of case.old) (said_by part)) }
{
    match part {
        Part::Groups(groups) => case.groups = groups,
        Part::Buffer(buffer) => case.buffers.push(buffer)?,
        Part::Push(words) => case.push = words,
        Part::First(items) => case.first = items,
        Part::Steps(steps) => case.steps = u64::from(steps),
    }
    Ok(())
}

/// A case of which nothing is said yet.
fn start(alloc: Global) -> Case
    ensures { parts_of result ≡ unsaid }
{
    Case {
        groups: [0; 3],
        buffers: Vec::new(alloc),
        push: Vec::new(alloc),
        first: Vec::new(alloc),
        steps: 0,
    }
}

/// The stage behind a part that is noted, if it may stand there.
fn take(alloc: Global, case: &mut Case, stage: Stage, text: &str) -> Result<Option<Stage>, Memory>
    ensures { IfOk result (λ next. option_map (λ s. (s, parts_of case.new)) next ≡ option_and_then (after_said (parts_of case.old) stage) (said_of text.now)) }
{
    match part_of(alloc, text)? {
        None => Ok(None),
        Some(part) => match stage_behind(stage, &part) {
            None => Ok(None),
            Some(next) => {
                note(case, part)?;
                Ok(Some(next))
            }
        },
    }
}

/// The case whose parts these are.
pub fn case_in(alloc: Global, texts: &[&str]) -> Result<Option<Case>, Memory>
    ensures { IfOk result (λ case. option_map parts_of case ≡ after_parts Stage.Start unsaid (map (λ t. t.now) texts.now)) }
{
    let mut case = start(alloc);
    let mut stage = Stage::Start;
    for text in texts {
        match take(alloc, &mut case, stage, *text)? {
            None => return Ok(None),
            Some(next) => stage = next,
        }
    }
    match stage {
        Stage::Done => Ok(Some(case)),
        _ => Ok(None),
    }
}
