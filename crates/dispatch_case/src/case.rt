// Cases: what a dispatch is run on.
ghost use Rattle.std.specs.Prelude.{◌≡◌, ◌&&◌, map, nat_le, option_map, Some, IfOk, IfErr};
ghost use Rattle.std.specs.List.{list_all};
ghost use Rattle.dispatch_case.specs.Three.{triple_of};
ghost use Rattle.dispatch_case.specs.Cases.{buffer_view, parts_of, is_side, is_short, are_groups, are_buffers, buffers_repeat, is_fine};
ghost use Rattle.dispatch_case.specs.Written.{case_of, IsCause};

use crate::part::pieces;
use crate::read::case_in;
use spec_constants::Unparsed;
use spv_words::Memory;
use std::alloc::Global;
use std::collections::BTreeSet;

/// A case for a dispatch: the numbers of workgroups, each 1 to 1024; the words of buffers by descriptor set and binding, no
/// two of which are the same; the words of the push constants; the invocations that come first in the schedule; and how many
/// steps an invocation may make, 1 to 100000. A list has at most 1073741823 numbers.
#[derive(Drop)]
pub struct Case {
    pub groups: [u32; 3],
    pub buffers: Vec<(u32, u32, Vec<u32>)>,
    pub push: Vec<u32>,
    pub first: Vec<u32>,
    pub steps: u64,
}

fn is_side_length(side: u32) -> bool
    ensures { result ≡ is_side side }
{
    1 <= side && side <= 1024
}

fn are_sides(groups: [u32; 3]) -> bool
    ensures { result ≡ are_groups (triple_of groups) }
{
    is_side_length(groups[0]) && is_side_length(groups[1]) && is_side_length(groups[2])
}

fn is_short_list(list: &[u32]) -> bool
    ensures { result ≡ is_short list.now }
{
    list.len() <= 1073741823
}

fn are_short(buffers: &[(u32, u32, Vec<u32>)]) -> bool
    ensures { result ≡ list_all (λ b. is_short b.2) (map buffer_view buffers.now) }
{
    for buffer in buffers {
        if !is_short_list(&buffer.2) {
            return false;
        }
    }
    true
}

/// Whether a set and a binding come twice.
fn repeat(alloc: Global, buffers: &[(u32, u32, Vec<u32>)]) -> Result<bool, Memory>
    ensures { IfOk result (λ twice. twice ≡ buffers_repeat (map buffer_view buffers.now)) }
{
    let mut seen = BTreeSet::new(alloc);
    for buffer in buffers {
        if !seen.insert((buffer.0, buffer.1))? {
            return Ok(true);
        }
    }
    Ok(false)
}

fn are_apart(alloc: Global, buffers: &[(u32, u32, Vec<u32>)]) -> Result<bool, Memory>
    ensures { IfOk result (λ fine. fine ≡ are_buffers (map buffer_view buffers.now)) }
{
    if !are_short(buffers) {
        return Ok(false);
    }
    let twice = repeat(alloc, buffers)?;
    Ok(!twice)
}

/// Whether the numbers and the lists of a case are within their bounds, and no buffer comes twice.
fn is_within(alloc: Global, case: &Case) -> Result<bool, Memory>
    ensures { IfOk result (λ fine. fine ≡ is_fine (parts_of case.now)) }
{
    if !are_sides(case.groups) {
        return Ok(false);
    }
    let apart = are_apart(alloc, &case.buffers)?;
    Ok(apart && are_lists(case))
}

fn are_lists(case: &Case) -> bool
    ensures { result ≡ (is_short case.now.push.items && (is_short case.now.first.items && (nat_le 1 case.now.steps && nat_le case.now.steps 100000))) }
{
    is_short_list(&case.push)
        && is_short_list(&case.first)
        && 1 <= case.steps
        && case.steps <= 100000
}

/// The case that a word is, if it is one.
fn read(alloc: Global, word: &str) -> Result<Option<Case>, Memory>
    ensures { IfOk result (λ case. option_map parts_of case ≡ case_of word.now) }
{
    let texts = pieces(alloc, word, ';')?;
    match case_in(alloc, &texts)? {
        None => Ok(None),
        Some(case) => if is_within(alloc, &case)? {
            Ok(Some(case))
        } else {
            Ok(None)
        },
    }
}

impl Case {
    /// The case that a word is: parts with `;` between, in this order: `groups=X,Y,Z`; any number of `buffer=S.B:W,W,..`, no two
    /// with the same S and B; at most one `push=W,W,..`; at most one `first=I,I,..`; `steps=N`. All numbers are decimal without
    /// leading zeros: X, Y and Z 1 to 1024, N 1 to 100000, the others up to 4294967295. `Unparsed::Usage` comes exactly where the
    /// word is none.
    pub fn parse(alloc: Global, word: &str) -> Result<Case, Unparsed>
        ensures read { IfOk result (λ case. case_of word.now ≡ Some (parts_of case)) }
        ensures usage { IfErr result (IsCause word.now) }
    {
        match read(alloc, word)? {
            None => Err(Unparsed::Usage),
            Some(case) => Ok(case),
        }
    }
}
