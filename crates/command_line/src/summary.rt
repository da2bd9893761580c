// The line of a summary.
ghost use Rattle.std.specs.Prelude.{◌≡◌, ◌%◌, ◌^◌, count_by, sum, string_bytes, IfOk};
ghost use Rattle.command_line.specs.Summary.{is_reached as is_reached_node, is_loop as is_loop_merge, is_reached_loop as is_reached_loop_node, count_blocks, summary_line, summary};

use block_graph::control_flow;
use spv_index::Locals;
use spv_module::Module;
use spv_words::Memory;
use std::alloc::{AllocError, Global};
use structure_rules::{Merge, Node};

/// How many blocks are reached, and how many of them begin loops.
#[derive(Clone, Copy)]
struct Counts {
    blocks: usize,
    loops: usize,
}

fn is_loop(merge: Merge) -> bool
    ensures { result ≡ is_loop_merge merge }
{
    matches!(merge, Merge::Loop(_, _))
}

fn reached_blocks(nodes: &[Node]) -> usize
    ensures { result ≡ count_by is_reached_node nodes.now }
{
    nodes.iter().filter(|node| node.reached).count()
}

fn reached_loops(nodes: &[Node]) -> usize
    ensures { result ≡ count_by is_reached_loop_node nodes.now }
{
    nodes
        .iter()
        .filter(|node| node.reached && is_loop(node.merge))
        .count()
}

/// The counts of the module's first function.
fn counts_in(alloc: Global, module: &Module) -> Result<Counts, Memory>
    ensures blocks { IfOk result (λ c. c.blocks ≡ count_blocks is_reached_node «module».now) }
    ensures loops { IfOk result (λ c. c.loops ≡ count_blocks is_reached_loop_node «module».now) }
{
    match module.functions().first() {
        None => Ok(Counts {
            blocks: 0,
            loops: 0,
        }),
        Some(function) => {
            let nodes = control_flow(alloc, &Locals::of(alloc, function)?)?;
            Ok(Counts {
                blocks: reached_blocks(&nodes),
                loops: reached_loops(&nodes),
            })
        }
    }
}

/// The sum of bytes, modulo 2^32.
fn sum_of(bytes: &[u8]) -> u32
    ensures { result ≡ sum bytes.now % 2 ^ 32 }
{
    let mut sum: u32 = 0;
    for byte in bytes {
        sum = sum.wrapping_add(u32::from(*byte));
    }
    sum
}

fn line(alloc: Global, counts: Counts, text: &[u8]) -> Result<String, AllocError>
    ensures { IfOk result (λ line. string_bytes line ≡ summary_line counts.blocks counts.loops text.now) }
{
    let Counts { blocks, loops } = counts;
    let (bytes, sum) = (text.len(), sum_of(text));
    format!(in alloc; "blocks {blocks} loops {loops} bytes {bytes} sum {sum}\n")
}

/// The summary of a module and its text: how many blocks of its first function are reached and how many of these begin loops,
/// how many bytes the text has, and their sum modulo 2^32.
pub fn summary_of(alloc: Global, module: &Module, text: &[u8]) -> Result<String, Memory>
    ensures { IfOk result (λ line. string_bytes line ≡ summary «module».now text.now) }
{
    let counts = counts_in(alloc, module)?;
    Ok(line(alloc, counts, text)?)
}
