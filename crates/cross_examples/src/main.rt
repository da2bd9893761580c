// Carries out each case of the lists that the words name, and says of each list how many of its cases end as they should, and
// which do not. The lists lie in the folder in which it runs, with the modules and the answers that they name.
#![tactic(auto)]

mod cases;
mod outcomes;
#[cfg(test)]
mod tests;

use cases::{Case, case_of, input_of, words_of};
use outcomes::{Outcome, outcome_of};
use std::{env, fs, io};

/// The bytes of a file in a folder; none where its name is `-`.
fn bytes_of(rt: &HostRuntime, folder: &str, name: &str) -> Result<Vec<u8>, io::Error> {
    if name == "-" {
        return Ok(Vec::new(rt.alloc()));
    }
    let path = format!(in rt.alloc(); "{folder}/{name}")?;
    fs::read(rt, path.as_str())
}

/// What the command of a case came to.
fn carried_out(rt: &HostRuntime, case: Case) -> Result<Outcome, io::Error> {
    let input = input_of(case.input);
    let mut bytes = bytes_of(rt, "modules", input.file)?;
    bytes.truncate(input.count.unwrap_or(bytes.len()));
    let words = words_of(rt.alloc(), case.words)?;
    Ok(outcome_of(rt.alloc(), &words, bytes))
}

/// Whether a case ends as it should. Where it does not, it is named, with its status and the line that it gave.
fn is_right(rt: &HostRuntime, case: Case) -> Result<bool, io::Error> {
    let answer = bytes_of(rt, "answers", case.answer)?;
    let outcome = carried_out(rt, case)?;
    let right = outcome.is_as(case.status, &answer, case.line);
    if !right {
        println!(rt; "wrong: {}: status {}", case.name, outcome.status)?;
    }
    Ok(right)
}

/// Carries out a list.
fn carry_out(rt: &HostRuntime, list: &str) -> Result<(), io::Error> {
    let (mut right, mut all) = (0u32, 0u32);
    let text = fs::read_to_string(rt, list)?;
    for line in text.lines() {
        let Some(case) = case_of(line) else {
            println!(rt; "no case: {line}")?;
            continue;
        };
        all = all.saturating_add(1);
        if is_right(rt, case)? {
            right = right.saturating_add(1);
        }
    }
    println!(rt; "{list}: {right} of {all} are right")
}

fn main(rt: HostRuntime) -> Result<(), io::Error> {
    let mut lists = Vec::new(rt.alloc());
    for list in env::args(&rt)? {
        lists.push(list)?;
    }
    for list in lists.iter().skip(1) {
        carry_out(&rt, list.as_str())?;
    }
    Ok(())
}
