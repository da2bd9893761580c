// The program: reads a SPIR-V module from standard input, and writes its GLSL, or what else is asked of it, to standard output.
#![tactic(auto)]

use cc_outside::{StdSink, StdSource};
use command_line::{Ending, say};
use std::alloc::{AllocError, Global};
use std::process::ExitCode;
use std::{env, io};

// 31 MiB: the allocator looks at no freed block above 32.
const KEPT_WORDS: usize = 4063232;

/// Takes a large block and gives it back untouched. From then on the C library's allocator keeps freed blocks up to that size
/// for later ones, where it would give each large one back to the system and ask for new pages. It is no loss where there is
/// no such block.
fn keep_freed_blocks(alloc: Global) {
    let _block: Result<Vec<u64>, AllocError> = Vec::with_capacity(alloc, KEPT_WORDS);
}

/// Carries out the process's command line over its standard streams. It fails where a word is not UTF-8, and for want of
/// memory.
fn status_of(rt: &HostRuntime) -> Result<u8, io::Error> {
    keep_freed_blocks(rt.alloc());
    let mut all = Vec::new(rt.alloc());
    for word in env::args(rt)? {
        all.push(word)?;
    }
    let mut words = Vec::new(rt.alloc());
    for word in all.iter().skip(1) {
        words.push(word.as_str())?;
    }
    let mut input = StdSource::new(rt.stdin());
    let mut output = StdSink::new(rt.stdout());
    let mut notes = StdSink::new(rt.stderr());
    Ok(cross_core::cross(rt.alloc(), &words, &mut input, &mut output, &mut notes))
}

/// How a process ends whose words could not be had.
fn ending_of(error: &io::Error) -> Ending {
    match error.kind() {
        io::ErrorKind::OutOfMemory => Ending::Memory,
        _ => Ending::Usage,
    }
}

fn main(rt: HostRuntime) -> ExitCode {
    match status_of(&rt) {
        Ok(status) => ExitCode::from(status),
        Err(error) => {
            let ending = ending_of(&error);
            say(ending, &mut StdSink::new(rt.stderr()));
            ExitCode::from(ending.status())
        }
    }
}
