// Reads and writes that fail, or that go a byte at a time, and an input that is too long.
use cc_outside::{MemorySink, MemorySource};
use cross_core::cross;
use module_gen::generate;
use sample_modules::{ByteByByte, INCREMENT, PREFIX_SUMS, bytes_of};
use std::alloc::{AllocError, Global};
use std::test::Fail;

/// How a command ended: its status, its output and its notes.
#[derive(Drop)]
struct Outcome {
    status: u8,
    output: Vec<u8>,
    notes: Vec<u8>,
}

/// Runs a command. The calls of the input, output and notes whose numbers are listed fail.
fn run_with(
    alloc: Global,
    words: &[&str],
    bytes: Vec<u8>,
    fails: [&[u64]; 3],
) -> Result<Outcome, AllocError> {
    let [reads, writes, lines] = fails;
    let mut input = MemorySource::new(bytes, reads.to_vec(alloc)?);
    let mut output = MemorySink::new(alloc, writes.to_vec(alloc)?);
    let mut notes = MemorySink::new(alloc, lines.to_vec(alloc)?);
    let status = cross(alloc, words, &mut input, &mut output, &mut notes);
    Ok(Outcome {
        status,
        output: output.bytes().to_vec(alloc)?,
        notes: notes.bytes().to_vec(alloc)?,
    })
}

#[test]
fn ends_at_faults(rt: HostRuntime) -> Result<(), Fail> {
    let alloc = rt.alloc();
    let cases: [(&[&str], &[u64], &[u64], &[u64], u8, &str); 6] = [
        (&["glsl"], &[0], &[], &[], 4, "read fault\n"),
        (&["report"], &[], &[0], &[], 5, "write fault\n"),
        (&["glsl"], &[], &[0], &[], 5, "write fault\n"),
        (&["gen", "3"], &[0], &[0], &[], 5, "write fault\n"),
        (&["gen", "1000"], &[], &[0], &[], 5, "write fault\n"),
        (&["glsl", "--entry", "nope"], &[], &[], &[0], 2, ""),
    ];
    for (command, reads, writes, lines, status, line) in cases {
        let fails = [reads, writes, lines];
        let ended = run_with(alloc, command, bytes_of(alloc, &[&INCREMENT])?, fails)?;
        assert_eq!(rt; ended.notes.as_slice(), line.as_bytes(), "{line}");
        assert_eq!(rt; (ended.status, ended.output.len()), (status, 0), "{line}");
    }
    Ok(())
}

#[test]
fn leaves_a_front_of_the_text(rt: HostRuntime) -> Result<(), Fail> {
    let alloc = rt.alloc();
    let module = generate(alloc, 1000).ok().ok_or("no memory")?;
    let whole = run_with(
        alloc,
        &["glsl"],
        module.as_slice().to_vec(alloc)?,
        [&[], &[], &[]],
    )?;
    let front = run_with(alloc, &["glsl"], module, [&[], &[1], &[]])?;
    assert_eq!(rt; (whole.status, front.status), (0, 5));
    assert_eq!(rt; front.output.len(), 4096);
    assert!(rt; whole.output.starts_with(&front.output));
    Ok(())
}

/// What came of the sums over a source that gives one byte in each call and fails at one, and a sink that takes one byte in
/// each call and fails at one.
fn trickled(alloc: Global, read: u64, write: u64) -> Result<(u8, Vec<u8>), Fail> {
    let bytes = bytes_of(alloc, &[&PREFIX_SUMS])?;
    let source = MemorySource::new(bytes, vec![in alloc; read]?);
    let sink = MemorySink::new(alloc, vec![in alloc; write]?);
    let mut input = ByteByByte { stream: source };
    let mut output = ByteByByte { stream: sink };
    let mut notes = MemorySink::new(alloc, Vec::new(alloc));
    let status = cross(alloc, &["glsl"], &mut input, &mut output, &mut notes);
    Ok((status, output.stream.bytes().to_vec(alloc)?))
}

#[test]
fn goes_byte_by_byte(rt: HostRuntime) -> Result<(), Fail> {
    let alloc = rt.alloc();
    let sums = bytes_of(alloc, &[&PREFIX_SUMS])?;
    let text = run_with(alloc, &["glsl"], sums, [&[], &[], &[]])?.output;
    let never = u64::MAX;
    for (read, write, wanted, length) in [
        (never, never, 0, text.len()),
        (200, never, 4, 0),
        (never, 100, 5, 100),
    ] {
        let (status, output) = trickled(alloc, read, write)?;
        assert_eq!(rt; status, wanted);
        assert_eq!(rt; output.as_slice(), text.get(..length).unwrap_or(&[]));
    }
    Ok(())
}

#[test]
fn comes_to_the_limit_of_bytes(rt: HostRuntime) -> Result<(), Fail> {
    let alloc = rt.alloc();
    let cases: [(usize, u8, &str); 2] = [
        (4194305, 3, "limit bytes 4194304\n"),
        (1048577, 2, "refused W1 at 262144\n"),
    ];
    for (count, status, line) in cases {
        let long = vec![in alloc; 0; count]?;
        let ended = run_with(alloc, &["check"], long, [&[], &[], &[]])?;
        assert_eq!(rt; ended.notes.as_slice(), line.as_bytes(), "{line}");
        assert_eq!(rt; ended.status, status, "{line}");
    }
    Ok(())
}
