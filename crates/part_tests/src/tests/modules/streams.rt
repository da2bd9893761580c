// Sources and sinks: that take little at a time, that fail at a call, and files.
use cc_outside::{
    Failed, MemorySink, MemorySource, ReadEnd, Source, StdSink, StdSource, SteadySink,
    SteadySource, WriteEnd, read_all, write_all,
};
use sample_modules::ByteByByte;
use std::alloc::{AllocError, Global};
use std::path::PathBuf;
use std::test::Fail;
use std::{env, fs, process};

// Gives one byte in each call, without end.
#[derive(Drop)]
struct Endless;

impl Source for Endless {
    ghost use Rattle.std.specs.Prelude.{None};

    ghost left = { λ _. None };

    ghost faults = { λ _. 0 };

    fn read(&mut self, buf: &mut [u8]) -> Result<usize, Failed> {
        let end = buf.len().min(1);
        buf[..end].fill(7);
        Ok(end)
    }
}

type Read = Result<usize, ReadEnd>;

// How many of these bytes are read, one in each call, where a call fails.
fn trickled(alloc: Global, bytes: &[u8], limit: usize, fails: u64) -> Result<Read, AllocError> {
    let source = MemorySource::new(bytes.to_vec(alloc)?, vec![in alloc; fails]?);
    let read = read_all(alloc, &mut ByteByByte { stream: source }, limit);
    Ok(read.map(|bytes| bytes.len()))
}

fn read_endless(alloc: Global, limit: usize) -> Option<ReadEnd> {
    read_all(alloc, &mut Endless, limit).err()
}

fn steady(alloc: Global, bytes: &[u8], limit: usize) -> Result<Vec<u8>, Fail> {
    let mut source = SteadySource::new(bytes.to_vec(alloc)?);
    Ok(read_all(alloc, &mut source, limit).ok().ok_or("not read")?)
}

#[test]
fn reads_all(rt: HostRuntime) -> Result<(), Fail> {
    for (limit, fails, wanted) in [
        (5, 9, Ok(5)),
        (4, 9, Err(ReadEnd::TooLong)),
        (5, 3, Err(ReadEnd::Fault)),
        (5, 5, Err(ReadEnd::Fault)),
        (2, 2, Err(ReadEnd::Fault)),
    ] {
        let read = trickled(rt.alloc(), b"abcde", limit, fails)?;
        assert_eq!(rt; read, wanted, "limit {limit}");
    }
    assert_eq!(rt; read_endless(rt.alloc(), 10), Some(ReadEnd::TooLong));
    let read = steady(rt.alloc(), b"abc", 3)?;
    assert_eq!(rt; read.as_slice(), b"abc".as_slice());
    Ok(())
}

type Written = (Result<(), WriteEnd>, Vec<u8>);

// What of these bytes is written, one in each call, where a call fails.
fn narrowed(alloc: Global, bytes: &[u8], fails: u64) -> Result<Written, AllocError> {
    let sink = MemorySink::new(alloc, vec![in alloc; fails]?);
    let mut narrow = ByteByByte { stream: sink };
    let ended = write_all(&mut narrow, bytes);
    Ok((ended, narrow.stream.bytes().to_vec(alloc)?))
}

fn steadily(alloc: Global, bytes: &[u8]) -> Result<Written, AllocError> {
    let mut steady = SteadySink::new(alloc);
    let ended = write_all(&mut steady, bytes);
    Ok((ended, steady.bytes().to_vec(alloc)?))
}

#[test]
fn writes_all(rt: HostRuntime) -> Result<(), Fail> {
    for (fails, wanted, written) in [
        (5, Ok(()), b"abcde".as_slice()),
        (3, Err(WriteEnd::Fault), b"abc"),
        (0, Err(WriteEnd::Fault), b""),
    ] {
        let (ended, bytes) = narrowed(rt.alloc(), b"abcde", fails)?;
        assert_eq!(rt; ended, wanted, "call {fails}");
        assert_eq!(rt; bytes.as_slice(), written, "call {fails}");
    }
    let (ended, bytes) = steadily(rt.alloc(), b"ab")?;
    assert_eq!(rt; ended, Ok(()));
    assert_eq!(rt; bytes.as_slice(), b"ab".as_slice());
    Ok(())
}

fn temp_file(rt: &HostRuntime, test: &str) -> Result<PathBuf, Fail> {
    let name = format!(in rt.alloc(); "cross-{test}-{}", process::id(rt.process()))?;
    Ok(env::temp_dir(rt)?.join(rt.alloc(), name.as_str())?)
}

#[test]
fn reads_a_file(rt: HostRuntime) -> Result<(), Fail> {
    let path = temp_file(&rt, "read")?;
    fs::write(&rt, path.as_path(), "abcde")?;
    let mut source = StdSource::new(fs::open(&rt, path.as_path())?);
    let all = read_all(rt.alloc(), &mut source, 5).ok().ok_or("not read")?;
    let mut unreadable = StdSource::new(fs::create(&rt, path.as_path())?);
    let failed = read_all(rt.alloc(), &mut unreadable, 5);
    fs::remove_file(&rt, path.as_path())?;
    assert_eq!(rt; all.as_slice(), b"abcde".as_slice());
    assert_eq!(rt; failed.err(), Some(ReadEnd::Fault));
    Ok(())
}

#[test]
fn writes_a_file(rt: HostRuntime) -> Result<(), Fail> {
    let path = temp_file(&rt, "write")?;
    let mut sink = StdSink::new(fs::create(&rt, path.as_path())?);
    let written = write_all(&mut sink, b"abcde");
    let bytes = fs::read(&rt, path.as_path())?;
    let mut unwritable = StdSink::new(fs::open(&rt, path.as_path())?);
    let failed = write_all(&mut unwritable, b"abcde");
    fs::remove_file(&rt, path.as_path())?;
    assert_eq!(rt; written, Ok(()));
    assert_eq!(rt; bytes.as_slice(), b"abcde".as_slice());
    assert_eq!(rt; failed, Err(WriteEnd::Fault));
    Ok(())
}
