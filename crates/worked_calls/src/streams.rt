//! Sources and sinks in memory and over readers and writers.

use span_io::{
    Failed, MemSink, MemSource, ReadError, Sink, Source, StdSink, StdSource, read_all, write_all,
};
use std::alloc::{AllocError, Global};
use std::io;
use worked_rows::{Several, row, rows};

fn bytes(alloc: Global, text: &[u8]) -> Result<Vec<u8>, AllocError> {
    let mut bytes = Vec::new(alloc);
    bytes.extend_from_slice(text)?;
    Ok(bytes)
}

fn numbers(alloc: Global, list: &[u64]) -> Result<Vec<u64>, AllocError> {
    let mut numbers = Vec::new(alloc);
    numbers.extend_from_slice(list)?;
    Ok(numbers)
}

/// Prints how many bytes a source gives, or why it doesn't.
fn read<S: Source>(rt: &HostRuntime, asked: &str, source: &mut S, most: u16) -> anyhow::Result<()> {
    match read_all(rt.alloc(), source, most as usize) {
        Ok(bytes) => row(rt, asked, bytes.len())?,
        Err(error) => println!(rt; "{asked}: {error}")?,
    }
    Ok(())
}

/// Prints how many of five bytes a source gives in pieces of 2, some calls of which fail, or why it
/// doesn't.
fn read_memory(rt: &HostRuntime, asked: &str, fails: &[u64], most: u16) -> anyhow::Result<()> {
    let text = bytes(rt.alloc(), b"maft\n")?;
    let mut source = MemSource::new(text, 2, numbers(rt.alloc(), fails)?);
    read(rt, asked, &mut source, most)
}

/// Prints how many bytes a reader of these gives, or why it doesn't.
fn read_slice(rt: &HostRuntime, asked: &str, bytes: &[u8], most: u16) -> anyhow::Result<()> {
    let mut reader = StdSource::new(bytes);
    read(rt, asked, &mut reader, most)
}

fn of_sources(rt: &HostRuntime) -> anyhow::Result<()> {
    read_memory(rt, "5 bytes in pieces of 2", &[], 5)?;
    read_memory(rt, "call 2 fails", &[2], 100)?;
    read_memory(rt, "5 bytes where 4 may be", &[], 4)?;
    read_slice(rt, "5 bytes of a reader", b"maft\n", 100)?;
    read_slice(rt, "10000 bytes of a reader", &[7; 10_000], 10_000)
}

/// Prints what is written into a sink with room for 8 bytes, of which call 3 fails.
fn write(rt: &HostRuntime, sink: &mut MemSink) -> io::Result<()> {
    rows(
        rt,
        &[
            ("4 bytes into room for 8", write_all(sink, b"end ").is_ok()),
            (
                "4 more, of which call 3 fails",
                write_all(sink, b"1024").is_ok(),
            ),
        ],
    )?;
    row(rt, "written", sink.written().len())?;
    let has_room = write_all(sink, b"4\n").is_ok();
    rows(
        rt,
        &[
            ("2 more, of which 1 has room", has_room),
            ("written", sink.written() == b"end 1024".as_slice()),
        ],
    )
}

fn of_sinks(rt: &HostRuntime) -> anyhow::Result<()> {
    let fails = numbers(rt.alloc(), &[3])?;
    let Ok(mut sink) = MemSink::new(rt.alloc(), 8, 3, fails) else {
        return Ok(());
    };
    Ok(write(rt, &mut sink)?)
}

/// Whether these bytes are written whole into a writer with this room.
fn is_written(room: &mut [u8], bytes: &[u8]) -> bool {
    let mut sink = StdSink::new(room);
    write_all(&mut sink, bytes).is_ok()
}

fn of_little_room(rt: &HostRuntime) -> io::Result<()> {
    let mut room = [0u8; 4];
    let is_written = is_written(&mut room, b"maft\n");
    row(rt, "5 bytes into a writer with room for 4", is_written)?;
    row(rt, "written", Several(&room))
}

fn of_much_room(rt: &HostRuntime) -> io::Result<()> {
    let many = [7u8; 10_000];
    let mut room = [0u8; 10_000];
    let is_written = is_written(&mut room, &many);
    rows(
        rt,
        &[
            ("10000 bytes into a writer", is_written),
            ("written as they were", room == many),
        ],
    )
}

fn of_errors(rt: &HostRuntime) -> io::Result<()> {
    for error in [ReadError::Failed, ReadError::TooLong, ReadError::NoMemory] {
        println!(rt; "a read: {error}")?;
    }
    println!(rt; "a write: {}", Failed)
}

pub fn print(rt: &HostRuntime) -> anyhow::Result<()> {
    of_sources(rt)?;
    of_sinks(rt)?;
    of_little_room(rt)?;
    of_much_room(rt)?;
    Ok(of_errors(rt)?)
}
