use crate::{
    Got, MemorySink, MemorySource, Put, ReadFault, Sink, Source, StdSink, StdSource, SteadySource,
    put_all, read_all,
};
use std::io;
use std::io::{Cursor, ErrorKind, Read, Write};
use std::test::Fail;

const PIECE: &[u8] = b"The braided vector space has three letters.\n";

#[test]
fn a_memory_sink_takes_as_it_is_told(rt: HostRuntime) -> Result<(), Fail> {
    let mut sink = MemorySink::new(rt.alloc(), 64, 8, Vec::new(rt.alloc()))?;
    assert_eq!(rt; PIECE.len(), 44);
    assert_eq!(rt; sink.write(PIECE), Put::Took(8));
    assert_eq!(rt; sink.taken(), b"The brai".as_slice());
    assert!(rt; put_all(&mut sink, b"ded vector"));
    assert_eq!(rt; sink.taken(), b"The braided vector".as_slice());
    Ok(())
}

#[test]
fn a_memory_sink_fails_at_its_numbers(rt: HostRuntime) -> Result<(), Fail> {
    let failing = [2, 3, 5].to_vec(rt.alloc())?;
    let mut sink = MemorySink::new(rt.alloc(), 20, 8, failing)?;
    let wanted = [
        Put::Took(8),
        Put::Failed,
        Put::Failed,
        Put::Took(8),
        Put::Failed,
        Put::Took(4),
        Put::Failed,
    ];
    for (call, want) in wanted.into_iter().enumerate() {
        assert_eq!(rt; sink.write(PIECE), want, "call {call}");
    }
    assert_eq!(rt; sink.taken(), b"The braiThe braiThe ".as_slice());
    Ok(())
}

#[test]
fn a_piece_is_put_as_far_as_the_sink_goes(rt: HostRuntime) -> Result<(), Fail> {
    // The room, the number of the call that fails, whether all was taken, and how much was.
    let table = [
        (44, 0, true, 44),
        (43, 0, false, 43),
        (64, 1, false, 0),
        (64, 3, false, 16),
        (64, 6, false, 40),
        (64, 7, true, 44),
    ];
    for (room, failing, whole, taken) in table {
        let failing = [failing].to_vec(rt.alloc())?;
        let mut sink = MemorySink::new(rt.alloc(), room, 8, failing)?;
        assert!(rt; put_all(&mut sink, b""), "nothing to write");
        assert_eq!(rt; put_all(&mut sink, PIECE), whole, "room {room}");
        assert_eq!(rt; sink.taken().len(), taken, "room {room}");
        assert!(rt; PIECE.starts_with(sink.taken()), "room {room}");
    }
    Ok(())
}

#[test]
fn a_memory_source_fails_at_its_numbers(rt: HostRuntime) -> Result<(), Fail> {
    let failing = [2, 5].to_vec(rt.alloc())?;
    let mut source = MemorySource::new(b"abcdefgh".to_vec(rt.alloc())?, 3, failing);
    let mut came = Vec::new(rt.alloc());
    let wanted = [
        Got::Bytes(3),
        Got::Failed,
        Got::Bytes(3),
        Got::Bytes(2),
        Got::Failed,
        Got::End,
        Got::End,
    ];
    for want in wanted {
        let mut buffer = [0u8; 4];
        let got = source.read(&mut buffer);
        assert_eq!(rt; got, want);
        if let Got::Bytes(count) = got {
            came.extend_from_slice(buffer.split_at(count).0)?;
        }
    }
    assert_eq!(rt; came.as_slice(), b"abcdefgh".as_slice());
    Ok(())
}

#[test]
fn a_source_is_read_within_its_limit(rt: HostRuntime) -> Result<(), Fail> {
    // The limit, the number of the call that fails, the fault, and what the source gives afterwards.
    let table = [
        (11, 0, None, ""),
        (usize::MAX, 0, None, ""),
        (10, 0, Some(ReadFault::TooLong), ""),
        (9, 0, Some(ReadFault::TooLong), "d"),
        (0, 0, Some(ReadFault::TooLong), "ello world"),
        (11, 2, Some(ReadFault::Failed), "world"),
        (11, 3, Some(ReadFault::Failed), ""),
    ];
    for (limit, failing, fault, left) in table {
        let failing = [failing].to_vec(rt.alloc())?;
        let mut source = MemorySource::new(b"hello world".to_vec(rt.alloc())?, 6, failing);
        match read_all(rt.alloc(), &mut source, limit) {
            Ok(all) => {
                assert_eq!(rt; fault, None, "limit {limit}");
                assert_eq!(rt; all.as_slice(), b"hello world".as_slice());
            }
            Err(found) => assert_eq!(rt; fault, Some(found), "limit {limit}"),
        }
        let rest = read_all(rt.alloc(), &mut source, 64)
            .ok()
            .ok_or("the rest failed")?;
        assert_eq!(rt; rest.as_slice(), left.as_bytes(), "limit {limit}");
    }
    Ok(())
}

#[test]
fn a_long_source_is_read_whole(rt: HostRuntime) -> Result<(), Fail> {
    let bytes = vec![in rt.alloc(); 7u8; 2000]?;
    let mut source = SteadySource::new(bytes);
    let all = read_all(rt.alloc(), &mut source, 2000)
        .ok()
        .ok_or("refused")?;
    assert_eq!(rt; all.len(), 2000);
    assert!(rt; all.iter().all(|b| *b == 7));
    assert_eq!(rt; source.read(&mut [0u8; 1]), Got::End);
    Ok(())
}

#[test]
fn a_reader_of_std_passes_its_bytes_on(rt: HostRuntime) -> Result<(), Fail> {
    let mut source = StdSource::new(PIECE);
    let all = read_all(rt.alloc(), &mut source, 64).ok().ok_or("refused")?;
    assert_eq!(rt; all.as_slice(), PIECE);
    Ok(())
}

#[test]
fn a_writer_of_std_passes_its_bytes_on(rt: HostRuntime) -> Result<(), Fail> {
    let mut written = Vec::new(rt.alloc());
    let mut sink = StdSink::new(&mut written);
    assert!(rt; put_all(&mut sink, PIECE));
    drop(sink);
    assert_eq!(rt; written.as_slice(), PIECE);
    Ok(())
}

/// A reader whose first read fails. Those after it give the bytes.
#[derive(Drop)]
struct Interrupted<'a> {
    has_failed: bool,
    bytes: &'a [u8],
}

impl Read for Interrupted<'_> {
    fn read(&mut self, buf: &mut [u8]) -> io::Result<usize> {
        if self.has_failed {
            return self.bytes.read(buf);
        }
        self.has_failed = true;
        Err(io::Error::from(ErrorKind::BrokenPipe))
    }
}

#[test]
fn a_reading_after_a_fault_misses_no_byte(rt: HostRuntime) -> Result<(), Fail> {
    let mut source = StdSource::new(Interrupted {
        has_failed: false,
        bytes: PIECE,
    });
    assert_eq!(rt;
        read_all(rt.alloc(), &mut source, 64).err(),
        Some(ReadFault::Failed)
    );
    let all = read_all(rt.alloc(), &mut source, 64).ok().ok_or("refused")?;
    assert_eq!(rt; all.as_slice(), PIECE);
    Ok(())
}

/// A writer that holds what it takes, eight bytes at most, until a flush shows it. One flush may fail.
#[derive(Drop)]
struct Buffered {
    held: Vec<u8>,
    shown: Vec<u8>,
    writes: u32,
    flushes: u32,
    failing: u32,
}

impl Write for Buffered {
    fn write(&mut self, buf: &[u8]) -> io::Result<usize> {
        self.writes = self.writes.saturating_add(1);
        let count = buf.len().min(8);
        self.held.extend_from_slice(buf.split_at(count).0)?;
        Ok(count)
    }

    fn flush(&mut self) -> io::Result<()> {
        self.flushes = self.flushes.saturating_add(1);
        if self.flushes == self.failing {
            return Err(io::Error::from(ErrorKind::BrokenPipe));
        }
        self.shown.extend_from_slice(self.held.as_slice())?;
        self.held.clear();
        Ok(())
    }
}

#[test]
fn each_write_to_std_is_flushed(rt: HostRuntime) -> Result<(), Fail> {
    // The number of the flush that fails, whether all was taken, how much is shown, and how many writes were made.
    let table = [
        (0, true, 44, 6),
        (1, false, 0, 1),
        (4, false, 24, 4),
        (6, false, 40, 6),
        (7, true, 44, 6),
    ];
    for (failing, whole, shown, writes) in table {
        let mut writer = Buffered {
            held: Vec::new(rt.alloc()),
            shown: Vec::new(rt.alloc()),
            writes: 0,
            flushes: 0,
            failing,
        };
        let all = put_all(&mut StdSink::new(&mut writer), PIECE);
        assert_eq!(rt; all, whole, "flush {failing}");
        assert_eq!(rt; writer.shown.len(), shown, "flush {failing}");
        assert!(rt;
            PIECE.starts_with(writer.shown.as_slice()),
            "flush {failing}"
        );
        assert_eq!(rt; writer.writes, writes, "flush {failing}");
        assert_eq!(rt; writer.flushes, writes, "flush {failing}");
    }
    Ok(())
}

/// A reader that fails, and a writer whose flush does.
#[derive(Drop)]
struct Broken;

impl Read for Broken {
    fn read(&mut self, _buf: &mut [u8]) -> io::Result<usize> {
        Err(io::Error::from(ErrorKind::BrokenPipe))
    }
}

impl Write for Broken {
    fn write(&mut self, buf: &[u8]) -> io::Result<usize> {
        Ok(buf.len())
    }

    fn flush(&mut self) -> io::Result<()> {
        Err(io::Error::from(ErrorKind::BrokenPipe))
    }
}

#[test]
fn a_fault_of_std_is_a_failure(rt: HostRuntime) {
    let mut broken = Broken;
    assert_eq!(rt;
        StdSource::new(&mut broken).read(&mut [0u8; 4]),
        Got::Failed
    );
    assert_eq!(rt; StdSink::new(&mut broken).write(PIECE), Put::Failed);
    let mut short = StdSink::new(Cursor::new([0u8; 8]));
    assert_eq!(rt; short.write(PIECE), Put::Took(8));
    assert_eq!(rt; short.write(PIECE), Put::Failed, "nothing is taken");
}
