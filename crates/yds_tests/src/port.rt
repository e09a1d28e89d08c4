//! Tests of `yds_port`.
use std::io;
use std::io::{Read, Write};
use std::test::Fail;
use yds_port::{
    Flushed, Given, MemorySink, MemorySource, ReadAllFault, Sink, StdSink, StdSource, SteadySource,
    WriteFault, read_all, write_all,
};

/// A reader that gives so many bytes and then errors; a writer that takes no byte, and whose second
/// flush errors.
#[derive(Drop)]
struct Broken {
    left: usize,
    flushes: usize,
}

impl Broken {
    fn new(left: usize) -> Broken {
        Broken { left, flushes: 0 }
    }
}

impl Read for Broken {
    fn read(&mut self, buf: &mut [u8]) -> io::Result<usize> {
        if self.left == 0 || buf.is_empty() {
            return Err(io::Error::from(io::ErrorKind::Interrupted));
        }
        self.left -= 1;
        buf[0] = b'x';
        Ok(1)
    }
}

impl Write for Broken {
    fn write(&mut self, _buf: &[u8]) -> io::Result<usize> {
        Ok(0)
    }

    fn flush(&mut self) -> io::Result<()> {
        self.flushes = self.flushes.saturating_add(1);
        if self.flushes == 1 {
            return Ok(());
        }
        Err(io::Error::from(io::ErrorKind::Other))
    }
}

fn fault_of<T>(read: &Result<T, ReadAllFault>) -> Option<ReadAllFault> {
    match read {
        Ok(_) => None,
        Err(fault) => Some(*fault),
    }
}

#[test]
fn a_long_input_is_read_whole(rt: HostRuntime) -> Result<(), Fail> {
    let mut bytes = Vec::new(rt.alloc());
    bytes.resize(150_000, b'#')?;
    let mut source = SteadySource::new(bytes.clone()?);
    let read = read_all(rt.alloc(), &mut source, 150_000)?;
    assert_eq!(rt; read.as_slice(), bytes.as_slice());
    Ok(())
}

#[test]
fn an_input_in_pieces(rt: HostRuntime) -> Result<(), Fail> {
    let fault = ReadAllFault::ReadFault;
    let cases = [
        (10, 0, None),
        (9, 0, Some(ReadAllFault::TooLong)),
        (0, 0, Some(ReadAllFault::TooLong)),
        (10, 2, Some(fault)),
        (10, 4, Some(fault)),
        (10, 5, None),
        (7, 4, Some(ReadAllFault::TooLong)),
    ];
    for (most, failing, want) in cases {
        let bytes = b"job a 0 4 ".to_vec(rt.alloc())?;
        let failing = [failing].to_vec(rt.alloc())?;
        let mut source = MemorySource::new(bytes, 4, failing);
        let read = read_all(rt.alloc(), &mut source, most);
        assert_eq!(rt; fault_of(&read), want, "at most {most}");
    }
    Ok(())
}

#[test]
fn a_piece_is_written_or_cut_short(rt: HostRuntime) -> Result<(), Fail> {
    let cases = [
        (20, 0, Ok(()), b"job a 0 4 8\n".as_slice()),
        (20, 2, Err(WriteFault), b"jo".as_slice()),
        (5, 0, Err(WriteFault), b"job a".as_slice()),
        (12, 7, Ok(()), b"job a 0 4 8\n".as_slice()),
    ];
    for (room, failing, want, held) in cases {
        let failing = [failing].to_vec(rt.alloc())?;
        let mut sink = MemorySink::with_room(rt.alloc(), room, 2, failing)?;
        assert_eq!(rt; write_all(&mut sink, b"job a 0 4 8\n"), want, "room {room}");
        assert_eq!(rt; sink.bytes(), held, "room {room}");
    }
    Ok(())
}

#[test]
fn flushes_are_numbered_with_the_writes(rt: HostRuntime) -> Result<(), Fail> {
    let failing = [2, 4].to_vec(rt.alloc())?;
    let mut sink = MemorySink::with_room(rt.alloc(), 9, 9, failing)?;
    assert_eq!(rt; sink.write(b"piece"), Given::Bytes(5));
    assert_eq!(rt; sink.flush(), Flushed::Failed);
    assert_eq!(rt; sink.flush(), Flushed::Done);
    assert_eq!(rt; sink.write(b"level"), Given::Failed);
    assert_eq!(rt; sink.write(b"level"), Given::Bytes(4));
    assert_eq!(rt; sink.bytes(), b"pieceleve".as_slice());
    Ok(())
}

#[test]
fn readers_of_std(rt: HostRuntime) -> Result<(), Fail> {
    let mut source = StdSource::new(b"point 0 1\n".as_slice());
    assert_eq!(rt;
        read_all(rt.alloc(), &mut source, 10)?.as_slice(),
        b"point 0 1\n".as_slice()
    );
    let mut broken = StdSource::new(Broken::new(3));
    let read = read_all(rt.alloc(), &mut broken, 10);
    assert_eq!(rt; fault_of(&read), Some(ReadAllFault::ReadFault));
    Ok(())
}

#[test]
fn writers_of_std(rt: HostRuntime) -> Result<(), Fail> {
    let mut held = Vec::new(rt.alloc());
    let mut sink = StdSink::new(&mut held);
    assert_eq!(rt; write_all(&mut sink, b"idle 0\n"), Ok(()));
    assert_eq!(rt; sink.flush(), Flushed::Done);
    assert_eq!(rt; held.as_slice(), b"idle 0\n".as_slice());
    Ok(())
}

/// The first flush is passed on, and the next one's error is a fault: of a sink that has not failed
/// before, and of one that has.
#[test]
fn flushes_of_std(rt: HostRuntime) -> Result<(), Fail> {
    let mut broken = Broken::new(0);
    let mut sink = StdSink::new(&mut broken);
    assert_eq!(rt; write_all(&mut sink, b""), Ok(()));
    assert_eq!(rt; sink.flush(), Flushed::Done);
    assert_eq!(rt; sink.flush(), Flushed::Failed);
    assert_eq!(rt; write_all(&mut sink, b"idle 0\n"), Err(WriteFault));
    assert_eq!(rt; sink.flush(), Flushed::Failed);
    assert_eq!(rt; broken.flushes, 3);
    Ok(())
}
