use reload_base::{
    Air, Bytes, Got, List, MemoryAir, MemorySink, MemorySource, ReadError, Room, Sent, Sink,
    Source, StdSink, StdSource, Took, TryCopy, WriteError, Wrote, read_all, write_all,
};
use std::alloc::{AllocError, Global};
use std::io;
use std::io::{ErrorKind, Read, Write};
use std::test::Fail;

/// A reader whose second read fails.
#[derive(Drop)]
struct FailsOnce {
    reads: u8,
}

impl Read for FailsOnce {
    fn read(&mut self, buf: &mut [u8]) -> io::Result<usize> {
        self.reads = self.reads.saturating_add(1);
        if self.reads == 2 {
            return Err(io::Error::from(ErrorKind::Interrupted));
        }
        if buf.is_empty() {
            return Ok(0);
        }
        buf[0] = self.reads;
        Ok(1)
    }
}

/// A writer whose writes all fail.
#[derive(Drop)]
struct Broken;

impl Write for Broken {
    fn write(&mut self, _buf: &[u8]) -> io::Result<usize> {
        Err(io::Error::from(ErrorKind::BrokenPipe))
    }

    fn flush(&mut self) -> io::Result<()> {
        Ok(())
    }
}

fn numbers(alloc: Global, count: u8) -> Result<List<u8>, AllocError> {
    let mut vec = Vec::new(alloc);
    for i in 0..count {
        vec.push(i)?;
    }
    Ok(List::from_vec(vec))
}

#[test]
fn a_list_keeps_the_newest(rt: HostRuntime) -> Result<(), Fail> {
    let mut list = numbers(rt.alloc(), 2)?;
    list.push_within(3, 7)?;
    assert_eq!(rt; list.as_slice(), [0, 1, 7].as_slice());
    list.push_within(3, 8)?;
    assert_eq!(rt; list.as_slice(), [1, 7, 8].as_slice());
    let copy = list.copy(rt.alloc())?;
    list.insert(1, 9)?;
    list.set(0, 5);
    assert_eq!(rt; list.as_slice(), [5, 9, 7, 8].as_slice());
    assert_eq!(rt; copy.as_slice(), [1, 7, 8].as_slice());
    assert_eq!(rt; list.pop(), Some(8));
    list.truncate(1);
    assert_eq!(rt; (list.len(), list.get(0), list.get(1)), (1, Some(&5), None));
    Ok(())
}

#[test]
fn a_room_takes_items(rt: HostRuntime) -> Result<(), Fail> {
    let Ok(mut room) = Room::new(numbers(rt.alloc(), 2)?, 2) else {
        return Err(Fail::from(AllocError));
    };
    room.push(4)?;
    room.insert(0, 3)?;
    room.set(1, 6);
    assert_eq!(rt; room.as_slice(), [3, 6, 1, 4].as_slice());
    assert_eq!(rt; room.into_list().len(), 4);
    Ok(())
}

#[test]
fn a_source_over_a_reader(rt: HostRuntime) -> Result<(), Fail> {
    let mut whole = StdSource::new(b"reload".as_slice());
    let text = read_all(rt.alloc(), &mut whole, 6)?;
    assert_eq!(rt; text.as_slice(), b"reload".as_slice());

    let mut faulty = StdSource::new(FailsOnce { reads: 0 });
    let mut buf = [0; 4];
    assert_eq!(rt; faulty.read(&mut buf), Took::Some(1));
    assert_eq!(rt; faulty.read(&mut buf), Took::Failed);
    assert_eq!(rt; buf, [1, 0, 0, 0]);
    assert_eq!(rt; faulty.read(&mut buf), Took::Some(1));
    assert_eq!(rt; buf, [3, 0, 0, 0]);
    Ok(())
}

#[test]
fn a_sink_over_a_writer(rt: HostRuntime) -> Result<(), Fail> {
    let mut room = [0; 4];
    let mut full = StdSink::new(room.as_mut_slice());
    assert_eq!(rt; full.write(b"reload"), Wrote::Some(4));
    assert_eq!(rt; full.write(b"ad"), Wrote::Failed, "no room is left");
    let mut broken = StdSink::new(Broken);
    assert_eq!(rt; write_all(&mut broken, b"a"), Err(WriteError::Failed));
    assert_eq!(rt;
        write_all(&mut broken, b""),
        Ok(()),
        "an empty piece writes nothing"
    );
    Ok(())
}

#[test]
fn a_source_in_memory(rt: HostRuntime) -> Result<(), Fail> {
    let mut source = MemorySource::new(rt.alloc(), b"reload", &[2, 4])?;
    let mut buf = [0; 4];
    let mut calls = [Took::Failed; 5];
    for call in calls.iter_mut() {
        *call = source.read(&mut buf);
    }
    let want = [
        Took::Some(4),
        Took::Failed,
        Took::Some(2),
        Took::Failed,
        Took::Some(0),
    ];
    assert_eq!(rt; calls, want);
    assert_eq!(rt; buf, *b"adlo");

    let cases: [(&[u64], usize, Result<&[u8], ReadError>); 5] = [
        (&[], 6, Ok(b"reload")),
        (&[], 5, Err(ReadError::TooLong)),
        (&[1], 6, Err(ReadError::Failed)),
        (&[2], 6, Err(ReadError::Failed)),
        (&[3], 6, Ok(b"reload")),
    ];
    for (fail, most, want) in cases {
        let mut source = MemorySource::new(rt.alloc(), b"reload", fail)?;
        let got = read_all(rt.alloc(), &mut source, most);
        assert_eq!(rt;
            got.as_ref().map(|text| text.as_slice()).map_err(|e| *e),
            want
        );
    }
    Ok(())
}

#[test]
fn a_sink_in_memory(rt: HostRuntime) -> Result<(), Fail> {
    let mut sink = MemorySink::new(rt.alloc(), &[2])?;
    assert_eq!(rt; sink.write(b"rel"), Wrote::Some(3));
    assert_eq!(rt; write_all(&mut sink, b"oad"), Err(WriteError::Failed));
    assert_eq!(rt; sink.as_slice(), b"rel".as_slice());
    assert_eq!(rt; write_all(&mut sink, b"oad"), Ok(()));
    assert_eq!(rt; sink.as_slice(), b"reload".as_slice());
    Ok(())
}

#[test]
fn an_air_in_memory(rt: HostRuntime) -> Result<(), Fail> {
    let mut air = MemoryAir::new(rt.alloc(), &[2])?;
    let sends: [(u32, u32, &[u8], Sent, u64, u64); 4] = [
        (1, 2, b"reload", Sent::Ok, 1, 6),
        (2, 1, b"lost", Sent::Failed, 1, 6),
        (2, 1, b"ack", Sent::Ok, 2, 9),
        (1, 3, b"ack", Sent::Ok, 3, 12),
    ];
    for (from, to, bytes, want, frames, size) in sends {
        assert!(rt; !bytes.is_empty() && bytes.len() < 9 && air.size() < 99);
        assert_eq!(rt; air.send(rt.alloc(), from, to, bytes), want);
        assert_eq!(rt; (air.frames(), air.size()), (frames, size));
    }
    let frames: [(u64, u32, u32, &[u8]); 4] = [
        (3, 1, 3, b"ack"),
        (1, 1, 2, b"reload"),
        (2, 2, 1, b"ack"),
        (1, 1, 2, b"reload"),
    ];
    for (k, from, to, bytes) in frames {
        assert!(rt; 0 < k && k <= air.frames());
        let Got::Frame(frame) = air.frame(rt.alloc(), k) else {
            return Err(Fail::from(AllocError));
        };
        assert_eq!(rt;
            (frame.from, frame.to, frame.bytes.as_slice()),
            (from, to, bytes)
        );
    }
    assert_eq!(rt; (air.frames(), air.size()), (3, 12));
    Ok(())
}
