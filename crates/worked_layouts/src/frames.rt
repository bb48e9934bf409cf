use link_framing::{Acks, Frame, FrameFault, FrameReader, encode_frame};
use reload_base::Bytes;
use std::alloc::Global;
use std::test::Fail;
use wire_core::MAX_MESSAGE;

/// A payload of sequence 1 with the message `abc`, and its ack.
const STREAM: [u8; 20] = [
    0x80, 0, 0, 0, 1, 0, 0, 3, 0x61, 0x62, 0x63, 0x81, 0, 0, 0, 1, 0, 0, 0, 0,
];

fn feed(reader: &mut FrameReader, piece: &[u8]) -> Result<(), Fail> {
    if reader.fed() > 1_000_000 || piece.len() > 1_000_000 {
        return Err(Fail::from("a long stream"));
    }
    reader.feed(piece)?;
    Ok(())
}

/// The bytes of a frame, whose message isn't too large.
fn spelled(alloc: Global, frame: &Frame) -> Result<Bytes, Fail> {
    match frame {
        Frame::Payload { message, .. } if message.len() > MAX_MESSAGE as usize => Err(Fail::from(
            "a large message",
        )),
        _ => Ok(encode_frame(alloc, frame)?),
    }
}

/// Takes the frames that are whole, at most three, and adds their bytes.
fn take_all(alloc: Global, reader: &mut FrameReader, out: &mut Bytes) -> Result<(), Fail> {
    for _ in 0..3 {
        let Some(frame) = reader.take()? else {
            break;
        };
        out.extend(spelled(alloc, &frame)?.as_slice())?;
    }
    Ok(())
}

#[test]
fn a_stream_byte_by_byte(rt: HostRuntime) -> Result<(), Fail> {
    let mut reader = FrameReader::new(rt.alloc());
    for (i, byte) in STREAM.iter().enumerate() {
        assert_eq!(rt; reader.fed(), i as u64);
        feed(&mut reader, &[*byte])?;
        match reader.take()? {
            Some(Frame::Payload { sequence, message }) => {
                assert_eq!(rt;
                    (i, sequence, message.as_slice()),
                    (10, 1, b"abc".as_slice())
                );
            }
            Some(Frame::Ack { sequence, received }) => {
                assert_eq!(rt; (i, sequence, received), (19, 1, 0));
            }
            None => assert!(rt; i != 10 && i != 19, "no frame at {i}"),
        }
        assert_eq!(rt; reader.kept(), if i < 10 { i + 1 } else { (i - 10) % 9 });
    }
    Ok(())
}

#[test]
fn a_stream_cut_anywhere(rt: HostRuntime) -> Result<(), Fail> {
    for cut in 0..=20 {
        let mut reader = FrameReader::new(rt.alloc());
        let mut out = Bytes::new(rt.alloc());
        let (front, rest) = STREAM.split_at(cut);
        feed(&mut reader, front)?;
        take_all(rt.alloc(), &mut reader, &mut out)?;
        let taken = match cut {
            0..=10 => 0,
            11..=19 => 11,
            _ => 20,
        };
        assert_eq!(rt; out.len(), taken, "cut at {cut}");
        feed(&mut reader, rest)?;
        take_all(rt.alloc(), &mut reader, &mut out)?;
        assert_eq!(rt; out.as_slice(), STREAM.as_slice(), "cut at {cut}");
        assert_eq!(rt; reader.wanted(), 8);
    }
    Ok(())
}

#[test]
fn the_largest_message_and_one_more(rt: HostRuntime) -> Result<(), Fail> {
    let frame = Frame::Payload {
        sequence: 1,
        message: Bytes::from_vec(vec![in rt.alloc(); 0x61; 262_144]?),
    };
    let bytes = spelled(rt.alloc(), &frame)?;
    let mut reader = FrameReader::new(rt.alloc());
    let (front, last) = bytes.as_slice().split_at(bytes.len().saturating_sub(1));
    feed(&mut reader, front)?;
    assert!(rt; reader.take()?.is_none());
    assert_eq!(rt; reader.wanted(), 1);
    feed(&mut reader, last)?;
    let Some(Frame::Payload { message, .. }) = reader.take()? else {
        return Err(Fail::from("no payload"));
    };
    assert_eq!(rt; message.len(), 262_144);

    let start = reader.fed();
    feed(&mut reader, &[0x80, 0, 0, 0, 1, 4, 0])?;
    assert!(rt; reader.take()?.is_none());
    for _ in 0..3 {
        feed(&mut reader, &[1])?;
        assert_eq!(rt;
            reader.take().err(),
            Some(FrameFault::TooLarge(start.saturating_add(5)))
        );
        assert_eq!(rt; reader.wanted(), 0);
    }
    Ok(())
}

#[test]
fn other_types_of_frames(rt: HostRuntime) -> Result<(), Fail> {
    for code in [127, 130, 0, 255] {
        let mut reader = FrameReader::new(rt.alloc());
        let mut out = Bytes::new(rt.alloc());
        feed(&mut reader, &STREAM)?;
        take_all(rt.alloc(), &mut reader, &mut out)?;
        for _ in 0..3 {
            feed(&mut reader, &[code])?;
            assert_eq!(rt; reader.take().err(), Some(FrameFault::BadType(20)));
            assert_eq!(rt; reader.wanted(), 0);
        }
    }
    Ok(())
}

#[test]
fn what_is_wanted(rt: HostRuntime) -> Result<(), Fail> {
    let cases: [(&[u8], u64); 20] = [
        (&[], 8),
        (&[0x80], 7),
        (&[0x80, 0, 0, 0, 1], 3),
        (&[0x80, 0, 0, 0, 1, 1], 2 + 65_536),
        (&[0x80, 0, 0, 0, 1, 4], 2 + 262_144),
        (&[0x80, 0, 0, 0, 1, 5], 2),
        (&[0x80, 0, 0, 0, 1, 4, 0], 1 + 262_144),
        (&[0x80, 0, 0, 0, 1, 4, 1], 1),
        (&[0x80, 0, 0, 0, 1, 0, 0, 3], 3),
        (&[0x80, 0, 0, 0, 1, 0, 0, 3, 0x61, 0x62, 0x63, 0x81], 0),
        (&[0x81], 8),
        (&[0x81, 0], 7),
        (&[0x81, 0, 0], 6),
        (&[0x81, 0, 0, 0], 5),
        (&[0x81, 0, 0, 0, 1], 4),
        (&[0x81, 0, 0, 0, 1, 0], 3),
        (&[0x81, 0, 0, 0, 1, 0, 0], 2),
        (&[0x81, 0, 0, 0, 1, 0, 0, 0], 1),
        (&[0x81, 0, 0, 0, 1, 0, 0, 0, 0], 0),
        (&[0x7f], 0),
    ];
    for (bytes, want) in cases {
        let mut reader = FrameReader::new(rt.alloc());
        feed(&mut reader, bytes)?;
        assert_eq!(rt; reader.wanted(), want, "after {bytes:?}");
        if want > 0 {
            assert!(rt; reader.take()?.is_none(), "after {bytes:?}");
        }
    }
    Ok(())
}

#[test]
fn masks_of_acks(rt: HostRuntime) -> Result<(), Fail> {
    let mut acks = Acks::new(rt.alloc());
    let heard: [(u32, u32); 8] = [
        (0, 0),
        (1, 0b10),
        (31, 0xc000_0000),
        (32, 0x8000_0002),
        (u32::MAX, 0),
        (u32::MAX - 2, 0),
        (30, 0x6000_0000),
        (33, 0b1110),
    ];
    for (n, want) in heard {
        assert_eq!(rt; acks.hear(n)?, want, "payload {n}");
    }
    let now: [(u32, u32); 5] = [
        (2, 0b110),
        (31, 0xc000_0002),
        (32, 0x8000_0006),
        (u32::MAX, 0b100),
        (64, 0x8000_0000),
    ];
    for (n, want) in now {
        assert_eq!(rt; acks.mask(n), want, "payload {n}");
    }
    Ok(())
}
