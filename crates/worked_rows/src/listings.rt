use overlay_command::Status;
use std::process::Abort;
use std::test::Fail;
use worked_calls::{Failing, ended, repeated, show_of};

// A payload of sequence 1 with the message `abc`, which is too short for a header, and its ack.
const ABC_AND_ACK: [u8; 20] = [
    0x80, 0, 0, 0, 1, 0, 0, 3, 0x61, 0x62, 0x63, 0x81, 0, 0, 0, 1, 0, 0, 0, 0,
];

// A payload of sequence 9 whose message is a Ping without lists, padding and certificates, which
// nobody signed, and the ack of sequence 32.
const MESSAGE_AND_ACK: [u8; 76] = [
    0x80, 0, 0, 0, 9, 0, 0, 59, 0xd2, 0x45, 0x4c, 0x4f, 0x9c, 0xd0, 0xd8, 0x9d, 0, 1, 0x0a, 100,
    0xc0, 0, 0, 0, 0, 0, 0, 59, 0, 0, 0, 2, 0, 0, 0, 1, 0, 0, 0x10, 0, 0, 0, 0, 0, 0, 0, 0, 23, 0,
    0, 0, 2, 0, 0, 0, 0, 0, 0, 0, 0, 0, 0, 3, 0, 0, 0, 0, 0x81, 0, 0, 0, 32, 0x80, 0, 0, 2,
];

const FRAME_LINES: &str = "frame 0 payload 9 59\n";

const HEADER_LINES: &str = "frame 0 payload 9 59\n\
    message overlay=9cd0d89d seq=1 ttl=100 length=59 id=2.1 max=4096 via=0 dest=0 options=0\n";

const CONTENTS_LINES: &str = "frame 0 payload 9 59\n\
    message overlay=9cd0d89d seq=1 ttl=100 length=59 id=2.1 max=4096 via=0 dest=0 options=0\n\
    contents code=23 body=2 extensions=0\n";

const MESSAGE_LINES: &str = "frame 0 payload 9 59\n\
    message overlay=9cd0d89d seq=1 ttl=100 length=59 id=2.1 max=4096 via=0 dest=0 options=0\n\
    contents code=23 body=2 extensions=0\n\
    security certificates=0 identity=3 value=0\n";

const WHOLE_LINES: &str = "frame 0 payload 9 59\n\
    message overlay=9cd0d89d seq=1 ttl=100 length=59 id=2.1 max=4096 via=0 dest=0 options=0\n\
    contents code=23 body=2 extensions=0\n\
    security certificates=0 identity=3 value=0\n\
    frame 67 ack 32 80000002\n";

// That a stream is listed so, and ends with this status.
fn assert_listed(
    rt: &(impl Abort + AllocGlobal),
    stream: &[u8],
    lines: &str,
    status: Status,
) -> Result<(), Fail> {
    let (got, written) = show_of(rt.alloc(), stream)?;
    assert_eq!(rt; got, status, "of {stream:?}");
    assert_eq!(rt; written.as_slice(), lines.as_bytes(), "of {stream:?}");
    Ok(())
}

#[test]
fn streams_have_their_listings(rt: HostRuntime) -> Result<(), Fail> {
    let (abc, ack) = ABC_AND_ACK.split_at(11);
    let cases: [(&[u8], &str, Status); 4] = [
        (b"", "end 0 0\n", Status::Done),
        (ack, "frame 0 ack 1 00000000\nend 1 9\n", Status::Done),
        (abc, "frame 0 payload 1 3\nbad 11 short\n", Status::BadBytes),
        (
            &ABC_AND_ACK,
            "frame 0 payload 1 3\nbad 11 short\n",
            Status::BadBytes,
        ),
    ];
    for (stream, lines, status) in cases {
        assert_listed(&rt, stream, lines, status)?;
    }
    Ok(())
}

#[test]
fn a_fault_has_its_place_in_the_stream(rt: HostRuntime) -> Result<(), Fail> {
    let cases = [
        (0, 0x7f, "", "bad 0 bad-value\n"),
        (5, 4, "", "bad 5 too-large\n"),
        (7, 58, "frame 0 payload 9 58\n", "bad 24 length-past\n"),
        (7, 60, "frame 0 payload 9 60\n", "bad 67 trailing\n"),
        (8, 0, FRAME_LINES, "bad 8 bad-value\n"),
        (18, 9, FRAME_LINES, "bad 18 bad-value\n"),
        (40, 0x11, FRAME_LINES, "bad 40 too-large\n"),
        (41, 1, FRAME_LINES, "bad 46 bad-value\n"),
        (41, 30, FRAME_LINES, "bad 40 length-past\n"),
        (51, 1, HEADER_LINES, "bad 53 short\n"),
        (57, 1, HEADER_LINES, "bad 59 short\n"),
        (62, 4, CONTENTS_LINES, "bad 62 bad-value\n"),
        (66, 1, CONTENTS_LINES, "bad 65 length-past\n"),
        (67, 0, MESSAGE_LINES, "bad 67 bad-value\n"),
    ];
    for (at, byte, lines, fault) in cases {
        let mut stream = MESSAGE_AND_ACK;
        stream[at] = byte;
        let listing = format!(in rt.alloc(); "{lines}{fault}")?;
        assert_listed(&rt, &stream, &listing, Status::BadBytes)?;
    }
    Ok(())
}

#[test]
fn a_stream_that_ends_anywhere(rt: HostRuntime) -> Result<(), Fail> {
    for len in 0..=MESSAGE_AND_ACK.len() {
        let (lines, frames) = match len {
            0..=66 => ("", 0),
            67..=75 => (MESSAGE_LINES, 1),
            _ => (WHOLE_LINES, 2),
        };
        let is_whole = matches!(len, 0 | 67 | 76);
        let last = if is_whole {
            format!(in rt.alloc(); "end {frames} {len}")?
        } else {
            format!(in rt.alloc(); "bad {len} short")?
        };
        let status = if is_whole {
            Status::Done
        } else {
            Status::BadBytes
        };
        let listing = format!(in rt.alloc(); "{lines}{last}\n")?;
        let (stream, _) = MESSAGE_AND_ACK.split_at(len);
        assert_listed(&rt, stream, &listing, status)?;
    }
    Ok(())
}

#[test]
fn a_listing_is_one_piece(rt: HostRuntime) -> Result<(), Fail> {
    let cases: [(&[u64], &[u64], Status); 4] = [
        (&[1], &[], Status::ReadFault),
        (&[2], &[], Status::ReadFault),
        (&[], &[1], Status::WriteFault),
        (&[3], &[2], Status::Done),
    ];
    for (failing_reads, failing_writes, status) in cases {
        let failing = Failing::at(failing_reads, failing_writes);
        let call = ended(rt.alloc(), &["show"], &MESSAGE_AND_ACK, &failing)?;
        assert_eq!(rt;
            call.status,
            status,
            "at {failing_reads:?} and {failing_writes:?}"
        );
        let is_written = status == Status::Done;
        assert_eq!(rt; call.written.is_empty(), !is_written);
    }
    Ok(())
}

#[test]
fn a_stream_is_too_long(rt: HostRuntime) -> Result<(), Fail> {
    let stream = repeated(rt.alloc(), 0x81, 16_777_217)?;
    let (status, written) = show_of(rt.alloc(), stream.as_slice())?;
    assert_eq!(rt; status, Status::TooLong);
    assert_eq!(rt; written.as_slice(), b"too long\n".as_slice());
    Ok(())
}
