use overlay_command::Status;
use std::process::Abort;
use std::test::Fail;
use worked_calls::{DECLARATIONS, Failing, THREE_DELIVERIES, ended, joined};

const DECIDED: &str =
    "decide 1 0 a9993e364706816aba3e25717850c26c store 2 2.1 kind=256/0 -:5000:60:+6869:2:96 \
    -> ok 256:1\n";

// What three deliveries write behind the declarations, piece by piece, without the end.
const PIECES: [&str; 4] = [DECIDED, DECIDED, DECIDED, "answer 2.1 ok 256:1\n"];

// That three deliveries stop with a status, behind so many of the pieces and so many frames.
fn assert_stopped(
    rt: &(impl Abort + AllocGlobal),
    failing: &Failing<'_>,
    status: Status,
    pieces: usize,
    frames: u64,
) -> Result<(), Fail> {
    let text = joined(rt.alloc(), &[DECLARATIONS, THREE_DELIVERIES])?;
    let call = ended(rt.alloc(), &["run"], text.as_slice(), failing)?;
    let mut lines = joined(rt.alloc(), &[DECLARATIONS])?;
    let (before, _) = PIECES.split_at(pieces.min(PIECES.len()));
    lines.extend(joined(rt.alloc(), before)?.as_slice())?;
    assert_eq!(rt; (call.status, call.frames), (status, frames));
    assert_eq!(rt; call.written.as_slice(), lines.as_slice());
    Ok(())
}

// The frames of each event: the Store, three deliveries of it with an ack and an answer each, and
// three acks of the answers. The frames of an event are sent before its lines are written.
#[test]
fn an_air_fails_at_each_send(rt: HostRuntime) -> Result<(), Fail> {
    let cases = [
        (1, 0),
        (2, 0),
        (3, 0),
        (4, 1),
        (5, 1),
        (6, 2),
        (7, 2),
        (8, 3),
        (9, 3),
        (10, 3),
    ];
    for (send, pieces) in cases {
        let sends = [send];
        let failing = Failing {
            reads: &[],
            writes: &[],
            sends: &sends,
        };
        assert_stopped(
            &rt,
            &failing,
            Status::LinkFault,
            pieces,
            send.saturating_sub(1),
        )?;
    }
    Ok(())
}

// The frames of the events up to the piece that couldn't be written were sent.
#[test]
fn a_sink_fails_at_each_write(rt: HostRuntime) -> Result<(), Fail> {
    let cases = [(2, 0, 3), (3, 1, 5), (4, 2, 7), (5, 3, 10), (6, 4, 10)];
    for (write, pieces, frames) in cases {
        let writes = [write];
        let failing = Failing::at(&[], &writes);
        assert_stopped(&rt, &failing, Status::WriteFault, pieces, frames)?;
    }
    Ok(())
}
