use overlay_command::Status;
use std::test::Fail;
use worked_calls::{
    ACTS_ONCE, DECLARATIONS, Failing, THREE_DELIVERIES, ended, joined, repeated, run_of,
};

// The most bytes of a scenario.
const MOST_BYTES: usize = 16_777_216;

#[test]
fn words_that_are_no_form_of_a_call(rt: HostRuntime) -> Result<(), Fail> {
    let forms: [&[&str]; 8] = [
        &[],
        &[""],
        &["run", "run"],
        &["run", "show"],
        &["Run"],
        &["shows"],
        &["trace", "run"],
        &["--help"],
    ];
    for words in forms {
        let call = ended(rt.alloc(), words, b"", &Failing::at(&[1], &[]))?;
        assert_eq!(rt; call.status, Status::Usage, "of {words:?}");
        assert_eq!(rt;
            call.written.as_slice(),
            b"usage: overlay run|trace|show\n".as_slice()
        );
    }
    Ok(())
}

#[test]
fn a_read_or_a_write_fails(rt: HostRuntime) -> Result<(), Fail> {
    let text = joined(rt.alloc(), &[DECLARATIONS, THREE_DELIVERIES])?;
    let whole = joined(rt.alloc(), &[DECLARATIONS, ACTS_ONCE])?;
    let cases: [(&[u64], &[u64], Status, &[u8]); 5] = [
        (&[1], &[], Status::ReadFault, b""),
        (&[2], &[], Status::ReadFault, b""),
        (&[], &[1], Status::WriteFault, b""),
        (&[], &[2], Status::WriteFault, DECLARATIONS.as_bytes()),
        (&[3], &[100], Status::Done, whole.as_slice()),
    ];
    for (failing_reads, failing_writes, status, written) in cases {
        let failing = Failing::at(failing_reads, failing_writes);
        let got = ended(rt.alloc(), &["run"], text.as_slice(), &failing)?;
        assert_eq!(rt;
            got.status,
            status,
            "at {failing_reads:?} and {failing_writes:?}"
        );
        assert_eq!(rt;
            got.written.as_slice(),
            written,
            "at {failing_reads:?} and {failing_writes:?}"
        );
    }
    Ok(())
}

#[test]
fn the_line_of_a_refusal_is_not_written(rt: HostRuntime) -> Result<(), Fail> {
    let forms: [&[&str]; 2] = [&["run"], &[]];
    for words in forms {
        let call = ended(rt.alloc(), words, b"", &Failing::at(&[], &[1]))?;
        assert_eq!(rt; call.status, Status::WriteFault, "of {words:?}");
        assert_eq!(rt; call.written.len(), 0);
    }
    Ok(())
}

#[test]
fn a_text_is_too_long(rt: HostRuntime) -> Result<(), Fail> {
    let mut text = joined(rt.alloc(), &[DECLARATIONS, THREE_DELIVERIES])?;
    let empty_lines = MOST_BYTES.saturating_sub(text.len());
    text.extend(repeated(rt.alloc(), b'\n', empty_lines)?.as_slice())?;
    let (status, written) = run_of(rt.alloc(), text.as_slice())?;
    assert_eq!(rt; (text.len(), status), (MOST_BYTES, Status::Done));
    assert_eq!(rt;
        written.as_slice(),
        joined(rt.alloc(), &[DECLARATIONS, ACTS_ONCE])?.as_slice()
    );

    text.extend(b"\n")?;
    let (status, written) = run_of(rt.alloc(), text.as_slice())?;
    assert_eq!(rt; status, Status::TooLong);
    assert_eq!(rt; written.as_slice(), b"too long\n".as_slice());
    Ok(())
}
