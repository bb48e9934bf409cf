use crate::made::{FETCH, Heard, SELF, To};
use crate::told::told;
use std::test::Fail;

const OWN: To = To::Resource(0x60);

const DESTINATION: u8 = 2;

// What the peer itself is asked, by the first case: an option that it would have to know, a message
// that isn't spelt, a signature that is another, an extension that it would have to know, anything
// else. Each alone, and then with the next.
#[test]
fn what_the_peer_itself_is_asked(rt: HostRuntime) -> Result<(), Fail> {
    let cases: [(&[u8], bool, bool, bool, &str); 8] = [
        (&[DESTINATION], false, false, false, "to 20: error 7\n"),
        (&[], true, false, false, "to 20: error 20\n"),
        (&[], false, true, false, "to 20: error 2\n"),
        (&[], false, false, true, "to 20: error 13\n"),
        (&[], false, false, false, "to 20: error 20\n"),
        (&[DESTINATION], true, false, false, "to 20: error 7\n"),
        (&[], true, false, true, "to 20: error 20\n"),
        (&[], false, true, true, "to 20: error 2\n"),
    ];
    for (flags, is_cut, is_spoilt, critical, wanted) in cases {
        let heard = Heard {
            dest: &[SELF],
            flags,
            is_cut,
            is_spoilt,
            critical,
            extension: Some(1),
            ..FETCH
        };
        let text = told(rt.alloc(), &heard)?;
        assert_eq!(rt; text.as_str(), wanted, "of {heard:?}");
    }
    Ok(())
}

// At a resource that it owns a Fetch is decided, whatever is wrong with it but for such an option.
#[test]
fn what_the_owner_of_a_resource_is_asked(rt: HostRuntime) -> Result<(), Fail> {
    let cases: [(&[u8], bool, bool, &str); 4] = [
        (&[DESTINATION], true, true, "to 20: error 7\n"),
        (&[], true, false, "decided\nto 20: error 2\n"),
        (&[], false, true, "decided\nto 20: error 13\n"),
        (&[], true, true, "decided\nto 20: error 2\n"),
    ];
    for (flags, is_spoilt, critical, wanted) in cases {
        let heard = Heard {
            dest: &[OWN],
            flags,
            is_spoilt,
            critical,
            extension: Some(1),
            ..FETCH
        };
        let text = told(rt.alloc(), &heard)?;
        assert_eq!(rt; text.as_str(), wanted, "of {heard:?}");
    }
    Ok(())
}
