use reload_ids::*;
use std::test::*;

#[test]
fn hashes(rt: HostRuntime) {
    assert_eq!(rt; resource_of(b"abc").0, 0xa9993e364706816aba3e25717850c26c);
    assert_eq!(rt; resource_of(b"a").0, 0x86f7e437faa5a7fce15d1ddcb9eaeaea);
    assert_eq!(rt; resource_of(b"test").0, 0xa94a8fe5ccb19ba61c4c0873d391e987);
    assert_eq!(rt; overlay_of(b"abc"), 0x9cd0d89d);
    assert_eq!(rt; overlay_of(b"a"), 0x377667b8);
    assert_eq!(rt; overlay_of(b"test"), 0x982fbbd3);
}

#[test]
fn the_ring(rt: HostRuntime) {
    assert_eq!(rt; distance(3, 5), 2);
    assert_eq!(rt; distance(5, 3), u128::MAX - 1);
    assert_eq!(rt; distance(u128::MAX, 0), 1);
    assert_eq!(rt; distance(7, 7), 0);
    for k in [0, 6, 7, 8, u128::MAX] {
        assert!(rt; between(7, k, 7));
    }
    assert!(rt; between(3, 5, 5));
    assert!(rt; !between(3, 3, 5));
    assert!(rt; !between(3, 6, 5));
    assert!(rt; between(u128::MAX, 0, 5));
}

#[test]
fn shares(rt: HostRuntime) {
    assert_eq!(rt; ppb(1 << 127), 500_000_000);
    assert_eq!(rt; ppb(0), 0);
    assert_eq!(rt; ppb(u128::MAX), 999_999_999);
}
