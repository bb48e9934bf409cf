//! Tables of words, and what each spells.

use reload_base::{Bytes, List};
use std::test::Fail;
use text_words::*;

#[test]
fn decimals(rt: HostRuntime) -> Result<(), Fail> {
    let most = 1_000_000_000;
    let cases: [(&[u8], Option<u64>); 14] = [
        (b"0", Some(0)),
        (b"1", Some(1)),
        (b"9", Some(9)),
        (b"10", Some(10)),
        (b"9999", Some(9_999)),
        (b"1000000000", Some(1_000_000_000)),
        (b"1000000001", None),
        (b"99999999999999999999999999999999999999999999", None),
        (b"", None),
        (b"00", None),
        (b"01", None),
        (b"+1", None),
        (b"-1", None),
        (b"1 ", None),
    ];
    for (word, number) in cases {
        assert_eq!(rt; decimal_of(most, word), number, "at {word:?}");
    }
    assert_eq!(rt;
        decimal_of(u64::MAX, b"18446744073709551615"),
        Some(u64::MAX)
    );
    assert_eq!(rt; decimal_of(u64::MAX, b"18446744073709551616"), None);
    let mut out = List::new(rt.alloc());
    put_decimal(&mut out, 0)?;
    put_decimal(&mut out, 1_048_576)?;
    assert_eq!(rt; out.as_slice(), b"01048576".as_slice());
    Ok(())
}

#[test]
fn hex_words(rt: HostRuntime) -> Result<(), Fail> {
    let spelt: [(&[u8], &[u8]); 4] = [
        (b"", b""),
        (b"00", b"\x00"),
        (b"61ff", b"a\xff"),
        (b"0123456789abcdef", b"\x01\x23\x45\x67\x89\xab\xcd\xef"),
    ];
    for (word, bytes) in spelt {
        let found = hex_of(rt.alloc(), word)?;
        assert_eq!(rt; found.as_ref().map(Bytes::as_slice), Some(bytes));
        let mut out = List::new(rt.alloc());
        put_hex(&mut out, bytes)?;
        assert_eq!(rt; out.as_slice(), word);
    }
    let refused: [&[u8]; 6] = [b"0", b"abc", b"AB", b"aB", b"0x", b"a "];
    for word in refused {
        assert!(rt; hex_of(rt.alloc(), word)?.is_none());
    }
    Ok(())
}

#[test]
fn ids(rt: HostRuntime) -> Result<(), Fail> {
    let spelt: [(&[u8], u128); 3] = [
        (b"00000000000000000000000000000000", 0),
        (
            b"0123456789abcdef0011223344556677",
            0x0123_4567_89ab_cdef_0011_2233_4455_6677,
        ),
        (b"ffffffffffffffffffffffffffffffff", u128::MAX),
    ];
    for (word, id) in spelt {
        assert_eq!(rt; id_of(word), Some(id));
        let mut out = List::new(rt.alloc());
        put_id(&mut out, id)?;
        assert_eq!(rt; out.as_slice(), word);
    }
    let refused: [&[u8]; 5] = [
        b"",
        b"0123456789abcdef001122334455667",
        b"0123456789abcdef00112233445566778",
        b"0123456789ABCDEF0011223344556677",
        b"0123456789abcdef001122334455667g",
    ];
    for word in refused {
        assert_eq!(rt; id_of(word), None);
    }
    Ok(())
}

#[test]
fn names(rt: HostRuntime) {
    let sixty_four = [b'n'; 64];
    let sixty_five = [b'n'; 65];
    let cases: [(&[u8], bool); 8] = [
        (b"!", true),
        (b"~", true),
        (b"user@example.org", true),
        (&sixty_four, true),
        (&sixty_five, false),
        (b"", false),
        (b"a b", false),
        (b"a\x7f", false),
    ];
    for (word, is) in cases {
        assert_eq!(rt; is_name(word), is);
    }
}

#[test]
fn separators(rt: HostRuntime) {
    assert_eq!(rt; behind(b"peer ", b"peer 1"), Some(b"1".as_slice()));
    assert_eq!(rt; behind(b"peer ", b"peer"), None);
    assert_eq!(rt; behind(b"", b"x"), Some(b"x".as_slice()));
    assert_eq!(rt; behind(b"a", b"ba"), None);
    let (before, rest) = upto(b':', b"a:b:c").unwrap_or((b"", b""));
    assert_eq!(rt; before, b"a".as_slice());
    assert_eq!(rt; rest, b"b:c".as_slice());
    assert!(rt; upto(b':', b"abc").is_none());
}

#[test]
fn lines(rt: HostRuntime) -> Result<(), Fail> {
    let (line, rest) = first_line(b"# one\n\nlast").unwrap_or((b"", b""));
    assert_eq!(rt; line, b"# one".as_slice());
    assert_eq!(rt; rest, b"\nlast".as_slice());
    assert!(rt; first_line(b"last").is_none());
    let cases: [(&[u8], bool, bool); 6] = [
        (b"", true, true),
        (b"#", true, true),
        (b"# peer", true, true),
        (b" ", true, false),
        (b"peer 1 #", true, false),
        (b"caf\xc3\xa9", false, false),
    ];
    for (line, is_sound, is_passed) in cases {
        assert_eq!(rt; is_sound_line(line), is_sound);
        assert_eq!(rt; is_passed_over(line), is_passed);
    }
    let longest = vec![in rt.alloc(); b'a'; 400_001]?;
    assert!(rt; !is_sound_line(longest.as_slice()));
    assert!(rt; is_sound_line(longest.as_slice().split_at(400_000).0));
    Ok(())
}

#[test]
fn transactions(rt: HostRuntime) -> Result<(), Fail> {
    let spelt: [(&[u8], u64); 3] = [
        (b"0.0", 0),
        (b"2.1", 8_589_934_593),
        (b"4294967295.4294967295", u64::MAX),
    ];
    for (word, id) in spelt {
        assert_eq!(rt; transaction_of(word), Some(id));
        let mut out = List::new(rt.alloc());
        put_transaction(&mut out, id)?;
        assert_eq!(rt; out.as_slice(), word);
    }
    let refused: [&[u8]; 5] = [b"1", b".1", b"1.", b"4294967296.0", b"1.2.3"];
    for word in refused {
        assert_eq!(rt; transaction_of(word), None);
    }
    Ok(())
}

#[test]
fn numbers_in_hex(rt: HostRuntime) -> Result<(), Fail> {
    assert_eq!(rt; number_in_hex_of(b"d2454c4f"), Some(0xD245_4C4F));
    let mut out = List::new(rt.alloc());
    put_number_in_hex(&mut out, 0xD245_4C4F)?;
    assert_eq!(rt; out.as_slice(), b"d2454c4f".as_slice());
    let refused: [&[u8]; 4] = [b"", b"d2454c4", b"d2454c4f0", b"D2454C4F"];
    for word in refused {
        assert_eq!(rt; number_in_hex_of(word), None);
    }
    Ok(())
}

#[test]
fn words(rt: HostRuntime) {
    let mut line = words_of(b"a bc  d");
    assert_eq!(rt; line.first(), Some(b"a".as_slice()));
    assert_eq!(rt; line.take(), Some(b"a".as_slice()));
    assert_eq!(rt; line.take(), Some(b"bc".as_slice()));
    assert_eq!(rt; line.take(), Some(b"".as_slice()));
    assert!(rt; !line.is_empty());
    assert_eq!(rt; line.take(), Some(b"d".as_slice()));
    assert!(rt; line.is_empty());
    assert_eq!(rt; line.take(), None);
    assert_eq!(rt; words_of(b"alone").only(), Some(b"alone".as_slice()));
    assert_eq!(rt; words_of(b"not alone").only(), None);
}

#[test]
fn labels(rt: HostRuntime) -> Result<(), Fail> {
    assert_eq!(rt; number_of(1, 9, b"0"), None);
    assert_eq!(rt; number_of(1, 9, b"9"), Some(9));
    assert_eq!(rt; labelled_of(b"max=", 9, b"max=9"), Some(9));
    assert_eq!(rt; labelled_of(b"max=", 9, b"max=10"), None);
    let mut line = words_of(b"max=7 256");
    assert_eq!(rt; take_labelled(&mut line, b"ttl=", 9), Some(None));
    assert_eq!(rt; take_labelled(&mut line, b"max=", 9), Some(Some(7)));
    assert_eq!(rt; line.take(), Some(b"256".as_slice()));
    assert_eq!(rt; take_labelled(&mut words_of(b"max=x"), b"max=", 9), None);
    assert_eq!(rt; at_name_of(b"@abc"), Some(b"abc".as_slice()));
    assert_eq!(rt; at_name_of(b"@"), None);
    assert!(rt; key_name_of(rt.alloc(), b"=5")?.is_none());
    let mut out = List::new(rt.alloc());
    put_labelled(&mut out, b"max=", 7)?;
    put_at_name(&mut out, b"abc")?;
    put_key_name(&mut out, b"P")?;
    assert_eq!(rt; out.as_slice(), b"max=7@abc=50".as_slice());
    Ok(())
}

#[test]
fn lists_in_a_word(rt: HostRuntime) -> Result<(), Fail> {
    let word: &[u8] = b"3-3,0-4294967295";
    let ranges = ranges_of(rt.alloc(), word)?.ok_or("ranges")?;
    assert_eq!(rt; ranges.as_slice(), [(3, 3), (0, 4_294_967_295)].as_slice());
    let mut out = List::new(rt.alloc());
    put_ranges(&mut out, ranges.as_slice())?;
    assert_eq!(rt; out.as_slice(), word);
    let keys: &[u8] = b"=50,=,=6261";
    let names = key_names_of(rt.alloc(), keys)?.ok_or("names")?;
    assert_eq!(rt; names.len(), 3);
    let mut out = List::new(rt.alloc());
    put_key_names(&mut out, names.as_slice())?;
    assert_eq!(rt; out.as_slice(), keys);
    let refused: [&[u8]; 5] = [b"", b"1", b"1-2,", b"1-4294967296", b"1-2;3-4"];
    for word in refused {
        assert!(rt; ranges_of(rt.alloc(), word)?.is_none());
        assert!(rt; key_names_of(rt.alloc(), word)?.is_none());
    }
    Ok(())
}
