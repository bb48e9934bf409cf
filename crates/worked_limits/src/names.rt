use crate::user_kinds::widest;
use data_models::{Selector, Specifier};
use reload_base::{Bytes, List, NoMemory};
use std::alloc::Global;
use std::test::Fail;
use wire_core::Spell;
use worked_requests::Owner;

/// The code of a Store of a value without bytes under a key of so many bytes. `None` where it has
/// no spelling.
fn stored(alloc: Global, bytes: usize) -> Result<Option<u16>, NoMemory> {
    let key = "61".repeat(alloc, bytes)?;
    let line = format!(in alloc; "store @abc kind=258/0 ={key}:1:60:+")?;
    Owner::new(alloc, &widest())?.answer(alloc, &[], &line)
}

/// The code of a Fetch of a key of so many bytes. `None` where it has no spelling.
fn fetched(alloc: Global, bytes: usize) -> Result<Option<u16>, NoMemory> {
    let key = "61".repeat(alloc, bytes)?;
    let line = format!(in alloc; "fetch @abc 258:={key}")?;
    Owner::new(alloc, &widest())?.answer(alloc, &[], &line)
}

/// Whether a specifier of a key of so many bytes has a spelling.
fn specified(alloc: Global, bytes: usize) -> Result<bool, NoMemory> {
    let mut names = List::new(alloc);
    names.push(Bytes::from_vec(vec![in alloc; b'a'; bytes]?))?;
    let specifier = Specifier {
        kind: 258,
        generation: 0,
        selector: Selector::Names(names),
    };
    Ok(specifier.fits())
}

/// A record holds 65,440 bytes of a key, since its weight counts a key twice.
#[test]
fn the_longest_key_of_a_store(rt: HostRuntime) -> Result<(), Fail> {
    let held = (stored(rt.alloc(), 0)?, stored(rt.alloc(), 65_440)?);
    let heavy = (stored(rt.alloc(), 65_441)?, stored(rt.alloc(), 65_535)?);
    let longer = stored(rt.alloc(), 65_536)?;
    assert_eq!(rt; held, (Some(0), Some(0)));
    assert_eq!(rt; heavy, (Some(8), Some(8)));
    assert_eq!(rt; longer, None);
    Ok(())
}

/// 18 bytes stand beside a key in the 65,535 bytes of a Fetch's specifiers.
#[test]
fn the_longest_key_of_a_fetch(rt: HostRuntime) -> Result<(), Fail> {
    let short = (fetched(rt.alloc(), 0)?, fetched(rt.alloc(), 65_440)?);
    let long = (fetched(rt.alloc(), 65_517)?, fetched(rt.alloc(), 65_518)?);
    assert_eq!(rt; short, (Some(0), Some(0)));
    assert_eq!(rt; long, (Some(0), None));
    Ok(())
}

/// Two lengths stand beside a key in the 65,535 bytes of a specifier's part.
#[test]
fn the_longest_key_of_a_specifier(rt: HostRuntime) -> Result<(), Fail> {
    let short = specified(rt.alloc(), 0)?;
    let long = (
        specified(rt.alloc(), 65_531)?,
        specified(rt.alloc(), 65_532)?,
    );
    assert_eq!(rt; (short, long), (true, (true, false)));
    Ok(())
}
