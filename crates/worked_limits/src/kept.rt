use crate::user_kinds::widest;
use reload_base::NoMemory;
use std::alloc::Global;
use std::test::Fail;
use worked_requests::Owner;

/// How many answers a record keeps.
const KEPT: usize = 64;

/// Stores of as many transactions, counted from 1, as a record keeps answers.
fn stores(alloc: Global) -> Result<String, NoMemory> {
    let mut table = String::new(alloc);
    for n in 1..=KEPT {
        writeln!(
            table,
            "of {n}: 0 id={n}: store @abc kind=256/0 -:{n}:60:+41"
        )?;
    }
    Ok(table)
}

/// What follows once each of those is answered twice. A refusal that is decided pushes out the
/// oldest answer too.
const NEXT: &str = "\
    one more: 0 id=65: store @abc kind=256/0 -:65:60:+41\n\
    the oldest is kept: 0 id=2: store @abc kind=256/0 -:2:60:+41\n\
    the one before it is decided anew: 9 id=1: store @abc kind=256/0 -:1:60:+41\n\
    the oldest now is kept: 0 id=3: store @abc kind=256/0 -:3:60:+41\n\
    the one before it was pushed out: 9 id=2: store @abc kind=256/0 -:2:60:+41";

/// A Store, whose answer is kept.
const STORE: &str = "it: 0 id=1000: store @abc kind=256/0 -:1:60:+41";

/// Requests whose answers that Store's record doesn't keep.
const OTHERS: &str = "\
    a fetch: 0: fetch @abc 256\n\
    another resource: 2: store @test kind=256/0 -:1:60:+41\n";

#[test]
fn a_record_keeps_the_last_answers(rt: HostRuntime) -> Result<(), Fail> {
    let mut owner = Owner::new(rt.alloc(), &widest())?;
    let stores = stores(rt.alloc())?;
    let first = owner.first_unmet(rt.alloc(), &stores)?;
    let again = owner.first_unmet(rt.alloc(), &stores)?;
    let next = owner.first_unmet(rt.alloc(), NEXT)?;
    assert_eq!(rt; (first, again, next), (None, None, None));
    Ok(())
}

#[test]
fn a_fetch_and_another_resource_push_out_nothing(rt: HostRuntime) -> Result<(), Fail> {
    let mut owner = Owner::new(rt.alloc(), &widest())?;
    let first = owner.first_unmet(rt.alloc(), STORE)?;
    let others = owner.first_unmet(rt.alloc(), &OTHERS.repeat(rt.alloc(), KEPT + 1)?)?;
    let again = owner.first_unmet(rt.alloc(), STORE)?;
    assert_eq!(rt; (first, others, again), (None, None, None));
    Ok(())
}
