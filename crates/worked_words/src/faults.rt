//! The texts of faults.

use overlay_world::StepFault;
use scenario_text::TextFault;
use std::alloc::Global;
use std::fmt::Display;
use std::test::Fail;

// Whether this is the text of a fault.
fn reads<T: Display>(alloc: Global, fault: &T, wanted: &str) -> Result<bool, Fail> {
    let text = format!(in alloc; "{}", fault)?;
    Ok(text.as_str() == wanted)
}

#[test]
fn faults_of_texts(rt: HostRuntime) -> Result<(), Fail> {
    assert!(rt; reads(rt.alloc(), &TextFault::BadLine(3), "bad line 3")?);
    assert!(rt; reads(rt.alloc(), &TextFault::NoMemory, "out of memory")?);
    Ok(())
}

#[test]
fn faults_of_steps(rt: HostRuntime) -> Result<(), Fail> {
    assert!(rt; reads(rt.alloc(), &StepFault::LinkFault, "link fault")?);
    assert!(rt;
        reads(
            rt.alloc(),
            &StepFault::AirFull(268_435_456),
            "air full 268435456"
        )?
    );
    assert!(rt; reads(rt.alloc(), &StepFault::NodeFull(7), "node full 7")?);
    assert!(rt; reads(rt.alloc(), &StepFault::NoMemory, "out of memory")?);
    Ok(())
}
