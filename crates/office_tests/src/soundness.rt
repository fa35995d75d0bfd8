//! Tests of `sound` with enough memory.
use office_core::{Office, sound};
use room_types::{OutOfMemory, Phase};
use std::process::Abort;

// The empty office is lawful. An open round has to have a number.
#[test]
fn distinguishes_lawful_offices(rt: HostRuntime) -> Result<(), OutOfMemory> {
    let alloc = rt.alloc();
    let mut office = Office::empty(alloc);
    assert!(rt; sound(alloc, &office)?);
    office.phase = Phase::Opened;
    assert!(rt; !sound(alloc, &office)?);
    office.number = 1;
    assert!(rt; sound(alloc, &office)?);
    Ok(())
}
