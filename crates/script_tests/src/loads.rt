use node_table::Kind;
use script_ast::{Op, Script};
use std::test::Fail;
use wa_base::ContextSpec;

// Whether the call with an ordinal creates a source with this offset.
fn creates_source(script: &Script, ordinal: u32, level: i32) -> bool {
    match script.find(ordinal) {
        Some(call) => matches!(
            &call.op,
            Op::Create { kind: Kind::Constant { offset }, .. } if *offset == level
        ),
        None => false,
    }
}

// Whether the call with an ordinal is a ramp to a value at a time.
fn ramps(script: &Script, ordinal: u32, level: i32, at: i64) -> bool {
    match script.find(ordinal) {
        Some(call) => matches!(
            call.op,
            Op::LinearRampToValueAtTime { value, time, .. } if value == level && time == at
        ),
        None => false,
    }
}

const CONTEXT: ContextSpec = ContextSpec {
    channels: 2,
    length: 480_000,
    rate: 48_000,
    quantum: 128,
};

#[test]
fn the_load_of_0_begins_with_its_draws(rt: HostRuntime) -> Result<(), Fail> {
    let script = load_gen::script(rt.alloc(), 0)?;
    assert!(rt; script.context == CONTEXT);
    assert_eq!(rt; script.calls.len(), 1768);
    assert!(rt; creates_source(&script, 1, -65_536));
    assert!(rt; ramps(&script, 4, 5_495_808, 114_945));
    Ok(())
}

// The suspension is the 1726th call, and holds 41 calls.
#[test]
fn every_load_has_as_many_calls(rt: HostRuntime) -> Result<(), Fail> {
    for number in [1, 9999] {
        let script = load_gen::script(rt.alloc(), number)?;
        let held = script
            .calls
            .as_slice()
            .iter()
            .filter(|call| call.holder == 1726)
            .count();
        assert_eq!(rt; script.calls.len(), 1768);
        assert_eq!(rt; held, 41);
    }
    Ok(())
}
