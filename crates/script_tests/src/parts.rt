use script_ast::{
    Call, Calls, Fallback, Field, Kind, Op, OpName, ParamOpName, Path, Row, Script, fallback_in,
    is_built,
};
use std::alloc::Global;
use std::test::Fail;
use wa_base::{ContextSpec, NoMemory};

// A script of three suspensions, at frames 128, 256 and 384.
fn three_suspensions(alloc: Global) -> Result<Script, NoMemory> {
    let mut calls = Calls::new(alloc);
    for ordinal in 1..4 {
        calls.push(Call {
            ordinal,
            holder: 0,
            op: Op::Suspend {
                time: i64::from(ordinal) * 128,
            },
        })?;
    }
    let context = ContextSpec {
        channels: 1,
        length: 512,
        rate: 48_000,
        quantum: 128,
    };
    Ok(Script { context, calls })
}

// The time of the suspension that is the call with this ordinal.
fn time_at(script: &Script, ordinal: u32) -> Option<i64> {
    match script.find(ordinal) {
        Some(
            Call {
                op: Op::Suspend { time },
                ..
            },
        ) => Some(*time),
        _ => None,
    }
}

#[test]
fn calls_are_found_by_their_ordinals(rt: HostRuntime) -> Result<(), Fail> {
    let script = three_suspensions(rt.alloc())?;
    for (ordinal, want) in [(0, None), (1, Some(128)), (3, Some(384)), (4, None)] {
        assert_eq!(rt; time_at(&script, ordinal), want, "at {ordinal}");
    }
    Ok(())
}

#[test]
fn operations_are_known_by_their_words(rt: HostRuntime) {
    for (word, want) in [
        ("connect", true),
        ("setTargetAtTime", true),
        ("createConvolver", true),
        ("", false),
        ("Connect", false),
        ("createIirFilter", false),
        ("then", false),
    ] {
        assert_eq!(rt; is_built(word), want, "of {word}");
    }
}

const fn row(field: Field, kind: Kind, fallback: Fallback) -> Row {
    Row {
        field,
        kind,
        fallback,
    }
}

#[test]
fn a_delay_has_the_fields_of_the_format(rt: HostRuntime) {
    let want = [
        row(Field::As, Kind::NewName, Fallback::Needed),
        row(Field::MaxDelayTime, Kind::Fix, Fallback::Number(16_777_216)),
        row(Field::DelayTime, Kind::Fix, Fallback::Number(0)),
    ];
    assert!(rt; OpName::CreateDelay.fields() == want.as_slice());
}

#[test]
fn a_convolver_has_the_fields_of_the_format(rt: HostRuntime) {
    let want = [
        row(Field::As, Kind::NewName, Fallback::Needed),
        row(Field::Buffer, Kind::Name, Fallback::Null),
        row(
            Field::DisableNormalization,
            Kind::Flag,
            Fallback::Flag(false),
        ),
    ];
    assert!(rt; OpName::CreateConvolver.fields() == want.as_slice());
}

#[test]
fn a_curve_of_a_parameter_has_the_fields_of_the_format(rt: HostRuntime) {
    let want = [
        row(Field::Node, Kind::Name, Fallback::Needed),
        row(Field::Param, Kind::Name, Fallback::Needed),
        row(Field::Values, Kind::Fixes, Fallback::Needed),
        row(Field::Time, Kind::Time, Fallback::Needed),
        row(Field::Duration, Kind::Time, Fallback::Needed),
    ];
    let name = ParamOpName::SetValueCurveAtTime;
    assert!(rt; name.fields() == want.as_slice());
    assert_eq!(rt; name.word(), "setValueCurveAtTime");
}

#[test]
fn a_field_has_the_default_of_its_row(rt: HostRuntime) {
    for (field, want) in [
        (Field::Node, Fallback::Needed),
        (Field::When, Fallback::Number(0)),
        (Field::Duration, Fallback::Null),
        (Field::Gain, Fallback::Needed),
    ] {
        let found = fallback_in(OpName::Start.fields(), field);
        assert!(rt; found == want, "of {field}");
    }
}

#[test]
fn a_path_keeps_its_text(rt: HostRuntime) -> Result<(), Fail> {
    let path = Path::new(rt.alloc(), "drums/kick.wav")?;
    assert_eq!(rt; path.as_str(), "drums/kick.wav");
    Ok(())
}
