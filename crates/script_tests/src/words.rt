use node_table::Instr;
use script_ast::{Oversample, instr_word, interp_named, mode_named, oversample_named, rate_named};
use wa_base::{Interp, Mode, Rate};

#[test]
fn a_mode_has_its_word(rt: HostRuntime) {
    for (word, want) in [
        ("max", Some(Mode::Max)),
        ("clamped-max", Some(Mode::ClampedMax)),
        ("explicit", Some(Mode::Explicit)),
        ("Max", None),
        ("", None),
        ("speakers", None),
    ] {
        assert_eq!(rt; mode_named(word), want, "of {word}");
    }
}

#[test]
fn an_interpretation_has_its_word(rt: HostRuntime) {
    for (word, want) in [
        ("speakers", Some(Interp::Speakers)),
        ("discrete", Some(Interp::Discrete)),
        ("Discrete", None),
        ("", None),
        ("max", None),
    ] {
        assert_eq!(rt; interp_named(word), want, "of {word}");
    }
}

#[test]
fn an_automation_rate_has_its_word(rt: HostRuntime) {
    for (word, want) in [
        ("a-rate", Some(Rate::A)),
        ("k-rate", Some(Rate::K)),
        ("K-rate", None),
        ("", None),
        ("max", None),
    ] {
        assert_eq!(rt; rate_named(word), want, "of {word}");
    }
}

#[test]
fn an_oversampling_has_its_word(rt: HostRuntime) {
    for (word, oversample) in [
        ("none", Oversample::Off),
        ("2x", Oversample::Two),
        ("4x", Oversample::Four),
    ] {
        assert!(rt; oversample_named(word) == Some(oversample), "of {word}");
        assert_eq!(rt; oversample.word(), word);
    }
    for word in ["2X", "8x", "", "max"] {
        assert!(rt; oversample_named(word).is_none(), "of {word}");
    }
}

#[test]
fn an_instruction_has_its_word(rt: HostRuntime) {
    for (instr, want) in [
        (Instr::Input, "in"),
        (Instr::Push(-5), "push"),
        (Instr::Discard, "drop"),
        (Instr::Skipz(3), "skipz"),
    ] {
        assert_eq!(rt; instr_word(instr), want);
    }
}
