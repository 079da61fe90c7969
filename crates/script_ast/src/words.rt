ghost use Rattle.std.specs.Prelude.{◌≡◌, option_map};
ghost use Rattle.script_ast.specs.Words.{first_mode, mode_named, first_interp, interp_named, first_rate, rate_named, first_oversample, oversample_named, instr_word};

use crate::operations::Oversample;
use node_table::Instr;
use wa_base::{Interp, Mode, Rate};

const MODES: [Mode; 3] = [Mode::Max, Mode::ClampedMax, Mode::Explicit];

const INTERPS: [Interp; 2] = [Interp::Speakers, Interp::Discrete];

const RATES: [Rate; 2] = [Rate::A, Rate::K];

const OVERSAMPLES: [Oversample; 3] = [Oversample::Off, Oversample::Two, Oversample::Four];

/// The mode with this word; `None` where the word is no mode's.
#[tactic(auto, unfolding(crate::specs::Words::mode_named))]
pub fn mode_named(word: &str) -> Option<Mode>
    ensures { result ≡ mode_named word.now }
{
    find_mode(&MODES, word).copied()
}

/// The interpretation with this word; `None` where the word is no interpretation's.
#[tactic(auto, unfolding(crate::specs::Words::interp_named))]
pub fn interp_named(word: &str) -> Option<Interp>
    ensures { result ≡ interp_named word.now }
{
    find_interp(&INTERPS, word).copied()
}

/// The automation rate with this word; `None` where the word is no rate's.
#[tactic(auto, unfolding(crate::specs::Words::rate_named))]
pub fn rate_named(word: &str) -> Option<Rate>
    ensures { result ≡ rate_named word.now }
{
    find_rate(&RATES, word).copied()
}

/// The oversampling with this word; `None` where the word is no oversampling's.
#[tactic(auto, unfolding(crate::specs::Words::oversample_named))]
pub fn oversample_named(word: &str) -> Option<Oversample>
    ensures { result ≡ oversample_named word.now }
{
    find_oversample(&OVERSAMPLES, word).copied()
}

/// The word with which the instruction begins in a script.
pub fn instr_word(instr: Instr) -> &'static str
    ensures { result.now ≡ instr_word instr }
{
    match instr {
        Instr::Input => "in",
        Instr::Push(_) => "push",
        Instr::Load(_) => "load",
        Instr::Store(_) => "store",
        Instr::Add => "add",
        Instr::Sub => "sub",
        Instr::Min => "min",
        Instr::Max => "max",
        Instr::Mul => "mul",
        Instr::Neg => "neg",
        Instr::Div(_) => "div",
        Instr::Dup => "dup",
        Instr::Swap => "swap",
        Instr::Discard => "drop",
        Instr::Skip(_) => "skip",
        Instr::Skipz(_) => "skipz",
    }
}

// The first of the modes with this word.
fn find_mode<'a>(modes: &'a [Mode], word: &str) -> Option<&'a Mode>
    ensures { option_map (λ mode. mode.now) result ≡ first_mode word.now modes.now }
{
    modes.iter().find(|mode| mode.word() == word)
}

// The first of the interpretations with this word.
fn find_interp<'a>(interps: &'a [Interp], word: &str) -> Option<&'a Interp>
    ensures { option_map (λ interp. interp.now) result ≡ first_interp word.now interps.now }
{
    interps.iter().find(|interp| interp.word() == word)
}

// The first of the automation rates with this word.
fn find_rate<'a>(rates: &'a [Rate], word: &str) -> Option<&'a Rate>
    ensures { option_map (λ rate. rate.now) result ≡ first_rate word.now rates.now }
{
    rates.iter().find(|rate| rate.word() == word)
}

// The first of the oversamplings with this word.
fn find_oversample<'a>(oversamples: &'a [Oversample], word: &str) -> Option<&'a Oversample>
    ensures { option_map (λ oversample. oversample.now) result ≡ first_oversample word.now oversamples.now }
{
    oversamples
        .iter()
        .find(|oversample| oversample.word() == word)
}
