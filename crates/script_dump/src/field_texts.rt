use node_table::{Code, Instr};
use script_ast::{Oversample, instr_word};
use std::alloc::{AllocError, Global};
use wa_base::{Fix, Interp, Mode, Name, Rate, Samples};

pub fn text(name: &Name) -> &str {
    str::from_utf8(name.as_slice()).unwrap_or("no text")
}

pub fn count_text(alloc: Global, count: Option<u32>) -> Result<String, AllocError> {
    match count {
        Some(count) => format!(in alloc; "{count}"),
        None => String::from_str(alloc, "none"),
    }
}

pub fn text_or_none(name: &Option<Name>) -> &str {
    match name {
        Some(name) => text(name),
        None => "none",
    }
}

pub fn values_text(alloc: Global, values: &[Fix]) -> Result<String, AllocError> {
    let mut all = String::new(alloc);
    for value in values {
        if !all.is_empty() {
            all.push_str(" ")?;
        }
        let value = format!(in alloc; "{value}")?;
        all.push_str(value.as_str())?;
    }
    Ok(all)
}

pub fn list_text(alloc: Global, values: &Samples) -> Result<String, AllocError> {
    let values = values_text(alloc, values.as_slice())?;
    format!(in alloc; "[{values}]")
}

pub fn list_or_none(alloc: Global, values: &Option<Samples>) -> Result<String, AllocError> {
    match values {
        Some(values) => list_text(alloc, values),
        None => String::from_str(alloc, "none"),
    }
}

/// The instructions of a program, with commas between them.
pub fn code_text(alloc: Global, code: &Code) -> Result<String, AllocError> {
    let mut all = String::new(alloc);
    for instr in code.as_slice() {
        if !all.is_empty() {
            all.push_str(", ")?;
        }
        let instr = instr_text(alloc, *instr)?;
        all.push_str(instr.as_str())?;
    }
    Ok(all)
}

fn instr_text(alloc: Global, instr: Instr) -> Result<String, AllocError> {
    let word = instr_word(instr);
    match instr {
        Instr::Push(value) => format!(in alloc; "{word} {value}"),
        Instr::Load(number)
        | Instr::Store(number)
        | Instr::Div(number)
        | Instr::Skip(number)
        | Instr::Skipz(number) => format!(in alloc; "{word} {number}"),
        Instr::Input
        | Instr::Add
        | Instr::Sub
        | Instr::Min
        | Instr::Max
        | Instr::Mul
        | Instr::Neg
        | Instr::Dup
        | Instr::Swap
        | Instr::Discard => String::from_str(alloc, word),
    }
}

pub fn mode_text(mode: Mode) -> &'static str {
    match mode {
        Mode::Max => "max",
        Mode::ClampedMax => "clamped-max",
        Mode::Explicit => "explicit",
    }
}

pub fn interp_text(interp: Interp) -> &'static str {
    match interp {
        Interp::Speakers => "speakers",
        Interp::Discrete => "discrete",
    }
}

pub fn rate_text(rate: Rate) -> &'static str {
    match rate {
        Rate::A => "a-rate",
        Rate::K => "k-rate",
    }
}

pub fn oversample_text(oversample: Oversample) -> &'static str {
    match oversample {
        Oversample::Off => "none",
        Oversample::Two => "2x",
        Oversample::Four => "4x",
    }
}
