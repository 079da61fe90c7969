ghost use Rattle.std.specs.Prelude.{◌≡◌, ◌≤◌, ◌/◌, map, string_bytes, IfOk};
ghost use Rattle.command_line.specs.Texts.{shown};
ghost use Rattle.command_line.specs.Words as words_spec;

use crate::command::{Texts, texts_in};
use crate::values::{bits_of, generated_of, mode_of, order_of, out_of};
use std::alloc::Global;
use std::marker::Model;
use wa_base::{NoMemory, Tie};

/// What a command line without a reading is answered with.
pub const USAGE: &[u8] =
    b"words: waplay [--bits 16|24] [--order up|down] [--mode render|check|migrate] [--gen N] OUT\n";

/// What is done with a script.
#[derive(Clone, Copy, PartialEq, Eq)]
pub enum Mode {
    /// The session runs, and its samples are rendered into a WAV file.
    Render,
    /// The session runs without samples, and no file is written.
    Check,
    /// The session runs without samples, and the script is written as one of version 2.
    Migrate,
}

impl Mode {
    /// Whether samples are rendered.
    pub fn renders(self) -> bool
        ensures { result ≡ words_spec.renders self }
    {
        match self {
            Mode::Render => true,
            Mode::Check | Mode::Migrate => false,
        }
    }

    /// Whether the script is written, with its times in seconds.
    pub fn migrates(self) -> bool
        ensures { result ≡ words_spec.migrates self }
    {
        match self {
            Mode::Migrate => true,
            Mode::Render | Mode::Check => false,
        }
    }
}

/// What the words of a command line ask for.
#[derive(Drop)]
pub struct Reading<'a> {
    /// The path of the file that is written: the WAV file or the script.
    pub out: &'a str,
    /// The bits of a sample in the file, 16 or 24.
    pub bits: u32,
    /// Which of two nodes is rendered first where either may be.
    pub order: Tie,
    pub mode: Mode,
    /// The number of the script that is generated, at most 9,999, where none is read from the source.
    pub generated: Option<u32>,
}

impl<'a> Model for Reading<'a> {
    ghost use Rattle.std.specs.Prelude.{◌≡◌, ◌≤◌, ◌⊎◌, IfSome};
    ghost use Rattle.command_line.specs.Words as words_spec;

    ghost Value = { words_spec.Reading };

    ghost view = { λ r. record { out = r.out.now; bits = r.bits; order = r.order; mode = r.mode; generated = r.generated } };

    ghost invariant = { λ r. ((r.bits ≡ 16) ⊎ (r.bits ≡ 24)) × IfSome r.generated (λ number. number ≤ 9999) };
}

impl Reading<'_> {
    /// The bytes of a sample in the file.
    pub fn sample_bytes(&self) -> usize
        ensures size { result ≡ self.now.bits / 8 }
        ensures most { result ≤ 3 }
    {
        (self.bits / 8) as usize
    }
}

/// The reading of the words of a command line, those after the program's name; `None` where they have
/// none. It is said twice: by what `clap`'s definitions make of the words, and without them, word by word.
pub fn reading_of<'a>(alloc: Global, words: &'a [String]) -> Result<Option<Reading<'a>>, NoMemory>
    ensures by_clap { IfOk result (λ found. found ≡ words_spec.reading (map string_bytes words.now)) }
    ensures by_word { IfOk result (λ found. found ≡ words_spec.reading_by_word (map string_bytes words.now)) }
{
    match texts_in(alloc, words) {
        Ok(Some(texts)) => Ok(reading_in(&texts)),
        Ok(None) => Ok(None),
        Err(NoMemory) => Err(NoMemory),
    }
}

// What the texts ask for, where each of them stands for something.
fn reading_in<'a>(texts: &Texts<'a>) -> Option<Reading<'a>>
    ensures { result ≡ words_spec.reading_in (shown texts.now) }
{
    let out = out_of(texts.out?)?;
    let bits = bits_of(texts.bits)?;
    let order = order_of(texts.order)?;
    let mode = mode_of(texts.mode)?;
    let generated = generated_of(texts.generated)?;
    Some(Reading {
        out,
        bits,
        order,
        mode,
        generated,
    })
}
