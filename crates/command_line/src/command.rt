ghost use Rattle.std.specs.Prelude.{◌≡◌, false, map, string_bytes, option_map, IfOk};
ghost use Rattle.clap.specs.Words.{app_of, rule_of};
ghost use Rattle.command_line.specs.Command as command_spec;
ghost use Rattle.command_line.specs.Command.{option_rule, out_rule, bare_command, waplay_command};
ghost use Rattle.command_line.specs.Texts.{shown};

use clap::error::ErrorKind;
use clap::{Arg, Command};
use std::alloc::{AllocError, Global};
use wa_base::NoMemory;

/// The texts that words give, each where it is given.
#[derive(Clone, Copy)]
pub struct Texts<'a> {
    pub bits: Option<&'a str>,
    pub order: Option<&'a str>,
    pub mode: Option<&'a str>,
    pub generated: Option<&'a str>,
    pub out: Option<&'a str>,
}

// An option `--name`, which takes one text.
fn text_option<'a>(alloc: Global, name: &'a str) -> Arg<'a>
    ensures rule { rule_of result ≡ option_rule name.entry.now }
    ensures local { result.global ≡ false }
{
    Arg::new(alloc, name).long(name)
}

// The word that is no option, which has to be there.
fn out_word<'a>(alloc: Global) -> Arg<'a>
    ensures rule { rule_of result ≡ out_rule }
    ensures local { result.global ≡ false }
{
    Arg::new(alloc, "out").required(true)
}

// A command without options.
fn bare_command<'a>(alloc: Global) -> Command<'a>
    ensures { app_of result ≡ bare_command }
{
    Command::new(alloc, "waplay")
        .no_binary_name(true)
        .disable_help_flag(true)
        .disable_version_flag(true)
}

// The command that the words are read as.
fn waplay_command<'a>(alloc: Global) -> Result<Command<'a>, AllocError>
    ensures { IfOk result (λ command. app_of command ≡ waplay_command) }
{
    bare_command(alloc)
        .arg(text_option(alloc, "bits"))?
        .arg(text_option(alloc, "order"))?
        .arg(text_option(alloc, "mode"))?
        .arg(text_option(alloc, "gen"))?
        .arg(out_word(alloc))
}

/// The texts that the words give; `None` where they have not the form of the command.
pub fn texts_in<'a>(alloc: Global, words: &'a [String]) -> Result<Option<Texts<'a>>, NoMemory>
    ensures { IfOk result (λ found. option_map shown found ≡ command_spec.texts_in (map string_bytes words.now)) }
{
    let command = waplay_command(alloc)?;
    match command.try_get_matches_from(words) {
        Ok(matches) => Ok(Some(Texts {
            bits: matches.get_str("bits"),
            order: matches.get_str("order"),
            mode: matches.get_str("mode"),
            generated: matches.get_str("gen"),
            out: matches.get_str("out"),
        })),
        Err(e) if e.kind() == ErrorKind::OutOfMemory => Err(NoMemory),
        Err(_) => Ok(None),
    }
}
