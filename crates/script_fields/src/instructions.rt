ghost use Rattle.std.specs.Prelude.{◌≡◌, is_some, option_and_then, option_map};
ghost use Rattle.std.specs.Char.{is_ascii_digit};
ghost use Rattle.std.specs.List.{list_all};
ghost use Rattle.serde_json.specs.Find.{as_array, as_str};
ghost use Rattle.json_tree.specs.View.{view, items_view};
ghost use Rattle.script_fields.specs.Instructions as spec;

use crate::values::Cause;
use json_tree::Value;
use node_table::Instr;
use script_ast::instr_word;
use wa_base::Fix;

// The instructions that have no number.
const PLAIN: [Instr; 10] = [
    Instr::Input,
    Instr::Add,
    Instr::Sub,
    Instr::Min,
    Instr::Max,
    Instr::Mul,
    Instr::Neg,
    Instr::Dup,
    Instr::Swap,
    Instr::Discard,
];

const MAX_NUMBER: u32 = 2_147_483_647;

/// Why a value is no program; `None` where it is one. An item that is no instruction comes before a
/// number that is out of range.
pub(crate) fn code_cause(value: &Value<'_>) -> Option<Cause>
    ensures { result ≡ spec.code_cause (option_map spec.instrs (as_array (view value.now))) }
{
    let Some(list) = value.as_array() else {
        return Some(Cause::WrongKind);
    };
    if !are_instrs(list) {
        return Some(Cause::WrongKind);
    }
    if !are_in_range(list) {
        return Some(Cause::OutOfRange);
    }
    None
}

fn are_instrs(list: &[Value<'_>]) -> bool
    ensures { result ≡ list_all is_some (spec.instrs (items_view list.now)) }
{
    list.iter().all(|item| names_instr(item))
}

fn are_in_range(list: &[Value<'_>]) -> bool
    ensures { result ≡ list_all spec.is_instr (spec.instrs (items_view list.now)) }
{
    list.iter().all(|item| is_instr(item))
}

fn is_instr(value: &Value<'_>) -> bool
    ensures { result ≡ spec.is_instr (option_and_then spec.instr_of (as_str (view value.now))) }
{
    instr_in(value).is_ok()
}

fn names_instr(value: &Value<'_>) -> bool
    ensures { result ≡ is_some (option_and_then spec.instr_of (as_str (view value.now))) }
{
    match instr_in(value) {
        Ok(_) | Err(Cause::OutOfRange) => true,
        Err(Cause::WrongKind) => false,
    }
}

/// The instruction that an item of a program is; where it is none, an `in`.
pub(crate) fn instr_or_in(value: &Value<'_>) -> Instr
    ensures { result ≡ spec.instr_or_in (option_and_then spec.instr_of (as_str (view value.now))) }
{
    match instr_in(value) {
        Ok(instr) => instr,
        Err(_) => Instr::Input,
    }
}

fn instr_in(value: &Value<'_>) -> Result<Instr, Cause>
    ensures { result ≡ spec.instr_read (option_and_then spec.instr_of (as_str (view value.now))) }
{
    match value.as_str() {
        Some(text) => instr_of(text),
        None => Err(Cause::WrongKind),
    }
}

#[tactic(auto, unfolding(crate::specs::Instructions::instr_of))]
fn instr_of(text: &str) -> Result<Instr, Cause>
    ensures { result ≡ spec.instr_read (spec.instr_of text.now) }
{
    match text.split_once(' ') {
        Some((word, number)) => numbered_instr_of(word, number),
        None => match plain_instr_of(text) {
            Some(instr) => Ok(instr),
            None => Err(Cause::WrongKind),
        },
    }
}

#[tactic(auto, unfolding(crate::specs::Instructions::plain_instr_of))]
fn plain_instr_of(word: &str) -> Option<Instr>
    ensures { result ≡ spec.plain_instr_of word.now }
{
    find_instr(&PLAIN, word).copied()
}

// The first of the instructions with this word.
fn find_instr<'a>(instrs: &'a [Instr], word: &str) -> Option<&'a Instr>
    ensures { option_map (λ instr. instr.now) result ≡ spec.first_instr word.now instrs.now }
{
    instrs.iter().find(|instr| instr_word(**instr) == word)
}

fn numbered_instr_of(word: &str, number: &str) -> Result<Instr, Cause>
    ensures { result ≡ spec.instr_read (spec.numbered_instr_of word.now number.now) }
{
    match word {
        "push" => Ok(Instr::Push(fix_of(number)?)),
        "load" => Ok(Instr::Load(number_of(number)?)),
        "store" => Ok(Instr::Store(number_of(number)?)),
        "div" => Ok(Instr::Div(number_of(number)?)),
        "skip" => Ok(Instr::Skip(number_of(number)?)),
        "skipz" => Ok(Instr::Skipz(number_of(number)?)),
        _ => Err(Cause::WrongKind),
    }
}

fn fix_of(text: &str) -> Result<Fix, Cause>
    ensures { result ≡ spec.fix_read (spec.signed_number_of text.now) }
{
    if !is_number(without_minus(text)) {
        return Err(Cause::WrongKind);
    }
    match text.parse::<Fix>() {
        Ok(value) => Ok(value),
        Err(_) => Err(Cause::OutOfRange),
    }
}

fn number_of(text: &str) -> Result<u32, Cause>
    ensures { result ≡ spec.number_read (spec.number_of text.now) }
{
    if !is_number(text) {
        return Err(Cause::WrongKind);
    }
    let Ok(number) = text.parse::<u32>() else {
        return Err(Cause::OutOfRange);
    };
    if number > MAX_NUMBER {
        return Err(Cause::OutOfRange);
    }
    Ok(number)
}

// A text without the `-` that it begins with.
fn without_minus(text: &str) -> &str
    ensures { result.now ≡ spec.without_minus text.now }
{
    match text.strip_prefix('-') {
        Some(rest) => rest,
        None => text,
    }
}

// Whether a text is one decimal digit or more.
fn is_number(text: &str) -> bool
    ensures { result ≡ spec.is_number text.now }
{
    !text.is_empty() && has_digits(text)
}

// Whether a text has decimal digits and nothing else.
fn has_digits(text: &str) -> bool
    ensures { result ≡ list_all is_ascii_digit text.now }
{
    text.as_bytes().iter().all(|c| c.is_ascii_digit())
}
