ghost use Rattle.std.specs.Prelude.{◌≡◌, ◌≤◌, [], ◌∷◌, ◌++◌, OnOk};
ghost use Rattle.json.specs.Print.{quoted};
ghost use Rattle.script_ast.specs.Fields.{field_word};
ghost use Rattle.serde_json.specs.Data.{object};
ghost use Rattle.serde_json.specs.Written.{compact_text, comma_if, members_text};
ghost use Rattle.script_text.specs.Writing.{given_data, members_given};

use crate::seconds::push_time;
use crate::values::{push_code, push_comma, push_count, push_fix, push_fixes, push_string};
use node_table::Code;
use script_ast::{Field, OpName, Oversample, Path};
use std::alloc::AllocError;
use wa_base::{Fix, Interp, Mode, Name, Rate, Samples};

/// What a field holds.
#[derive(Clone, Copy)]
pub enum Given<'a> {
    Op(OpName),
    Name(&'a Name),
    NameOrNull(&'a Option<Name>),
    Path(&'a Path),
    /// A value in units of 2^-24.
    Fix(Fix),
    Fixes(&'a Samples),
    FixesOrNull(&'a Option<Samples>),
    Count(u32),
    CountOrNull(Option<u32>),
    /// A count of 64 bits.
    Length(u64),
    /// A time in frames.
    Time(i64),
    TimeOrNull(Option<i64>),
    Flag(bool),
    Code(&'a Code),
    Mode(Mode),
    Interp(Interp),
    Rate(Rate),
    Oversample(Oversample),
}

/// Appends an object of these members, which stand in the order of their names' bytes.
pub fn push_object(
    out: &mut Vec<u8>,
    rate: u32,
    members: &[(Field, Given<'_>)],
) -> Result<(), AllocError>
    requires { 1 ≤ rate }
    ensures { OnOk result (out.new.items ≡ out.old.items ++ compact_text (object (members_given rate members.now))) }
{
    out.push(b'{')?;
    push_members(out, rate, false, members)
}

/// Appends these members and the end of their object, after a comma where something stands before.
pub fn push_members(
    out: &mut Vec<u8>,
    rate: u32,
    mut later: bool,
    members: &[(Field, Given<'_>)],
) -> Result<(), AllocError>
    requires { 1 ≤ rate }
    ensures { OnOk result (out.new.items ≡ out.old.items ++ members_text later (members_given rate members.now)) }
{
    for member in members {
        push_key(out, later, member.0)?;
        push_given(out, rate, member.1)?;
        later = true;
    }
    out.push(b'}')?;
    Ok(())
}

/// Appends the name of a member with its colon, after a comma where something stands before.
pub fn push_key(out: &mut Vec<u8>, later: bool, field: Field) -> Result<(), AllocError>
    ensures { OnOk result (out.new.items ≡ out.old.items ++ comma_if later ++ quoted (field_word field) ++ 58 ∷ []) }
{
    push_comma(out, later)?;
    push_string(out, field.word().as_bytes())?;
    out.push(b':')?;
    Ok(())
}

// Appends what a field holds.
fn push_given(out: &mut Vec<u8>, rate: u32, given: Given<'_>) -> Result<(), AllocError>
    requires { 1 ≤ rate }
    ensures { OnOk result (out.new.items ≡ out.old.items ++ compact_text (given_data rate given.entry)) }
{
    match given {
        Given::Op(name) => push_string(out, name.word().as_bytes()),
        Given::Name(name) => push_string(out, name.as_slice()),
        Given::NameOrNull(Some(name)) => push_string(out, name.as_slice()),
        Given::Path(path) => push_string(out, path.as_str().as_bytes()),
        Given::Fix(value) => push_fix(out, value),
        Given::Fixes(values) => push_fixes(out, values.as_slice()),
        Given::FixesOrNull(Some(values)) => push_fixes(out, values.as_slice()),
        Given::Count(number) => push_count(out, u64::from(number)),
        Given::CountOrNull(Some(number)) => push_count(out, u64::from(number)),
        Given::Length(number) => push_count(out, number),
        Given::Time(frames) => push_time(out, rate, frames),
        Given::TimeOrNull(Some(frames)) => push_time(out, rate, frames),
        Given::NameOrNull(None)
        | Given::FixesOrNull(None)
        | Given::CountOrNull(None)
        | Given::TimeOrNull(None) => out.extend_from_slice(b"null"),
        Given::Flag(true) => out.extend_from_slice(b"true"),
        Given::Flag(false) => out.extend_from_slice(b"false"),
        Given::Code(code) => push_code(out, code.as_slice()),
        Given::Mode(mode) => push_string(out, mode.word().as_bytes()),
        Given::Interp(interp) => push_string(out, interp.word().as_bytes()),
        Given::Rate(rate) => push_string(out, rate.word().as_bytes()),
        Given::Oversample(oversample) => push_string(out, oversample.word().as_bytes()),
    }
}
