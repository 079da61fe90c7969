ghost use Rattle.std.specs.Prelude.{◌≡◌, IfOk};
ghost use Rattle.json_tree.specs.View.{view};
ghost use Rattle.script_fields.specs.Fields.{text_in, text_or_null_in, mode_in, interp_in, rate_in, oversample_in};

use crate::members::{default_oversample, member};
use json_tree::Value;
use script_ast::{
    Field, Oversample, Path, Row, fallback_in, interp_named, mode_named, oversample_named,
    rate_named,
};
use std::alloc::Global;
use wa_base::{Interp, Mode, Name, NoMemory, Rate};

/// The text of a field.
#[tactic(auto, unfolding(crate::specs::Fields::text_in))]
pub fn text(alloc: Global, object: &Value<'_>, field: Field) -> Result<Name, NoMemory>
    ensures { IfOk result (λ name. name ≡ text_in field (view object.now)) }
{
    let text = member(object, field).and_then(Value::as_str).unwrap_or("");
    let bytes = text.as_bytes().to_vec(alloc)?;
    Ok(Name::from(bytes))
}

/// The text of a field that may be null or absent.
#[tactic(auto, unfolding(crate::specs::Fields::text_or_null_in))]
pub fn text_or_null(
    alloc: Global,
    object: &Value<'_>,
    field: Field,
) -> Result<Option<Name>, NoMemory>
    ensures { IfOk result (λ name. name ≡ text_or_null_in field (view object.now)) }
{
    match member(object, field).and_then(Value::as_str) {
        Some(text) => {
            let bytes = text.as_bytes().to_vec(alloc)?;
            Ok(Some(Name::from(bytes)))
        }
        None => Ok(None),
    }
}

/// The path of a field.
#[tactic(auto, unfolding(crate::specs::Fields::text_in))]
pub fn path(alloc: Global, object: &Value<'_>, field: Field) -> Result<Path, NoMemory>
    ensures { IfOk result (λ path. path ≡ text_in field (view object.now)) }
{
    let text = member(object, field).and_then(Value::as_str).unwrap_or("");
    Path::new(alloc, text)
}

/// The ChannelCountMode of a field.
#[tactic(auto, unfolding(crate::specs::Fields::mode_in))]
pub fn mode(object: &Value<'_>, field: Field) -> Mode
    ensures { result ≡ mode_in field (view object.now) }
{
    member(object, field)
        .and_then(Value::as_str)
        .and_then(|word| mode_named(word))
        .unwrap_or(Mode::Max)
}

/// The ChannelInterpretation of a field.
#[tactic(auto, unfolding(crate::specs::Fields::interp_in))]
pub fn interp(object: &Value<'_>, field: Field) -> Interp
    ensures { result ≡ interp_in field (view object.now) }
{
    member(object, field)
        .and_then(Value::as_str)
        .and_then(|word| interp_named(word))
        .unwrap_or(Interp::Speakers)
}

/// The AutomationRate of a field.
#[tactic(auto, unfolding(crate::specs::Fields::rate_in))]
pub fn rate(object: &Value<'_>, field: Field) -> Rate
    ensures { result ≡ rate_in field (view object.now) }
{
    member(object, field)
        .and_then(Value::as_str)
        .and_then(|word| rate_named(word))
        .unwrap_or(Rate::A)
}

/// The OverSampleType of a field of an entry.
#[tactic(auto, unfolding(crate::specs::Fields::oversample_in))]
pub fn oversample(object: &Value<'_>, entry: &[Row], field: Field) -> Oversample
    ensures { result ≡ oversample_in entry.now field (view object.now) }
{
    member(object, field)
        .and_then(Value::as_str)
        .and_then(|word| oversample_named(word))
        .unwrap_or(default_oversample(fallback_in(entry, field)))
}
