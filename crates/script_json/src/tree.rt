ghost use Rattle.std.specs.Prelude.{◌≡◌, Some, None, IfOk, IfErr, ◌≢◌, ◌≤◌};
ghost use Rattle.serde_json.specs.Data.{depth};
ghost use Rattle.json_tree.specs.View.{view};
ghost use Rattle.script_json.specs.Tree.{json_of};

use json_tree::{ReadErr, Scratch, Value};
use script_fields::ScriptErr;
use std::alloc::Global;

/// The JSON value of the bytes. The scratch grows to their length.
pub fn parse<'a>(
    alloc: Global,
    bytes: &'a [u8],
    scratch: &'a mut Scratch,
) -> Result<Value<'a>, ScriptErr>
    ensures ok { IfOk result (λ value. json_of bytes.now ≡ Some (view value)) }
    ensures nests { IfOk result (λ value. depth (view value) ≤ 127) }
    ensures bad_json { IfErr result (λ e. e ≢ ScriptErr.NoMemory → (e ≡ ScriptErr.BadJson) × (json_of bytes.now ≡ None)) }
{
    match Value::from_slice(alloc, bytes, scratch) {
        Ok(value) => Ok(value),
        Err(ReadErr::BadJson) => Err(ScriptErr::BadJson),
        Err(ReadErr::NoMemory) => Err(ScriptErr::NoMemory),
    }
}
