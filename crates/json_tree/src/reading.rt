// From bytes to a value, in one pass over the tokens.
ghost use Rattle.std.specs.Prelude.{◌≡◌, ◌≤◌, ◌<◌, [], ◌∷◌, ◌++◌, length, Some, None, Err, IfOk, IfErr, OnOk};
ghost use Rattle.std.specs.Str.{IsUtf8};
ghost use Rattle.json.specs.Json.{value, items, members};
ghost use Rattle.serde_json.specs.Data.{no_members, depth as nesting};
ghost use Rattle.serde_json.specs.Read.{of_json, of_items, of_members, converted, max_depth, read as read_text};
ghost use Rattle.json_tree.specs.View.{view, items_view, members_view};

use crate::errors::ReadErr;
use crate::numbers::Number;
use crate::texts::Text;
use crate::values::Value;
use json::{Reader, Scratch, Token};
use std::alloc::Global;

const MAX_DEPTH: usize = 127;

impl<'a> Value<'a> {
    /// The value that bytes are as a JSON text (RFC 8259). The scratch grows to their length.
    ///
    /// `BadJson` comes where the bytes are no UTF-8 or no JSON text, where a number is greater than all
    /// floats, or where arrays and objects nest more than 127 deep; `NoMemory` where the scratch or a list
    /// can't grow.
    pub fn from_slice(
        alloc: Global,
        bytes: &'a [u8],
        scratch: &'a mut Scratch,
    ) -> Result<Value<'a>, ReadErr>
        ensures ok { IfOk result (λ v. IsUtf8 bytes.now × (read_text bytes.now ≡ Some (view v))) }
        ensures nests { IfOk result (λ v. nesting (view v) ≤ max_depth) }
        ensures bad_json { result ≡ Err ReadErr.BadJson → IsUtf8 bytes.now → read_text bytes.now ≡ None }
    {
        match str::from_utf8(bytes) {
            Ok(text) => read_all(alloc, text, scratch),
            Err(_) => Err(ReadErr::BadJson),
        }
    }
}

fn read_all<'a>(
    alloc: Global,
    text: &'a str,
    scratch: &'a mut Scratch,
) -> Result<Value<'a>, ReadErr>
    ensures ok { IfOk result (λ v. read_text text.now ≡ Some (view v)) }
    ensures nests { IfOk result (λ v. nesting (view v) ≤ max_depth) }
    ensures bad_json { result ≡ Err ReadErr.BadJson → read_text text.now ≡ None }
{
    let mut reader = Reader::new(text, scratch)?;
    let value = read(alloc, &mut reader, MAX_DEPTH)?;
    if reader.next().is_some() {
        return Err(ReadErr::BadJson);
    }
    Ok(value)
}

// The next value of the reader, with arrays and objects nested at most `depth` deep.
#[cycle(read)]
fn read<'a>(alloc: Global, reader: &mut Reader<'a>, depth: usize) -> Result<Value<'a>, ReadErr>
    ensures ok { IfOk result
        (λ v. converted of_json (value depth reader.old) ≡ Some (view v, reader.new)) }
    ensures shorter { OnOk result (length reader.new < length reader.old) }
    ensures bad_json { result ≡ Err ReadErr.BadJson → converted of_json (value depth reader.old) ≡ None }
{
    let token = reader.next().ok_or(ReadErr::BadJson)?;
    match token {
        Token::String(text) => Ok(Value::String(Text::new(text))),
        Token::Number(text) => match Number::parse(text) {
            Some(number) => Ok(Value::Number(number)),
            None => Err(ReadErr::BadJson),
        },
        Token::Bool(b) => Ok(Value::Bool(b)),
        Token::Null => Ok(Value::Null),
        Token::EndObject | Token::EndArray | Token::Key(_) | Token::Bad => Err(ReadErr::BadJson),
        Token::BeginArray => {
            if depth == 0 {
                return Err(ReadErr::BadJson);
            }
            Ok(Value::Array(read_items(alloc, reader, depth - 1)?))
        }
        Token::BeginObject => {
            if depth == 0 {
                return Err(ReadErr::BadJson);
            }
            Ok(Value::Object(read_members(alloc, reader, depth - 1)?))
        }
    }
}

// The items up to the end of their array, in a list without spare room.
#[cycle(read)]
fn read_items<'a>(
    alloc: Global,
    reader: &mut Reader<'a>,
    depth: usize,
) -> Result<Vec<Value<'a>>, ReadErr>
    ensures ok { IfOk result
        (λ list. converted of_items (items (value depth) (length reader.old) reader.old)
        ≡ Some (items_view list.items, reader.new)) }
    ensures shorter { OnOk result (length reader.new < length reader.old) }
    ensures bad_json { result ≡ Err ReadErr.BadJson
        → converted of_items (items (value depth) (length reader.old) reader.old) ≡ None }
{
    let mut found = Vec::new(alloc);
    'items: while !reader.take_end_array() {
        let item = read(alloc, reader, depth)?;
        push(&mut found, item)?;
    }
    found.shrink_to_fit();
    Ok(found)
}

// The members up to the end of their object, in a list without spare room.
#[cycle(read)]
fn read_members<'a>(
    alloc: Global,
    reader: &mut Reader<'a>,
    depth: usize,
) -> Result<Vec<(&'a str, Value<'a>)>, ReadErr>
    ensures ok { IfOk result
        (λ list. converted (λ ms. of_members ms no_members)
        (members (value depth) (length reader.old) reader.old)
        ≡ Some (members_view list.items, reader.new)) }
    ensures shorter { OnOk result (length reader.new < length reader.old) }
    ensures bad_json { result ≡ Err ReadErr.BadJson
        → converted (λ ms. of_members ms no_members)
        (members (value depth) (length reader.old) reader.old) ≡ None }
{
    let mut found = Vec::new(alloc);
    'members: while let Some(name) = reader.next_key()? {
        let member = read(alloc, reader, depth)?;
        push(&mut found, (name, member))?;
    }
    found.shrink_to_fit();
    Ok(found)
}

// Adds an item. There is room for one at first, and for twice as many whenever more is needed.
#[inline]
fn push<T: Drop>(list: &mut Vec<T>, item: T) -> Result<(), ReadErr>
    ensures ok { OnOk result (list.new.items ≡ list.old.items ++ item ∷ []) }
    ensures no_memory { IfErr result (λ e. e ≡ ReadErr.NoMemory) }
{
    if list.len() == list.capacity() {
        list.reserve_exact(list.len().max(1))?;
    }
    list.push_reserved(item);
    Ok(())
}
