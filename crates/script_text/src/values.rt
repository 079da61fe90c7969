ghost use Rattle.std.specs.Prelude.{◌≡◌, ◌<◌, ◌++◌, OnOk};
ghost use Rattle.std.specs.Char.{digit_char};
ghost use Rattle.json.specs.Print.{escape_letter, escape_byte, quoted};
ghost use Rattle.serde_json.specs.Written.{compact_text, comma_if};
ghost use Rattle.script_text.specs.Members.{fix, fixes, count, code};
ghost use Rattle.script_ast.specs.Words.{instr_text, operand_text};

use itoa::Buffer;
use node_table::Instr;
use script_ast::instr_word;
use std::alloc::AllocError;
use wa_base::Fix;

/// Appends a JSON string.
pub fn push_string(out: &mut Vec<u8>, text: &[u8]) -> Result<(), AllocError>
    ensures { OnOk result (out.new.items ≡ out.old.items ++ quoted text.now) }
{
    out.push(b'"')?;
    for byte in text {
        push_escaped(out, *byte)?;
    }
    out.push(b'"')?;
    Ok(())
}

/// Appends a comma, where something stands before.
pub fn push_comma(out: &mut Vec<u8>, later: bool) -> Result<(), AllocError>
    ensures { OnOk result (out.new.items ≡ out.old.items ++ comma_if later) }
{
    if later {
        out.push(b',')?;
    }
    Ok(())
}

// Appends what stands in a JSON string for a byte.
#[tactic(auto, unfolding(json::specs::Print::escape_byte))]
fn push_escaped(out: &mut Vec<u8>, byte: u8) -> Result<(), AllocError>
    ensures { OnOk result (out.new.items ≡ out.old.items ++ escape_byte byte) }
{
    let letter = escape_letter(byte);
    if letter > 0 {
        out.extend_from_slice(&[b'\\', letter])
    } else if byte < 0x20 {
        out.extend_from_slice(&[b'\\', b'u', b'0', b'0', hex(byte / 16), hex(byte % 16)])
    } else {
        out.extend_from_slice(&[byte])
    }
}

// The letter with which a byte is escaped, or 0.
fn escape_letter(byte: u8) -> u8
    ensures { result ≡ escape_letter byte }
{
    match byte {
        b'"' | b'\\' => byte,
        8 => b'b',
        12 => b'f',
        b'\n' => b'n',
        b'\r' => b'r',
        b'\t' => b't',
        _ => 0,
    }
}

fn hex(digit: u8) -> u8
    requires { digit < 16 }
    ensures { result ≡ digit_char digit }
{
    if digit < 10 {
        b'0' + digit
    } else {
        b'a' - 10 + digit
    }
}

/// Appends a value in units of 2^-24.
pub fn push_fix(out: &mut Vec<u8>, value: Fix) -> Result<(), AllocError>
    ensures { OnOk result (out.new.items ≡ out.old.items ++ compact_text (fix value)) }
{
    let mut buffer = Buffer::new();
    out.extend_from_slice(buffer.format(value).as_bytes())
}

/// Appends a count.
pub fn push_count(out: &mut Vec<u8>, number: u64) -> Result<(), AllocError>
    ensures { OnOk result (out.new.items ≡ out.old.items ++ compact_text (count number)) }
{
    let mut buffer = Buffer::new();
    out.extend_from_slice(buffer.format(number).as_bytes())
}

/// Appends a JSON array of values in units of 2^-24.
pub fn push_fixes(out: &mut Vec<u8>, values: &[Fix]) -> Result<(), AllocError>
    ensures { OnOk result (out.new.items ≡ out.old.items ++ compact_text (fixes values.now)) }
{
    out.push(b'[')?;
    let mut later = false;
    for value in values {
        push_comma(out, later)?;
        push_fix(out, *value)?;
        later = true;
    }
    out.push(b']')?;
    Ok(())
}

/// Appends a JSON array of the instructions of a program.
pub fn push_code(out: &mut Vec<u8>, instrs: &[Instr]) -> Result<(), AllocError>
    ensures { OnOk result (out.new.items ≡ out.old.items ++ compact_text (code instrs.now)) }
{
    out.push(b'[')?;
    let mut later = false;
    for instr in instrs {
        push_comma(out, later)?;
        push_instr(out, *instr)?;
        later = true;
    }
    out.push(b']')?;
    Ok(())
}

// Appends the JSON string of an instruction.
fn push_instr(out: &mut Vec<u8>, instr: Instr) -> Result<(), AllocError>
    ensures { OnOk result (out.new.items ≡ out.old.items ++ quoted (instr_text instr)) }
{
    let mut text = Vec::from_slice(*out.allocator(), instr_word(instr).as_bytes())?;
    push_operand(&mut text, instr)?;
    push_string(out, &text)
}

// Appends what stands behind the word of an instruction.
fn push_operand(out: &mut Vec<u8>, instr: Instr) -> Result<(), AllocError>
    ensures { OnOk result (out.new.items ≡ out.old.items ++ operand_text instr) }
{
    match instr {
        Instr::Push(value) => {
            out.push(b' ')?;
            push_fix(out, value)
        }
        Instr::Load(number)
        | Instr::Store(number)
        | Instr::Div(number)
        | Instr::Skip(number)
        | Instr::Skipz(number) => {
            out.push(b' ')?;
            push_count(out, u64::from(number))
        }
        Instr::Input
        | Instr::Add
        | Instr::Sub
        | Instr::Min
        | Instr::Max
        | Instr::Mul
        | Instr::Neg
        | Instr::Dup
        | Instr::Swap
        | Instr::Discard => Ok(()),
    }
}
