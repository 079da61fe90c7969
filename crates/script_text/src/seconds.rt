ghost use Rattle.std.specs.Prelude.{◌≡◌, ◌≤◌, ◌∷◌, ◌++◌, OnOk};
ghost use Rattle.script_text.specs.Seconds.{billionths, last_digits, seconds_text};
ghost use Rattle.script_text.specs.Members.{time};
ghost use Rattle.serde_json.specs.Written.{compact_text};

use crate::values::push_string;
use itoa::Buffer;
use std::alloc::AllocError;
use wa_base::rnd_div;

const BILLION: u128 = 1_000_000_000;

/// Appends the JSON string of a time in frames.
#[tactic(auto, unfolding(crate::specs::Seconds::time_text))]
pub fn push_time(out: &mut Vec<u8>, rate: u32, frames: i64) -> Result<(), AllocError>
    requires { 1 ≤ rate }
    ensures { OnOk result (out.new.items ≡ out.old.items ++ compact_text (time rate frames)) }
{
    let mut text = Vec::new(*out.allocator());
    push_seconds(&mut text, billionths(rate, frames))?;
    push_string(out, &text)
}

// The billionths of a second that lie nearest to a time in frames.
fn billionths(rate: u32, frames: i64) -> i128
    requires { 1 ≤ rate }
    ensures { result ≡ billionths rate frames }
{
    rnd_div(i128::from(frames) * 1_000_000_000, i128::from(rate))
}

// Appends so many billionths of a second.
fn push_seconds(out: &mut Vec<u8>, billionths: i128) -> Result<(), AllocError>
    ensures { OnOk result (out.new.items ≡ out.old.items ++ seconds_text billionths) }
{
    if billionths < 0 {
        out.push(b'-')?;
    }
    let all = billionths.unsigned_abs();
    let mut buffer = Buffer::new();
    out.extend_from_slice(buffer.format(all / BILLION).as_bytes())?;
    out.push(b'.')?;
    push_last_digits(out, (all % BILLION) as u32, 9)
}

// Appends the last digits of a number, zeros included.
fn push_last_digits(out: &mut Vec<u8>, number: u32, count: u32) -> Result<(), AllocError>
    ensures { OnOk result (out.new.items ≡ out.old.items ++ last_digits count number) }
{
    if count == 0 {
        return Ok(());
    }
    push_last_digits(out, number / 10, count - 1)?;
    out.push(b'0' + (number % 10) as u8)?;
    Ok(())
}
