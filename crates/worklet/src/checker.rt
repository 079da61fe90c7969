ghost use Rattle.std.specs.Prelude.{◌≡◌, ◌≤◌, ◌<◌, ◌⊎◌, ◌↔◌, ℕ, List, length, IfOk, IfErr, IsTrue, OnOk};
ghost use Rattle.node_table.specs.Accepted.{IsAccepted};
ghost use Rattle.worklet.specs.Arrivals.{Agrees};
ghost use Rattle.worklet.specs.Decision.{AcceptedLaw};
ghost use Rattle.worklet.specs.Errors.{AreFine, FailsAt, HasHeight, IsError, IsFine, IsLong, ErrorLaw, OneErrorLaw};
ghost use Rattle.worklet.specs.declared.errors.ProgErr.TheVariants.{NoMemory as no_memory};

use crate::errors::ProgErr;
use crate::rules::{DEPTH, has_cell, has_divisor, left, may_pass, pops, pushes, stays_inside};
use node_table::{Code, Instr, Program};
use std::alloc::Global;

/// The most instructions of a program.
const MAX_LENGTH: usize = 256;

/// The program of a code, which is accepted or has an error, as `ProgErr` says; the error is that of
/// the first place that has one. The code is copied.
pub fn check(alloc: Global, code: &Code) -> Result<Program, ProgErr>
    ensures program { IfOk result (λ program. program ≡ code.now) }
    ensures accepted { OnOk result (IsAccepted code.now) }
    ensures error { IfErr result (λ error. (error ≡ no_memory) ⊎ IsError code.now error) }
{
    judge_all(alloc, code.as_slice())?;
    Ok(Program::of(code)?)
}

// Judges the length, all places and the end.
fn judge_all(alloc: Global, code: &[Instr]) -> Result<(), ProgErr>
    ensures accepted { OnOk result (IsAccepted code.now) }
    ensures error { IfErr result (λ error. (error ≡ no_memory) ⊎ IsError code.now error) }
{
    if !is_long(code) {
        return Err(ProgErr::BadLength(code.len()));
    }
    let height = end_height(alloc, code)?;
    if height != 1 {
        return Err(ProgErr::BadEnd(height));
    }
    Ok(())
}

// Whether it has 1 to 256 instructions.
fn is_long(code: &[Instr]) -> bool
    ensures { IsTrue result ↔ IsLong code.now }
{
    1 <= code.len() && code.len() <= MAX_LENGTH
}

// The height at the end, where no place has an error.
fn end_height(alloc: Global, code: &[Instr]) -> Result<usize, ProgErr>
    requires { IsLong code.now }
    ensures height { IfOk result (λ height. FailsAt code.now (length code.now) (λ heights. HasHeight code.now heights (length code.now) height)) }
    ensures error { IfErr result (λ error. (error ≡ no_memory) ⊎ IsError code.now error) }
{
    let mut heights = Vec::new(alloc);
    for place in 0..code.len() {
        let height = arrival(code, &heights, place)?;
        judge(code, place, height)?;
        heights.push(height)?;
    }
    arrival(code, &heights, code.len())
}

// The height of a place, by those of the places before it.
fn arrival(code: &[Instr], heights: &[usize], place: usize) -> Result<usize, ProgErr>
    requires long { IsLong code.now }
    requires there { place ≤ length code.now }
    requires before { AreFine code.now heights.now place }
    ensures height { IfOk result (λ height. HasHeight code.now heights.now place height) }
    ensures low { IfOk result (λ height. height ≤ 32) }
    ensures error { IfErr result (λ error. IsError code.now error) }
{
    let mut found = None;
    for i in 0..place {
        let instr = code[i];
        if may_pass(instr, place - i - 1) {
            let height = left(instr, heights[i]);
            if !agrees(found, height) {
                return Err(ProgErr::Uneven(place));
            }
            found = Some(height);
        }
    }
    match found {
        Some(height) => Ok(height),
        None if place == 0 => Ok(0),
        None => Err(ProgErr::Unreached(place)),
    }
}

// Whether the height that was found, if one was, is this one.
fn agrees(found: Option<usize>, height: usize) -> bool
    ensures { IsTrue result ↔ Agrees found height }
{
    match found {
        Some(other) => other == height,
        None => true,
    }
}

// Judges the instruction at a place of this height.
fn judge(code: &[Instr], place: usize, height: usize) -> Result<(), ProgErr>
    requires long { IsLong code.now }
    requires there { place < length code.now }
    requires height { height ≤ 32 }
    ensures fine { OnOk result (IsFine code.now place height) }
    ensures error { IfErr result (λ error. (heights : List ℕ) → AreFine code.now heights place → HasHeight code.now heights place height → IsError code.now error) }
{
    let instr = code[place];
    if !has_cell(instr) {
        return Err(ProgErr::BadCell(place));
    }
    if !has_divisor(instr) {
        return Err(ProgErr::BadDivisor(place));
    }
    if !stays_inside(code, place) {
        return Err(ProgErr::BadJump(place));
    }
    if height < pops(instr) {
        return Err(ProgErr::Underflow(place));
    }
    if height - pops(instr) + pushes(instr) > DEPTH {
        return Err(ProgErr::TooDeep(place));
    }
    Ok(())
}

/// A program with an error is not accepted.
pub fn error_law()
    ensures { ErrorLaw }
{}

/// A program has one error alone.
pub fn one_error_law()
    ensures { OneErrorLaw }
{}

/// Whether a program is accepted can be tried place by place.
pub fn accepted_law()
    ensures { AcceptedLaw }
{}
