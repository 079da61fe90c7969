ghost use Rattle.std.specs.Prelude.{◌≡◌, ◌↔◌, ◌≤◌, ◌<◌, ◌+◌, ◌-◌, ℕ, length, IsTrue};
ghost use Rattle.worklet.specs.Errors.{StaysInside};
ghost use Rattle.node_table.specs.Instructions as instructions;
ghost use Rattle.node_table.specs.Instructions.{MayPass, HasCell, HasDivisor};

use node_table::Instr;

/// The number of cells of a channel.
pub(crate) const CELLS: usize = 16;

/// The most values on the stack.
pub(crate) const DEPTH: usize = 32;

// How many values an instruction takes from the stack.
pub(crate) fn pops(instr: Instr) -> usize
    ensures value { result ≡ instructions.pops instr }
    ensures small { result ≤ 2 }
{
    match instr {
        Instr::Input | Instr::Push(_) | Instr::Load(_) | Instr::Skip(_) => 0,
        Instr::Store(_)
        | Instr::Neg
        | Instr::Div(_)
        | Instr::Dup
        | Instr::Discard
        | Instr::Skipz(_) => 1,
        Instr::Add | Instr::Sub | Instr::Min | Instr::Max | Instr::Mul | Instr::Swap => 2,
    }
}

// How many values it then puts there.
pub(crate) fn pushes(instr: Instr) -> usize
    ensures value { result ≡ instructions.pushes instr }
    ensures small { result ≤ 2 }
{
    match instr {
        Instr::Store(_) | Instr::Discard | Instr::Skip(_) | Instr::Skipz(_) => 0,
        Instr::Input
        | Instr::Push(_)
        | Instr::Load(_)
        | Instr::Add
        | Instr::Sub
        | Instr::Min
        | Instr::Max
        | Instr::Mul
        | Instr::Neg
        | Instr::Div(_) => 1,
        Instr::Dup | Instr::Swap => 2,
    }
}

// The height that it leaves, from one that is enough for it.
pub(crate) fn left(instr: Instr, height: usize) -> usize
    requires enough { instructions.pops instr ≤ height }
    requires low { height - instructions.pops instr + instructions.pushes instr ≤ 32 }
    ensures { result ≡ height - instructions.pops instr + instructions.pushes instr }
{
    height - pops(instr) + pushes(instr)
}

// Whether it may pass over so many of the instructions that follow.
pub(crate) fn may_pass(instr: Instr, count: usize) -> bool
    ensures { IsTrue result ↔ MayPass instr count }
{
    match instr {
        Instr::Skip(k) => count == k as usize,
        Instr::Skipz(k) => count == 0 || count == k as usize,
        _ => count == 0,
    }
}

pub(crate) fn has_cell(instr: Instr) -> bool
    ensures { IsTrue result ↔ HasCell instr }
{
    match instr {
        Instr::Load(k) | Instr::Store(k) => (k as usize) < CELLS,
        _ => true,
    }
}

pub(crate) fn has_divisor(instr: Instr) -> bool
    ensures { IsTrue result ↔ HasDivisor instr }
{
    match instr {
        Instr::Div(d) => d > 0,
        _ => true,
    }
}

// How many of the instructions that follow it passes over at most.
fn most_passed(instr: Instr) -> u32
    ensures some { MayPass instr result }
    ensures most { (n : ℕ) → MayPass instr n → n ≤ result }
{
    match instr {
        Instr::Skip(k) | Instr::Skipz(k) => k,
        _ => 0,
    }
}

// Whether a place goes on at places of the code or at its end alone.
pub(crate) fn stays_inside(code: &[Instr], place: usize) -> bool
    requires long { length code.now ≤ 256 }
    requires there { place < length code.now }
    ensures { IsTrue result ↔ StaysInside code.now place }
{
    place + 1 + most_passed(code[place]) as usize <= code.len()
}
