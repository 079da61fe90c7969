use wa_base::{Fix, Items};

/// One instruction of a processor program. Values are in units of 2^-24; the top of the stack is
/// written last, so `a, b` has b on top. Sums and differences are saturated.
#[derive(Clone, Copy, Debug, PartialEq, Eq)]
pub enum Instr {
    /// `in`: pushes the channel's input at this frame.
    Input,
    /// `push v`: pushes v.
    Push(Fix),
    /// `load k`: pushes what cell k has.
    Load(u32),
    /// `store k`: pops a value into cell k.
    Store(u32),
    /// `add`: pops a, b and pushes a + b.
    Add,
    /// `sub`: pops a, b and pushes a - b.
    Sub,
    /// `min`: pops a, b and pushes the lesser one.
    Min,
    /// `max`: pops a, b and pushes the greater one.
    Max,
    /// `mul`: pops a, b and pushes their product, rounded once and saturated.
    Mul,
    /// `neg`: pops a and pushes -a, saturated.
    Neg,
    /// `div d`: pops a and pushes a / d, rounded (a half goes up).
    Div(u32),
    /// `dup`: pops a and pushes a, a.
    Dup,
    /// `swap`: pops a, b and pushes b, a.
    Swap,
    /// `drop`: pops a value.
    Discard,
    /// `skip k`: goes on after the k instructions that follow.
    Skip(u32),
    /// `skipz k`: pops a, and goes on after the k instructions that follow where a is 0.
    Skipz(u32),
}

/// The instructions of a program in order, from place 0 on.
pub type Code = Items<Instr>;
