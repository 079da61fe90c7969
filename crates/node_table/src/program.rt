ghost use Rattle.std.specs.Prelude.{◌≡◌, IfOk};
ghost use Rattle.node_table.specs.Accepted.{IsAccepted};

use crate::code::Code;
use std::marker::Model;
use wa_base::NoMemory;

/// A processor program that was accepted: it never traps. Contracts see its code.
#[derive(Drop)]
pub struct Program {
    code: Code,
}

impl Model for Program {
    ghost use Rattle.std.specs.Prelude.{List};
    ghost use Rattle.node_table.specs.declared.code.Instr.{Instr};
    ghost use Rattle.node_table.specs.Accepted.{IsAccepted};

    ghost Value = { List Instr };

    ghost view = { λ program. program.code };

    ghost invariant = { λ program. IsAccepted program.code };
}

impl Program {
    /// The program of a code that is accepted. The code is copied.
    pub fn of(code: &Code) -> Result<Program, NoMemory>
        requires { IsAccepted code.now }
        ensures { IfOk result (λ program. program ≡ code.now) }
    {
        Ok(Program { code: code.copy()? })
    }

    /// The code, from place 0 on.
    pub fn code(&self) -> &Code
        ensures code { result.now ≡ self.now }
        ensures accepted { IsAccepted self.now }
    {
        &self.code
    }

    /// An equal program with memory of its own.
    pub fn copy(&self) -> Result<Program, NoMemory>
        ensures { IfOk result (λ copy. copy ≡ self.now) }
    {
        Ok(Program {
            code: self.code.copy()?,
        })
    }
}
