ghost use Rattle.std.specs.Prelude.{◌≡◌, ◌++◌, flat_map, IfOk, OnOk};
ghost use Rattle.explain.specs.Texts as spec;

use crate::facts::{Fact, Key};
use std::alloc::{AllocError, Global};
use std::fmt;
use wa_base::{Bytes, End, Fix, NoMemory};

// Prints an end: the number of its node, and a `w` behind it where it is a writer.
#[derive(Clone, Copy)]
struct EndText(End);

impl fmt::Display for EndText {
    ghost use Rattle.std.specs.Prelude.{Some};
    ghost use Rattle.explain.specs.Texts.{end_text};

    ghost output = { λ text. Some (end_text text.0) };

    fn fmt<W: fmt::Write>(&self, f: &mut fmt::Formatter<W>) -> fmt::Result {
        let number = self.0.node.0;
        write!(f, "{number}")?;
        if self.0.writer {
            f.write_str("w")?;
        }
        Ok(())
    }
}

/// The word of a key, and what it names.
impl fmt::Display for Key {
    ghost use Rattle.std.specs.Prelude.{Some};
    ghost use Rattle.explain.specs.Texts.{key_text};

    ghost output = { λ key. Some (key_text key) };

    #[tactic(auto, unfolding(crate::specs::Texts::key_text))]
    fn fmt<W: fmt::Write>(&self, f: &mut fmt::Formatter<W>) -> fmt::Result {
        match *self {
            Key::Count {
                quantum,
                end,
                output,
            } => write!(f, "count {quantum} {} {output}", EndText(end)),
            Key::Inlet {
                frame,
                end,
                input,
                channel,
            } => write!(f, "in {frame} {} {input} {channel}", EndText(end)),
            Key::Par { frame, node, name } => {
                let number = node.0;
                write!(f, "par {frame} {number} {}", name.word())
            }
            Key::Hist {
                frame,
                node,
                channel,
            } => {
                let number = node.0;
                write!(f, "hist {frame} {number} {channel}")
            }
            Key::Out {
                frame,
                end,
                output,
                channel,
            } => write!(f, "out {frame} {} {output} {channel}", EndText(end)),
        }
    }
}

/// The text of a fact, as it stands in a line.
pub fn fact_text(alloc: Global, fact: &Fact) -> Result<Bytes, NoMemory>
    ensures { IfOk result (λ bytes. bytes ≡ spec.fact_text fact.now) }
{
    let mut out = Vec::new(alloc);
    let (key, value) = (fact.key, fact.value);
    let text = format!(in alloc; "{key} = {value}")?;
    out.extend_from_slice(text.as_bytes())?;
    if let Some(cells) = &fact.cells {
        push_cells(alloc, &mut out, cells)?;
    }
    Ok(Bytes::from(out))
}

// Appends the cells of a processor.
fn push_cells(alloc: Global, out: &mut Vec<u8>, cells: &[Fix]) -> Result<(), AllocError>
    ensures { OnOk result (out.new.items ≡ out.old.items ++ flat_map spec.cell_text cells.now) }
{
    for cell in cells {
        push_cell(alloc, out, *cell)?;
    }
    Ok(())
}

// Appends a cell with a space in front.
#[tactic(auto, unfolding(crate::specs::Texts::cell_text))]
fn push_cell(alloc: Global, out: &mut Vec<u8>, cell: Fix) -> Result<(), AllocError>
    ensures { OnOk result (out.new.items ≡ out.old.items ++ spec.cell_text cell) }
{
    let text = format!(in alloc; " {cell}")?;
    out.extend_from_slice(text.as_bytes())
}
