ghost use Rattle.std.specs.Prelude.{◌≡◌, ◌++◌, IfOk, OnOk};
ghost use Rattle.transcript.specs.Text as spec;

use crate::lines::{Answer, EndWord, Line, Lines};
use std::alloc::{AllocError, Global};
use std::fmt;
use wa_base::{Bytes, Exc, NoMemory};

// Prints an exception with the feature that it names.
#[derive(Clone, Copy)]
struct ExceptionText(Exc);

impl fmt::Display for ExceptionText {
    ghost use Rattle.std.specs.Prelude.{Some};
    ghost use Rattle.transcript.specs.Text.{exception_text};

    ghost output = { λ text. Some (exception_text text.0) };

    #[tactic(auto, unfolding(crate::specs::Text::exception_text, crate::specs::Text::profile_text))]
    fn fmt<W: fmt::Write>(&self, f: &mut fmt::Formatter<W>) -> fmt::Result {
        f.write_str(self.0.name())?;
        if let Exc::NotSupported(Some(feature)) = self.0 {
            f.write_str(" profile:")?;
            f.write_str(feature.word())?;
        }
        Ok(())
    }
}

/// What stands behind the ordinal of a call.
impl fmt::Display for Answer {
    ghost use Rattle.std.specs.Prelude.{Some};
    ghost use Rattle.transcript.specs.Text.{answer_text};

    ghost output = { λ answer. Some (answer_text answer) };

    #[tactic(auto, unfolding(crate::specs::Text::answer_text))]
    fn fmt<W: fmt::Write>(&self, f: &mut fmt::Formatter<W>) -> fmt::Result {
        match *self {
            Answer::Ok => f.write_str("ok"),
            Answer::Throw(exc) => write!(f, "throw {}", ExceptionText(exc)),
            Answer::Pending => f.write_str("pending"),
            Answer::Resolved => f.write_str("resolved"),
            Answer::Rejected(exc) => write!(f, "rejected {}", ExceptionText(exc)),
            Answer::Value(value) => write!(f, "value {value}"),
            Answer::State(state) => write!(f, "state {}", state.word()),
            Answer::Time(frame) => write!(f, "time {frame}"),
        }
    }
}

/// What stands behind the word `end` of a transcript's last line.
impl fmt::Display for EndWord {
    ghost use Rattle.std.specs.Prelude.{Some};
    ghost use Rattle.transcript.specs.Text.{end_word_text};

    ghost output = { λ end. Some (end_word_text end) };

    #[tactic(auto, unfolding(crate::specs::Text::end_word_text))]
    fn fmt<W: fmt::Write>(&self, f: &mut fmt::Formatter<W>) -> fmt::Result {
        match *self {
            EndWord::Completed => f.write_str("completed"),
            EndWord::Stalled(frame) => write!(f, "stalled {frame}"),
            EndWord::Idle => f.write_str("idle"),
            EndWord::Refused(exc) => write!(f, "refused {}", ExceptionText(exc)),
        }
    }
}

/// The text of a transcript: a line of text for each of its lines, and the line that tells how the
/// session ended.
pub fn text(alloc: Global, lines: &Lines, end: &EndWord) -> Result<Bytes, NoMemory>
    ensures { IfOk result (λ bytes. bytes ≡ spec.text_of lines.now.items end.now) }
{
    let mut out = Vec::new(alloc);
    for line in lines.as_slice() {
        push_line(alloc, &mut out, line)?;
    }
    push_end(alloc, &mut out, *end)?;
    Ok(Bytes::from(out))
}

// Appends a line with its end.
#[tactic(auto, using(crate::proofs::LineTexts::line_text_of_a_call), unfolding(crate::specs::Text::line_text))]
fn push_line(alloc: Global, out: &mut Vec<u8>, line: &Line) -> Result<(), AllocError>
    ensures { OnOk result (out.new.items ≡ out.old.items ++ spec.line_text line.now) }
{
    match line {
        Line::Call(ordinal, answer) => {
            let text = format!(in alloc; "{ordinal} {answer}\n")?;
            out.extend_from_slice(text.as_bytes())
        }
        Line::Resolved(ordinal) => {
            let text = format!(in alloc; "{ordinal} resolved\n")?;
            out.extend_from_slice(text.as_bytes())
        }
        Line::Ended(node, name) => {
            let number = node.0;
            let text = format!(in alloc; "ended {number} ")?;
            out.extend_from_slice(text.as_bytes())?;
            out.extend_from_slice(name.as_slice())?;
            out.extend_from_slice(b"\n")
        }
        Line::Complete(length) => {
            let text = format!(in alloc; "complete {length}\n")?;
            out.extend_from_slice(text.as_bytes())
        }
    }
}

/// Appends the last line with its end.
#[tactic(auto, unfolding(crate::specs::Text::end_text))]
pub fn push_end(alloc: Global, out: &mut Vec<u8>, end: EndWord) -> Result<(), AllocError>
    ensures { OnOk result (out.new.items ≡ out.old.items ++ spec.end_text end) }
{
    let text = format!(in alloc; "end {end}\n")?;
    out.extend_from_slice(text.as_bytes())
}
