ghost use Rattle.std.specs.Prelude.{◌≡◌, ◌<◌, ℕ, false, All, IsSome, IfOk};
ghost use Rattle.name_book.specs.Book.{first_name_of};
ghost use Rattle.control_msgs.specs.Messages as messages;
ghost use Rattle.control_side.specs.Steady.{AreOpen};
ghost use Rattle.control_side.specs.Turns as turns;
ghost use Rattle.meaning.specs.declared.scheds.Play.{Play as play};

use control_msgs::ends_by;
use meaning::Play;
use name_book::Book;
use sched_source::Sched;
use std::alloc::Global;
use transcript::Line;
use wa_base::NoMemory;

/// A line for each source that ends before the quantum that begins at `now`, in order of node number.
pub(crate) fn ended_lines(
    alloc: Global,
    book: &Book,
    plays: &[Play],
    now: u64,
) -> Result<Vec<Line>, NoMemory>
    requires { All (λ (p : play). IsSome (first_name_of book.now.first_names p.id.0)) plays.now }
    ensures { IfOk result (λ lines. lines.items ≡ turns.ended_lines book.now.first_names now plays.now) }
{
    let mut lines = Vec::new(alloc);
    for play in plays {
        if ends_by(&play.sched, now) {
            let name = book.created(play.id).copy()?;
            lines.push(Line::Ended(play.id, name))?;
        }
    }
    Ok(lines)
}

/// The first frame before which a source ends that has not ended yet, or `u64::MAX`.
pub(crate) fn open_until(plays: &[Play]) -> u64
    ensures { AreOpen result plays.now }
{
    let mut until = u64::MAX;
    for play in plays {
        until = until.min(end_of(&play.sched));
    }
    until
}

// The frame before which a source ends that has not ended yet, or `u64::MAX`.
fn end_of(sched: &Sched) -> u64
    ensures { (next : ℕ) → next < result → messages.ends_by next sched.now ≡ false }
{
    if sched.has_ended() {
        return u64::MAX;
    }
    sched.end_frame().unwrap_or(u64::MAX)
}
