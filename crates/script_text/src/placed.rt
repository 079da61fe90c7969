ghost use Rattle.std.specs.Prelude.{◌≡◌, ◌++◌, OnOk};
ghost use Rattle.script_text.specs.Writing.{with_member};

use crate::members::Given;
use script_ast::Field;
use std::alloc::AllocError;
use std::cmp::Ordering;

/// A member of a call.
pub type Member<'a> = (Field, Given<'a>);

/// Appends these members, which stand in the order of their names' bytes, with one more at its place.
pub fn add_placed<'a>(
    placed: &mut Vec<Member<'a>>,
    members: &[Member<'a>],
    field: Field,
    given: Given<'a>,
) -> Result<(), AllocError>
    ensures { OnOk result (placed.new.items ≡ placed.old.items ++ with_member field given.entry members.now) }
{
    let Some((first, after)) = members.split_first() else {
        placed.push((field, given))?;
        return Ok(());
    };
    match field.word().cmp(first.0.word()) {
        Ordering::Less => {
            placed.push((field, given))?;
            placed.extend_from_slice(members)
        }
        Ordering::Equal => {
            placed.push((first.0, given))?;
            placed.extend_from_slice(after)
        }
        Ordering::Greater => {
            placed.push(*first)?;
            add_placed(placed, after, field, given)
        }
    }
}
