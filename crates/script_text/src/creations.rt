ghost use Rattle.std.specs.Prelude.{◌≡◌, ◌≤◌, ◌++◌, IfOk, OnOk, ℕ};
ghost use Rattle.serde_json.specs.Data.{no_items};
ghost use Rattle.serde_json.specs.Written.{compact_text};
ghost use Rattle.script_ast.specs.Operations.{interface_of};
ghost use Rattle.script_ast.specs.declared.operations.Op.TheVariants as op;
ghost use Rattle.script_ast.specs.Entries.{creation_of};
ghost use Rattle.script_json.specs.Given.{number_is};
ghost use Rattle.script_text.specs.Members.{number_data};
ghost use Rattle.script_text.specs.Text.{call_data};
ghost use Rattle.script_text.specs.Writing.{given_data, IsNamed};

use crate::members::{Given, push_object};
use crate::placed::{Member, add_placed};
use node_table::Kind;
use script_ast::{Field, Interface, Op, OpName};
use script_json::{Number, creation_of, numbers_of};
use std::alloc::{AllocError, Global};
use wa_base::Name;

/// Appends the creation of a node by its numbers.
pub fn push_creation(out: &mut Vec<u8>, rate: u32, op: &Op) -> Result<(), AllocError>
    requires rate { 1 ≤ rate }
    requires creation { interface_of op.now ≡ Interface.Creation }
    ensures { OnOk result (out.new.items ≡ out.old.items ++ compact_text (call_data rate no_items op.now)) }
{
    match op {
        Op::Create { name, kind } => push_create(out, rate, name, kind),
        Op::CreateDelay {
            name,
            max_delay_time,
            delay_time,
        } => push_object(
            out,
            rate,
            &[
                (Field::As, Given::Name(name)),
                (Field::DelayTime, Given::Fix(*delay_time)),
                (Field::MaxDelayTime, Given::Fix(*max_delay_time)),
                (Field::Op, Given::Op(OpName::CreateDelay)),
            ],
        ),
        _ => unreachable!(),
    }
}

// Appends the creation of a node that its kind alone tells.
#[tactic(auto, using(crate::proofs::MemberSteps::with_member_put))]
fn push_create<'a>(
    out: &mut Vec<u8>,
    rate: u32,
    name: &'a Name,
    kind: &'a Kind,
) -> Result<(), AllocError>
    requires { 1 ≤ rate }
    ensures { OnOk result (out.new.items
        ≡ out.old.items ++ compact_text (call_data rate no_items (op.Create name.now kind.now))) }
{
    let alloc = *out.allocator();
    let numbers = numbers_of(alloc, kind)?;
    let mut members = named(alloc, name, kind)?;
    for number in numbers.as_slice() {
        let mut placed = Vec::new(alloc);
        add_placed(&mut placed, &members, number.0, given_number(number.1))?;
        members = placed;
    }
    push_object(out, rate, &members)
}

// The members of the creation of a node of the kind before its numbers are placed.
fn named<'a>(alloc: Global, name: &'a Name, kind: &Kind) -> Result<Vec<Member<'a>>, AllocError>
    ensures { IfOk result (λ members. IsNamed (creation_of kind.now) name.now members.items) }
{
    let new_name = (Field::As, Given::Name(name));
    Ok(match creation_of(kind) {
        Some(creation) => {
            let op = (Field::Op, Given::Op(OpName::Create(creation)));
            vec![in alloc; new_name, op]?
        }
        None => vec![in alloc; new_name]?,
    })
}

// A number of a kind as what a field holds.
fn given_number<'a>(number: Number<'a>) -> Given<'a>
    ensures { (rate : ℕ) → given_data rate result ≡ number_data (number_is number.entry) }
{
    match number {
        Number::Fix(value) => Given::Fix(value),
        Number::Count(count) => Given::Count(count),
        Number::Fixes(values) => Given::Fixes(values),
    }
}

/// Appends the creation of a processor.
pub fn push_processor(out: &mut Vec<u8>, rate: u32, op: &Op) -> Result<(), AllocError>
    requires rate { 1 ≤ rate }
    requires processor { interface_of op.now ≡ Interface.Processor }
    ensures { OnOk result (out.new.items ≡ out.old.items ++ compact_text (call_data rate no_items op.now)) }
{
    match op {
        Op::CreateProcessor { name, code } => push_object(
            out,
            rate,
            &[
                (Field::As, Given::Name(name)),
                (Field::Code, Given::Code(code)),
                (Field::Op, Given::Op(OpName::CreateProcessor)),
            ],
        ),
        _ => unreachable!(),
    }
}
