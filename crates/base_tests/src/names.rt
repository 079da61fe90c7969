ghost use Rattle.std.specs.Prelude.{◌≡◌, [], IfOk, OnOk};
ghost use Rattle.name_book.specs.Book.{destination, first_named};

use name_book::{Book, Object};
use std::alloc::Global;
use std::test::Fail;
use wa_base::{BufId, Name, NoMemory, NodeId};

// A function pays for each of its ends at which a book is let go. So a book is made in one function, lent to
// the others, and given to `drop` before any error goes up.

const BOUND: [(&str, Option<Object>); 6] = [
    ("tone", Some(Object::Node(NodeId(2)))),
    ("noise", Some(Object::Buffer(BufId(0)))),
    ("again", Some(Object::Node(NodeId(1)))),
    ("destination", Some(Object::Node(NodeId(0)))),
    ("tones", None),
    ("", None),
];

fn name_of(alloc: Global, text: &str) -> Result<Name, NoMemory>
    ensures { IfOk result (λ name. name ≡ text.now) }
{
    Ok(Name::from(Vec::from_slice(alloc, text.as_bytes())?))
}

fn bind(alloc: Global, book: &mut Book, text: &str, object: Object) -> Result<(), NoMemory>
    requires { ¬ (text.now ≡ destination) }
    ensures { OnOk result (book.new.first_names ≡ first_named book.old.first_names object text.now) }
{
    let name = name_of(alloc, text)?;
    book.bind(&name, object)
}

// Whether each name stands for its object.
fn finds_all(
    alloc: Global,
    book: &Book,
    rows: &[(&str, Option<Object>)],
) -> Result<bool, NoMemory> {
    for (text, want) in rows {
        if book.find(&name_of(alloc, text)?) != *want {
            return Ok(false);
        }
    }
    Ok(true)
}

#[tactic(auto, unfolding(name_book::specs::Book::destination))]
fn keeps_names(alloc: Global, book: &mut Book) -> Result<bool, NoMemory>
    requires { book.old.first_names ≡ [] }
{
    bind(alloc, book, "tone", Object::Node(NodeId(1)))?;
    bind(alloc, book, "noise", Object::Buffer(BufId(0)))?;
    bind(alloc, book, "tone", Object::Node(NodeId(2)))?;
    bind(alloc, book, "again", Object::Node(NodeId(1)))?;
    Ok(
        book.created(NodeId(1)).as_slice() == b"tone".as_slice()
            && book.created(NodeId(2)).as_slice() == b"tone".as_slice()
            && finds_all(alloc, book, &BOUND)?,
    )
}

fn keeps_last_and_first_names(alloc: Global) -> Result<bool, NoMemory> {
    let mut book = Book::new(alloc);
    let keeps = keeps_names(alloc, &mut book);
    drop(book);
    keeps
}

#[test]
fn names_stand_for_what_they_were_bound_to_last(rt: HostRuntime) -> Result<(), Fail> {
    assert!(rt; keeps_last_and_first_names(rt.alloc())?);
    Ok(())
}

fn binds_reserved(
    alloc: Global,
    book: &mut Book,
    name: &Name,
    other: &Name,
) -> Result<bool, NoMemory>
    requires name { ¬ (name.now ≡ destination) }
    requires other { ¬ (other.now ≡ destination) }
{
    book.reserve(other)?;
    book.reserve(name)?;
    book.reserve(name)?;
    let was_unbound = book.find(name).is_none();
    book.bind(name, Object::Node(NodeId(7)))?;
    let level = Some(Object::Node(NodeId(7)));
    Ok(
        was_unbound
            && book.created(NodeId(7)).as_slice() == b"level".as_slice()
            && finds_all(alloc, book, &[("level", level), ("other", None)])?,
    )
}

#[tactic(auto, unfolding(name_book::specs::Book::destination))]
fn binds_a_reserved_name(alloc: Global) -> Result<bool, NoMemory> {
    let name = name_of(alloc, "level")?;
    let other = name_of(alloc, "other")?;
    let mut book = Book::new(alloc);
    let binds = binds_reserved(alloc, &mut book, &name, &other);
    drop(book);
    binds
}

#[test]
fn a_reserved_name_is_bound(rt: HostRuntime) -> Result<(), Fail> {
    assert!(rt; binds_a_reserved_name(rt.alloc())?);
    Ok(())
}
