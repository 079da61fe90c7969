ghost use Rattle.std.specs.Prelude.{◌≡◌, ◌<◌, ◌↔◌, ℕ, List, [], None, Some, IsTrue, IsOk, IsSome, OnOk, OnErr};
ghost use Rattle.std.specs.Str.{bytes_eq};
ghost use Rattle.indexmap.specs.IndexMap.{spare};
ghost use Rattle.name_book.specs.Book as spec;
ghost use Rattle.name_book.specs.Rooms.{bindings_of};

use indexmap::IndexMap;
use std::alloc::Global;
use std::marker::Model;
use wa_base::{BufId, Name, NoMemory, NodeId};

const DESTINATION: &[u8] = b"destination";

/// What a name stands for.
#[derive(Clone, Copy, PartialEq, Eq)]
pub enum Object {
    Node(NodeId),
    Buffer(BufId),
}

// The memory that one binding takes: the name as the key of its object, and as the first name of a
// node.
#[derive(Drop)]
struct Room {
    key: Vec<u8>,
    first_name: Name,
}

/// The names of a session: what each of them stands for now, and the first name of each node.
///
/// The name `destination` stands for node 0 from the start, and cannot be bound.
#[derive(Drop)]
pub struct Book {
    objects: IndexMap<Vec<u8>, Object>,
    first_names: IndexMap<u32, Name>,
    room: Option<Room>,
}

impl Model for Book {
    ghost use Rattle.indexmap.specs.IndexMap.{spare};
    ghost use Rattle.name_book.specs.Book.{BookView};
    ghost use Rattle.name_book.specs.Rooms.{bindings_of, reserved_of, KeepsPlaces};

    ghost Value = { BookView };

    ghost view = { λ book. record { bindings = bindings_of book.objects.entries; first_names = book.first_names.entries; reserved = reserved_of book.room } };

    ghost invariant = { λ book. KeepsPlaces (spare book.objects) (spare book.first_names) book.room };
}

impl Book {
    /// A book in which no name is bound. It takes no memory until it grows.
    pub fn new(alloc: Global) -> Book
        ensures bindings { result.bindings ≡ [] }
        ensures first_names { result.first_names ≡ [] }
        ensures reserved { result.reserved ≡ None }
    {
        Book {
            objects: IndexMap::new(alloc),
            first_names: IndexMap::new(alloc),
            room: None,
        }
    }

    /// Binds a name to an object. A name that is bound already keeps its place. A node that has no
    /// first name gets this one.
    ///
    /// After `NoMemory` the book is as before, with what was reserved.
    #[tactic(auto, using(crate::proofs::Laws::object_of_bound, crate::proofs::Laws::object_of_other, crate::proofs::FirstNames::first_name_is_there, crate::proofs::FirstNames::first_name_is_kept))]
    pub fn bind(&mut self, name: &Name, object: Object) -> Result<(), NoMemory>
        requires { ¬ (name.now ≡ spec.destination) }
        ensures bindings { OnOk result (self.new.bindings ≡ spec.bound self.old.bindings name.now object) }
        ensures first_names { OnOk result (self.new.first_names ≡ spec.first_named self.old.first_names object name.now) }

        // So the name stands for this object from now on, and each other name for what it stood for.
        ensures object { OnOk result (spec.object_of self.new.bindings name.now ≡ Some object) }
        ensures others { OnOk result ((other : List ℕ) → ¬ (other ≡ name.now) → spec.object_of self.new.bindings other ≡ spec.object_of self.old.bindings other) }

        // So a node has a first name now, and each that had one keeps it.
        ensures first_name { OnOk result (spec.HasFirstName self.new.first_names object) }
        ensures other_first_names { OnOk result ((node : ℕ) → IsSome (spec.first_name_of self.old.first_names node) → spec.first_name_of self.new.first_names node ≡ spec.first_name_of self.old.first_names node) }

        ensures reserved { self.old.reserved ≡ Some name.now → IsOk result }
        ensures err { OnErr result (self.new ≡ self.old) }
    {
        self.reserve(name)?;
        self.bind_reserved(name, object);
        Ok(())
    }

    /// The object that a name stands for, or `None` where the name is not bound.
    pub fn find(&self, name: &Name) -> Option<Object>
        ensures object { result ≡ spec.object_of self.now.bindings name.now }
        ensures bound { IsSome result ↔ spec.IsBound self.now.bindings name.now }
    {
        if is_destination(name) {
            return Some(Object::Node(NodeId(0)));
        }
        self.objects.get(name.as_slice()).copied()
    }

    /// The name under which a node was first bound.
    pub fn created(&self, node: NodeId) -> &Name
        requires { IsSome (spec.first_name_of self.now.first_names node.0) }
        ensures { spec.first_name_of self.now.first_names node.0 ≡ Some result.now }
    {
        self.first_names.get(&node.0).unwrap()
    }

    /// Takes the memory that a `bind` of this name needs, so that it does not answer `NoMemory` where
    /// it comes before any other `bind` or `reserve`. The names stay as they are.
    ///
    /// What was reserved for another name is given back. After `NoMemory` the book is as before,
    /// with what was reserved.
    pub fn reserve(&mut self, name: &Name) -> Result<(), NoMemory>
        requires { ¬ (name.now ≡ spec.destination) }
        ensures bindings { self.new.bindings ≡ self.old.bindings }
        ensures first_names { self.new.first_names ≡ self.old.first_names }
        ensures ok { OnOk result (self.new.reserved ≡ Some name.now) }
        ensures reserved { self.old.reserved ≡ Some name.now → IsOk result }
        ensures err { OnErr result (self.new.reserved ≡ self.old.reserved) }
    {
        if self.has_room(name) {
            return Ok(());
        }
        let key = Vec::from(name.copy()?);
        let first_name = name.copy()?;
        self.objects.reserve(1)?;
        self.first_names.reserve(1)?;
        self.room = Some(Room { key, first_name });
        Ok(())
    }

    // Whether there is memory for a binding of this name.
    fn has_room(&self, name: &Name) -> bool
        ensures { IsTrue result ↔ (self.now.reserved ≡ Some name.now) }
    {
        match &self.room {
            Some(room) => room.first_name.as_slice() == name.as_slice(),
            None => false,
        }
    }

    // Binds a name for which there is memory.
    fn bind_reserved(&mut self, name: &Name, object: Object)
        requires { self.old.reserved ≡ Some name.now }
        ensures bindings { self.new.bindings ≡ spec.bound self.old.bindings name.now object }
        ensures first_names { self.new.first_names ≡ spec.first_named self.old.first_names object name.now }
    {
        let room = self.room.take().unwrap();
        bind_key(&mut self.objects, room.key, object);
        if let Object::Node(node) = object {
            give_first_name(&mut self.first_names, node, room.first_name);
        }
    }
}

// Whether a name is the destination's.
#[tactic(auto, unfolding(crate::specs::Book::destination))]
fn is_destination(name: &Name) -> bool
    ensures { result ≡ bytes_eq name.now spec.destination }
{
    name.as_slice() == DESTINATION
}

// Binds a name, for which there is a place.
fn bind_key(objects: &mut IndexMap<Vec<u8>, Object>, key: Vec<u8>, object: Object)
    requires { 0 < spare objects.old }
    ensures { bindings_of objects.new.entries ≡ spec.bound (bindings_of objects.old.entries) key.items object }
{
    objects.insert(key, object).unwrap();
}

// Gives a node its first name, for which there is a place, unless it has one.
#[tactic(auto, using(crate::proofs::Maps::insert_goes_last))]
fn give_first_name(first_names: &mut IndexMap<u32, Name>, node: NodeId, name: Name)
    requires { 0 < spare first_names.old }
    ensures { first_names.new.entries ≡ spec.first_named first_names.old.entries (Object.Node node) name }
{
    if !first_names.contains_key(&node.0) {
        first_names.insert(node.0, name).unwrap();
    }
}
