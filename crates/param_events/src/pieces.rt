ghost use Rattle.std.specs.Prelude.{◌≡◌, [], ◌∷◌, length, ◌+◌, ◌-◌, ◌^◌, ◌<◌, ◌≤◌, ◌++◌, take, drop, Some, slice_get, slice_set, slice_index_or, IfOk, OnOk, OnErr, vec_len};
ghost use Rattle.std.specs.List.{insert};
ghost use Rattle.param_events.specs.declared.events.Event.{Event as an_event};
ghost use Rattle.param_events.specs.Edits as edits;
ghost use Rattle.param_events.specs.Pieces.{all, IsIn};

use crate::events::{Event, copy_events};
use std::alloc::Global;
use std::marker::Model;
use wa_base::NoMemory;

// The most events of a piece.
const MOST: usize = 2048;

// Events in pieces of bounded length: one that is put among many moves those of a piece alone. Contracts
// see one list.
#[derive(Debug, Drop)]
pub(crate) struct Events {
    pieces: Vec<Vec<Event>>,
    count: usize,
}

impl Model for Events {
    ghost use Rattle.std.specs.Prelude.{List, length, ◌≡◌};
    ghost use Rattle.param_events.specs.declared.events.Event.{Event as an_event};
    ghost use Rattle.param_events.specs.Pieces.{all};

    ghost Value = { List an_event };

    ghost view = { λ s. all s.pieces.items };

    ghost invariant = { λ s. s.count ≡ length (all s.pieces.items) };
}

impl Events {
    // No events. It takes no memory.
    pub(crate) fn new(alloc: Global) -> Events
        ensures { result ≡ [] }
    {
        Events {
            pieces: Vec::new(alloc),
            count: 0,
        }
    }

    pub(crate) fn allocator(&self) -> Global {
        *self.pieces.allocator()
    }

    pub(crate) fn len(&self) -> usize
        ensures { result ≡ length self.now }
    {
        self.count
    }

    // The event at a place.
    pub(crate) fn get(&self, i: usize) -> &Event
        requires { i < length self.now }
        ensures { slice_get self.now i ≡ Some result.now }
    {
        let (k, j) = find(self.pieces.as_slice(), i);
        &self.pieces[k][j]
    }

    // Keeps so many events, from the first on.
    pub(crate) fn truncate(&mut self, n: usize)
        requires { n ≤ length self.old }
        ensures { self.new ≡ take n self.old }
    {
        if n < self.count {
            let (k, j) = find(self.pieces.as_slice(), n);
            self.pieces[k].truncate(j);
            self.pieces.truncate(k + 1);
            self.count = n;
        }
    }

    // Puts another event in the place of one.
    pub(crate) fn set(&mut self, i: usize, event: Event)
        requires { i < length self.old }
        ensures { self.new ≡ slice_set self.old i event }
    {
        let (k, j) = find(self.pieces.as_slice(), i);
        self.pieces[k][j] = event;
    }

    // Ends a curve at a time.
    pub(crate) fn cut_at(&mut self, i: usize, at: u64)
        requires { i < length self.old }
        ensures { (other : an_event) → self.new ≡ slice_set self.old i (edits.cut_at at (slice_index_or self.old i other)) }
    {
        let (k, j) = find(self.pieces.as_slice(), i);
        self.pieces[k][j].cut_at(at);
    }

    // Takes the first event away.
    pub(crate) fn remove_first(&mut self)
        requires { 0 < length self.old }
        ensures { self.new ≡ drop 1 self.old }
    {
        let (k, j) = find(self.pieces.as_slice(), 0);
        let first = self.pieces[k].remove(j);
        drop(first);
        self.count -= 1;
    }

    // Equal events with memory of their own.
    pub(crate) fn copy(&self) -> Result<Events, NoMemory>
        ensures { IfOk result (λ copy. copy ≡ self.now) }
    {
        let alloc = self.allocator();
        let mut pieces = Vec::new(alloc);
        for piece in &self.pieces {
            pieces.push(copy_events(alloc, piece.as_slice())?)?;
        }
        Ok(Events {
            pieces,
            count: self.count,
        })
    }

    // Puts an event before the one at a place, or behind all.
    pub(crate) fn insert(&mut self, i: usize, event: Event) -> Result<(), NoMemory>
        requires { i ≤ length self.old }
        ensures ok { OnOk result (self.new ≡ insert self.old i event) }
        ensures err { OnErr result (self.new ≡ self.old) }
    {
        if self.count == usize::MAX {
            return Err(NoMemory);
        }
        if i == self.count {
            self.push(event)?;
        } else {
            make_room(&mut self.pieces, i)?;
            let (k, j) = find(self.pieces.as_slice(), i);
            self.pieces[k].insert(j, event)?;
            self.count += 1;
        }
        Ok(())
    }

    // Puts an event behind all others.
    fn push(&mut self, event: Event) -> Result<(), NoMemory>
        requires { length self.old < 2 ^ 64 - 1 }
        ensures ok { OnOk result (self.new ≡ self.old ++ event ∷ []) }
        ensures err { OnErr result (self.new ≡ self.old) }
    {
        open_last(self.allocator(), &mut self.pieces)?;
        let last = self.pieces.len() - 1;
        self.pieces[last].push(event)?;
        self.count += 1;
        Ok(())
    }
}

// The piece of the event at a place, and its place there.
fn find(pieces: &[Vec<Event>], i: usize) -> (usize, usize)
    requires { i < length (all pieces.now) }
    ensures { IsIn pieces.now i result.0 result.1 }
{
    let mut k = 0;
    let mut rest = i;
    while rest >= pieces[k].len() {
        rest -= pieces[k].len();
        k += 1;
    }
    (k, rest)
}

// Makes a piece behind all others, where there is none or the last has no room.
fn open_last(alloc: Global, pieces: &mut Vec<Vec<Event>>) -> Result<(), NoMemory>
    ensures same { all pieces.new.items ≡ all pieces.old.items }
    ensures some { OnOk result (0 < vec_len pieces.new) }
{
    let count = pieces.len();
    if count == 0 || pieces[count - 1].len() >= MOST {
        pieces.push(Vec::new(alloc))?;
    }
    Ok(())
}

// Parts the piece of an event in two, where it has no room.
fn make_room(pieces: &mut Vec<Vec<Event>>, i: usize) -> Result<(), NoMemory>
    requires { i < length (all pieces.old.items) }
    ensures { all pieces.new.items ≡ all pieces.old.items }
{
    let (k, _) = find(pieces.as_slice(), i);
    if pieces[k].len() >= MOST {
        pieces.reserve(1)?;
        let rest = pieces[k].split_off(MOST / 2)?;
        let parted = pieces.insert(k + 1, rest);
        drop(parted);
    }
    Ok(())
}
