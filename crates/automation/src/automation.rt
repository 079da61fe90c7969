ghost use Rattle.std.specs.Prelude.{max, ◌≡◌, ◌↔◌, ◌⊎◌, [], ◌<◌, ◌≤◌, ◌+◌, ◌^◌, ℕ, List, false, length, map, slice_index_or, take, IsTrue, IfSome, OnOk};
ghost use Rattle.std.specs.List.{sum_by};
ghost use Rattle.law_base.specs.Members.{IsIn};
ghost use Rattle.wa_base.specs.Contexts.{IsQuantumSize};
ghost use Rattle.meaning.specs.declared.params.Param.{Param as a_param};
ghost use Rattle.automation.specs.Levels.{LevelView as a_level, AreLevels, HasRoom, Keeps, StaysAt, level_of};
ghost use Rattle.automation.specs.Ready.{RunningView as a_running, AllRest, AreOfNodes, AreRunning, IsHeld, IsReady, Rests, Stands, TakesLevel, looks_at, param_of};

use crate::level::{Lasting, Level, Values};
use meaning::Param;
use param_cursor::Cursor;
use std::alloc::Global;
use std::marker::Model;
use std::sync::ledger::Ledger;
use wa_base::{Fix, NoMemory, NodeId, Steps};

/// The automation of all parameters of a world: the level of each in the last quantum, and for each
/// whose level may still change the place in its timeline, and the frame until which both stay.
///
/// A quantum takes two calls over the same parameters: `prepare`, or `again` where no parameter
/// changed since the last quantum, and `take`. Each node has at most one parameter of those that can
/// be automated, so a level is named by its node.
#[derive(Drop)]
pub struct Automation {
    alloc: Global,
    // The frames of a render quantum.
    quantum: usize,
    running: Vec<Running>,
    levels: Vec<Level>,
}

// A parameter whose level may still change.
#[derive(Clone, Copy)]
struct Running {
    // its place among all parameters
    param: usize,
    cursor: Cursor,
    // In each quantum that ends at or before this frame its level is the one at hand, and the cursor
    // stands where it is. 0 where nothing is known.
    until: u64,
}

impl Model for Running {
    ghost use Rattle.automation.specs.Ready.{RunningView};

    ghost Value = { RunningView };

    ghost view = { λ r. record { param = r.param; cursor = r.cursor; until = r.until } };

    ghost inverse = { λ r. record { param = r.param; cursor = r.cursor; until = r.until } };
}

impl Model for Automation {
    ghost use Rattle.automation.specs.Ready.{AutomationView};
    ghost use Rattle.wa_base.specs.Contexts.{IsQuantumSize};

    ghost Value = { AutomationView };

    ghost view = { λ s. record { quantum = s.quantum; running = s.running.items; levels = s.levels.items } };

    ghost invariant = { λ s. IsQuantumSize s.quantum };
}

impl Running {
    // Whether its level in the quantum of so many frames that begins at `first` is at hand.
    fn rests(&self, first: u64, frames: usize) -> bool
        requires { IsQuantumSize frames }
        ensures { IsTrue result ↔ (first + frames ≤ self.now.until) }
    {
        self.until.saturating_sub(first) >= frames as u64
    }

    // Moves to a frame in its timeline, where it does not rest.
    fn reseek<L: Ledger>(
        &mut self,
        params: &[Param],
        first: u64,
        frames: usize,
        steps: &mut Steps<L>,
    )
        requires quantum { IsQuantumSize frames }
        requires param { self.old.param < length params.now }
        requires rests { (levels : List a_level) × Rests frames params.now first levels self.old }
        ensures param { self.new.param ≡ self.old.param }
        ensures stands { Stands params.now first self.new }
        ensures rests { (levels : List a_level) → Rests frames params.now first levels self.old → Rests frames params.now first levels self.new }
        ensures cost { (digits : a_param → ℕ) → ((p : a_param) → IsIn p params.now → length p.line.events < 2 ^ digits p) → steps.new ≤ steps.old + slice_index_or (map digits params.now) self.old.param 0 }
    {
        if !self.rests(first, frames) {
            let param = &params[self.param];
            self.cursor.reseek(first, &param.line, steps);
        }
    }

    // Takes its level in the quantum of so many frames that begins at `first`, where it does not rest.
    // Returns whether it may still change.
    fn take<L: Ledger>(
        &mut self,
        levels: &mut [Level],
        params: &[Param],
        first: u64,
        frames: usize,
        steps: &mut Steps<L>,
    ) -> bool
        requires quantum { IsQuantumSize frames }
        requires first { first ≤ 2 ^ 62 }
        requires param { self.old.param < length params.now }
        requires room { (p : a_param) → IsIn p params.now → (p.id.node.0 < length levels.old) × HasRoom frames (level_of levels.old p.id.node.0) }
        requires stands { Stands params.now first self.old }
        requires rests { Rests frames params.now first levels.old self.old }
        ensures param { self.new.param ≡ self.old.param }
        ensures length { length levels.new ≡ length levels.old }
        ensures level { (d : a_param) → TakesLevel frames (slice_index_or params.now self.old.param d) first levels.old levels.new }
        ensures rests { Rests frames params.now first levels.new self.new }
        ensures keeps { result ≡ false → (d : a_param) → Keeps frames first (level_of levels.new (slice_index_or params.now self.old.param d).id.node.0) (slice_index_or params.now self.old.param d) }
        ensures cost { steps.new ≤ steps.old + slice_index_or (map (looks_at frames first) params.now) self.old.param 0 }
    {
        if self.rests(first, frames) {
            return true;
        }
        let param = &params[self.param];
        let node = param.id.node.0 as usize;
        match levels[node].take(param, &mut self.cursor, first, frames, steps) {
            Lasting::Until(until) => {
                self.until = until;
                true
            }
            Lasting::Ever => false,
        }
    }
}

impl Automation {
    /// Of no parameter, for render quanta of so many frames. It takes no memory.
    pub fn new(alloc: Global, quantum: usize) -> Automation
        requires { IsQuantumSize quantum }
        ensures { result ≡ record { quantum = quantum; running = []; levels = [] } }
    {
        Automation {
            alloc,
            quantum,
            running: Vec::new(alloc),
            levels: Vec::new(alloc),
        }
    }

    /// Takes the memory for parameters of so many nodes, a level for each that has none yet, and moves
    /// to a frame in each timeline. It looks at no more events of a timeline than their number has
    /// binary digits.
    pub fn prepare<L: Ledger>(
        &mut self,
        params: &[Param],
        nodes: usize,
        first: u64,
        steps: &mut Steps<L>,
    ) -> Result<(), NoMemory>
        requires { AreOfNodes nodes params.now }
        ensures quantum { self.new.quantum ≡ self.old.quantum }
        ensures ready { OnOk result (IsReady params.now first self.new) }
        ensures levels { OnOk result (length self.new.levels ≡ max (length self.old.levels) nodes) }
        ensures cost { (digits : a_param → ℕ) → ((p : a_param) → IsIn p params.now → length p.line.events < 2 ^ digits p) → steps.new ≤ steps.old + sum_by digits params.now }
    {
        extend(self.alloc, &mut self.levels, nodes)?;
        reserve_each(self.levels.as_mut_slice(), params, self.quantum)?;
        self.running.clear();
        run_each(&mut self.running, params, first, steps)
    }

    /// Moves to a frame in each timeline, where no parameter changed since the last `take`. It takes no
    /// memory, and looks at no more events of a timeline than their number has binary digits.
    pub fn again<L: Ledger>(&mut self, params: &[Param], first: u64, steps: &mut Steps<L>)
        requires { IsHeld params.now first self.old }
        ensures quantum { self.new.quantum ≡ self.old.quantum }
        ensures ready { IsReady params.now first self.new }
        ensures levels { self.new.levels ≡ self.old.levels }
        ensures cost { (digits : a_param → ℕ) → ((p : a_param) → IsIn p params.now → length p.line.events < 2 ^ digits p) → steps.new ≤ steps.old + sum_by digits params.now }
    {
        reseek_each(
            self.running.as_mut_slice(),
            params,
            first,
            self.quantum,
            steps,
        );
    }

    /// Takes the values of all parameters in the quantum that begins at `first`. It takes no memory,
    /// and looks at two events of each timeline and those with a time in the quantum at most.
    ///
    /// A parameter whose level stays is left out until the next `prepare`. One whose level stays until
    /// its next event takes one comparison in each quantum before that.
    pub fn take<L: Ledger>(&mut self, params: &[Param], first: u64, steps: &mut Steps<L>)
        requires nodes { (nodes : ℕ) × AreOfNodes nodes params.now }
        requires first { first ≤ 2 ^ 62 }
        requires ready { IsReady params.now first self.old }
        ensures quantum { self.new.quantum ≡ self.old.quantum }
        ensures levels { AreLevels self.old.quantum params.now first self.new.levels }
        ensures held { IsHeld params.now first self.new }
        ensures cost { steps.new ≤ steps.old + sum_by (looks_at self.old.quantum first) params.now }
    {
        let moving = take_each(
            self.levels.as_mut_slice(),
            self.running.as_mut_slice(),
            params,
            first,
            self.quantum,
            steps,
        );
        self.running.truncate(moving);
    }

    /// The value that the level of a parameter, by its place, has in each quantum that ends at or before a
    /// frame, where it is known to be one. It is known up to the next event, and where no event is to come it
    /// is known for ever.
    pub fn stays(&self, params: &[Param], place: usize, until: u64) -> Option<Fix>
        requires there { place < length params.now }
        requires held { (first : ℕ) × IsHeld params.now first self.now }
        ensures { (first : ℕ) (d : a_param) → IsHeld params.now first self.now → IfSome result (λ value. StaysAt self.now.quantum first until (slice_index_or params.now place d) value) }
    {
        if self.rests_until(place) < until {
            return None;
        }
        let node = params[place].id.node.0 as usize;
        match self.levels[node].values() {
            Values::Steady(value) => Some(value),
            Values::Rising(_) | Values::Moving(_) => None,
        }
    }

    // The frame until which the level of a parameter, by its place, is known to stay.
    fn rests_until(&self, place: usize) -> u64
        requires { (count : ℕ) × AreRunning count self.now.running }
        ensures { ((r : a_running) × IsIn r self.now.running × (r.param ≡ place) × (r.until ≡ result)) ⊎ (IsIn place (map param_of self.now.running) → ⊥) }
    {
        let k = self.running.partition_point(|one| one.param < place);
        if k < self.running.len() && self.running[k].param == place {
            self.running[k].until
        } else {
            u64::MAX
        }
    }

    /// The levels, one for each node. That of a node without a parameter says nothing.
    pub fn levels(&self) -> &[Level]
        ensures { result.now ≡ self.now.levels }
    {
        self.levels.as_slice()
    }
}

// Makes a level for each node.
fn extend(alloc: Global, levels: &mut Vec<Level>, nodes: usize) -> Result<(), NoMemory>
    ensures { OnOk result (length levels.new.items ≡ max (length levels.old.items) nodes) }
{
    for _ in levels.len()..nodes {
        levels.push(Level::empty(alloc))?;
    }
    Ok(())
}

// Takes the memory for the values of each parameter.
fn reserve_each(levels: &mut [Level], params: &[Param], frames: usize) -> Result<(), NoMemory>
    requires { AreOfNodes (length levels.old) params.now }
    ensures length { length levels.new ≡ length levels.old }
    ensures room { OnOk result ((p : a_param) → IsIn p params.now → HasRoom frames (level_of levels.new p.id.node.0)) }
{
    for param in params {
        let node = param.id.node.0 as usize;
        levels[node].reserve(frames)?;
    }
    Ok(())
}

// Has each parameter run, and moves to a frame in its timeline.
fn run_each<L: Ledger>(
    running: &mut Vec<Running>,
    params: &[Param],
    first: u64,
    steps: &mut Steps<L>,
) -> Result<(), NoMemory>
    requires { running.old.items ≡ [] }
    ensures running { OnOk result (AreRunning (length params.now) running.new.items) }
    ensures all { OnOk result ((i : ℕ) → i < length params.now → IsIn i (map param_of running.new.items)) }
    ensures stands { OnOk result ((r : a_running) → IsIn r running.new.items → Stands params.now first r) }
    ensures unknown { OnOk result ((r : a_running) → IsIn r running.new.items → r.until ≡ 0) }
    ensures cost { (digits : a_param → ℕ) → ((p : a_param) → IsIn p params.now → length p.line.events < 2 ^ digits p) → steps.new ≤ steps.old + sum_by digits params.now }
{
    for (i, param) in params.iter().enumerate() {
        let mut cursor = Cursor::new();
        cursor.reseek(first, &param.line, steps);
        running.push(Running {
            param: i,
            cursor,
            until: 0,
        })?;
    }
    Ok(())
}

// Moves to a frame in the timeline of each running parameter that does not rest.
fn reseek_each<L: Ledger>(
    running: &mut [Running],
    params: &[Param],
    first: u64,
    frames: usize,
    steps: &mut Steps<L>,
)
    requires quantum { IsQuantumSize frames }
    requires running { AreRunning (length params.now) running.old }
    requires rests { (levels : List a_level) × AllRest frames params.now first levels running.old }
    ensures params { map param_of running.new ≡ map param_of running.old }
    ensures stands { (r : a_running) → IsIn r running.new → Stands params.now first r }
    ensures rests { (levels : List a_level) → AllRest frames params.now first levels running.old → AllRest frames params.now first levels running.new }
    ensures cost { (digits : a_param → ℕ) → ((p : a_param) → IsIn p params.now → length p.line.events < 2 ^ digits p) → steps.new ≤ steps.old + sum_by digits params.now }
{
    for k in 0..running.len() {
        running[k].reseek(params, first, frames, steps);
    }
}

// Takes the values of each running parameter that does not rest, one after another. Returns how many have a
// level that may still change: these stand in front then.
fn take_each<L: Ledger>(
    levels: &mut [Level],
    running: &mut [Running],
    params: &[Param],
    first: u64,
    frames: usize,
    steps: &mut Steps<L>,
) -> usize
    requires nodes { (nodes : ℕ) × AreOfNodes nodes params.now }
    requires quantum { IsQuantumSize frames }
    requires first { first ≤ 2 ^ 62 }
    requires ready { IsReady params.now first (record { quantum = frames; running = running.old; levels = levels.old }) }
    ensures levels { AreLevels frames params.now first levels.new }
    ensures held { IsHeld params.now first (record { quantum = frames; running = take result running.new; levels = levels.new }) }
    ensures cost { steps.new ≤ steps.old + sum_by (looks_at frames first) params.now }
{
    let mut moving = 0;
    for k in 0..running.len() {
        let mut one = running[k];
        if one.take(levels, params, first, frames, steps) {
            running[moving] = one;
            moving += 1;
        }
    }
    moving
}
