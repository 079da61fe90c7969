ghost use Rattle.std.specs.Prelude.{◌≡◌, ◌<◌, ◌≤◌, ◌+◌, ◌-◌, ◌*◌, ◌^◌, ◌++◌, ◌∷◌, ◌↔◌, [], ℕ, List, Some, None, pos, length, slice_index_or, IsTrue, IfOk, OnOk, OnErr};
ghost use Rattle.wa_base.specs.Contexts.{IsSupported, quantum_of};
ghost use Rattle.law_base.specs.Members.{IsIn};
ghost use Rattle.wa_base.specs.declared.graph_names.End.{End as an_end};
ghost use Rattle.meaning.specs.declared.params.Param.{Param as a_param};
ghost use Rattle.meaning.specs.declared.world.World.{World as a_world};
ghost use Rattle.meaning.specs.Rendered.{sample};
ghost use Rattle.meaning.specs.Validity.{IsValid};
ghost use Rattle.meaning.specs.Worlds.{IsRegular};
ghost use Rattle.std.specs.List.{sum_by};
ghost use Rattle.automation.specs.Ready.{looks_at};
ghost use Rattle.quantum_render.specs.Plans.{IsPlanned, IsUnedited, AsCounted};
ghost use Rattle.quantum_render.specs.Stands.{StandsFor, Shows, IsPrepared, IsCounted, IsGrown, IsFitted, IsSettled, HoldsLevels, Rests, plan_of};

use crate::bench::Bench;
use crate::counting::{Census, are_counted, are_steady, count_channels};
use crate::memory::Memory;
use crate::pass::render_quantum;
use crate::plan::Plan;
use crate::rest::Rest;
use crate::site::Quantum;
use automation::Automation;
use channel_mix::CHANNELS;
use delay_bank::Delays;
use filter_bank::CausalNodes;
use meaning::World;
use quantum_blocks::{Block, fit_blocks, reader, slot};
use std::alloc::Global;
use std::marker::Model;
use std::sync::ledger::Ledger;
use wa_base::{ContextSpec, Fix, NoMemory, NodeId, Steps, Tie};

/// Renders one quantum after another (the rendering loop of the recommendation). A quantum has as
/// many frames as the context asks for.
///
/// A quantum takes four calls over one unchanged world: `prepare`, `counts`, `grow` and `pass`; or `again` or
/// `again_edited`, and `pass`, where neither nodes nor connections changed since the last one.
/// Contracts say for which tapes of worlds a renderer stands: those whose quanta it went through.
#[derive(Drop)]
pub struct Renderer {
    alloc: Global,
    spec: ContextSpec,
    quanta: u64,
    plan: Plan,
    automation: Automation,
    memory: Memory,
    counts: Vec<u32>,
    blocks: Vec<Block>,
    rest: Rest,
    bench: Bench,
    out: Vec<Fix>,
}

impl Model for Renderer {
    ghost use Rattle.quantum_render.specs.Stands.{RendererView, IsWhole};

    ghost Value = { RendererView };

    ghost view = { λ r. record {
      spec = r.spec;
      quanta = r.quanta;
      planned = r.plan.planned;
      tie = r.plan.tie;
      order = r.plan.order;
      muted = r.plan.muted;
      into = r.plan.into;
      cycles = r.plan.cycles;
      timed = r.plan.timed;
      automation = r.automation;
      memory = r.memory;
      counts = r.counts.items;
      blocks = r.blocks.items;
      rest = r.rest;
      out = r.out.items;
    } };

    ghost invariant = { λ r. IsWhole r.spec r.quanta r.automation r.memory r.bench.frames r.out.items };
}

impl Renderer {
    /// A renderer that went through no quantum. The samples do not depend on the tie.
    pub fn new(alloc: Global, spec: ContextSpec, tie: Tie) -> Result<Renderer, NoMemory>
        requires { IsSupported spec }
        ensures stands { IfOk result (λ r. StandsFor r []) }
        ensures spec { IfOk result (λ r. r.spec ≡ spec) }
        ensures tie { IfOk result (λ r. r.tie ≡ tie) }
        ensures planned { IfOk result (λ r. r.planned ≡ None) }
    {
        let quantum = spec.quantum as usize;
        let out = vec![in alloc; 0; CHANNELS * quantum]?;
        let causal = CausalNodes::new(alloc, quantum)?;
        let bench = Bench::new(alloc, quantum)?;
        let plan = Plan::new(alloc, tie)?;
        Ok(Renderer {
            alloc,
            spec,
            quanta: 0,
            plan,
            automation: Automation::new(alloc, quantum),
            memory: Memory {
                causal,
                delays: Delays::new(alloc, quantum),
            },
            counts: Vec::new(alloc),
            blocks: Vec::new(alloc),
            rest: Rest::new(alloc),
            bench,
            out,
        })
    }

    /// Surveys and orders a world, moves to the next quantum in each timeline, and takes the memory
    /// for counts and levels. It may be called at any time, and begins a quantum anew. After
    /// `NoMemory` the renderer stands for the same tapes, and its plan is as before.
    ///
    /// A graph is unedited where it has as many edits as that of the last `prepare` that succeeded,
    /// and can count more: then it has to be that graph. Of an unedited graph survey and order are
    /// kept, and no connection is looked at. Of another one each connection and each node is looked
    /// at ten times at most. In each timeline it looks at no more events than their number has binary
    /// digits.
    pub fn prepare<L: Ledger>(
        &mut self,
        world: &World,
        steps: &mut Steps<L>,
    ) -> Result<(), NoMemory>
        requires valid { IsValid world.now }
        requires spec { world.now.spec ≡ self.old.spec }
        requires unedited { IsUnedited self.old.planned world.now.graph → IsPlanned world.now.graph.value (plan_of self.old) }
        ensures ok { OnOk result (IsPrepared self.new world.now) }
        ensures plan { OnOk result (IsPlanned world.now.graph.value (plan_of self.new)) }
        ensures planned { OnOk result (self.new.planned ≡ Some world.now.graph.edits) }
        ensures kept { IsUnedited self.old.planned world.now.graph → plan_of self.new ≡ plan_of self.old }
        ensures err { OnErr result (plan_of self.new ≡ plan_of self.old) }
        ensures stands { (tape : List a_world) → StandsFor self.old tape ↔ StandsFor self.new tape }
        ensures spec { self.new.spec ≡ self.old.spec }
        ensures tie { self.new.tie ≡ self.old.tie }
        ensures quanta { self.new.quanta ≡ self.old.quanta }
        ensures out { self.new.out ≡ self.old.out }
        ensures cost { (digits : a_param → ℕ) → ((p : a_param) → IsIn p world.now.params.items → length p.line.events < 2 ^ digits p)
            → steps.new ≤ steps.old + 10 * (length world.now.graph.value.edges + length world.now.graph.value.nodes) + sum_by digits world.now.params.items }
        ensures unedited_cost { IsUnedited self.old.planned world.now.graph → (digits : a_param → ℕ) → ((p : a_param) → IsIn p world.now.params.items → length p.line.events < 2 ^ digits p)
            → steps.new ≤ steps.old + sum_by digits world.now.params.items }
    {
        self.memory.causal.follow(world)?;
        self.memory.delays.follow(world)?;
        let nodes = world.nodes.len() as usize;
        self.counts.resize(2 * nodes, 1)?;
        let first = self.quanta * u64::from(self.spec.quantum);
        self.automation
            .prepare(world.params.as_slice(), nodes, first, steps)?;
        self.plan.follow(self.alloc, world, steps)?;
        Ok(())
    }

    /// Counts the channels of each end in the next quantum. It looks at no connection of the graph and
    /// at no event: what it needs of them is in the plan.
    pub fn counts<L: Ledger>(&mut self, world: &World, first: u64, steps: &mut Steps<L>)
        requires valid { IsValid world.now }
        requires spec { world.now.spec ≡ self.old.spec }
        requires prepared { IsPrepared self.old world.now }
        requires first { first ≡ quantum_of self.old.spec * self.old.quanta }
        requires time { first ≤ 2 ^ 62 }
        ensures counted { IsCounted self.new world.now }
        ensures stands { (tape : List a_world) → StandsFor self.old tape ↔ StandsFor self.new tape }
        ensures spec { self.new.spec ≡ self.old.spec }
        ensures plan { plan_of self.new ≡ plan_of self.old }
        ensures quanta { self.new.quanta ≡ self.old.quanta }
        ensures out { self.new.out ≡ self.old.out }
        ensures cost { steps.new ≡ steps.old }
    {
        let census = Census {
            world,
            into: self.plan.sources(),
            near: self.plan.near(),
            cycles: self.plan.cycles(),
            delays: &self.memory.delays,
            first,
        };
        count_channels(self.counts.as_mut_slice(), self.plan.order(), &census);
    }

    /// Takes the memory for the blocks of all nodes, and for what they remember.
    pub fn grow(&mut self, world: &World) -> Result<(), NoMemory>
        requires valid { IsValid world.now }
        requires spec { world.now.spec ≡ self.old.spec }
        requires counted { IsCounted self.old world.now }
        ensures ok { OnOk result (IsGrown self.new world.now) }
        ensures stands { (tape : List a_world) → StandsFor self.old tape ↔ StandsFor self.new tape }
        ensures spec { self.new.spec ≡ self.old.spec }
        ensures plan { plan_of self.new ≡ plan_of self.old }
        ensures quanta { self.new.quanta ≡ self.old.quanta }
        ensures out { self.new.out ≡ self.old.out }
    {
        let counts = self.counts.as_slice();
        self.rest.make_room(counts.len())?;
        fit_blocks(self.alloc, &mut self.blocks, world, counts)?;
        self.memory.causal.grow(counts)?;
        self.memory.delays.grow(counts)
    }

    /// Goes on to the next quantum of a world in which the renderer is settled, instead of `prepare`,
    /// `counts` and `grow`, where no parameter and no source was edited since the last one. Returns whether
    /// each end has as many channels as before; where one has not, those have to be called. It takes no memory.
    ///
    /// In most quanta it looks at those ends alone whose channels hang on the time. Once in 32 quanta it looks at
    /// each end and each connection for what is idle. In each timeline that goes on it looks at no more events
    /// than their number has binary digits.
    pub fn again<L: Ledger>(&mut self, world: &World, first: u64, steps: &mut Steps<L>) -> bool
        requires valid { IsValid world.now }
        requires spec { world.now.spec ≡ self.old.spec }
        requires settled { IsSettled self.old world.now }
        requires held { HoldsLevels self.old world.now }
        requires rests { Rests self.old world.now }
        requires first { first ≡ quantum_of self.old.spec * self.old.quanta }
        requires time { first ≤ 2 ^ 62 }
        ensures grown { IsTrue result → IsGrown self.new world.now }
        ensures stands { (tape : List a_world) → StandsFor self.old tape ↔ StandsFor self.new tape }
        ensures counts { self.new.counts ≡ self.old.counts }
        ensures spec { self.new.spec ≡ self.old.spec }
        ensures plan { plan_of self.new ≡ plan_of self.old }
        ensures quanta { self.new.quanta ≡ self.old.quanta }
        ensures out { self.new.out ≡ self.old.out }
        ensures cost { (digits : a_param → ℕ) → ((p : a_param) → IsIn p world.now.params.items → length p.line.events < 2 ^ digits p)
            → steps.new ≤ steps.old + sum_by digits world.now.params.items }
    {
        self.look(world, first);
        let same = self.keeps_counts(world, first);
        self.automation.again(world.params.as_slice(), first, steps);
        same
    }

    /// The same where parameters or sources were edited. It takes the memory for the levels of all parameters, and
    /// leaves no end out. After `NoMemory` the renderer stands for the same tapes.
    pub fn again_edited<L: Ledger>(
        &mut self,
        world: &World,
        first: u64,
        steps: &mut Steps<L>,
    ) -> Result<bool, NoMemory>
        requires valid { IsValid world.now }
        requires spec { world.now.spec ≡ self.old.spec }
        requires settled { IsSettled self.old world.now }
        requires first { first ≡ quantum_of self.old.spec * self.old.quanta }
        requires time { first ≤ 2 ^ 62 }
        ensures grown { IfOk result (λ same. IsTrue same → IsGrown self.new world.now) }
        ensures stands { (tape : List a_world) → StandsFor self.old tape ↔ StandsFor self.new tape }
        ensures counts { self.new.counts ≡ self.old.counts }
        ensures spec { self.new.spec ≡ self.old.spec }
        ensures plan { plan_of self.new ≡ plan_of self.old }
        ensures quanta { self.new.quanta ≡ self.old.quanta }
        ensures out { self.new.out ≡ self.old.out }
        ensures cost { (digits : a_param → ℕ) → ((p : a_param) → IsIn p world.now.params.items → length p.line.events < 2 ^ digits p)
            → steps.new ≤ steps.old + sum_by digits world.now.params.items }
    {
        self.rest.wake();
        let same = self.keeps_counts(world, first);
        let nodes = world.nodes.len() as usize;
        self.automation
            .prepare(world.params.as_slice(), nodes, first, steps)?;
        Ok(same)
    }

    // Looks which ends are idle in the quantum that begins at `first` and in those behind it, where that is not
    // known.
    fn look(&mut self, world: &World, first: u64)
        requires valid { IsValid world.now }
        requires spec { world.now.spec ≡ self.old.spec }
        requires settled { IsSettled self.old world.now }
        requires held { HoldsLevels self.old world.now }
        requires rests { Rests self.old world.now }
        requires first { first ≡ quantum_of self.old.spec * self.old.quanta }
        requires time { first ≤ 2 ^ 62 }
        ensures rests { Rests self.new world.now }
        ensures settled { IsSettled self.new world.now }
        ensures stands { (tape : List a_world) → StandsFor self.old tape ↔ StandsFor self.new tape }
        ensures kept { self.new ≡ record self.old { rest = self.new.rest } }
    {
        if self.rest.lasts(first + u64::from(self.spec.quantum)) {
            return;
        }
        let census = Census {
            world,
            into: self.plan.sources(),
            near: self.plan.near(),
            cycles: self.plan.cycles(),
            delays: &self.memory.delays,
            first,
        };
        let counts = self.counts.as_slice();
        let blocks = self.blocks.as_slice();
        self.rest.look(self.plan.order(), counts, blocks, &self.automation, &census);
    }

    // Whether each end whose channels hang on the time has in the next quantum as many as in the last one.
    fn keeps_counts(&self, world: &World, first: u64) -> bool
        requires valid { IsValid world.now }
        requires spec { world.now.spec ≡ self.now.spec }
        requires settled { IsSettled self.now world.now }
        requires rests { Rests self.now world.now }
        requires first { first ≡ quantum_of self.now.spec * self.now.quanta }
        requires time { first ≤ 2 ^ 62 }
        ensures { IsTrue result → (d : an_end) → IsIn d self.now.timed → AsCounted self.now.memory.delays world.now first self.now.counts d }
    {
        let census = Census {
            world,
            into: self.plan.sources(),
            near: self.plan.near(),
            cycles: self.plan.cycles(),
            delays: &self.memory.delays,
            first,
        };
        let idle = self.rest.marks(first + u64::from(self.spec.quantum));
        are_counted(self.counts.as_slice(), self.plan.timed(), idle, &census)
    }

    /// Whether the renderer is settled in the world of the last quantum: whether its counts can change
    /// with the time alone. It looks at each node and each connection once.
    pub fn is_settled(&self, world: &World) -> bool
        requires valid { IsValid world.now }
        requires fitted { IsFitted self.now world.now }
        ensures { IsTrue result → IsSettled self.now world.now }
    {
        are_steady(self.counts.as_slice(), &self.plan, world)
    }

    /// Renders the next quantum, which begins at frame `first`. It takes no memory, and looks at four
    /// events of each timeline and those with a time in the quantum at most.
    pub fn pass<L: Ledger>(&mut self, world: &World, first: u64, steps: &mut Steps<L>)
        requires valid { IsValid world.now }
        requires spec { world.now.spec ≡ self.old.spec }
        requires grown { IsGrown self.old world.now }
        requires first { first ≡ quantum_of self.old.spec * self.old.quanta }
        requires time { first ≤ 2 ^ 62 }
        ensures stands { (tape : List a_world) → StandsFor self.old tape → IsRegular (quantum_of self.old.spec) (tape ++ world.now ∷ []) → StandsFor self.new (tape ++ world.now ∷ []) }
        ensures shows { (tape : List a_world) → StandsFor self.old tape → IsRegular (quantum_of self.old.spec) (tape ++ world.now ∷ []) → Shows self.new (tape ++ world.now ∷ []) }
        ensures spec { self.new.spec ≡ self.old.spec }
        ensures fitted { IsFitted self.new world.now }
        ensures held { HoldsLevels self.new world.now }
        ensures rests { Rests self.new world.now }
        ensures counts { self.new.counts ≡ self.old.counts }
        ensures plan { plan_of self.new ≡ plan_of self.old }
        ensures quanta { self.new.quanta ≡ self.old.quanta + 1 }
        ensures cost { steps.new ≤ steps.old + sum_by (looks_at (quantum_of self.old.spec) first) world.now.params.items }
    {
        self.automation.take(world.params.as_slice(), first, steps);
        let quantum = Quantum {
            world,
            counts: self.counts.as_slice(),
            levels: self.automation.levels(),
            first,
            near: self.plan.near(),
            cycles: self.plan.cycles(),
            idle: self.rest.marks(first + u64::from(self.spec.quantum)),
        };
        let blocks = self.blocks.as_mut_slice();
        render_quantum(
            blocks,
            &mut self.bench,
            &mut self.memory,
            &self.plan,
            &quantum,
        );
        let blocks: &[Block] = &*blocks;
        let destination = &blocks[slot(reader(NodeId(0)))];
        let channels = destination.lanes().max(self.spec.channels as usize);
        destination.copy_out(self.out.as_mut_slice(), channels);
        self.quanta += 1;
    }

    /// The destination's block of the last pass: the samples of a channel, one for each frame of a
    /// quantum. Before the first pass it is silent.
    pub fn out(&self, channel: u32) -> &[Fix]
        requires { channel < self.now.spec.channels }
        ensures length { length result.now ≡ quantum_of self.now.spec }
        ensures values { (tape : List a_world) → Shows self.now tape → (m : ℕ) → m < quantum_of self.now.spec →
            slice_index_or result.now m (pos 0) ≡ sample (quantum_of self.now.spec) tape (quantum_of self.now.spec * (length tape - 1) + m) channel }
    {
        let quantum = self.spec.quantum as usize;
        let first = channel as usize * quantum;
        &self.out[first..first + quantum]
    }
}
