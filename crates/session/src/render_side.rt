ghost use Rattle.std.specs.Prelude.{◌≡◌, ◌≤◌, ◌<◌, ◌+◌, ◌*◌, ◌++◌, ◌∷◌, [], ℕ, List, length, IsTrue, IfOk, OnOk, OnErr};
ghost use Rattle.wa_base.specs.Contexts.{IsSupported, quantum_of};
ghost use Rattle.control_msgs.specs.Messages.{IsAcceptedBy, after_message};
ghost use Rattle.meaning.specs.declared.world.World.{World as a_world};
ghost use Rattle.meaning.specs.Changes.{edited};
ghost use Rattle.meaning.specs.World.{plain};
ghost use Rattle.meaning.specs.Validity.{IsValid};
ghost use Rattle.meaning.specs.Worlds.{IsRegular, first_world};
ghost use Rattle.quantum_render.specs.Plans.{AreSteady};
ghost use Rattle.quantum_render.specs.Stands.{RendererView as a_renderer, StandsFor, Shows, IsFitted, IsGrown, HoldsLevels, Rests, plan_of};
ghost use Rattle.session.specs.Frames.{WritesBelow};
ghost use Rattle.session.specs.View.{IsAt, PlansFor, Renders, MakesRoom, Gets, GoesOn, Waits, IsStanding, sent};

use control_msgs::{Message, Queue};
use meaning::{Edit, World};
use quantum_render::Renderer;
use std::alloc::Global;
use std::marker::{Brand, Model};
use std::sync::ledger::{Blank, Ledger};
use wa_base::{ContextSpec, Fix, NoMemory, Steps, Tie};

/// The side of a session that renders: a world of its own, which hears of each change by a message,
/// and the renderer.
#[derive(Drop)]
pub(crate) struct RenderSide {
    world: World,
    queue: Queue,
    renderer: Renderer,
    standing: Standing,
}

// What is known of the renderer in the world that it is sent.
#[derive(Clone, Copy)]
enum Standing {
    // Nodes or connections changed since the last quantum.
    Changed,
    // They did not.
    Unchanged,
    // They did not since the renderer was found to be settled.
    Settled,
    // The same, but a parameter or a source was edited since the last quantum.
    Edited,
}

impl Model for RenderSide {
    ghost use Rattle.meaning.specs.World.{plain};
    ghost use Rattle.session.specs.View.{SideView, IsSide};

    ghost Value = { SideView };

    ghost view = { λ s. record { world = plain s.world; messages = s.queue.messages; room = s.queue.room; renderer = s.renderer } };

    ghost invariant = { λ s. IsSide (record { world = plain s.world; messages = s.queue.messages; room = s.queue.room; renderer = s.renderer }) s.world.graph s.standing };
}

impl RenderSide {
    /// The side of a context before its first call.
    pub fn new(alloc: Global, spec: ContextSpec, tie: Tie) -> Result<RenderSide, NoMemory>
        requires { IsSupported spec }
        ensures world { IfOk result (λ side. sent side ≡ first_world spec) }
        ensures stands { IfOk result (λ side. StandsFor side.renderer []) }
        ensures spec { IfOk result (λ side. side.renderer.spec ≡ spec) }
        ensures tie { IfOk result (λ side. side.renderer.tie ≡ tie) }
    {
        let world = World::new(alloc, spec)?;
        let renderer = Renderer::new(alloc, spec, tie)?;
        Ok(RenderSide {
            world,
            queue: Queue::new(alloc),
            renderer,
            standing: Standing::Changed,
        })
    }

    /// Makes room for so many messages.
    pub fn reserve(&mut self, more: usize) -> Result<(), NoMemory>
        ensures ok { OnOk result (MakesRoom more self.old self.new) }
        ensures err { OnErr result (MakesRoom 0 self.old self.new) }
    {
        self.queue.reserve(more)
    }

    /// Sends a message, for which there is room. It takes no memory.
    pub fn post(&mut self, message: Message)
        requires room { 0 < self.old.room }
        requires accepted { IsAcceptedBy (sent self.old) message }
        ensures { Gets message self.old self.new }
    {
        self.standing = standing_with(self.standing, &message);
        self.queue.post(message);
    }

    /// Hears all messages, and renders the quantum that begins at `first` into samples that stand
    /// channel after channel. After `NoMemory` the samples are as before, what was not heard is still
    /// queued, and the renderer stands for the tapes for which it stood.
    pub fn render(&mut self, first: u64, samples: &mut [Fix]) -> Result<(), NoMemory>
        requires at { IsAt (sent self.old).spec first self.old.renderer }
        requires running { first < (sent self.old).spec.length }
        requires long { length samples.old ≡ (sent self.old).spec.channels * (sent self.old).spec.length }
        ensures ok { OnOk result (GoesOn first samples.old samples.new self.old self.new) }
        ensures err { OnErr result (Waits first self.old self.new × (samples.new ≡ samples.old)) }
    {
        let standing = self.standing;
        self.standing = Standing::Changed;
        self.queue.drain_into(&mut self.world)?;
        self.standing = render_quantum(&mut self.renderer, &self.world, first, standing)?;
        copy_out(&self.renderer, self.world.spec, first, samples);
        Ok(())
    }
}

// What is known of a renderer once a message was sent to its world.
fn standing_with(before: Standing, message: &Message) -> Standing
    ensures { (r : a_renderer) (w : a_world) → IsStanding before r w → IsStanding result r (after_message w message.now) }
{
    match message {
        Message::Change(change) => standing_edited(before, &change.edit),
        Message::Slots(_) | Message::Ended(_) => before,
    }
}

// And once its world was edited: buffers have no part in what is kept.
fn standing_edited(before: Standing, edit: &Edit) -> Standing
    ensures { (r : a_renderer) (w : a_world) (now : ℕ) → IsStanding before r w → IsStanding result r (edited w now edit.now) }
{
    match edit {
        Edit::Buffers { .. } => before,
        Edit::Source { .. } | Edit::Param { .. } => match before {
            Standing::Settled => Standing::Edited,
            Standing::Changed | Standing::Unchanged | Standing::Edited => before,
        },
        Edit::Create { .. }
        | Edit::CreateBufferSource { .. }
        | Edit::CreateConvolver { .. }
        | Edit::Connect { .. }
        | Edit::Disconnect { .. }
        | Edit::Attribute { .. }
        | Edit::SetCurve { .. } => Standing::Changed,
    }
}

// Renders the quantum that begins at `first`, and counts no steps. Returns what is known of the renderer in
// this world afterwards. After `NoMemory` it stands for the tapes for which it stood.
fn render_quantum(
    renderer: &mut Renderer,
    world: &World,
    first: u64,
    standing: Standing,
) -> Result<Standing, NoMemory>
    requires valid { IsValid world.now }
    requires spec { world.now.spec ≡ renderer.old.spec }
    requires first { first ≡ quantum_of renderer.old.spec * renderer.old.quanta }
    requires time { first ≤ 33555456 }
    requires planned { PlansFor (plan_of renderer.old) world.now.graph }
    requires standing { IsStanding standing renderer.old world.now }
    ensures stands { (tape : List a_world) → StandsFor renderer.old tape → IsRegular (quantum_of world.now.spec) (tape ++ world.now ∷ []) → OnOk result (StandsFor renderer.new (tape ++ world.now ∷ [])) }
    ensures shows { (tape : List a_world) → StandsFor renderer.old tape → IsRegular (quantum_of world.now.spec) (tape ++ world.now ∷ []) → OnOk result (Shows renderer.new (tape ++ world.now ∷ [])) }
    ensures standing { IfOk result (λ standing. IsStanding standing renderer.new world.now) }
    ensures quanta { OnOk result (renderer.new.quanta ≡ renderer.old.quanta + 1) }
    ensures spec { renderer.new.spec ≡ renderer.old.spec }
    ensures planned { PlansFor (plan_of renderer.new) world.now.graph }
    ensures err { OnErr result (renderer.new.quanta ≡ renderer.old.quanta) }
    ensures err_stands { (tape : List a_world) → StandsFor renderer.old tape → OnErr result (StandsFor renderer.new tape) }
{
    render_counted::<Brand>(renderer, world, first, standing, Blank::new(1))
}

fn render_counted<L: Ledger>(
    renderer: &mut Renderer,
    world: &World,
    first: u64,
    standing: Standing,
    blank: Blank,
) -> Result<Standing, NoMemory>
    requires name { blank.name ≡ L.name }
    requires parts { blank.parts ≡ L.parts }
    requires some { 0 < L.parts }
    requires valid { IsValid world.now }
    requires spec { world.now.spec ≡ renderer.old.spec }
    requires first { first ≡ quantum_of renderer.old.spec * renderer.old.quanta }
    requires time { first ≤ 33555456 }
    requires planned { PlansFor (plan_of renderer.old) world.now.graph }
    requires standing { IsStanding standing renderer.old world.now }
    ensures stands { (tape : List a_world) → StandsFor renderer.old tape → IsRegular (quantum_of world.now.spec) (tape ++ world.now ∷ []) → OnOk result (StandsFor renderer.new (tape ++ world.now ∷ [])) }
    ensures shows { (tape : List a_world) → StandsFor renderer.old tape → IsRegular (quantum_of world.now.spec) (tape ++ world.now ∷ []) → OnOk result (Shows renderer.new (tape ++ world.now ∷ [])) }
    ensures standing { IfOk result (λ standing. IsStanding standing renderer.new world.now) }
    ensures quanta { OnOk result (renderer.new.quanta ≡ renderer.old.quanta + 1) }
    ensures spec { renderer.new.spec ≡ renderer.old.spec }
    ensures planned { PlansFor (plan_of renderer.new) world.now.graph }
    ensures err { OnErr result (renderer.new.quanta ≡ renderer.old.quanta) }
    ensures err_stands { (tape : List a_world) → StandsFor renderer.old tape → OnErr result (StandsFor renderer.new tape) }
{
    let mut steps: Steps<L> = Steps::new(blank);
    let same = make_ready(renderer, world, first, standing, &mut steps)?;
    renderer.pass(world, first, &mut steps);
    if same {
        return Ok(Standing::Settled);
    }
    Ok(standing_after(renderer, world, standing))
}

// What is known of a renderer after a quantum of a world. Where nodes or connections changed before it, they
// are likely to change before the next, so nobody looks whether it is settled.
fn standing_after(renderer: &Renderer, world: &World, before: Standing) -> Standing
    requires valid { IsValid world.now }
    requires fitted { IsFitted renderer.now world.now }
    requires held { HoldsLevels renderer.now world.now }
    requires rests { Rests renderer.now world.now }
    ensures { IsStanding result renderer.now world.now }
{
    match before {
        Standing::Changed => Standing::Unchanged,
        Standing::Unchanged | Standing::Settled | Standing::Edited => {
            if renderer.is_settled(world) {
                Standing::Settled
            } else {
                Standing::Unchanged
            }
        }
    }
}

// Has a renderer go on with the counts that it had, where it may. Returns whether it does.
fn go_on<L: Ledger>(
    renderer: &mut Renderer,
    world: &World,
    first: u64,
    standing: Standing,
    steps: &mut Steps<L>,
) -> Result<bool, NoMemory>
    requires valid { IsValid world.now }
    requires spec { world.now.spec ≡ renderer.old.spec }
    requires first { first ≡ quantum_of renderer.old.spec * renderer.old.quanta }
    requires time { first ≤ 33555456 }
    requires standing { IsStanding standing renderer.old world.now }
    ensures grown { IfOk result (λ same. IsTrue same → IsGrown renderer.new world.now) }
    ensures steady { IfOk result (λ same. IsTrue same → AreSteady world.now renderer.new.order renderer.new.muted renderer.new.timed renderer.new.counts) }
    ensures stands { (tape : List a_world) → StandsFor renderer.old tape → StandsFor renderer.new tape }
    ensures plan { plan_of renderer.new ≡ plan_of renderer.old }
    ensures quanta { renderer.new.quanta ≡ renderer.old.quanta }
    ensures spec { renderer.new.spec ≡ renderer.old.spec }
{
    match standing {
        Standing::Changed | Standing::Unchanged => Ok(false),
        Standing::Settled => Ok(renderer.again(world, first, steps)),
        Standing::Edited => renderer.again_edited(world, first, steps),
    }
}

// Makes a renderer ready for the quantum that begins at `first`. Returns whether it goes on with the counts
// that it had, as it may where it is settled.
fn make_ready<L: Ledger>(
    renderer: &mut Renderer,
    world: &World,
    first: u64,
    standing: Standing,
    steps: &mut Steps<L>,
) -> Result<bool, NoMemory>
    requires valid { IsValid world.now }
    requires spec { world.now.spec ≡ renderer.old.spec }
    requires first { first ≡ quantum_of renderer.old.spec * renderer.old.quanta }
    requires time { first ≤ 33555456 }
    requires planned { PlansFor (plan_of renderer.old) world.now.graph }
    requires standing { IsStanding standing renderer.old world.now }
    ensures grown { OnOk result (IsGrown renderer.new world.now) }
    ensures steady { IfOk result (λ same. IsTrue same → AreSteady world.now renderer.new.order renderer.new.muted renderer.new.timed renderer.new.counts) }
    ensures stands { (tape : List a_world) → StandsFor renderer.old tape → StandsFor renderer.new tape }
    ensures quanta { renderer.new.quanta ≡ renderer.old.quanta }
    ensures spec { renderer.new.spec ≡ renderer.old.spec }
    ensures planned { PlansFor (plan_of renderer.new) world.now.graph }
{
    if go_on(renderer, world, first, standing, steps)? {
        return Ok(true);
    }
    renderer.prepare(world, steps)?;
    renderer.counts(world, first, steps);
    renderer.grow(world)?;
    Ok(false)
}

// Copies the last quantum, which began at `first`, into samples that stand channel after channel.
// What lies past the length is left out.
fn copy_out(renderer: &Renderer, spec: ContextSpec, first: u64, samples: &mut [Fix])
    requires context { spec ≡ renderer.now.spec }
    requires supported { IsSupported spec }
    requires first { first < spec.length }
    requires room { length samples.old ≡ spec.channels * spec.length }
    ensures { (tape : List a_world) → Shows renderer.now tape → first + quantum_of spec ≡ quantum_of spec * length tape
        → WritesBelow samples.old samples.new spec tape first (first + quantum_of spec) spec.channels }
{
    let count = u64::from(spec.quantum).min(spec.length - first) as usize;
    for channel in 0..spec.channels {
        let start = (u64::from(channel) * spec.length + first) as usize;
        samples[start..start + count].copy_from_slice(&renderer.out(channel)[..count]);
    }
}
