ghost use Rattle.std.specs.Prelude.{◌≡◌, ◌<◌, ◌+◌, ◌*◌, ◌++◌, ◌∷◌, [], ℕ, List, length};
ghost use Rattle.wa_base.specs.declared.graph_names.End.{End as an_end};
ghost use Rattle.wa_base.specs.Contexts.{quantum_of};
ghost use Rattle.law_base.specs.Members.{IsIn};
ghost use Rattle.conn_graph.specs.Ends.{ends};
ghost use Rattle.meaning.specs.declared.world.World.{World as a_world};
ghost use Rattle.meaning.specs.Values.{value};
ghost use Rattle.quantum_blocks.specs.Blocks.{drafts_of};
ghost use Rattle.quantum_blocks.specs.Fits.{AreFit};
ghost use Rattle.quantum_render.specs.Sites.{IsQuantum};
ghost use Rattle.quantum_render.specs.Plans.{IsPlan, AreCycles, AreCounted};
ghost use Rattle.quantum_render.specs.Listening.{IsTimely, IsMemory, HasRooms};
ghost use Rattle.quantum_render.specs.Idle.{AreIdle, KeepBlocks};

use crate::bench::Bench;
use crate::memory::Memory;
use crate::plan::Plan;
use crate::rest::is_marked;
use crate::site::Quantum;
use quantum_blocks::{Block, hush};

// Renders all ends: the muted ones are silent. The others are rendered along the order, each from the
// blocks of those before it, but for those that are idle. A causal node that no end of the order has
// hears silence.
pub(crate) fn render_quantum<'a>(
    blocks: &mut [Block],
    bench: &mut Bench,
    memory: &mut Memory,
    plan: &'a Plan,
    quantum: &'a Quantum<'a>,
)
    requires quantum { IsQuantum quantum.now.world.now quantum.now.counts.now quantum.now.levels.now quantum.now.first }
    requires plan { IsPlan quantum.now.world.now plan.now.order plan.now.muted plan.now.into }
    requires cycles { AreCycles quantum.now.world.now.graph.value quantum.now.cycles.now }
    requires frames { bench.old.frames ≡ quantum_of quantum.now.world.now.spec }
    requires fit { AreFit quantum.now.world.now quantum.now.counts.now blocks.old }
    requires rooms { HasRooms memory.old quantum.now.world.now quantum.now.counts.now }
    requires idle { AreIdle quantum.now.world.now quantum.now.counts.now quantum.now.first (quantum.now.first + quantum_of quantum.now.world.now.spec) quantum.now.idle.now blocks.old }
    ensures frames { bench.new.frames ≡ bench.old.frames }
    ensures quanta { (memory.new.causal.quantum ≡ memory.old.causal.quantum) × (memory.new.delays.quantum ≡ memory.old.delays.quantum) }
    ensures fit { AreFit quantum.now.world.now quantum.now.counts.now blocks.new }
    ensures kept { KeepBlocks quantum.now.world.now quantum.now.idle.now blocks.old blocks.new }
    ensures values { (tape : List a_world) → quantum.now.first ≡ quantum_of quantum.now.world.now.spec * length tape → AreCounted (quantum_of quantum.now.world.now.spec) quantum.now.world.now quantum.now.counts.now tape → IsTimely quantum.now.world.now → IsMemory memory.old quantum.now.world.now tape quantum.now.first → (m : ℕ) (d : an_end) → m < quantum_of quantum.now.world.now.spec → IsIn d (ends quantum.now.world.now.graph.value) →
        drafts_of blocks.new quantum.now.counts.now m d ≡ value (quantum_of quantum.now.world.now.spec) (tape ++ quantum.now.world.now ∷ []) (quantum_of quantum.now.world.now.spec * length tape + m) d }
    ensures memory { (tape : List a_world) → quantum.now.first ≡ quantum_of quantum.now.world.now.spec * length tape → AreCounted (quantum_of quantum.now.world.now.spec) quantum.now.world.now quantum.now.counts.now tape → IsTimely quantum.now.world.now → IsMemory memory.old quantum.now.world.now tape quantum.now.first →
        IsMemory memory.new quantum.now.world.now tape (quantum.now.first + quantum_of quantum.now.world.now.spec) }
    ensures rooms { HasRooms memory.new quantum.now.world.now quantum.now.counts.now }
    ensures all { (memory.new.causal.known ≡ length memory.new.causal.nodes) × (memory.new.delays.known ≡ length memory.new.delays.delays) }
    ensures known { (memory.new.causal.known ≡ length memory.old.causal.nodes) × (memory.new.delays.known ≡ length memory.old.delays.delays) }
{
    let first = quantum.first;
    hush(blocks, plan.muted());
    for end in plan.order() {
        if !is_marked(quantum.idle, *end) {
            let site = plan.site(quantum, *end);
            bench.render(blocks, memory, &site);
        }
    }
    memory.causal.rest(first);
    memory.delays.end_quantum();
}
