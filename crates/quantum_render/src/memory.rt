use delay_bank::Delays;
use filter_bank::CausalNodes;

// What the nodes of a graph remember: the causal nodes what they have heard, and the delays what their writers
// wrote.
#[derive(Drop)]
pub(crate) struct Memory {
    pub causal: CausalNodes,
    pub delays: Delays,
}
