use node_table::{Kind, Nodes};
use std::alloc::Global;
use std::test::Fail;
use wa_base::{ContextSpec, Exc, NoMemory, NodeId, ONE, Refusal};

// The nodes of a context, before the first creation.
fn begin(alloc: Global) -> Result<Nodes, Refusal> {
    let context = ContextSpec {
        channels: 2,
        length: 128,
        rate: 48_000,
        quantum: 128,
    };
    if !context.is_supported() {
        return Err(Refusal::Exc(Exc::NotSupported(None)));
    }
    Ok(Nodes::new(alloc, context)?)
}

fn begin_again(alloc: Global) -> Result<Nodes, Refusal> {
    match begin(alloc) {
        Err(Refusal::NoMemory) => begin(alloc),
        begun => begun,
    }
}

fn create_again(nodes: &mut Nodes) -> Result<NodeId, Refusal> {
    let number = nodes.len();
    match nodes.create(Kind::Gain { gain: ONE }, 0) {
        Err(Refusal::NoMemory) if nodes.len() == number => {
            nodes.create(Kind::Gain { gain: ONE }, 0)
        }
        created => created,
    }
}

fn copy_again(nodes: &Nodes) -> Result<Nodes, NoMemory> {
    match nodes.copy() {
        Err(NoMemory) => nodes.copy(),
        copied => copied,
    }
}

// Whether nine nodes get the next numbers, and all ten are copied.
fn goes_on(nodes: &mut Nodes) -> Result<bool, Refusal> {
    for number in 1..10 {
        if create_again(nodes)? != NodeId(number) {
            return Ok(false);
        }
    }
    let copy = copy_again(nodes)?;
    Ok(copy.len() == 10)
}

fn goes_on_after_refusals(alloc: Global) -> Result<bool, Refusal> {
    let mut nodes = begin_again(alloc)?;
    let goes = goes_on(&mut nodes);
    drop(nodes);
    goes
}

// Where one growth is refused, what asked for it can be done again.
#[test]
fn what_was_refused_memory_can_be_done_again(rt: HostRuntime) -> Result<(), Fail> {
    assert!(rt; goes_on_after_refusals(rt.alloc())?);
    Ok(())
}
