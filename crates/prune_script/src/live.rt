ghost use Rattle.std.specs.Prelude.{◌≡◌, ◌<◌, ℕ, [], true, replicate, length, option_to_list, IfOk, OnOk, IfSome};
ghost use Rattle.std.specs.Option.{option_map_or};
ghost use Rattle.law_base.specs.Members.{IsIn};
ghost use Rattle.prune_script.specs.Deeds.{IsBelow, AreBelow, link as link_of, links, heard_of, is_heard as is_deed_heard};
ghost use Rattle.prune_script.specs.Keeping.{TellsHeard};
ghost use Rattle.prune_script.specs.Live.{sources_at, sources_to, is_marked, IsMarking, AreLed};
ghost use Rattle.prune_script.specs.Pruned.{is_live};

use crate::deeds::Deed;
use std::alloc::Global;
use wa_base::{Items, NoMemory};

// For each ordinal, whether its call is heard: it does more than read, and touches live nodes alone.
pub(crate) fn heard(alloc: Global, deeds: &[Deed], count: usize) -> Result<Vec<bool>, NoMemory>
    requires some { 0 < count }
    requires below { AreBelow count deeds.now }
    ensures length { IfOk result (λ heard. length heard.items ≡ count) }
    ensures each { IfOk result (λ heard. TellsHeard (heard_of (is_live (links deeds.now)) deeds.now) heard.items) }
{
    let sources = sources(alloc, deeds, count)?;
    let live = live_nodes(alloc, sources.as_slice())?;
    marked_heard(alloc, deeds, live.as_slice())
}

// For each node, the nodes that were connected to it.
fn sources(alloc: Global, deeds: &[Deed], count: usize) -> Result<Vec<Items<u32>>, NoMemory>
    requires { AreBelow count deeds.now }
    ensures length { IfOk result (λ sources. length sources.items ≡ count) }
    ensures each { IfOk result (λ sources. (node : ℕ) → sources_at sources.items node ≡ sources_to node (links deeds.now)) }
{
    let mut sources = no_sources(alloc, count)?;
    for deed in deeds {
        if let Some((from, to)) = link(deed) {
            sources[to as usize].push(from)?;
        }
    }
    Ok(sources)
}

// From which node a call connects to which one, if it connects nodes.
fn link(deed: &Deed) -> Option<(u32, u32)>
    ensures { option_to_list result ≡ link_of deed.now }
{
    if deed.connects {
        Some((deed.first?, deed.second?))
    } else {
        None
    }
}

// So many empty lists.
fn no_sources(alloc: Global, count: usize) -> Result<Vec<Items<u32>>, NoMemory>
    ensures { IfOk result (λ sources. sources.items ≡ replicate count []) }
{
    let mut sources = Vec::new(alloc);
    for _ in 0..count {
        sources.push(Items::new(alloc))?;
    }
    Ok(sources)
}

// For each node, whether it is live. The destination is, and each node that was connected to a live one.
fn live_nodes(alloc: Global, sources: &[Items<u32>]) -> Result<Vec<bool>, NoMemory>
    requires some { 0 < length sources.now }
    requires within { (node source : ℕ) → IsIn source (sources_at sources.now node) → source < length sources.now }
    ensures { IfOk result (λ live. AreLed sources.now live.items) }
{
    let mut live = vec![in alloc; false; sources.len()]?;
    let mut waiting = vec![in alloc; 0]?;
    live[0] = true;
    while let Some(node) = waiting.pop() {
        mark(sources[node as usize].as_slice(), &mut live, &mut waiting)?;
    }
    Ok(live)
}

// Marks nodes. Those that were not marked wait then.
fn mark(nodes: &[u32], marks: &mut [bool], waiting: &mut Vec<u32>) -> Result<(), NoMemory>
    requires { (node : ℕ) → IsIn node nodes.now → node < length marks.old }
    ensures { OnOk result (IsMarking nodes.now marks.old waiting.old.items marks.new waiting.new.items) }
{
    for node in nodes {
        if !marks[*node as usize] {
            marks[*node as usize] = true;
            waiting.push(*node)?;
        }
    }
    Ok(())
}

// For each ordinal, whether its call is heard, where these nodes are live.
fn marked_heard(alloc: Global, deeds: &[Deed], live: &[bool]) -> Result<Vec<bool>, NoMemory>
    requires { AreBelow (length live.now) deeds.now }
    ensures length { IfOk result (λ heard. length heard.items ≡ length live.now) }
    ensures each { IfOk result (λ heard. TellsHeard (heard_of (is_marked live.now) deeds.now) heard.items) }
{
    let mut heard = vec![in alloc; false; live.len()]?;
    for deed in deeds {
        if is_heard(deed, live) {
            heard[deed.ordinal as usize] = true;
        }
    }
    Ok(heard)
}

// Whether a call is heard, where these nodes are live.
fn is_heard(deed: &Deed, live: &[bool]) -> bool
    requires { IsBelow (length live.now) deed.now }
    ensures { result ≡ is_deed_heard (is_marked live.now) deed.now }
{
    !deed.reads && is_live_if_there(deed.first, live) && is_live_if_there(deed.second, live)
}

// Whether a node is live, where there is one.
fn is_live_if_there(node: Option<u32>, live: &[bool]) -> bool
    requires { IfSome node (λ n. n < length live.now) }
    ensures { result ≡ option_map_or (is_marked live.now) node true }
{
    match node {
        Some(node) => live[node as usize],
        None => true,
    }
}
