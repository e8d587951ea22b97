//! What a run begins with.
ghost use Rattle.std.specs.Prelude.{◌≡◌, ◌+◌, ◌<◌, ◌^◌, [], All, length, map, replicate, true, false, IfOk};
ghost use Rattle.sa_call.specs.Decls.{IsDeclared};
ghost use Rattle.sa_journal.specs.Chains.{Roomy};
ghost use Rattle.sa_journal.specs.Journals.{IsFresh};
ghost use Rattle.sa_hall.specs.Contents.{shape_of};
ghost use Rattle.sa_hall.specs.Domains.{HasEntries, is_descr, descr_in};
ghost use Rattle.sa_hall.specs.Halls.{ArePlaced, HaveEntries};
ghost use Rattle.sa_hall.specs.Passes.{PassValue, is_task};
ghost use Rattle.sa_loop.specs.Locked.{shape_in};
ghost use Rattle.sa_loop.specs.Openings.{shapes_of, AreNewFrom, AreOpeningPasses};

use crate::opening::{lengths_of, plains_of};
use sa_base::Memory;
use sa_call::Decls;
use sa_hall::{Domain, Hall, Pass};
use sa_journal::{Binding, Chain, Deed, Journal, Party, Roll, TieList};
use std::alloc::Global;

/// What a run works on: its journal, its descriptors under their locks, and the pass of each task, by number.
#[derive(Drop)]
pub struct Opened<D: Deed, B: Binding> {
    pub journal: Journal<D, B>,
    pub hall: Hall<D, B>,
    pub passes: Vec<Pass<D>>,
}

/// What a run begins with: an empty journal, the declared descriptors with fresh arrays, and a pass for each
/// task, which has so many calls as `counts` says. `Memory` where there is no memory for these.
pub fn open_run<D: Deed, B: Binding>(
    alloc: Global,
    decls: &Decls,
    counts: &[u32],
    roll: Roll<D>,
    ties: TieList,
) -> Result<Opened<D, B>, Memory>
    requires roll { roll ≡ B.roll }
    requires ties { map (λ t. t.near.tie) ties ≡ B.ties }
    requires fresh { All IsFresh ties }
    requires count { length ties ≡ length decls.now.descrs + length counts.now }
    requires shapes { B.shapes ≡ shapes_of decls.now }
    requires tasks { B.tasks ≡ length counts.now }
    requires few { length counts.now < 2 ^ 32 }
    ensures passes { IfOk result (λ run. AreOpeningPasses B.roll B.ties (length decls.now.descrs) 0 counts.now (map (λ (p : PassValue D). p.it) run.passes.items)) }
{
    let _declared = decls.arrays();
    let descrs = decls.descrs().len();
    let (journal, chains) = Journal::new(alloc, roll, ties, descrs as u8, counts.len() as u32)?;
    let mut chains = chains.into_vec();
    let tasks = chains.split_off(descrs)?;
    let domains = opening_domains::<D, B>(alloc, decls, chains)?;
    Ok(Opened {
        journal,
        hall: Hall::new(alloc, domains)?,
        passes: opening_passes::<D, B>(alloc, descrs, counts, tasks)?,
    })
}

/// The declared descriptors with fresh arrays, each with the chain of its number.
fn opening_domains<D: Deed, B: Binding>(
    alloc: Global,
    decls: &Decls,
    chains: Vec<Chain<D>>,
) -> Result<Vec<Domain<D>>, Memory>
    requires declared { IsDeclared decls.now }
    requires shapes { B.shapes ≡ shapes_of decls.now }
    requires new { AreNewFrom B.roll B.ties (length B.shapes) 0 (map (λ (c : Roomy D). c.it) chains.items) }
    requires count { length chains.items ≡ length B.shapes }
    ensures count { IfOk result (λ made. length made.items ≡ length B.shapes) }
    ensures placed { IfOk result (λ made. ArePlaced B.roll B.ties B.shapes (map (λ d. d.it) made.items)) }
    ensures entries { IfOk result (λ made. HaveEntries (map (λ d. d.it) made.items)) }
{
    let mut domains = Vec::with_capacity(alloc, chains.len())?;
    for chain in chains {
        domains.push(opening_domain(alloc, decls, chain)?)?;
    }
    Ok(domains)
}

/// The descriptor of a chain, with fresh arrays.
fn opening_domain<D: Deed>(
    alloc: Global,
    decls: &Decls,
    chain: Chain<D>,
) -> Result<Domain<D>, Memory>
    requires declared { IsDeclared decls.now }
    requires descr { is_descr chain.it.party ≡ true }
    requires empty { chain.it.lines ≡ [] }
    ensures shape { IfOk result (λ d. shape_of d.it.contents ≡ shape_in decls.now (descr_in chain.it.party)) }
    ensures entries { IfOk result (λ d. HasEntries d.it.contents.layout) }
    ensures number { IfOk result (λ d. d.it.number ≡ descr_in chain.it.party) }
    ensures chain { IfOk result (λ d. d.it.chain ≡ chain.it) }
{
    let Party::Descr(number) = chain.party() else {
        unreachable!()
    };
    let lengths = lengths_of(alloc, decls, number as usize)?;
    let kinds = plains_of(alloc, decls, number as usize)?;
    Domain::new(alloc, chain, lengths.as_slice(), kinds.as_slice())
}

/// A pass for each task, with the chain of its number and no mark.
fn opening_passes<D: Deed, B: Binding>(
    alloc: Global,
    _descrs: usize,
    counts: &[u32],
    chains: Vec<Chain<D>>,
) -> Result<Vec<Pass<D>>, Memory>
    requires new { AreNewFrom B.roll B.ties _descrs _descrs (map (λ (c : Roomy D). c.it) chains.items) }
    requires count { length chains.items ≡ length counts.now }
    ensures { IfOk result (λ passes. AreOpeningPasses B.roll B.ties _descrs 0 counts.now (map (λ (p : PassValue D). p.it) passes.items)) }
{
    let mut passes = Vec::with_capacity(alloc, chains.len())?;
    for chain in chains {
        let calls = counts[passes.len()];
        passes.push(Pass::new(alloc, chain, calls)?)?;
    }
    Ok(passes)
}
