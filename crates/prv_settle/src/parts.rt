//! The parts that a region is cut into, over a pool of their own.
ghost use Rattle.std.specs.Prelude.{◌≡◌, ◌+◌, ◌<◌, ◌≤◌, ◌++◌, ◌∷◌, [], List, length, take, map, IfOk, OnOk};
ghost use Rattle.std.specs.Arc.{arc_value};
ghost use Rattle.prv_model.specs.declared.entry.Kind.TheVariants as k;
ghost use Rattle.prv_model.specs.declared.term.Term.{Term};
ghost use Rattle.prv_pool.specs.Folding.{negation};
ghost use Rattle.prv_region.specs.Regions.{IsRegion};
ghost use Rattle.prv_pool.specs.Tables.{term_at};
ghost use Rattle.prv_blast.specs.Subterms.{subterms};
ghost use Rattle.prv_part.specs.Parts.{rests, unmarked as unmarked_of};

use crate::partition::with_node;
use prv_model::Kind;
use prv_part::Part;
use prv_pool::{Pool, PoolError};
use prv_region::{Cond, MAX_REGION_NODES, Region};
use sqlite_items::Items;
use std::alloc::{AllocError, Global};
use std::marker::Model;
use std::sync::Arc;

/// Terms in a pool that has only them and their subterms. It is seen as the list of the terms.
#[derive(Drop)]
pub(crate) struct Terms {
    pool: Arc<Pool>,
    nodes: Cond,
}

impl Model for Terms {
    ghost use Rattle.std.specs.Prelude.{List, map};
    ghost use Rattle.std.specs.Coded.{coded_list};
    ghost use Rattle.std.specs.Arc.{arc_value};
    ghost use Rattle.prv_model.specs.declared.term.Term.{Term};
    ghost use Rattle.prv_pool.specs.Tables.{term_at, term_code};
    ghost use Rattle.prv_settle.specs.Making.{AreTerms};

    ghost Value = { List Term };

    ghost coded = { coded_list term_code };

    ghost view = { λ r. map (term_at (arc_value r.pool).terms) r.nodes };

    ghost invariant = { λ r. AreTerms (arc_value r.pool).terms r.nodes };
}

impl Terms {
    /// The terms of a region. They and their subterms stand in the region's pool, so a new one as large has room.
    pub(crate) fn of(alloc: Global, region: &Region) -> Result<Terms, AllocError>
        ensures { IfOk result (λ terms. terms ≡ region.now) }
    {
        let mut pool = Pool::new(alloc, MAX_REGION_NODES);
        let _ = region.parts();
        match region.copy_into(alloc, &mut pool) {
            Ok(nodes) => {
                let _ = pool.len();
                let pool = Arc::new(alloc, pool)?;
                Ok(Terms { pool, nodes })
            }
            Err(PoolError::Memory) => Err(AllocError),
            Err(PoolError::Wide) => unreachable!(),
        }
    }

    /// The count of the terms.
    pub(crate) fn len(&self) -> usize
        ensures { result ≡ length self.now }
    {
        self.nodes.roots().len()
    }

    /// The count of the terms and their subterms, each once.
    pub(crate) fn count(&self) -> u32
        ensures { result ≡ length (subterms self.now) }
    {
        self.pool.len()
    }

    /// The region of the first so many of the terms.
    pub(crate) fn front(&self, alloc: Global, count: usize) -> Result<Region, AllocError>
        requires { count ≤ length self.now }
        ensures { IfOk result (λ region. region ≡ take count self.now) }
    {
        let nodes = Vec::from_slice(alloc, &self.nodes.roots()[..count])?;
        region_of(alloc, &self.pool, nodes)
    }

    /// The region of the first so many of the terms, and one more of them.
    pub(crate) fn front_with(
        &self,
        alloc: Global,
        count: usize,
        last: usize,
    ) -> Result<Region, AllocError>
        requires count { count ≤ length self.now }
        requires last { last < length self.now }
        ensures { IfOk result (λ region. region ≡ take count self.now ++ term_at self.now last ∷ []) }
    {
        let roots = self.nodes.roots();
        let nodes = with_node(alloc, &roots[..count], roots[last])?;
        region_of(alloc, &self.pool, nodes)
    }
}

/// The region of some nodes of a pool.
fn region_of(alloc: Global, pool: &Arc<Pool>, nodes: Vec<u32>) -> Result<Region, AllocError>
    requires { IsRegion (arc_value pool.now).terms nodes.items }
    ensures { IfOk result (λ region. region ≡ map (term_at (arc_value pool.now).terms) nodes.items) }
{
    let pool = Arc::try_clone(pool)?;
    let nodes = Arc::new(alloc, nodes)?;
    Ok(Region::new(pool, Cond::new(nodes)))
}

/// A region with a claim, without marks.
pub(crate) fn unmarked(alloc: Global, kind: Kind, region: Region) -> Part
    ensures { result ≡ unmarked_of kind region }
{
    Part {
        region,
        kind,
        marks: Items::new(alloc),
    }
}

/// A part that both runs decide.
pub(crate) fn decided_part(
    alloc: Global,
    kind: Kind,
    region: Region,
    marks: &[u8],
) -> Result<Part, AllocError>
    ensures { IfOk result (λ part. part ≡ record { region = region; kind = kind; marks = marks.now }) }
{
    Ok(Part {
        region,
        kind,
        marks: Items::from_slice(alloc, marks)?,
    })
}

/// Adds the inputs on which not all literals hold, left open, by the first literal that doesn't.
///
/// The terms are those of the region, so many literals, some more, and the negation of each literal.
pub(crate) fn add_rests(
    alloc: Global,
    terms: &Terms,
    region: usize,
    literals: usize,
    negations: usize,
    parts: &mut Vec<Part>,
) -> Result<(), AllocError>
    requires long { negations + literals ≤ length terms.now }
    requires behind { region + literals ≤ negations }
    ensures { (us ps middle : List Term) → terms.now ≡ us ++ (ps ++ (middle ++ map negation ps)) → region ≡ length us → literals ≡ length ps → negations ≡ length us + length ps + length middle →
        OnOk result (parts.new.items ≡ parts.old.items ++ map (unmarked_of k.Unexplored) (rests us ps)) }
{
    let _ = terms.len();
    for k in 0..literals {
        let rest = terms.front_with(alloc, region + k, negations + k)?;
        parts.push(unmarked(alloc, Kind::Unexplored, rest))?;
    }
    Ok(())
}
