//! Regions: conditions over one shared pool.
ghost use Rattle.std.specs.Prelude.{◌≡◌, ℕ, ◌<◌, ◌≤◌, List, length, map, All, IfOk};
ghost use Rattle.std.specs.Arc.{arc_value};
ghost use Rattle.prv_pool.specs.Tables.{Table, IsTable, AreAt, term_at};

use prv_pool::Pool;
use std::alloc::AllocError;
use std::marker::Model;
use std::sync::Arc;

/// The most nodes of a region's pool.
pub const MAX_REGION_NODES: u32 = 25_000;

/// A condition: nodes of a pool, each of which is to be nonzero. It is shared, not copied.
#[derive(Drop)]
pub struct Cond {
    roots: Arc<Vec<u32>>,
}

impl Model for Cond {
    ghost use Rattle.std.specs.Prelude.{ℕ, List};
    ghost use Rattle.std.specs.Coded.{coded_list, coded_ℕ};
    ghost use Rattle.std.specs.Arc.{arc_value};

    ghost Value = { List ℕ };

    ghost coded = { coded_list coded_ℕ };

    ghost view = { λ c. (arc_value c.roots).items };
}

impl Cond {
    /// The condition of these nodes.
    pub fn new(roots: Arc<Vec<u32>>) -> Cond
        ensures { result ≡ (arc_value roots).items }
    {
        Cond { roots }
    }

    /// The numbers of the nodes.
    pub fn roots(&self) -> &[u32]
        ensures { result.now ≡ self.now }
    {
        self.roots.as_slice()
    }

    fn share(&self) -> Result<Cond, AllocError>
        ensures { IfOk result (λ c. c ≡ self.now) }
    {
        Ok(Cond {
            roots: Arc::try_clone(&self.roots)?,
        })
    }
}

/// A region: terms of a pool, all of which are nonzero on the inputs that it holds. It is seen as the
/// list of the terms. Its pool has at most [`MAX_REGION_NODES`] nodes.
#[derive(Drop)]
pub struct Region {
    pool: Arc<Pool>,
    cond: Cond,
}

impl Model for Region {
    ghost use Rattle.std.specs.Prelude.{ℕ, ◌<◌, List, length, map, All};
    ghost use Rattle.std.specs.Coded.{coded_list};
    ghost use Rattle.std.specs.Arc.{arc_value};
    ghost use Rattle.prv_model.specs.declared.term.Term.{Term};
    ghost use Rattle.prv_pool.specs.Tables.{term_at, term_code};
    ghost use Rattle.prv_region.specs.Regions.{IsRegion};

    ghost Value = { List Term };

    ghost coded = { coded_list term_code };

    ghost view = { λ r. map (term_at (arc_value r.pool).terms) r.cond };

    ghost invariant = { λ r. IsRegion (arc_value r.pool).terms r.cond };
}

/// A region's pool, and the numbers of its terms in it.
#[derive(Drop)]
pub struct Parts<'a> {
    pub pool: &'a Pool,
    pub roots: &'a [u32],
}

impl Region {
    /// The region of a condition on a pool.
    pub fn new(pool: Arc<Pool>, cond: Cond) -> Region
        requires within { All (λ n. n < length (arc_value pool).terms) cond }
        requires few { length (arc_value pool).terms ≤ MAX_REGION_NODES }
        ensures { result ≡ map (term_at (arc_value pool).terms) cond }
    {
        Region { pool, cond }
    }

    /// The pool that the terms stand in.
    pub fn pool(&self) -> &Pool
        ensures { (numbers : List ℕ) × AreAt self.now result.now numbers }
    {
        self.pool.keeps_a_table();
        &self.pool
    }

    /// The numbers of the terms in the pool: equal terms have equal numbers.
    pub fn roots(&self) -> &[u32]
        ensures { (table : Table) × AreAt self.now table result.now }
    {
        self.pool.keeps_a_table();
        self.cond.roots()
    }

    /// The pool that the terms stand in, and their numbers there, together: which terms they are.
    pub fn parts(&self) -> Parts<'_>
        ensures value { self.now ≡ map (term_at result.pool.now.terms) result.roots.now }
        ensures within { All (λ n. n < length result.pool.now.terms) result.roots.now }
        ensures table { IsTable result.pool.now }
        ensures few { length result.pool.now.terms ≤ MAX_REGION_NODES }
    {
        self.pool.keeps_a_table();
        Parts {
            pool: &self.pool,
            roots: self.cond.roots(),
        }
    }

    /// The same region once more, with its pool and its nodes shared.
    pub fn share(&self) -> Result<Region, AllocError>
        ensures { IfOk result (λ r. r ≡ self.now) }
    {
        Ok(Region {
            pool: Arc::try_clone(&self.pool)?,
            cond: self.cond.share()?,
        })
    }
}
