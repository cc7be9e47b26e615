//! What no clause says: that a settlement is made where there is memory, and that settlements may cross threads.
ghost use Rattle.std.specs.Prelude.{◌≡◌, [], ◌∷◌, IfOk, IfSome};
ghost use Rattle.prv_model.specs.declared.term.Term.TheVariants.{Num};
ghost use Rattle.prv_part.specs.Parts.{unmarked};

use crate::{Part, Settlement, Shape};
use prv_model::{Expr, Kind, Name, Pair, Program, Reason, Stmt};
use prv_pool::Pool;
use prv_region::{Cond, Region};
use sqlite_items::Items;
use std::alloc::{AllocError, Global};
use std::sync::Arc;
use std::test::Fail;

/// `int main(int a) { return n; }`.
fn program(alloc: Global, n: i32) -> Result<Option<Program>, AllocError>
    ensures { IfOk result (λ p. IfSome p (λ program. program.params ≡ 1)) }
{
    let mut names = Items::new(alloc);
    names.push(Name::new(alloc, b"a")?)?;
    let mut body = Items::new(alloc);
    body.push(Stmt::Return(Expr::Num(n)))?;
    Ok(Program::new(1, names, body))
}

/// The region whose one condition is a number.
fn region(alloc: Global, n: i32) -> Result<Region, Fail>
    ensures { IfOk result (λ region. region ≡ Num n ∷ []) }
{
    let mut pool = Pool::new(alloc, 1);
    let node = pool.num(n)?;
    let count = pool.len();
    prove!(count <= 1);
    let mut roots = Vec::new(alloc);
    roots.push(node)?;
    let roots = Arc::new(alloc, roots)?;
    Ok(Region::new(Arc::new(alloc, pool)?, Cond::new(roots)))
}

/// One part, without marks.
fn one_part(alloc: Global, region: &Region, kind: Kind) -> Result<Vec<Part>, Fail>
    ensures { IfOk result (λ parts. parts.items ≡ unmarked kind region.now ∷ []) }
{
    let mut parts = Vec::new(alloc);
    parts.push(Part {
        region: region.share()?,
        kind,
        marks: Items::new(alloc),
    })?;
    Ok(parts)
}

/// A pair of two programs that return another number.
fn pair(alloc: Global) -> Result<Option<Arc<Pair>>, AllocError> {
    match (program(alloc, 1)?, program(alloc, 2)?) {
        (Some(before), Some(after)) => {
            let pair = Pair {
                before,
                after,
                turns: 4,
            };
            Ok(Some(Arc::new(alloc, pair)?))
        }
        _ => Ok(None),
    }
}

fn empty(alloc: Global, pair: Arc<Pair>) -> Result<Settlement, Fail> {
    let region = region(alloc, 0)?;
    let parts = one_part(alloc, &region, Kind::Empty)?;
    Ok(Settlement::empty(pair, 3, region, parts, 7)?)
}

fn stuck(alloc: Global, pair: Arc<Pair>) -> Result<Settlement, Fail> {
    let region = region(alloc, 1)?;
    let kind = Kind::Undecided {
        reason: Reason::Wide,
    };
    let parts = one_part(alloc, &region, kind)?;
    Ok(Settlement::stuck(pair, 5, region, None, parts, 9)?)
}

/// What the readers answer of a settlement.
fn reads(settlement: &Settlement, shape: Shape, entry: u32, numbers: u64) -> bool {
    settlement.shape() == shape
        && settlement.entry() == entry
        && settlement.numbers() == numbers
        && settlement.member().is_none()
        && settlement.pair().turns == 4
        && settlement.region().roots().len() == 1
        && settlement.parts().len() == 1
}

/// What may be handed to another thread, and shared between threads.
fn may_cross<T: Send + Sync>(_: &T) {}

/// An empty region, and one of which nothing is decided, with a copy of its part.
#[test]
fn settled(rt: HostRuntime) -> Result<(), Fail> {
    let alloc = rt.alloc();
    let pair = pair(alloc)?;
    assert!(rt; pair.is_some(), "pair");
    if let Some(pair) = pair {
        let settlement = empty(alloc, Arc::try_clone(&pair)?)?;
        assert!(rt; reads(&settlement, Shape::Empty, 3, 7), "empty");
        let settlement = stuck(alloc, pair)?;
        assert!(rt; reads(&settlement, Shape::Stuck, 5, 9), "stuck");
        may_cross(&settlement);
        for part in settlement.parts() {
            let copied = part.copy(alloc)?;
            assert!(rt; copied.region.roots().len() == 1, "copied");
        }
    }
    Ok(())
}
