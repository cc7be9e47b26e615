//! What no clause says: that each call succeeds where there is memory, and the printed words.
ghost use Rattle.std.specs.Prelude.{◌≡◌, [], ◌∷◌, IfOk, IfSome};
ghost use Rattle.std.specs.Arc.{arc_value};
ghost use Rattle.prv_model.specs.declared.entry.Kind.TheVariants as kind;
ghost use Rattle.prv_model.specs.declared.entry.Reason.TheVariants as reason;
ghost use Rattle.prv_part.specs.Parts.{unmarked};

use crate::{ApplyError, Board, Counts, Parent, Totals};
use prv_model::{Expr, Input, Kind, Name, Pair, Program, Reason, Stmt};
use prv_part::{Caps, Part, Settlement};
use prv_pool::Pool;
use prv_region::{Cond, Region, Scratch};
use sqlite_items::Items;
use std::alloc::{AllocError, Global};
use std::sync::Arc;
use std::test::Fail;

/// `int main(int a) { return n; }`.
fn program(alloc: Global, n: i32) -> Result<Option<Program>, AllocError>
    ensures { IfOk result (λ p. IfSome p (λ program. program.params ≡ 1)) }
{
    let mut names = Items::new(alloc);
    names.push(Name::new(alloc, b"a")?)?;
    let mut body = Items::new(alloc);
    body.push(Stmt::Return(Expr::Num(n)))?;
    Ok(Program::new(1, names, body))
}

/// A pair of two programs that return another number.
fn pair(alloc: Global) -> Result<Arc<Pair>, Fail>
    ensures { IfOk result (λ pair. (arc_value pair).before.params ≡ 1) }
{
    match (program(alloc, 1)?, program(alloc, 2)?) {
        (Some(before), Some(after)) => {
            let pair = Pair {
                before,
                after,
                turns: 4,
            };
            Ok(Arc::new(alloc, pair)?)
        }
        _ => Err(Fail::from(AllocError)),
    }
}

/// The region of all inputs.
fn everything(alloc: Global) -> Result<Region, Fail>
    ensures { IfOk result (λ region. region ≡ []) }
{
    let roots = Arc::new(alloc, Vec::new(alloc))?;
    let pool = Arc::new(alloc, Pool::new(alloc, 1))?;
    Ok(Region::new(pool, Cond::new(roots)))
}

/// The board of all inputs.
fn board(alloc: Global, pair: Arc<Pair>) -> Result<Board, Fail>
    requires { (arc_value pair).before.params ≡ 1 }
    ensures params { IfOk result (λ board. board.replay.pair.before.params ≡ 1) }
    ensures space { IfOk result (λ board. board.replay.space ≡ []) }
{
    let space = everything(alloc)?;
    let caps = Caps {
        entries: 9,
        numbers: 9,
        literals: 9,
    };
    Ok(Board::new(alloc, pair, space, caps)?)
}

/// One part, of which nothing is decided.
fn undecided(alloc: Global, region: &Region) -> Result<Vec<Part>, Fail>
    ensures { IfOk result (λ parts. parts.items ≡ unmarked (kind.Undecided reason.Wide) region.now ∷ []) }
{
    let mut parts = Vec::new(alloc);
    parts.push(Part {
        region: region.share()?,
        kind: Kind::Undecided {
            reason: Reason::Wide,
        },
        marks: Items::new(alloc),
    })?;
    Ok(parts)
}

/// A settlement of entry 0, of which nothing is decided.
fn stuck(alloc: Global, pair: Arc<Pair>) -> Result<Arc<Settlement>, Fail> {
    let region = everything(alloc)?;
    let parts = undecided(alloc, &region)?;
    let settlement = Settlement::stuck(pair, 0, region, None, parts, 3)?;
    Ok(Arc::new(alloc, settlement)?)
}

/// The entry that holds the input 7, and the path to it.
fn walk(alloc: Global, board: &Board) -> Result<(u32, Vec<u32>), Fail>
    requires params { board.now.replay.pair.before.params ≡ 1 }
    requires space { board.now.replay.space ≡ [] }
{
    let mut scratch = Scratch::new(alloc);
    board.reserve(&mut scratch)?;
    let mut input = Input::new(alloc);
    input.push(7)?;
    let found = board.find(&input, &mut scratch);
    let path = board.path(&input, &mut scratch)?;
    Ok((found, path))
}

/// The words of a refusal.
#[test]
fn a_full_board_is_told(rt: HostRuntime) -> Result<(), Fail> {
    let full = ApplyError::Full(Totals {
        entries: 3,
        numbers: 40,
        literals: 5,
    });
    let words = format!(in rt.alloc(); "{full}")?;
    assert!(rt; words.as_str() == "the board is full: 3 entries, 40 numbers, 5 literals");
    Ok(())
}

/// The walk to an input, the counts and the numbers of a board of all inputs, before and after a settlement.
#[test]
fn a_board_of_all_inputs(rt: HostRuntime) -> Result<(), Fail> {
    let alloc = rt.alloc();
    let pair = pair(alloc)?;
    let mut board = board(alloc, Arc::try_clone(&pair)?)?;
    let (found, path) = walk(alloc, &board)?;
    assert!(rt; found == 0 && path.as_slice() == [0].as_slice());
    assert!(rt; board.parent(0).is_none() && board.next_number() == 1);
    assert!(rt;
        board.counts()
            == Counts {
                unexplored: 1,
                ..Counts::NONE
            }
    );
    let first = board.apply(stuck(alloc, pair)?)?;
    let copied = board.copy()?;
    let (found, path) = walk(alloc, &copied)?;
    assert!(rt; first == 1 && found == 1 && path.as_slice() == [0, 1].as_slice());
    assert!(rt; board.parent(1) == Some(Parent { entry: 0, part: 0 }));
    assert!(rt; copied.next_number() == 2 && board.next_number() == 2);
    assert!(rt;
        copied.counts()
            == Counts {
                undecided: 1,
                ..Counts::NONE
            }
    );
    let again = stuck(alloc, Arc::try_clone(board.pair())?)?;
    board.absorb(again)?;
    let begun = board.prefix(0)?;
    assert!(rt; board.next_number() == 2 && begun.next_number() == 1 && begun.history().is_empty());
    Ok(())
}
