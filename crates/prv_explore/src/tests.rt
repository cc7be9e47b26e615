//! Explorations of a small pair: to the end, for one settlement, and on a board that is too small; and that the
//! conditions of regions and the logs of proofs cross threads.
use crate::explore;
use crate::exploring::{all_inputs, settle_all};
use crate::plan::{BOARD_CAPS, Plan};
use crate::progress::{Progress, Quiet};
use prv_board::{Board, Ended};
use prv_check::Log;
use prv_model::{BinOp, Expr, Name, Pair, Program, Stmt, UnOp};
use prv_part::Caps;
use prv_region::Region;
use sqlite_items::{Boxed, Items};
use std::alloc::{AllocError, Global};
use std::sync::Arc;
use std::test::Fail;

/// `int main(int a) { int r = a; @1 if (a op 0) r = -a; return r; }`.
fn version(alloc: Global, op: BinOp) -> Result<Option<Program>, AllocError> {
    let mut names = Items::new(alloc);
    names.push(Name::new(alloc, b"a")?)?;
    names.push(Name::new(alloc, b"r")?)?;
    let test = Expr::Bin(
        op,
        Boxed::new(alloc, Expr::Var(0))?,
        Boxed::new(alloc, Expr::Num(0))?,
    );
    let yes = Stmt::Set {
        var: 1,
        value: Expr::Un(UnOp::Neg, Boxed::new(alloc, Expr::Var(0))?),
    };
    let change = Stmt::If {
        test,
        yes: Boxed::new(alloc, yes)?,
        no: None,
    };
    let mut body = Items::new(alloc);
    body.push(Stmt::Set {
        var: 1,
        value: Expr::Var(0),
    })?;
    body.push(Stmt::Marked {
        mark: 1,
        body: Boxed::new(alloc, change)?,
    })?;
    body.push(Stmt::Return(Expr::Var(1)))?;
    Ok(Program::new(1, names, body))
}

/// The pair of the versions with `<` and with `<=`.
fn pair(alloc: Global) -> Result<Arc<Pair>, Fail> {
    if let (Some(before), Some(after)) = (version(alloc, BinOp::Lt)?, version(alloc, BinOp::Le)?) {
        if before.params == after.params {
            return Ok(Arc::new(
                alloc,
                Pair {
                    before,
                    after,
                    turns: 32,
                },
            )?);
        }
    }
    Err(Fail::from(AllocError))
}

fn kinds(board: &Board) -> [u32; 6] {
    let counts = board.counts();
    [
        counts.same,
        counts.different,
        counts.empty,
        counts.beyond,
        counts.unexplored,
        counts.undecided,
    ]
}

/// What an exploration told of its progress: how often, the counts of the last time, and how often it ended.
#[derive(Debug, Default, PartialEq, Eq, Drop)]
struct Told {
    times: u32,
    settlements: u32,
    open: u32,
    ends: u32,
}

impl Progress for Told {
    fn made(&mut self, settlements: u32, open: u32) {
        self.times = self.times.saturating_add(1);
        self.settlements = settlements;
        self.open = open;
    }

    fn ended(&mut self) {
        self.ends = self.ends.saturating_add(1);
    }
}

/// Four settlements, of the entries 0, 2, 3 and 5, decide all inputs, and each is told.
#[test]
fn all_is_explored(rt: HostRuntime) -> Result<(), Fail> {
    let alloc = rt.alloc();
    let plan = Plan {
        lines: 2_000,
        settlements: 1_000,
    };
    let mut told = Told::default();
    let explored = explore(alloc, pair(alloc)?, plan, &mut told)?;
    let board = &explored.board;
    assert!(rt; explored.ended == Ended::Done, "nothing is left");
    assert!(rt; board.history().len() == 4, "four settlements");
    assert!(rt;
        kinds(board) == [3, 0, 1, 0, 0, 0],
        "three are the same and one is empty"
    );
    let wanted = [0, 2, 3, 5];
    for (settlement, entry) in board.history().iter().zip(wanted.iter()) {
        assert!(rt; settlement.entry() == *entry, "the least entry comes first");
    }
    let wanted = Told {
        times: 4,
        settlements: 4,
        open: 0,
        ends: 1,
    };
    assert!(rt; told == wanted, "each settlement is told, and the end");
    Ok(())
}

/// One settlement leaves two entries open.
#[test]
fn one_settlement(rt: HostRuntime) -> Result<(), Fail> {
    let alloc = rt.alloc();
    let plan = Plan {
        lines: 2_000,
        settlements: 1,
    };
    let explored = explore(alloc, pair(alloc)?, plan, &mut Quiet)?;
    assert!(rt;
        explored.ended == Ended::Settlements { limit: 1 },
        "the settlements are made"
    );
    assert!(rt;
        kinds(&explored.board) == [1, 0, 0, 0, 2, 0],
        "two are open"
    );
    Ok(())
}

/// A board of three entries has no room for the second settlement, which has two parts, and stays as it was.
#[test]
fn full_board(rt: HostRuntime) -> Result<(), Fail> {
    let alloc = rt.alloc();
    let caps = Caps {
        entries: 3,
        ..BOARD_CAPS
    };
    let plan = Plan {
        lines: 2_000,
        settlements: 1_000,
    };
    let mut board = Board::new(alloc, pair(alloc)?, all_inputs(alloc)?, caps)?;
    match settle_all(alloc, &mut board, plan, &mut Quiet)? {
        Ended::Full(reached) => assert!(rt; reached.entries == 4, "four would be live"),
        _ => return Err(Fail::from(AllocError)),
    }
    assert!(rt; board.history().len() == 1, "one settlement was made");
    Ok(())
}

/// What may be handed to another thread, and shared between threads.
fn may_cross<T: Send + Sync>() {}

/// Workers hand regions and logs over, and readers share them.
#[test]
fn values_cross_threads(_rt: HostRuntime) -> Result<(), Fail> {
    may_cross::<Region>();
    may_cross::<Log>();
    Ok(())
}
