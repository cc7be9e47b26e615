//! Whether parts make a program.
ghost use Rattle.std.specs.Prelude.{◌≡◌, ◌↔◌, ◌+◌, ◌<◌, IsTrue, map, sum, MatchOption};
ghost use Rattle.std.specs.Option.{option_map};
ghost use Rattle.prv_model.specs.Words.{is_word as is_word_of};
ghost use Rattle.prv_model.specs.Programs.{IsProgram, expr_over as is_expr_over, stmt_over as is_stmt_over, stmt_count, all_true, passed, counted};

use crate::expr::Expr;
use crate::limits::{MAX_PARAMS, MAX_STMTS, MAX_VARS};
use crate::name::Name;
use crate::stmt::Stmt;
use sqlite_items::Boxed;

/// Whether these parts make a program: its limits are kept, and each variable is one of its own.
pub fn is_program(params: u8, names: &[Name], body: &[Stmt]) -> bool
    ensures { IsTrue result ↔ IsProgram params names.now body.now }
{
    let params = params as usize;
    1 <= params
        && params <= MAX_PARAMS
        && params <= names.len()
        && names.len() <= MAX_VARS
        && room_after_all(body, MAX_STMTS).is_some()
        && all_over(body, names.len())
}

/// Whether each variable of an expression is one of the first so many.
fn expr_over(expr: &Expr, vars: usize) -> bool
    ensures { result ≡ is_expr_over vars expr.now }
{
    match expr {
        Expr::Num(n) => is_word(*n),
        Expr::Var(var) => (*var as usize) < vars,
        Expr::Un(_, a) => expr_over(a.get(), vars),
        Expr::Bin(_, a, b) => expr_over(a.get(), vars) && expr_over(b.get(), vars),
        Expr::Pick(test, chosen, other) => {
            expr_over(test.get(), vars)
                && expr_over(chosen.get(), vars)
                && expr_over(other.get(), vars)
        }
    }
}

/// Whether a number is a word, as each number of this type is.
fn is_word(n: i32) -> bool
    ensures { result ≡ is_word_of n }
{
    let _word = n;
    true
}

/// Whether each variable of a statement is one of the first so many.
#[cycle(over)]
fn stmt_over(stmt: &Stmt, vars: usize) -> bool
    ensures { result ≡ is_stmt_over vars stmt.now }
{
    match stmt {
        Stmt::Skip => true,
        Stmt::Set { var, value } => (*var as usize) < vars && expr_over(value, vars),
        Stmt::If { test, yes, no } => {
            expr_over(test, vars) && stmt_over(yes.get(), vars) && branch_over(no, vars)
        }
        Stmt::While { test, body } => expr_over(test, vars) && stmt_over(body.get(), vars),
        Stmt::Return(value) => expr_over(value, vars),
        Stmt::Out(value) => expr_over(value, vars),
        Stmt::Assert(value) => expr_over(value, vars),
        Stmt::Block(all) => all_over(all.as_slice(), vars),
        Stmt::Marked { mark: _, body } => stmt_over(body.get(), vars),
    }
}

#[cycle(over)]
fn branch_over(branch: &Option<Boxed<Stmt>>, vars: usize) -> bool
    ensures { result ≡ passed (option_map (λ s. is_stmt_over vars s) branch.now) }
{
    match branch {
        None => true,
        Some(stmt) => stmt_over(stmt.get(), vars),
    }
}

#[cycle(over)]
fn all_over(all: &[Stmt], vars: usize) -> bool
    ensures { result ≡ all_true (map (λ s. is_stmt_over vars s) all.now) }
{
    for stmt in all {
        if !stmt_over(stmt, vars) {
            return false;
        }
    }
    true
}

/// How much room is left behind a statement, where there is room for so many; none where they are more.
#[cycle(room)]
fn room_after(stmt: &Stmt, room: usize) -> Option<usize>
    ensures { MatchOption result (room < stmt_count stmt.now) (λ left. left + stmt_count stmt.now ≡ room) }
{
    if room == 0 {
        return None;
    }
    let room = room - 1;
    match stmt {
        Stmt::If { test: _, yes, no } => match room_after(yes.get(), room) {
            None => None,
            Some(room) => room_after_branch(no, room),
        },
        Stmt::While { test: _, body } => room_after(body.get(), room),
        Stmt::Block(all) => room_after_all(all.as_slice(), room),
        Stmt::Marked { mark: _, body } => room_after(body.get(), room),
        _ => Some(room),
    }
}

#[cycle(room)]
fn room_after_branch(branch: &Option<Boxed<Stmt>>, room: usize) -> Option<usize>
    ensures { MatchOption result (room < counted (option_map (λ s. stmt_count s) branch.now)) (λ left. left + counted (option_map (λ s. stmt_count s) branch.now) ≡ room) }
{
    match branch {
        None => Some(room),
        Some(stmt) => room_after(stmt.get(), room),
    }
}

#[cycle(room)]
fn room_after_all(all: &[Stmt], room: usize) -> Option<usize>
    ensures { MatchOption result (room < sum (map (λ s. stmt_count s) all.now)) (λ left. left + sum (map (λ s. stmt_count s) all.now) ≡ room) }
{
    let mut left = room;
    for stmt in all {
        match room_after(stmt, left) {
            None => return None,
            Some(room) => left = room,
        }
    }
    Some(left)
}
