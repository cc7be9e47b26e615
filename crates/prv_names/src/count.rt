//! How many statements a tree has. The limit is tested on the tree, before statements are numbered.
ghost use Rattle.std.specs.Prelude.{◌≡◌, ◌<◌, ◌^◌, map, sum};
ghost use Rattle.std.specs.Option.{option_map};
ghost use Rattle.prv_parse.specs.Trees.{stmt_count, body_count, counted};

use prv_parse::StmtTree;
use sqlite_items::Boxed;

/// How many statements and declarations a statement is, itself and each one inside it.
#[cycle(count)]
fn count(stmt: &StmtTree) -> u32
    requires { stmt_count stmt.now < 2 ^ 31 }
    ensures { result ≡ stmt_count stmt.now }
{
    match stmt {
        StmtTree::If { test: _, yes, no } => 1 + (count(yes.get()) + count_else(no)),
        StmtTree::While { test: _, body } => 1 + count(body.get()),
        StmtTree::Block(all) => 1 + count_all(all.as_slice()),
        StmtTree::Marked { mark: _, body } => 1 + count(body.get()),
        _ => 1,
    }
}

#[cycle(count)]
fn count_else(branch: &Option<Boxed<StmtTree>>) -> u32
    requires { counted (option_map (λ s. stmt_count s) branch.now) < 2 ^ 31 }
    ensures { result ≡ counted (option_map (λ s. stmt_count s) branch.now) }
{
    match branch {
        None => 0,
        Some(stmt) => count(stmt.get()),
    }
}

/// How many statements and declarations a body has, each one inside another included.
#[cycle(count)]
pub fn count_all(all: &[StmtTree]) -> u32
    requires { body_count all.now < 2 ^ 31 }
    ensures { result ≡ body_count all.now }
{
    let mut total = 0;
    for stmt in all {
        total += count(stmt);
    }
    total
}
