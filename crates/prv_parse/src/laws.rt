//! Laws of the definitions, each the contract of a function that does nothing.

ghost use Rattle.std.specs.Prelude.{◌≡◌, ◌⊎◌, ℕ, List};
ghost use Rattle.prv_lex.specs.declared.token.Token.{Token};
ghost use Rattle.prv_parse.specs.Refusals.{HasTree, IsSyntaxAt, IsDeepAt};
ghost use Rattle.prv_rule.specs.declared.skeleton.Skel.{Skel};
ghost use Rattle.prv_parse.specs.declared.tree.Ident.{Ident};
ghost use Rattle.prv_parse.specs.declared.tree.StmtTree.{StmtTree};

/// Tokens have at most one tree within the limits, with one skeleton.
pub fn one_tree()
    ensures { (tokens : List Token) (params names : List Ident) (body all : List StmtTree) (skeleton other : List Skel) →
        HasTree tokens params body skeleton → HasTree tokens names all other → (params ≡ names) × (body ≡ all) × (skeleton ≡ other) }
{}

/// Tokens have a tree within the limits or a first refusal, and never both.
pub fn tree_or_refusal()
    ensures either { (tokens : List Token) (end : ℕ) →
        ((params : List Ident) × (body : List StmtTree) × (skeleton : List Skel) × HasTree tokens params body skeleton)
        ⊎ (((place : ℕ) × IsSyntaxAt tokens end place) ⊎ ((place : ℕ) × IsDeepAt tokens place)) }
    ensures syntax { (tokens : List Token) (params : List Ident) (body : List StmtTree) (skeleton : List Skel) (end place : ℕ) →
        HasTree tokens params body skeleton → IsSyntaxAt tokens end place → ⊥ }
    ensures deep { (tokens : List Token) (params : List Ident) (body : List StmtTree) (skeleton : List Skel) (place : ℕ) →
        HasTree tokens params body skeleton → IsDeepAt tokens place → ⊥ }
{}

/// The first refusal is for syntax or for a limit, and at one place.
pub fn one_refusal()
    ensures one_kind { (tokens : List Token) (end place at : ℕ) → IsSyntaxAt tokens end place → IsDeepAt tokens at → ⊥ }
    ensures one_syntax { (tokens : List Token) (end place at : ℕ) → IsSyntaxAt tokens end place → IsSyntaxAt tokens end at → place ≡ at }
    ensures one_deep { (tokens : List Token) (place at : ℕ) → IsDeepAt tokens place → IsDeepAt tokens at → place ≡ at }
{}
