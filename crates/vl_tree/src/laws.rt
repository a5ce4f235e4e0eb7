//! What holds of every tree of the grammar.
ghost use Rattle.std.specs.Prelude.{ℕ, Bool, List};
ghost use Rattle.vl_tree.specs.declared.exprs.Expr.{Expr};
ghost use Rattle.vl_tree.specs.declared.statements.Stmt.{Stmt};
ghost use Rattle.vl_tree.specs.declared.modules.Tree.{Tree};
ghost use Rattle.vl_tree.specs.declared.terminals.Terminal.{Terminal};
ghost use Rattle.vl_tree.specs.Expressions.{IsExpr};
ghost use Rattle.vl_tree.specs.Statements.{IsStmt};
ghost use Rattle.vl_tree.specs.Modules.{IsSource};
ghost use Rattle.vl_tree.specs.Names.{ExprNames, StmtNames, TreeNames};

/// The numbers in a tree are those of tokens: each `at` is below the number of tokens, a name is an identifier's token, and a
/// number, a size or a string is the token of one.
pub fn numbers_are_tokens()
    ensures source { (ls : List Terminal) (names : List (List ℕ)) (n : ℕ) (tree : Tree) → IsSource ls names n tree → TreeNames ls tree }
    ensures stmt { (ls : List Terminal) (names : List (List ℕ)) (n i j : ℕ) (dangling : Bool) (s : Stmt) →
        IsStmt ls names n dangling i j s → StmtNames ls s }
    ensures expr { (ls : List Terminal) (n i j : ℕ) (e : Expr) → IsExpr ls n i j e → ExprNames ls e }
{}
