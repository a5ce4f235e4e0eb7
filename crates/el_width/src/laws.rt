//! What the definitions have in common.
ghost use Rattle.std.specs.Prelude.{◌≡◌, ℕ, [], Bool, Option, Some, IsSome};
ghost use Rattle.xt_bits.specs.Word.{Word};
ghost use Rattle.vl_tree.specs.declared.exprs.Expr.{Expr};
ghost use Rattle.el_design.specs.Plain.{Flat};
ghost use Rattle.el_design.specs.View.{expr_of};
ghost use Rattle.el_design.specs.Value.{Scene, value};
ghost use Rattle.el_design.specs.Fits.{FitsScene, IsWellMade};
ghost use Rattle.el_width.specs.Environment.{Environment};
ghost use Rattle.el_width.specs.Expressions.{typed_of, constant_breaks, constant_of, expression_breaks, expression_form, source_value};
ghost use Rattle.el_width.specs.Uses.{IsContext, NamesFit};

/// A constant's value at a length and a sign is that of the expression, in every design, scene and store.
pub fn constants_have_their_value()
    ensures { (env : Environment) (e : Expr) (d : Flat) (s : Scene) (w : ℕ) (signed : Bool) (x : Word) →
        ((typed_of env e).operand.at w signed).known ≡ Some x → (typed_of env e).value d s w signed ≡ x }
{}

/// What an expression becomes at a length and a sign has that length and that sign, whatever is broken in it.
pub fn forms_have_their_length()
    ensures { (env : Environment) (e : Expr) (w : ℕ) (signed : Bool) →
        (((typed_of env e).operand.at w signed).form.width ≡ w) × (((typed_of env e).operand.at w signed).form.signed ≡ signed) }
{}

/// In a context whose width is in range: where nothing is broken in an expression, and its names are those of a design, its typed form is well made there.
pub fn forms_are_well_made()
    ensures { (d : Flat) (env : Environment) (context : Option (ℕ × Bool)) (e : Expr) → IsContext context → NamesFit d env e → expression_breaks env context e ≡ [] →
        IsWellMade d (expr_of (expression_form env context e)) }
{}

/// There its typed form has the source expression's value, wherever the store and the values of the nets fit the design.
pub fn forms_have_the_value()
    ensures { (d : Flat) (env : Environment) (context : Option (ℕ × Bool)) (e : Expr) → IsContext context → NamesFit d env e → expression_breaks env context e ≡ [] →
        (s : Scene) → FitsScene d s → value d s (expr_of (expression_form env context e)) ≡ source_value env context e d s }
{}

/// A constant in which nothing is broken has a value, if each parameter in it has one.
pub fn constants_have_a_value()
    ensures { (d : Flat) (env : Environment) (context : Option (ℕ × Bool)) (e : Expr) → IsContext context → NamesFit d env e → constant_breaks env context e ≡ [] →
        IsSome (constant_of env context e) }
{}
