//! Nodes that refer to nodes: expressions over their parts, each stored once.
#![tactic(auto)]

ghost use Rattle.std.specs.Prelude.{◌≡◌, ◌↔◌, true, Some, IfOk};
ghost use Rattle.ra_ap_intern.specs.Handle.{ref_name};
ghost use Rattle.ra_ap_intern.specs.Interning.{Makes};
ghost use Rattle.ra_ap_intern.specs.State.{reads};
ghost use Rattle.ra_ap_intern.specs.declared.kind.Values.{Values as ValueKind};
ghost use Rattle.ra_ap_intern.specs.declared.storage.Ref.{Ref as Reference};
ghost use Rattle.use_nodes.specs.Parts.{Parts, number as a_number, sum, parts_in, parts_at, summands};
ghost use Rattle.use_nodes.specs.declared.Expr.{Expr as Node};
ghost use Rattle.use_nodes.specs.declared.Expr.TheVariants.{Number as of_number, Add as of_sum};

use ra_ap_intern::{InternStorage, Internable, InternedRef, Refusal, laws};
use std::cmp::PartialEq;

/// An expression over others.
#[derive(Drop, PartialEq, Eq, Hash)]
pub enum Expr {
    /// A number.
    Number(u64),
    /// The sum of two expressions.
    Add(ExprRef, ExprRef),
}

/// A handle of an expression.
pub type ExprRef = InternedRef<Expr>;

impl Internable for Expr {
    const USE_GC: bool = true;

    ghost USE_GC = { true };
}

/// The handle of an expression, which is stored unless an equal one is. Refused: `NumbersUsedUp`,
/// `OutOfMemory`.
pub fn make(exprs: &mut InternStorage<Expr>, expr: Expr) -> Result<ExprRef, Refusal>
    ensures { Makes ⟦<Expr as PartialEq>⟧.eq parts_in result exprs.old exprs.new expr }
{
    // What these say is used here: that no two expressions are equal, and what expressions are.
    expressions_are_their_parts();
    let _number = exprs.number();
    exprs.get_or_intern_gc(expr)
}

/// The expression of a number. Refused: `NumbersUsedUp`, `OutOfMemory`.
pub fn number(exprs: &mut InternStorage<Expr>, value: u64) -> Result<ExprRef, Refusal>
    ensures makes { Makes ⟦<Expr as PartialEq>⟧.eq parts_in result exprs.old exprs.new
        (of_number value) }
    ensures reads { IfOk result (λ e. parts_at exprs.new (ref_name e) ≡ Some (a_number value)) }
{
    make(exprs, Expr::Number(value))
}

/// The sum of two expressions. Refused: `NumbersUsedUp`, `OutOfMemory`.
pub fn add(
    exprs: &mut InternStorage<Expr>,
    left: ExprRef,
    right: ExprRef,
) -> Result<ExprRef, Refusal>
    ensures makes { Makes ⟦<Expr as PartialEq>⟧.eq parts_in result exprs.old exprs.new
        (of_sum left right) }
    ensures reads { IfOk result (λ e.
        parts_at exprs.new (ref_name e) ≡ Some (sum (ref_name left) (ref_name right))) }
{
    make(exprs, Expr::Add(left, right))
}

/// The parts of a sum. None for any other handle.
pub fn parts(exprs: &InternStorage<Expr>, handle: ExprRef) -> Option<(ExprRef, ExprRef)>
    ensures { result ≡ summands (reads exprs.now (ref_name handle)) }
{
    match handle.get(exprs)? {
        Expr::Number(_) => None,
        Expr::Add(left, right) => Some((*left, *right)),
    }
}

/// Expressions are equal exactly if they are one number, or have the same parts in order.
pub fn expressions_are_their_parts()
    ensures { (v w : Node) → (⟦<Expr as PartialEq>⟧.eq v w ≡ true) ↔ (parts_in v ≡ parts_in w) }
{
    laws::references_are_names::<Expr>();
}

/// Two handles that can be read are equal exactly if their expressions have equal parts.
pub fn handles_tell_expressions(exprs: &InternStorage<Expr>)
    ensures { (a b : Reference (ValueKind Node)) (x y : Parts) →
        parts_at exprs.now (ref_name a) ≡ Some x → parts_at exprs.now (ref_name b) ≡ Some y →
        (⟦<ExprRef as PartialEq>⟧.eq a b ≡ true) ↔ (x ≡ y) }
{
    let _number = exprs.number();
    expressions_are_their_parts();
    laws::references_are_names::<Expr>();
}
