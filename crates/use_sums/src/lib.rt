//! Sums among expressions: found by their parts, and told apart by their names.
#![tactic(auto)]

ghost use Rattle.std.specs.Prelude.{◌≡◌, ◌↔◌, Some};
ghost use Rattle.std.specs.Option.{option_map};
ghost use Rattle.ra_ap_intern.specs.Handle.{ref_name};
ghost use Rattle.ra_ap_intern.specs.Name.{Name};
ghost use Rattle.ra_ap_intern.specs.State.{State, IsState, interned, interned_name, name_of_value};
ghost use Rattle.use_nodes.specs.Parts.{sum, parts_in, parts_at};
ghost use Rattle.use_nodes.specs.declared.Expr.{Expr as Node};
ghost use Rattle.use_nodes.specs.declared.Expr.TheVariants.{Add as of_sum};

use ra_ap_intern::InternStorage;
use std::cmp::PartialEq;
use use_nodes::{Expr, ExprRef, expressions_are_their_parts};

/// The sum of two expressions, where it was made: there is no other. It makes none.
pub fn find_sum(exprs: &InternStorage<Expr>, left: ExprRef, right: ExprRef) -> Option<ExprRef>
    ensures name { let eq = ⟦<Expr as PartialEq>⟧.eq in
        option_map ref_name result ≡ name_of_value eq exprs.now (of_sum left right) }
    ensures parts { (n : Name) → (option_map ref_name result ≡ Some n)
        ↔ (parts_at exprs.now n ≡ Some (sum (ref_name left) (ref_name right))) }
{
    // What these say is used here: that no two expressions are equal, and what expressions are.
    expressions_are_their_parts();
    let _number = exprs.number();
    exprs.get(&Expr::Add(left, right))
}

/// Two expressions that are interned one after the other get one name exactly if they have equal
/// parts.
pub fn names_tell_expressions()
    ensures { let eq = ⟦<Expr as PartialEq>⟧.eq in
        (s : State Node) → IsState eq s → (v w : Node) →
        (interned_name eq s v ≡ interned_name eq (interned eq s v).state w)
        ↔ (parts_in v ≡ parts_in w) }
{
    expressions_are_their_parts();
}
