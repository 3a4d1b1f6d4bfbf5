//! A rule of rewriting, over a store of terms: a sum of zero and a term is that term.
#![tactic(auto)]

ghost use Rattle.std.specs.Prelude.{◌≡◌, IfSome, IfNone};
ghost use Rattle.ra_ap_intern.specs.Name.{Name as TermName};
ghost use Rattle.ra_ap_intern.specs.Symbols.{symbol_name};
ghost use Rattle.intern_terms.specs.Handle.{term_name};
ghost use Rattle.intern_terms.specs.Tree.{Tree as TermTree, tree as tree_of, one_more, no_more, UnfoldsTo};
ghost use Rattle.use_terms.specs.Sums.{IsSum};

use intern_terms::{TermRef, TermStore, laws};
use ra_ap_intern::{Symbol, laws as names};

/// What is added to zero, where a term is such a sum.
pub fn added_to_zero(
    terms: &TermStore,
    plus: &Symbol,
    zero: TermRef,
    term: TermRef,
) -> Option<TermRef>
    ensures some { IfSome result (λ rest. IsSum terms.now (symbol_name plus.now)
        (term_name term) (term_name zero) (term_name rest)) }
    ensures none { IfNone result ((rest : TermName) → IsSum terms.now (symbol_name plus.now)
        (term_name term) (term_name zero) rest → ⊥) }
{
    names::symbols_are_what_they_name();
    laws::references_are_names();
    if terms.head(term)? != plus {
        return None;
    }
    let &[first, rest] = terms.args(term)? else {
        return None;
    };
    if first == zero { Some(rest) } else { None }
}

/// What is added to zero, where a term is such a sum, or else the term.
pub fn simplify(terms: &TermStore, plus: &Symbol, zero: TermRef, term: TermRef) -> TermRef
    ensures sum { (rest : TermName) → IsSum terms.now (symbol_name plus.now)
        (term_name term) (term_name zero) rest → term_name result ≡ rest }
    ensures other { ((rest : TermName) → IsSum terms.now (symbol_name plus.now)
        (term_name term) (term_name zero) rest → ⊥) → result ≡ term }
    ensures tree { (z rest : TermTree) → UnfoldsTo terms.now (term_name zero) z →
        UnfoldsTo terms.now (term_name term)
        (tree_of (symbol_name plus.now) (one_more z (one_more rest no_more))) →
        UnfoldsTo terms.now (term_name result) rest }
{
    laws::terms_are_equal_exactly_if_their_trees_are();
    let _number = terms.number();
    match added_to_zero(terms, plus, zero, term) {
        Some(rest) => rest,
        None => term,
    }
}
