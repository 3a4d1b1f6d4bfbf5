//! Expressions as steps: operands before what takes them.
use ra_ap_intern::SymbolRef;
use text_run::Place;

/// What a step does to the operands before it.
#[derive(Clone, Copy)]
pub enum Action {
    /// An integer is an operand.
    Integer,
    /// A truth value is an operand.
    Boolean,
    /// What a name stands for is an operand.
    Variable(SymbolRef),
    /// A name stands for one type, which isn't known yet, and is an operand: that of a parameter,
    /// or of what is bound to the name and speaks of it.
    BeginFunction(SymbolRef),
    /// An operand was a condition.
    Condition,
    /// What is bound to a name begins.
    BeginBinding,
    /// What is bound to a name ends. It is an operand, and the name stands for it.
    EndBinding(SymbolRef),
    /// Two operands become one.
    Combine(Combination),
}

/// What two operands become.
#[derive(Clone, Copy)]
pub enum Combination {
    /// A parameter and the body: the function. The scope of the parameter ends.
    Function,
    /// What a name stood for in what is bound to it, and that: the latter. The scope of the name
    /// within it ends.
    Recursion,
    /// What is bound to a name, and what is in its scope: the latter. The scope ends.
    Scope,
    /// A function and its argument: what it answers.
    Application,
    /// Two integers: an integer.
    Arithmetic,
    /// Two integers: a truth value.
    Comparison,
    /// The pair.
    Pair,
    /// The branches of a condition: one of them.
    Branches,
}

/// An action at the place that its errors are told at.
#[derive(Clone, Copy)]
pub struct Step {
    pub action: Action,
    pub place: Place,
}
