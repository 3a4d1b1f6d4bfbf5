//! Inference: the principal type of what is bound to a name, step by step.
ghost use Rattle.std.specs.Prelude.{◌≡◌};
ghost use Rattle.ra_ap_intern.specs.Symbols.{Named};
ghost use Rattle.types.specs.Environment.{Declares};
ghost use Rattle.types.specs.Growing.{Grows};
ghost use Rattle.types.specs.Tree.{Tree};

use crate::copy::{Leaves, copy};
use crate::environment::Environment;
use crate::error::{Failure, Result, TypeError};
use crate::scope::Scope;
use crate::step::{Action, Combination, Step};
use crate::unify::{parts_of, unify};
use crate::unknowns::Unknowns;
use crate::value::{TypeNode, TypeRef};
use ra_ap_intern::SymbolRef;
use std::alloc::Global;
use text_run::Place;

/// Infers the types of declarations in an environment.
#[derive(Drop)]
pub struct Inference {
    /// What is declared.
    pub environment: Environment,
    unknowns: Unknowns,
    scope: Scope,
    operands: Vec<TypeRef>,
    // How many bindings are begun and not ended.
    level: u64,
    // Where the step is.
    place: Place,
}

impl Inference {
    /// Inference in an environment in which nothing is declared.
    pub fn new(alloc: Global, number: u64) -> Inference {
        Inference {
            environment: Environment::new(alloc, number),
            unknowns: Unknowns::new(alloc),
            scope: Scope::new(alloc),
            operands: Vec::new(alloc),
            level: 0,
            place: Place::START,
        }
    }

    /// The principal type of what the steps of a declaration bind, or why there is none. In the
    /// types that an error tells, what is unknown is any type. It declares nothing.
    pub fn infer(&mut self, steps: &[Step]) -> Result<TypeRef, Failure>
        ensures grows { Grows self.old.environment self.new.environment }
        ensures trees { (name : Named) (tree : Tree) →
            Declares self.old.environment name tree →
            Declares self.new.environment name tree }
    {
        let alloc = self.environment.types.allocator();
        self.unknowns = Unknowns::new(alloc);
        self.scope = Scope::new(alloc);
        self.operands.clear();
        self.level = 0;
        match self.run(steps) {
            Ok(handle) => Ok(handle),
            Err(error) => Err(Failure {
                place: self.place,
                error: self.told(error).unwrap_or_else(|error| error),
            }),
        }
    }

    // The operand that the steps leave.
    fn run(&mut self, steps: &[Step]) -> Result<TypeRef>
        ensures { Grows self.old.environment self.new.environment }
    {
        for step in steps {
            self.place = step.place;
            if let Some(operand) = self.operand(step.action)? {
                self.operands.push(operand)?;
            }
        }
        self.pop()
    }

    // The operand that comes of an action, if one does.
    fn operand(&mut self, action: Action) -> Result<Option<TypeRef>>
        ensures { Grows self.old.environment self.new.environment }
    {
        match action {
            Action::Integer => Ok(Some(self.environment.types.make(TypeNode::Integer)?)),
            Action::Boolean => Ok(Some(self.environment.types.make(TypeNode::Boolean)?)),
            Action::Variable(name) => Ok(Some(self.instance(name)?)),
            Action::BeginFunction(name) => {
                let parameter = self.fresh()?;
                self.scope.enter(name, parameter)?;
                Ok(Some(parameter))
            }
            Action::Condition => {
                let condition = self.pop()?;
                self.expect(condition, TypeNode::Boolean)?;
                Ok(None)
            }
            Action::BeginBinding => {
                self.level = self.level.saturating_add(1);
                Ok(None)
            }
            Action::EndBinding(name) => {
                let general = self.generalise()?;
                self.scope.enter(name, general)?;
                Ok(Some(general))
            }
            Action::Combine(combination) => Ok(Some(self.combine(combination)?)),
        }
    }

    // What the last two operands become.
    fn combine(&mut self, combination: Combination) -> Result<TypeRef>
        ensures { Grows self.old.environment self.new.environment }
    {
        let second = self.pop()?;
        let first = self.pop()?;
        match combination {
            Combination::Function => {
                self.scope.leave()?;
                Ok(self.environment.types.function(first, second)?)
            }
            Combination::Recursion => {
                self.scope.leave()?;
                self.unify(first, second)
            }
            Combination::Scope => {
                self.scope.leave()?;
                Ok(second)
            }
            Combination::Application => self.apply(first, second),
            Combination::Arithmetic => self.operate(first, second, TypeNode::Integer),
            Combination::Comparison => self.operate(first, second, TypeNode::Boolean),
            Combination::Pair => Ok(self.environment.types.pair(first, second)?),
            Combination::Branches => self.unify(first, second),
        }
    }

    // What a function answers to an argument.
    fn apply(&mut self, function: TypeRef, argument: TypeRef) -> Result<TypeRef>
        ensures { Grows self.old.environment self.new.environment }
    {
        let function = self.unknowns.resolve(&self.environment.types, function);
        if let Some(TypeNode::Function(from, to)) = self.environment.types.get(function) {
            self.unify(from, argument)?;
            return Ok(to);
        }
        let answer = self.fresh()?;
        let wanted = self.environment.types.function(argument, answer)?;
        self.unify(function, wanted)?;
        Ok(answer)
    }

    // What an operator makes of two integers.
    fn operate(&mut self, left: TypeRef, right: TypeRef, answer: TypeNode) -> Result<TypeRef>
        ensures { Grows self.old.environment self.new.environment }
    {
        self.expect(left, TypeNode::Integer)?;
        self.expect(right, TypeNode::Integer)?;
        Ok(self.environment.types.make(answer)?)
    }

    // An instance of what a name stands for, here or else where it is declared.
    fn instance(&mut self, name: SymbolRef) -> Result<TypeRef>
        ensures { Grows self.old.environment self.new.environment }
    {
        let declared = self.environment.look_up(name);
        let handle = self.scope.look_up(name).or(declared);
        let handle = handle.ok_or(TypeError::Unbound(name))?;
        match self.environment.types.get(handle) {
            Some(TypeNode::Unknown(_)) => Ok(handle),
            _ => self.copy(handle, Leaves::Instantiated { level: self.level }),
        }
    }

    // The type of what is bound to a name, which ends: what is unknown in it and not outside is any
    // type.
    fn generalise(&mut self) -> Result<TypeRef>
        ensures { Grows self.old.environment self.new.environment }
    {
        let handle = self.pop()?;
        self.level = self.level.saturating_sub(1);
        self.copy(handle, Leaves::Generalised { above: self.level })
    }

    // An error as it is told: what is unknown in its types is any type, the same in both.
    fn told(&mut self, error: TypeError) -> Result<TypeError>
        ensures { Grows self.old.environment self.new.environment }
    {
        let (TypeError::Clash(first, second) | TypeError::Infinite(first, second)) = error else {
            return Ok(error);
        };
        let pair = self.environment.types.pair(first, second)?;
        let general = self.copy(pair, Leaves::Generalised { above: 0 })?;
        match (error, parts_of(&self.environment.types, general)) {
            (TypeError::Clash(..), Some((_, a, b))) => Ok(TypeError::Clash(a, b)),
            (_, Some((_, a, b))) => Ok(TypeError::Infinite(a, b)),
            (_, None) => Err(TypeError::NoOperand),
        }
    }

    fn pop(&mut self) -> Result<TypeRef>
        ensures { self.new.environment ≡ self.old.environment }
    {
        self.operands.pop().ok_or(TypeError::NoOperand)
    }

    // A type has to be this one without parts.
    fn expect(&mut self, handle: TypeRef, node: TypeNode) -> Result<TypeRef>
        ensures { Grows self.old.environment self.new.environment }
    {
        let wanted = self.environment.types.make(node)?;
        self.unify(handle, wanted)
    }

    // A new unknown type.
    fn fresh(&mut self) -> Result<TypeRef>
        ensures { Grows self.old.environment self.new.environment }
    {
        let number = self.unknowns.add(self.level)?;
        Ok(self.environment.types.make(TypeNode::Unknown(number))?)
    }

    // Makes two types equal: what they are then.
    fn unify(&mut self, left: TypeRef, right: TypeRef) -> Result<TypeRef>
        ensures { self.new.environment ≡ self.old.environment }
    {
        if left != right {
            unify(&self.environment.types, &mut self.unknowns, left, right)?;
        }
        Ok(left)
    }

    fn copy(&mut self, handle: TypeRef, leaves: Leaves) -> Result<TypeRef>
        ensures { Grows self.old.environment self.new.environment }
    {
        copy(
            &mut self.environment.types,
            &mut self.unknowns,
            handle,
            leaves,
        )
    }
}
