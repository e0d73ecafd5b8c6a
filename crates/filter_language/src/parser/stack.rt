//! Steps of the expressions that were read, and the levels around the next operand.

ghost use Rattle.std.specs.Prelude.{◌≡◌, ◌≤◌, ◌<◌, ◌+◌, ◌-◌, ◌⊎◌, ◌∷◌, ◌++◌, [], Bool, IfErr, IfOk, IsFalse, IsTrue, List, MatchOption, MatchResult, OnOk, Option, length, ℕ};
ghost use Rattle.filter_tokens.specs.declared.filter_error.FilterErrorKind.{FilterErrorKind};
ghost use Rattle.filter_language.specs.Grammar.{most_levels};
ghost use Rattle.filter_language.specs.Parsing.{AreFrames, HasNoExpression, IsClosed, IsOperandOf, with_skip};
ghost use Rattle.filter_language.specs.States.{Frame, completed, expression, left_of_and, left_of_or, levels_in, negating, opened};
ghost use Rattle.filter_language.specs.Trees.{Expr, test};
ghost use Rattle.filter_language.specs.declared.head.Head.{Head};
ghost use Rattle.filter_language.specs.declared.parser.stack.Level.{Level};
ghost use Rattle.filter_language.specs.declared.step.Step.{Step};

use crate::head::Head;
use crate::step::Step;
use filter_tokens::filter_error::FilterErrorKind;
use filter_tokens::primitive::Primitive;
use std::alloc::Global;

/// Maximum number of `(` and `not` that are open at a time.
pub(crate) const MOST_LEVELS: usize = 64;

/// Expression or level around an operand.
#[derive(Clone, Copy)]
pub(crate) enum Level {
    /// `and` or `or` before the operand. The length of its step, which is at this place, is set after the operand.
    Operator(usize),
    /// `not`
    Not,
    /// `(`, with the qualifiers in force before it, and whether only values are allowed outside.
    Group(Option<Head>, bool),
}

/// Steps of the expressions that were read, and the levels around the next operand.
#[derive(Drop)]
pub(crate) struct Stack {
    /// Steps of the expressions.
    pub steps: Vec<Step>,
    /// Levels around the next operand, from the outside in.
    pub levels: Vec<Level>,
    /// Number of `(` and `not` that are open.
    pub open_levels: usize,
}

impl Stack {
    /// Returns the stack before the first token.
    pub(super) fn new(alloc: Global) -> Self
        ensures { AreFrames result [] }
    {
        Stack {
            steps: Vec::new(alloc),
            levels: Vec::new(alloc),
            open_levels: 0,
        }
    }

    /// Appends a primitive as an operand.
    pub(super) fn append(&mut self, primitive: Primitive) -> Result<(), FilterErrorKind>
        ensures ok { (frames : List Frame) → AreFrames self.old frames → HasNoExpression frames
            → OnOk result (AreFrames self.new (completed frames (test primitive))) }
        ensures err { IfErr result (λ found. found ≡ FilterErrorKind.Memory) }
    {
        self.push_step(Step::Test(primitive))?;
        self.complete()
    }

    /// Opens a level for `not`.
    pub(super) fn open_not(&mut self) -> Result<(), FilterErrorKind>
        ensures { (frames : List Frame) → AreFrames self.old frames
            → MatchResult result (λ done. (levels_in frames < most_levels) × AreFrames self.new (negating ∷ frames))
            (λ found. (found ≡ FilterErrorKind.Memory)
            ⊎ ((found ≡ FilterErrorKind.Deep) × (most_levels ≤ levels_in frames))) }
    {
        self.open(Level::Not)
    }

    /// Opens a level for `(`.
    pub(super) fn open_group(
        &mut self,
        head: Option<Head>,
        only_values: bool,
    ) -> Result<(), FilterErrorKind>
        ensures { (frames : List Frame) → AreFrames self.old frames
            → MatchResult result
            (λ done. (levels_in frames < most_levels) × AreFrames self.new (opened head only_values ∷ frames))
            (λ found. (found ≡ FilterErrorKind.Memory)
            ⊎ ((found ≡ FilterErrorKind.Deep) × (most_levels ≤ levels_in frames))) }
    {
        self.open(Level::Group(head, only_values))
    }

    /// Opens a level.
    fn open(&mut self, level: Level) -> Result<(), FilterErrorKind>
        ensures ok { OnOk result ((self.old.open_levels < most_levels)
            × (self.new.open_levels ≡ self.old.open_levels + 1)
            × (self.new.steps.items ≡ self.old.steps.items)
            × (self.new.levels.items ≡ self.old.levels.items ++ level ∷ [])) }
        ensures err { IfErr result (λ found. (found ≡ FilterErrorKind.Memory)
            ⊎ ((found ≡ FilterErrorKind.Deep) × (most_levels ≤ self.old.open_levels))) }
    {
        if self.open_levels >= MOST_LEVELS {
            return Err(FilterErrorKind::Deep);
        }
        self.push_level(level)?;
        self.open_levels += 1;
        Ok(())
    }

    /// Appends the step of `and` after an operand.
    pub(super) fn join_and(&mut self) -> Result<(), FilterErrorKind>
        ensures ok { (frames : List Frame) (e : Expr) → AreFrames self.old (expression e ∷ frames)
            → OnOk result (AreFrames self.new (left_of_and e ∷ frames)) }
        ensures err { IfErr result (λ found. found ≡ FilterErrorKind.Memory) }
    {
        self.join(Step::SkipIfFalse(0))
    }

    /// Appends the step of `or` after an operand.
    pub(super) fn join_or(&mut self) -> Result<(), FilterErrorKind>
        ensures ok { (frames : List Frame) (e : Expr) → AreFrames self.old (expression e ∷ frames)
            → OnOk result (AreFrames self.new (left_of_or e ∷ frames)) }
        ensures err { IfErr result (λ found. found ≡ FilterErrorKind.Memory) }
    {
        self.join(Step::SkipIfTrue(0))
    }

    /// Appends the step of an operator after an operand. Its length is set when the right operand is complete.
    fn join(&mut self, step: Step) -> Result<(), FilterErrorKind>
        ensures ok { OnOk result ((self.new.open_levels ≡ self.old.open_levels)
            × (self.new.steps.items ≡ self.old.steps.items ++ step ∷ [])
            × (self.new.levels.items ≡ self.old.levels.items ++ Level.Operator (length self.old.steps.items) ∷ [])) }
        ensures err { IfErr result (λ found. found ≡ FilterErrorKind.Memory) }
    {
        let place = self.steps.len();
        self.push_step(step)?;
        self.push_level(Level::Operator(place))
    }

    /// Closes a parenthesis after an operand of it, and returns the qualifiers in force before it, and whether only
    /// values are allowed outside. Returns `None` if the innermost level is no parenthesis.
    pub(super) fn close(&mut self) -> Result<Option<(Option<Head>, bool)>, FilterErrorKind>
        ensures ok { (frames : List Frame) (e : Expr) → AreFrames self.old (expression e ∷ frames)
            → HasNoExpression frames → IfOk result (λ group. IsClosed self.new e frames group) }
        ensures err { IfErr result (λ found. found ≡ FilterErrorKind.Memory) }
    {
        match self.close_group() {
            Some(group) => {
                self.complete()?;
                Ok(Some(group))
            }
            None => Ok(None),
        }
    }

    /// Closes a parenthesis, and returns the qualifiers in force before it, and whether only values are allowed outside.
    /// Returns `None` if the innermost level is no parenthesis.
    pub(super) fn close_group(&mut self) -> Option<(Option<Head>, bool)>
        ensures steps { self.new.steps.items ≡ self.old.steps.items }
        ensures group { MatchOption result
            ((before : List Level) (head : Option Head) (only : Bool)
            → self.old.levels.items ≡ before ++ Level.Group head only ∷ [] → ⊥)
            (λ group. (self.old.levels.items ≡ self.new.levels.items ++ Level.Group group.0 group.1 ∷ [])
            × (self.new.open_levels ≡ self.old.open_levels - 1)) }
    {
        match self.levels.last() {
            Some(Level::Group(head, only_values)) => {
                let group = (*head, *only_values);
                self.levels.pop();
                self.open_levels = self.open_levels.saturating_sub(1);
                Some(group)
            }
            _ => None,
        }
    }

    /// Completes an operand: negates it for each `not` directly before it, and sets the length of the step that skips
    /// it.
    fn complete(&mut self) -> Result<(), FilterErrorKind>
        ensures ok { (frames : List Frame) (e : Expr) → IsOperandOf self.old frames e
            → OnOk result (AreFrames self.new (completed frames e)) }
        ensures err { IfErr result (λ found. found ≡ FilterErrorKind.Memory) }
    {
        self.negate()?;
        self.end_operator();
        Ok(())
    }

    /// Negates an operand for each `not` directly before it.
    fn negate(&mut self) -> Result<(), FilterErrorKind>
        ensures ok { (frames : List Frame) (e : Expr) → IsOperandOf self.old frames e
            → OnOk result ((others : List Frame) × (f : Expr) × (completed frames e ≡ completed others f)
            × IsOperandOf self.new others f
            × ((inner : List Frame) → others ≡ negating ∷ inner → ⊥)) }
        ensures err { IfErr result (λ found. found ≡ FilterErrorKind.Memory) }
    {
        while self.pop_not() {
            self.push_step(Step::Negate)?;
        }
        Ok(())
    }

    /// Closes the innermost level if it is that of a `not`, and returns true if so.
    fn pop_not(&mut self) -> bool
        ensures steps { self.new.steps.items ≡ self.old.steps.items }
        ensures yes { IsTrue result → (self.old.levels.items ≡ self.new.levels.items ++ Level.Not ∷ [])
            × (self.new.open_levels ≡ self.old.open_levels - 1) }
        ensures no { IsFalse result → (self.new.levels.items ≡ self.old.levels.items)
            × (self.new.open_levels ≡ self.old.open_levels)
            × ((before : List Level) → self.old.levels.items ≡ before ++ Level.Not ∷ [] → ⊥) }
    {
        match self.levels.last() {
            Some(Level::Not) => {
                self.levels.pop();
                self.open_levels = self.open_levels.saturating_sub(1);
                true
            }
            _ => false,
        }
    }

    /// Ends the operator directly before an operand, if there is one.
    fn end_operator(&mut self)
        ensures { (frames : List Frame) (e : Expr) → IsOperandOf self.old frames e
            → ((inner : List Frame) → frames ≡ negating ∷ inner → ⊥)
            → AreFrames self.new (completed frames e) }
    {
        match self.pop_operator() {
            Some(place) => set_skip(&mut self.steps, place),
            None => {}
        }
    }

    /// Closes the innermost level if it is that of an operator, and returns the place of its step.
    fn pop_operator(&mut self) -> Option<usize>
        ensures steps { self.new.steps.items ≡ self.old.steps.items }
        ensures open { self.new.open_levels ≡ self.old.open_levels }
        ensures place { MatchOption result
            ((self.new.levels.items ≡ self.old.levels.items)
            × ((before : List Level) (place : ℕ) → self.old.levels.items ≡ before ++ Level.Operator place ∷ [] → ⊥))
            (λ place. self.old.levels.items ≡ self.new.levels.items ++ Level.Operator place ∷ []) }
    {
        match self.levels.last() {
            Some(Level::Operator(place)) => {
                let place = *place;
                self.levels.pop();
                Some(place)
            }
            _ => None,
        }
    }

    /// Appends a step.
    fn push_step(&mut self, step: Step) -> Result<(), FilterErrorKind>
        ensures ok { OnOk result ((self.new.open_levels ≡ self.old.open_levels)
            × (self.new.levels.items ≡ self.old.levels.items)
            × (self.new.steps.items ≡ self.old.steps.items ++ step ∷ [])) }
        ensures err { IfErr result (λ found. found ≡ FilterErrorKind.Memory) }
    {
        match self.steps.extend_from_slice(&[step]) {
            Ok(()) => Ok(()),
            Err(_) => Err(FilterErrorKind::Memory),
        }
    }

    /// Appends a level.
    fn push_level(&mut self, level: Level) -> Result<(), FilterErrorKind>
        ensures ok { OnOk result ((self.new.open_levels ≡ self.old.open_levels)
            × (self.new.steps.items ≡ self.old.steps.items)
            × (self.new.levels.items ≡ self.old.levels.items ++ level ∷ [])) }
        ensures err { IfErr result (λ found. found ≡ FilterErrorKind.Memory) }
    {
        match self.levels.push(level) {
            Ok(()) => Ok(()),
            Err(_) => Err(FilterErrorKind::Memory),
        }
    }
}

/// Sets the length of the skipping step at a place, so that it skips the steps after it.
fn set_skip(steps: &mut Vec<Step>, place: usize)
    ensures { (before right : List Step) (step : Step) → steps.old.items ≡ before ++ step ∷ right
        → place ≡ length before → steps.new.items ≡ before ++ with_skip step (length right) ∷ right }
{
    let len = steps.len();
    if place < len {
        steps[place] = with_skip(steps[place], len - place - 1);
    }
}

/// Returns a skipping step with another length; other steps stay as they are.
fn with_skip(step: Step, len: usize) -> Step
    ensures { result ≡ with_skip step len }
{
    match step {
        Step::SkipIfFalse(_) => Step::SkipIfFalse(len),
        Step::SkipIfTrue(_) => Step::SkipIfTrue(len),
        Step::Test(_) | Step::Negate => step,
    }
}
