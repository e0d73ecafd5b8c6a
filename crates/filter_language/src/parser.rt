//! Parsing of filter expressions, in one pass over the tokens of the text.

ghost use Rattle.std.specs.Prelude.{◌≡◌, ◌≤◌, ◌⊎◌, [], IfErr, IfOk, List, MatchResult, None, OnOk, Option, Some, length, ℕ};
ghost use Rattle.filter_tokens.specs.ShownTokens.{shown_token};
ghost use Rattle.filter_tokens.specs.declared.filter_error.FilterErrorKind.{FilterErrorKind};
ghost use Rattle.filter_language.specs.Grammar.{most_levels};
ghost use Rattle.filter_language.specs.Changes.{IsApt, IsAptIn, IsChange, IsWithin, changed, settled_by};
ghost use Rattle.filter_language.specs.Parsing.{IsDone, IsShown, state_of};
ghost use Rattle.filter_language.specs.Refusals.{IsFilterText, RefusesText};
ghost use Rattle.filter_language.specs.States.{Frame, Reads, Stops, close_frames, close_left, expression_of, first_state, negating, open_level, opened, read_after, settled};
ghost use Rattle.filter_language.specs.Trees.{Expr, steps_of, steps_of_text};

mod stack;
mod words;

use crate::change::{Change, Completion, completion_of, symbol_change};
use crate::head::Head;
use crate::mode::Mode;
use crate::parser::stack::Stack;
use crate::parser::words::word_change;
use crate::step::Step;
use filter_tokens::filter_error::{FilterError, FilterErrorKind};
use filter_tokens::primitive::Operand;
use filter_tokens::token::{TokenKind, token_at};
use std::alloc::Global;

/// Maximum length of a text in bytes.
pub(crate) const MOST_BYTES: usize = 65536;

/// Parser of filter expressions, after some tokens of a text.
#[derive(Drop)]
pub(crate) struct Parser {
    /// Expressions that were read, and the levels around the next operand.
    pub stack: Stack,
    /// Part of the operand that was read.
    pub mode: Mode,
    /// Qualifiers in force: those of the last value.
    pub head: Option<Head>,
    /// True if only values are allowed in the innermost parenthesis.
    pub only_values: bool,
}

/// Parses a text, and returns its steps.
pub fn parse(alloc: Global, text: &[u8]) -> Result<Vec<Step>, FilterError>
    ensures ok { IfOk result (λ steps. (tree : Option Expr) × IsFilterText text.now tree
        × (steps.items ≡ steps_of_text tree)) }
    ensures err { IfErr result (λ error. (error.kind ≡ FilterErrorKind.Memory) ⊎ RefusesText text.now error) }
    ensures place { IfErr result (λ error. (error.start ≤ error.end) × (error.end ≤ length text.now)) }
{
    if text.len() > MOST_BYTES {
        return Err(FilterError {
            kind: FilterErrorKind::Long,
            start: MOST_BYTES,
            end: text.len(),
        });
    }
    let mut parser = Parser::new(alloc);
    let mut at = 0;
    loop {
        let token = token_at(text, at);
        if let TokenKind::End = token.kind {
            return if at == 0 {
                Ok(Vec::new(alloc))
            } else {
                match parser.finish() {
                    Ok(steps) => Ok(steps),
                    Err(kind) => Err(error_at_end(text, kind)),
                }
            };
        }
        match parser.accept(token.kind, &text[token.start..token.end]) {
            Ok(()) => at = token.end,
            Err(FilterErrorKind::Memory) => {
                return Err(error_at_end(text, FilterErrorKind::Memory));
            }
            Err(kind) => {
                return Err(FilterError {
                    kind,
                    start: token.start,
                    end: token.end,
                });
            }
        }
    }
}

/// Returns the error of this kind at the end of a text.
fn error_at_end(text: &[u8], kind: FilterErrorKind) -> FilterError
    ensures { result ≡ record { kind = kind; start = length text.now; end = length text.now } }
{
    FilterError {
        kind,
        start: text.len(),
        end: text.len(),
    }
}

impl Parser {
    /// Returns the parser before the first token.
    fn new(alloc: Global) -> Self
        ensures { IsShown result [] × (state_of result [] ≡ first_state) }
    {
        Parser {
            stack: Stack::new(alloc),
            mode: Mode::Operand(false),
            head: None,
            only_values: false,
        }
    }

    /// Reads a token, and returns its kind of error if it is not allowed.
    fn accept(&mut self, kind: TokenKind, word: &[u8]) -> Result<(), FilterErrorKind>
        ensures { (frames : List Frame) → IsShown self.old frames
            → MatchResult result
            (λ done. (others : List Frame) × IsShown self.new others
            × Reads most_levels (state_of self.old frames) (shown_token kind word.now) (state_of self.new others))
            (λ found. (found ≡ FilterErrorKind.Memory)
            ⊎ Stops most_levels (state_of self.old frames) (shown_token kind word.now) found) }
    {
        match self.change(kind, word) {
            Ok(change) => self.apply(change, kind),
            Err(found) => Err(found),
        }
    }

    /// Returns what a token changes.
    fn change(&self, kind: TokenKind, word: &[u8]) -> Result<Change, FilterErrorKind>
        ensures ok { IfOk result (λ change. (frames : List Frame)
            → IsChange most_levels (state_of self.now frames) (shown_token kind word.now) change) }
        ensures apt { IsApt self.now.mode result }
        ensures err { IfErr result (λ found. (frames : List Frame)
            → Stops most_levels (state_of self.now frames) (shown_token kind word.now) found) }
    {
        match kind {
            TokenKind::Word => word_change(self.mode, self.head, word),
            TokenKind::Wrong(kind) => Err(kind),
            TokenKind::End => Err(FilterErrorKind::End),
            _ => symbol_change(self.mode, kind),
        }
    }

    /// Makes the change of a token.
    fn apply(&mut self, change: Change, kind: TokenKind) -> Result<(), FilterErrorKind>
        ensures { (frames : List Frame) (text : List ℕ) → IsShown self.old frames → IsAptIn self.old.mode change
            → IsDone self.new result
            (changed most_levels (state_of self.old frames) change (shown_token kind text)) }
    {
        match change {
            Change::Continue(mode) => {
                self.mode = mode;
                Ok(())
            }
            Change::Qualify(head, mode) => {
                self.head = Some(head);
                self.mode = mode;
                Ok(())
            }
            Change::Complete(completion) => self.complete(completion),
            Change::After(completion) => {
                self.complete(completion)?;
                self.read_after(kind)
            }
            Change::Not(only) => self.open_not(only),
            Change::Open(only) => self.open_group(only),
            Change::NotValues(head) => {
                self.head = Some(head);
                self.open_not(true)
            }
            Change::OpenValues(head) => {
                self.head = Some(head);
                self.open_group(true)
            }
            Change::CloseLeft(operand, mask) => self.close_left(operand, mask),
        }
    }

    /// Completes an operand.
    fn complete(&mut self, completion: Completion) -> Result<(), FilterErrorKind>
        ensures ok { (frames : List Frame) → IsShown self.old frames → IsAptIn self.old.mode (Change.Complete completion)
            → OnOk result ((others : List Frame) × IsShown self.new others × (self.new.mode ≡ Mode.Complete)
            × (settled_by (state_of self.old frames) completion ≡ state_of self.new others)) }
        ensures err { IfErr result (λ found. found ≡ FilterErrorKind.Memory) }
    {
        match completion {
            Completion::Done => return Ok(()),
            Completion::Bare(primitive) => {
                self.stack.append(primitive)?;
                self.head = None;
            }
            Completion::InForce(primitive) => self.stack.append(primitive)?,
            Completion::Value(head, primitive) => {
                self.stack.append(primitive)?;
                self.head = Some(head);
            }
        }
        self.mode = Mode::Complete;
        Ok(())
    }

    /// Opens a level for `not`.
    fn open_not(&mut self, only: bool) -> Result<(), FilterErrorKind>
        ensures { (frames : List Frame) → IsShown self.old frames → IsWithin self.old.mode
            → IsDone self.new result
            (open_level most_levels (state_of self.old frames) only negating self.old.only_values) }
    {
        self.stack.open_not()?;
        self.mode = Mode::Operand(only);
        Ok(())
    }

    /// Opens a level for `(`.
    fn open_group(&mut self, only: bool) -> Result<(), FilterErrorKind>
        ensures { (frames : List Frame) → IsShown self.old frames → IsWithin self.old.mode
            → IsDone self.new result (open_level most_levels (state_of self.old frames) only
            (opened self.old.head self.old.only_values) only) }
    {
        self.stack.open_group(self.head, self.only_values)?;
        self.mode = Mode::Operand(only);
        self.only_values = only;
        Ok(())
    }

    /// Reads a token after an operand that is complete.
    fn read_after(&mut self, kind: TokenKind) -> Result<(), FilterErrorKind>
        ensures { (frames : List Frame) (text : List ℕ) → IsShown self.old frames → self.old.mode ≡ Mode.Complete
            → IsDone self.new result (read_after (Some (state_of self.old frames)) (shown_token kind text)) }
    {
        match kind {
            TokenKind::And => {
                self.stack.join_and()?;
                self.mode = Mode::Operand(self.only_values);
                Ok(())
            }
            TokenKind::Or => {
                self.stack.join_or()?;
                self.mode = Mode::Operand(self.only_values);
                Ok(())
            }
            TokenKind::Close => self.close(),
            _ => Err(FilterErrorKind::Misplaced),
        }
    }

    /// Closes a parenthesis, which is an operand of the levels around it.
    fn close(&mut self) -> Result<(), FilterErrorKind>
        ensures { (frames : List Frame) → IsShown self.old frames → self.old.mode ≡ Mode.Complete
            → IsDone self.new result (close_frames frames) }
    {
        match self.stack.close()? {
            Some((head, only_values)) => {
                self.head = head;
                self.only_values = only_values;
                self.mode = Mode::Complete;
                Ok(())
            }
            None => Err(FilterErrorKind::Misplaced),
        }
    }

    /// Closes a parenthesis after the operand of a byte test.
    fn close_left(&mut self, operand: Operand, mask: Option<u32>) -> Result<(), FilterErrorKind>
        ensures { (frames : List Frame) → IsShown self.old frames → IsWithin self.old.mode
            → IsDone self.new result (close_left (state_of self.old frames) operand mask frames) }
    {
        match self.stack.close_group() {
            Some((head, only_values)) => {
                self.head = head;
                self.only_values = only_values;
                self.mode = Mode::Left(operand, mask);
                Ok(())
            }
            None => Err(FilterErrorKind::Misplaced),
        }
    }

    /// Returns the steps of the expression that was read, if the text can end.
    fn finish(mut self) -> Result<Vec<Step>, FilterErrorKind>
        ensures { (frames : List Frame) → IsShown self frames
            → MatchResult result
            (λ steps. (e : Expr) × (expression_of (settled (state_of self frames)) ≡ Some e)
            × (steps.items ≡ steps_of e))
            (λ found. (found ≡ FilterErrorKind.Memory) ⊎ ((found ≡ FilterErrorKind.End)
            × (expression_of (settled (state_of self frames)) ≡ None))) }
    {
        let Some(completion) = completion_of(self.mode) else {
            return Err(FilterErrorKind::End);
        };
        self.complete(completion)?;
        if self.stack.levels.is_empty() {
            Ok(self.stack.steps)
        } else {
            Err(FilterErrorKind::End)
        }
    }
}
