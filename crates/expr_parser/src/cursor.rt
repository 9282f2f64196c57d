// The tokens that are left to be read.

ghost use Rattle.std.specs.Prelude.{◌≡◌, ◌∷◌, ◌-◌, [], length, map, MatchOption};
ghost use Rattle.std.specs.Bool.{OnTrue, OnFalse};
ghost use Rattle.capl_lexer.specs.declared.token.Token.{Token};
ghost use Rattle.expr_parser.specs.Operators.{operator_at, kind_at};
ghost use Rattle.expr_parser.specs.Reading.{begins, begins_word, behind, after, after_word, Gives};

use crate::operator::{Operator, kind_of, operator_of};
use crate::refusal::Refusal;
use capl_lexer::{Sign, Tok, Token, Word};
use int_kinds::Kind;
use std::alloc::Global;
use std::marker::Model;

/// The tokens of a file that are left to be read, without their places, and the memory for what is read.
#[derive(Drop)]
pub struct Cursor<'a> {
    alloc: Global,
    rest: &'a [Token],
}

impl<'a> Model for Cursor<'a> {
    ghost use Rattle.std.specs.Prelude.{List, map};
    ghost use Rattle.capl_lexer.specs.declared.token.Token.{Token};
    ghost use Rattle.capl_lexer.specs.declared.token.Tok.{Tok};

    ghost Value = { List Tok };

    ghost view = { λ cursor. map (λ (token : Token). token.tok) cursor.rest.now };
}

impl<'a> Cursor<'a> {
    /// All of these tokens.
    pub fn new(alloc: Global, tokens: &'a [Token]) -> Cursor<'a>
        ensures { result ≡ map (λ (token : Token). token.tok) tokens.now }
    {
        Cursor {
            alloc,
            rest: tokens,
        }
    }

    /// Where the memory of trees comes from.
    #[inline]
    pub fn alloc(&self) -> Global {
        self.alloc
    }

    /// How many tokens are left.
    #[inline]
    pub fn len(&self) -> usize
        ensures { result ≡ length self.now }
    {
        self.rest.len()
    }

    /// The number of the next token in a file of this many tokens, and 0 where more are left.
    #[inline]
    pub fn place(&self, total: u32) -> u32
        ensures { result ≡ total - length self.now }
    {
        (total as usize).saturating_sub(self.rest.len()) as u32
    }

    /// The next token.
    #[inline]
    pub fn peek(&self) -> Option<&'a Tok>
        ensures { MatchOption result (self.now ≡ []) (λ tok. self.now ≡ tok.now ∷ behind self.now) }
    {
        let first = self.rest.first()?;
        Some(&first.tok)
    }

    /// Passes over the next token.
    #[inline]
    pub fn skip(&mut self)
        ensures { self.new ≡ behind self.old }
    {
        if let Some((_, rest)) = self.rest.split_first() {
            self.rest = rest;
        }
    }

    /// Takes the next token.
    #[inline]
    pub fn next(&mut self) -> Option<&'a Tok>
        ensures { MatchOption result (self.old ≡ []) (λ tok. self.old ≡ tok.now ∷ self.new) }
    {
        let (first, rest) = self.rest.split_first()?;
        self.rest = rest;
        Some(&first.tok)
    }

    /// What the next token makes of an operand before it.
    pub fn operator(&self) -> Option<Operator>
        ensures { result ≡ operator_at self.now }
    {
        match self.peek() {
            Some(Tok::Sign(sign)) => operator_of(*sign),
            _ => None,
        }
    }

    /// The kind whose word the next token is.
    pub fn kind(&self) -> Option<Kind>
        ensures { result ≡ kind_at self.now }
    {
        match self.peek() {
            Some(Tok::Word(word)) => kind_of(*word),
            _ => None,
        }
    }

    /// Whether this sign is the next token.
    pub fn is_at(&self, sign: Sign) -> bool
        ensures { result ≡ begins sign self.now }
    {
        match self.peek() {
            Some(Tok::Sign(found)) => *found == sign,
            _ => false,
        }
    }

    /// Whether this word is the next token.
    pub fn is_at_word(&self, word: Word) -> bool
        ensures { result ≡ begins_word word self.now }
    {
        match self.peek() {
            Some(Tok::Word(found)) => *found == word,
            _ => false,
        }
    }

    /// Takes this sign where it is the next token, and says whether it is.
    pub fn eat(&mut self, sign: Sign) -> bool
        ensures seen { result ≡ begins sign self.old }
        ensures taken { OnTrue result (self.new ≡ behind self.old) }
        ensures left { OnFalse result (self.new ≡ self.old) }
    {
        let is_next = self.is_at(sign);
        if is_next {
            self.skip();
        }
        is_next
    }

    /// Takes this word where it is the next token, and says whether it is.
    pub fn eat_word(&mut self, word: Word) -> bool
        ensures seen { result ≡ begins_word word self.old }
        ensures taken { OnTrue result (self.new ≡ behind self.old) }
        ensures left { OnFalse result (self.new ≡ self.old) }
    {
        let is_next = self.is_at_word(word);
        if is_next {
            self.skip();
        }
        is_next
    }

    /// Takes this sign, which has to be the next token.
    #[tactic(auto, unfolding(crate::specs::Reading::after))]
    pub fn expect(&mut self, sign: Sign) -> Result<(), Refusal>
        ensures { Gives (after sign self.old) result self.new }
    {
        if self.eat(sign) {
            Ok(())
        } else {
            Err(Refusal::NotSpelled)
        }
    }

    /// Takes this word, which has to be the next token.
    #[tactic(auto, unfolding(crate::specs::Reading::after_word))]
    pub fn expect_word(&mut self, word: Word) -> Result<(), Refusal>
        ensures { Gives (after_word word self.old) result self.new }
    {
        if self.eat_word(word) {
            Ok(())
        } else {
            Err(Refusal::NotSpelled)
        }
    }
}
