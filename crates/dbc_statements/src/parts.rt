// The parts that statements are made of.

ghost use Rattle.std.specs.Prelude.{◌≡◌, ◌<◌, ◌≤◌, true, [], length, IfOk, IfSome, MatchOption};
ghost use Rattle.dbc_statements.specs.Statement as spec;
ghost use Rattle.dbc_statements.specs.Inside.Lexer.{token_of, AreMore};
ghost use Rattle.dbc_statements.specs.Reading.{Gives};

use crate::cursor::Cursor;
use crate::front::digits;
use crate::keyword::{Keyword, keyword_of};
use crate::token::Token;
use crate::unread::Unread;
use text_parts::decimal_number;

impl Token<'_> {
    /// Whether it is a keyword.
    pub(crate) fn begins_statement(&self) -> bool
        ensures { result ≡ spec.begins_statement (token_of self.now) }
    {
        match self {
            Token::Word(word) => keyword_of(word).is_some(),
            _ => false,
        }
    }

    /// Whether it is one of the keywords before which a list of new symbols ends.
    fn ends_symbols(&self) -> bool
        ensures { result ≡ spec.ends_symbols (token_of self.now) }
    {
        match self {
            Token::Word(word) => {
                *word == b"BS_".as_slice()
                    || *word == b"BU_".as_slice()
                    || *word == b"BO_".as_slice()
            }
            _ => false,
        }
    }

    /// Whether it is a word.
    fn is_word(&self) -> bool
        ensures { result ≡ spec.is_word (token_of self.now) }
    {
        matches!(self, Token::Word(_))
    }

    /// Whether it is this byte.
    fn is_byte(&self, byte: u8) -> bool
        ensures { result ≡ spec.is_byte byte (token_of self.now) }
    {
        match self {
            Token::Byte(found) => *found == byte,
            _ => false,
        }
    }
}

impl<'a> Cursor<'a> {
    /// Takes the next token.
    fn next(&mut self) -> Option<Token<'a>>
        ensures next { MatchOption result (self.old ≡ [])
            (λ token. AreMore self.old (token_of token) self.new) }
        ensures shorter { IfSome result (λ _. length self.new < length self.old) }
        ensures no_longer { length self.new ≤ length self.old }
    {
        let (token, behind) = self.first()?;
        *self = behind;
        Some(token)
    }

    /// The line of the next token.
    #[tactic(auto, unfolding(crate::specs::Statement::line))]
    pub(crate) fn next_line(&self) -> Result<u32, Unread>
        ensures { Gives (λ n. n) (spec.line self.now) result self.now }
    {
        match self.line() {
            Some(line) => Ok(line),
            None => Err(Unread::NotSpelled),
        }
    }

    /// Takes a keyword.
    #[tactic(auto, unfolding(crate::specs::Statement::next))]
    pub(crate) fn keyword(&mut self) -> Result<Keyword, Unread>
        ensures read { Gives (λ k. k) (spec.next spec.keyword_in self.old) result self.new }
        ensures shorter { IfOk result (λ _. length self.new < length self.old) }
    {
        match self.next() {
            Some(Token::Word(word)) => match keyword_of(word) {
                Some(keyword) => Ok(keyword),
                None => Err(Unread::NotSpelled),
            },
            _ => Err(Unread::NotSpelled),
        }
    }

    /// Takes a word.
    #[tactic(auto, unfolding(crate::specs::Statement::next))]
    pub(crate) fn word(&mut self) -> Result<&'a [u8], Unread>
        ensures read { Gives (λ word. word.now) (spec.next spec.word_in self.old) result self.new }
        ensures no_longer { length self.new ≤ length self.old }
    {
        match self.next() {
            Some(Token::Word(word)) => Ok(word),
            _ => Err(Unread::NotSpelled),
        }
    }

    /// Takes a number.
    #[tactic(auto, unfolding(crate::specs::Statement::next))]
    pub(crate) fn number(&mut self) -> Result<&'a [u8], Unread>
        ensures read { Gives (λ number. number.now) (spec.next spec.number_bytes self.old) result self.new }
        ensures no_longer { length self.new ≤ length self.old }
    {
        match self.next() {
            Some(Token::Number(number)) => Ok(number),
            _ => Err(Unread::NotSpelled),
        }
    }

    /// Takes decimal digits of a number up to a limit.
    #[tactic(auto, unfolding(crate::specs::Statement::next))]
    pub(crate) fn decimal(&mut self, limit: u64) -> Result<u64, Unread>
        ensures read { Gives (λ n. n) (spec.next (spec.decimal_in limit) self.old) result self.new }
        ensures within { IfOk result (λ n. n ≤ limit) }
        ensures no_longer { length self.new ≤ length self.old }
    {
        match self.next() {
            Some(Token::Number(number)) => match decimal_number(number, limit) {
                Some(value) => Ok(value),
                None => Err(Unread::NotSpelled),
            },
            _ => Err(Unread::NotSpelled),
        }
    }

    /// Takes this byte.
    #[tactic(auto, unfolding(crate::specs::Statement::byte, crate::specs::Statement::next))]
    pub(crate) fn byte(&mut self, wanted: u8) -> Result<(), Unread>
        ensures read { Gives (λ u. u) (spec.byte wanted self.old) result self.new }
        ensures no_longer { length self.new ≤ length self.old }
    {
        match self.next() {
            Some(Token::Byte(found)) if found == wanted => Ok(()),
            _ => Err(Unread::NotSpelled),
        }
    }

    /// Takes this byte, if it stands here.
    #[tactic(auto, unfolding(crate::specs::Statement::perhaps))]
    pub(crate) fn perhaps(&mut self, wanted: u8)
        ensures read { spec.perhaps wanted self.old ≡ Some (tt, self.new) }
        ensures no_longer { length self.new ≤ length self.old }
    {
        if let Some((token, behind)) = self.first() {
            if token.is_byte(wanted) {
                *self = behind;
            }
        }
    }

    /// Takes a string.
    #[tactic(auto, unfolding(crate::specs::Statement::next))]
    pub(crate) fn string(&mut self) -> Result<(), Unread>
        ensures read { Gives (λ u. u) (spec.next spec.quoted_in self.old) result self.new }
        ensures no_longer { length self.new ≤ length self.old }
    {
        match self.next() {
            Some(Token::Quoted) => Ok(()),
            _ => Err(Unread::NotSpelled),
        }
    }

    /// Takes a word that says how a signal is multiplexed, if a word stands here.
    #[tactic(auto, unfolding(crate::specs::Statement::multiplexing))]
    pub(crate) fn multiplexing(&mut self) -> Result<(), Unread>
        ensures read { Gives (λ u. u) (spec.multiplexing self.old) result self.new }
        ensures no_longer { length self.new ≤ length self.old }
    {
        if let Some((Token::Word(word), behind)) = self.first() {
            if !is_multiplexing(word) {
                return Err(Unread::NotSpelled);
            }
            *self = behind;
        }
        Ok(())
    }

    /// Takes the order of a signal's bits, and gives whether it is big-endian.
    #[tactic(auto, unfolding(crate::specs::Statement::next))]
    pub(crate) fn big(&mut self) -> Result<bool, Unread>
        ensures read { Gives (λ b. b) (spec.next spec.big_in self.old) result self.new }
        ensures no_longer { length self.new ≤ length self.old }
    {
        match self.next() {
            Some(Token::Number(b"0")) => Ok(true),
            Some(Token::Number(b"1")) => Ok(false),
            _ => Err(Unread::NotSpelled),
        }
    }

    /// Takes the sign of a signal, and gives whether it is signed.
    #[tactic(auto, unfolding(crate::specs::Statement::next))]
    pub(crate) fn signed(&mut self) -> Result<bool, Unread>
        ensures read { Gives (λ b. b) (spec.next spec.signed_in self.old) result self.new }
        ensures no_longer { length self.new ≤ length self.old }
    {
        match self.next() {
            Some(Token::Byte(b'-')) => Ok(true),
            Some(Token::Byte(b'+')) => Ok(false),
            _ => Err(Unread::NotSpelled),
        }
    }

    /// Takes a value type, and gives whether it is a float's.
    #[tactic(auto, unfolding(crate::specs::Statement::next))]
    pub(crate) fn float(&mut self) -> Result<bool, Unread>
        ensures read { Gives (λ b. b) (spec.next spec.float_in self.old) result self.new }
        ensures no_longer { length self.new ≤ length self.old }
    {
        match self.next() {
            Some(Token::Number(b"1" | b"2")) => Ok(true),
            Some(Token::Number(b"0" | b"3")) => Ok(false),
            _ => Err(Unread::NotSpelled),
        }
    }

    /// Takes tokens up to the next keyword or the end.
    pub(crate) fn up_to_keyword(&mut self)
        ensures read { spec.all_up_to spec.begins_statement (λ token. true) self.old ≡ Some (tt, self.new) }
        ensures no_longer { length self.new ≤ length self.old }
    {
        while let Some((token, behind)) = self.first() {
            if token.begins_statement() {
                return;
            }
            *self = behind;
        }
    }

    /// Takes words up to the next keyword or the end.
    pub(crate) fn words(&mut self) -> Result<(), Unread>
        ensures read { Gives (λ u. u)
            (spec.all_up_to spec.begins_statement spec.is_word self.old) result self.new }
        ensures no_longer { length self.new ≤ length self.old }
    {
        while let Some((token, behind)) = self.first() {
            if token.begins_statement() {
                return Ok(());
            }
            if !token.is_word() {
                return Err(Unread::NotSpelled);
            }
            *self = behind;
        }
        Ok(())
    }

    /// Takes words up to the next keyword that ends a list of new symbols, or the end.
    pub(crate) fn symbols(&mut self) -> Result<(), Unread>
        ensures read { Gives (λ u. u)
            (spec.all_up_to spec.ends_symbols spec.is_word self.old) result self.new }
        ensures no_longer { length self.new ≤ length self.old }
    {
        while let Some((token, behind)) = self.first() {
            if token.ends_symbols() {
                return Ok(());
            }
            if !token.is_word() {
                return Err(Unread::NotSpelled);
            }
            *self = behind;
        }
        Ok(())
    }

    /// Takes tokens up to and with the next `;`.
    pub(crate) fn up_to_semicolon(&mut self) -> Result<(), Unread>
        ensures read { Gives (λ u. u) (spec.up_to_semicolon self.old) result self.new }
        ensures no_longer { length self.new ≤ length self.old }
    {
        while let Some(token) = self.next() {
            if token.is_byte(b';') {
                return Ok(());
            }
        }
        Err(Unread::NotSpelled)
    }
}

/// Whether a word says how a signal is multiplexed: `M`, or `m` with a number and perhaps an `M`.
fn is_multiplexing(word: &[u8]) -> bool
    ensures { result ≡ spec.is_multiplexing word.now }
{
    match word {
        [b'M'] => true,
        [b'm', number @ ..] => is_multiplexed_number(number),
        _ => false,
    }
}

/// Whether these are digits and then perhaps an `M`.
fn is_multiplexed_number(text: &[u8]) -> bool
    ensures { result ≡ spec.is_multiplexed_number text.now }
{
    let digits = digits(text);
    let behind = &text[digits..];
    digits != 0 && (behind.is_empty() || behind == b"M".as_slice())
}
