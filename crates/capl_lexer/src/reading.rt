// The tokens of a whole text.

ghost use Rattle.std.specs.Prelude.{◌≡◌, ◌<◌, ◌≤◌, ◌^◌, ◌++◌, ◌∷◌, [], List, IfOk, IfErr, OnOk, OnErr, length};
ghost use Rattle.capl_lexer.specs.Reading.{IsReading, token_limit};
ghost use Rattle.capl_lexer.specs.Refusal.{IsRefusalOf, RefusesAllReadings};
ghost use Rattle.capl_lexer.specs.declared.token.Token.{Token};

use crate::byte_class::ByteClass;
use crate::position::Position;
use crate::refusal::LexRefusal;
use crate::step::next_step;
use crate::token::Token;
use std::alloc::Global;

/// How many tokens a text may have.
pub const TOKEN_LIMIT: usize = 300_000;

/// The tokens of the text, in order, with their places, lines and columns. Blanks and comments are
/// passed over. Takes time linear in the bytes, and memory linear in the bytes of at most 300,001
/// tokens.
///
/// Bad comes exactly where at some place no blank, comment or token begins, and names the first such
/// place. Many comes exactly where there is none and there are more than 300,000 tokens, and NoMemory
/// only where the system gives no memory.
pub fn lex(alloc: Global, bytes: &[u8]) -> Result<Vec<Token>, LexRefusal>
    requires { length bytes.now < 2 ^ 32 }

    // These are the tokens of a reading, and no reading has others.
    ensures reading { IfOk result (λ tokens. IsReading bytes.now tokens.items) }
    ensures only { IfOk result (λ tokens.
        (others : List Token) → IsReading bytes.now others → others ≡ tokens.items) }
    ensures within_limit { IfOk result (λ tokens. length tokens.items ≤ token_limit) }

    // A text is refused at its bad place, and then it has no reading; or by the length of its reading.
    ensures refusal { IfErr result (IsRefusalOf bytes.now) }
    ensures no_reading { IfErr result (RefusesAllReadings bytes.now) }
{
    let mut tokens = Vec::new(alloc);
    let mut position = Position::start(bytes);
    while position.place < bytes.len() {
        // A text has many blanks, which are passed over without a step.
        if ByteClass::Blank.contains(bytes[position.place]) {
            position = position.next(bytes);
            continue;
        }
        let Some(step) = next_step(alloc, &bytes[position.place..])? else {
            return Err(LexRefusal::Bad {
                line: position.line as u32,
                column: position.column as u32,
            });
        };
        let length = step.length;
        // A token has no line end in it, and a comment may have some.
        if let Some(tok) = step.tok {
            let next = position.along(bytes, length);
            let token = Token {
                tok,
                from: position.place as u32,
                to: next.place as u32,
                line: position.line as u32,
                column: position.column as u32,
            };
            keep(&mut tokens, token)?;
            position = next;
        } else {
            position = position.after(bytes, length);
        }
    }
    if tokens.len() > TOKEN_LIMIT {
        return Err(LexRefusal::Many);
    }
    Ok(tokens)
}

/// Keeps the token, unless there are more than the limit already.
fn keep(tokens: &mut Vec<Token>, token: Token) -> Result<(), LexRefusal>
    ensures kept { OnOk result
        (length tokens.old.items ≤ token_limit → tokens.new.items ≡ tokens.old.items ++ token ∷ []) }
    ensures enough { OnOk result
        (token_limit < length tokens.old.items → tokens.new.items ≡ tokens.old.items) }
    ensures memory { OnErr result (result ≡ Err LexRefusal.NoMemory) }
{
    if tokens.len() <= TOKEN_LIMIT {
        tokens.push(token)?;
    }
    Ok(())
}
