//! What a line says.

ghost use Rattle.std.specs.Prelude.{◌≡◌, MatchResult, ⊤};
ghost use Rattle.thumb_parse.specs.descent.Lines.{item_of, statement_in, statement_of};

use crate::form::form_of;
use crate::item::Item;
use crate::operands::operands_of;
use crate::scan::read_tokens;
use crate::token::{Span, Token};
use std::alloc::AllocError;

/// What a line says: `[name:] [item]`.
#[derive(Clone, Copy)]
pub struct Statement {
    /// Where the name before a colon stands.
    pub label: Option<Span>,
    pub item: Item,
}

/// The item of the tokens after a label.
fn item_of(code: &[u8], tokens: &[Token]) -> Option<Item>
    ensures { result ≡ item_of code.now tokens.now }
{
    match tokens {
        [] => Some(Item::Empty),
        [Token::Mnemonic(mnemonic), operands @ ..] => match operands_of(operands) {
            Some(operands) => form_of(code, *mnemonic, operands),
            None => None,
        },
        _ => None,
    }
}

/// The statement of a line's tokens.
fn statement_in(code: &[u8], tokens: &[Token]) -> Option<Statement>
    ensures { result ≡ statement_in code.now tokens.now }
{
    match tokens {
        [Token::Name(name), Token::Colon, rest @ ..] => match item_of(code, rest) {
            Some(item) => Some(Statement {
                label: Some(*name),
                item,
            }),
            None => None,
        },
        _ => match item_of(code, tokens) {
            Some(item) => Some(Statement { label: None, item }),
            None => None,
        },
    }
}

/// The statement of a line without its comment, if it has a form. The tokens that are handed in are no longer wanted.
#[tactic(auto, unfolding(crate::specs::descent::Lines::statement_of))]
pub fn read_statement(code: &[u8], tokens: &mut Vec<Token>) -> Result<Option<Statement>, AllocError>
    ensures { MatchResult result (λ statement. statement ≡ statement_of code.now) (λ _. ⊤) }
{
    read_tokens(code, tokens)?;
    Ok(statement_in(code, tokens))
}
