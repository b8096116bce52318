//! The tokens of a line, in one walk over its bytes.

ghost use Rattle.std.specs.Prelude.{◌≡◌, ◌<◌, length, false, position, IfSome, IfNone, if◌then◌else◌};
ghost use Rattle.std.specs.List.{list_all};
ghost use Rattle.hp_script.specs.Text.{is_plain};
ghost use Rattle.hp_script.specs.Words.{is_blind, IsFieldCut, tokens_in};
ghost use Rattle.hp_script.specs.declared.bad_kind.BadKind.TheVariants as bad;
ghost use Rattle.hp_script.specs.Reading.{Steps};

use crate::bad_kind::BadKind;
use crate::line_fault::LineFault;
use crate::piece::Piece;
use crate::text::is_plain;
use crate::token::Token;

// Whether a byte is no byte of a field.
fn is_blind(byte: u8) -> bool
    ensures { result ≡ is_blind byte }
{
    byte < 33 || 126 < byte
}

// The place of the first byte that is no byte of a field.
fn blind_at(text: &[u8]) -> Option<usize>
    ensures place { result ≡ position is_blind text.now }
    ensures within { IfSome result (λ n. n < length text.now) }
{
    text.iter().position(|byte| is_blind(*byte))
}

// The first field, and what stands after the blank that ends it. It is `None` where a byte comes that may stand in no line.
#[tactic(auto, using(crate::proofs::TokenFacts::WordLemmas::cut_bad, crate::proofs::TokenFacts::WordLemmas::cut_blank, crate::proofs::TokenFacts::WordLemmas::cut_whole))]
fn cut_field<'a>(whole: &Piece<'a>) -> Option<(Piece<'a>, Option<Piece<'a>>)>
    ensures some { IfSome result (λ cut. IsFieldCut whole.now cut.0 cut.1) }
    ensures none { IfNone result (list_all is_plain whole.now.text ≡ false) }
{
    let text = whole.as_bytes();
    let Some(n) = blind_at(text) else {
        return Some((whole.again(), None));
    };
    let byte = text[n];
    if byte != b' ' && byte != b'\t' {
        return None;
    }
    Some((whole.front(n), Some(whole.rest(n + 1))))
}

// Whether each byte of a line may stand there.
fn is_all_plain(line: &Piece) -> bool
    ensures { result ≡ list_all is_plain line.now.text }
{
    line.as_bytes().iter().all(|byte| is_plain(*byte))
}

// Why a line with a long field is refused: for a byte, if one may not stand there.
fn long_or_byte(line: &Piece) -> BadKind
    ensures { result ≡ (if list_all is_plain line.now.text then bad.Long else bad.Byte) }
{
    if is_all_plain(line) {
        BadKind::Long
    } else {
        BadKind::Byte
    }
}

/// Puts the tokens of a line into a buffer, or says why the line is refused.
#[tactic(auto, using(crate::proofs::TokenFacts::TokensLemmas::tokens_byte, crate::proofs::TokenFacts::TokensLemmas::tokens_long, crate::proofs::TokenFacts::TokensLemmas::tokens_whole))]
pub fn read_tokens<'a>(tokens: &mut Vec<Token<'a>>, line: &Piece<'a>) -> Result<(), LineFault>
    ensures { Steps result tokens.new.items (tokens_in line.now) }
{
    tokens.clear();
    let mut rest = Some(line.again());
    while let Some(text) = rest {
        let Some((field, others)) = cut_field(&text) else {
            return Err(LineFault::Bad {
                kind: BadKind::Byte,
            });
        };
        if field.as_bytes().len() > 255 {
            return Err(LineFault::Bad {
                kind: long_or_byte(line),
            });
        }
        if !field.as_bytes().is_empty() {
            tokens.push(Token::new(field.start(), field.as_bytes()))?;
        }
        rest = others;
    }
    Ok(())
}
