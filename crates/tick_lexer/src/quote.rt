//! Texts in quotes.

ghost use Rattle.std.specs.Prelude.{◌≡◌, ◌≢◌, ◌<◌, ◌≤◌, false, IfOk, IfSome, length};
ghost use Rattle.tick_lexer.specs.Bytes.{starts_three};
ghost use Rattle.tick_lexer.specs.Front.{before_three, scan};
ghost use Rattle.tick_lexer.specs.Runs.{IsScan};

use kap_base::{NoMemory, Text};
use std::alloc::Global;

/// A quoted text, and its bytes with the quote at its end.
#[derive(Drop)]
pub struct Quoted {
    pub text: Text,
    pub bytes: usize,
}

/// The text behind an opening quote, up to the quote that ends it.
pub fn scan_quoted(alloc: Global, quote: u8, text: &str) -> Result<Option<Quoted>, NoMemory>
    requires ascii { quote < 128 }
    requires plain { quote ≢ 92 }
    ensures scan { IfOk result (λ quoted. IsScan quoted (scan quote text.now false)) }
    ensures within { IfOk result (λ quoted. IfSome quoted
        (λ quoted. quoted.bytes ≤ length text.now)) }
{
    let mut read = String::new(alloc);
    let mut start = 0;
    let mut stop = 0;
    let mut behind = false;
    'bytes: for (index, byte) in text.as_bytes().iter().enumerate() {
        if *byte == quote {
            read.push_str(&text[start..stop])?;
            if !behind {
                return Ok(Some(Quoted {
                    text: Text::from_string(read),
                    bytes: index + 1,
                }));
            }
            start = index;
        }
        behind = *byte == b'\\';
        stop = if behind { index } else { index + 1 };
    }
    Ok(None)
}

fn starts_three(text: &[u8]) -> bool
    ensures { result ≡ starts_three text.now }
{
    matches!(text, [b'\'', b'\'', b'\'', ..])
}

/// How many bytes stand before the first three single quotes.
#[tactic(auto, using(crate::proofs::Scans::three_later))]
pub fn before_three(text: &[u8]) -> Option<usize>
    ensures count { result ≡ before_three text.now }
    ensures within { IfSome result (λ count. count < length text.now) }
{
    'bytes: for (index, _) in text.iter().enumerate() {
        if starts_three(text.split_at(index).1) {
            return Some(index);
        }
    }
    None
}
