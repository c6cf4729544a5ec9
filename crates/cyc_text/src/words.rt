// The words of a line, lent one by one.
ghost use Rattle.std.specs.Prelude.{◌≡◌, ◌<◌, [], ◌∷◌, length, IfSome, MatchOption};
ghost use Rattle.cyc_text.specs.Words.{words_of};

use crate::spans::{LineSpan, next_word};

/// The first word of a line, and the line behind it. `None` exactly where the line has no word.
///
/// Whoever goes on with the line behind it reads all words, and looks at no byte twice. Takes no memory.
pub fn first_word(line: &[u8]) -> Option<(&[u8], &[u8])>
    ensures words { MatchOption result (words_of line.now ≡ []) (λ p. words_of line.now ≡ p.0.now ∷ words_of p.1.now) }
    ensures shorter { IfSome result (λ p. length p.1.now < length line.now) }
{
    let end = line.len();
    let whole = LineSpan {
        from: 0,
        to: end,
        next: end,
    };
    let word = next_word(line, whole, 0)?;
    Some((&line[word.from..word.to], &line[word.to..]))
}
