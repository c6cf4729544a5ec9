// Lines and words are handed out as spans of the text, so that reading takes no memory.
ghost use Rattle.std.specs.Prelude.{◌≡◌, ◌≤◌, ◌↔◌, [], length, IsNone, IfSome, MatchOption};
ghost use Rattle.std.specs.List.{list_any, position_or_len};
ghost use Rattle.cyc_text.specs.Words.{is_newline, is_hash, is_blank, is_no_blank, ends_word, words_left};
ghost use Rattle.cyc_text.specs.Spans.{IsFirstLine, IsFirstWord};

/// What goes directly before a line feed and is then no part of the line.
const CARRIAGE_RETURN: u8 = b'\r';

/// A line of a text: its bytes without the line feed, or the carriage return and line feed, that end it.
#[derive(Clone, Copy, Debug, PartialEq, Eq)]
pub struct LineSpan {
    /// The place of its first byte.
    pub from: usize,
    /// The place behind its last byte.
    pub to: usize,
    /// Where the next line starts: right behind the line feed, or at the text's end.
    pub next: usize,
}

/// A word of a line.
#[derive(Clone, Copy, Debug, PartialEq, Eq)]
pub struct WordSpan {
    /// The place of its first byte.
    pub from: usize,
    /// The place behind its last byte.
    pub to: usize,
}

fn is_blank(byte: u8) -> bool
    ensures { result ≡ is_blank byte }
{
    byte == b' ' || byte == b'\t'
}

// How many bytes stand before the first newline.
#[tactic(auto, using(std::proofs::lemmas::List::Sums::position_or_len_is))]
fn line_len(rest: &[u8]) -> usize
    ensures within { result ≤ length rest.now }
    ensures first { result ≡ position_or_len is_newline rest.now }
{
    for (i, byte) in rest.iter().enumerate() {
        if *byte == b'\n' {
            return i;
        }
    }
    rest.len()
}

// How many blanks stand in front.
#[tactic(auto, using(std::proofs::lemmas::List::Sums::position_or_len_is))]
fn blank_len(rest: &[u8]) -> usize
    ensures within { result ≤ length rest.now }
    ensures first { result ≡ position_or_len is_no_blank rest.now }
{
    for (i, byte) in rest.iter().enumerate() {
        if !is_blank(*byte) {
            return i;
        }
    }
    rest.len()
}

// How many bytes stand before the first blank or comment.
#[tactic(auto, using(std::proofs::lemmas::List::Sums::position_or_len_is))]
fn word_len(rest: &[u8]) -> usize
    ensures within { result ≤ length rest.now }
    ensures first { result ≡ position_or_len ends_word rest.now }
{
    for (i, byte) in rest.iter().enumerate() {
        if is_blank(*byte) || *byte == b'#' {
            return i;
        }
    }
    rest.len()
}

fn has_comment(bytes: &[u8]) -> bool
    ensures { result ≡ list_any is_hash bytes.now }
{
    bytes.iter().any(|byte| *byte == b'#')
}

/// The line that starts at `at`. `None` exactly at the text's end, so a last line feed has no line behind it.
///
/// Linear in the line, takes no memory.
pub fn next_line(bytes: &[u8], at: usize) -> Option<LineSpan>
    requires { at ≤ length bytes.now }
    ensures end { IsNone result ↔ (at ≡ length bytes.now) }
    ensures line { IfSome result (IsFirstLine bytes.now at) }
{
    if at == bytes.len() {
        return None;
    }
    let rest = &bytes[at..];
    let len = line_len(rest);
    let end = at + len;
    if len == rest.len() {
        return Some(LineSpan {
            from: at,
            to: end,
            next: end,
        });
    }
    let to = if len > 0 && rest[len - 1] == CARRIAGE_RETURN {
        end - 1
    } else {
        end
    };
    Some(LineSpan {
        from: at,
        to,
        next: end + 1,
    })
}

/// The first word from `at` on: a longest run of bytes other than space and tab, before the first `#` of the line.
/// `None` exactly where no word is left.
///
/// Looks at the line from its start up to the word's end, and takes no memory. To read all words in time linear in the line, go on
/// with the rest of the line as the line: `LineSpan { from: word.to, ..line }`.
pub fn next_word(bytes: &[u8], line: LineSpan, at: usize) -> Option<WordSpan>
    requires within { line.to ≤ length bytes.now }
    requires after { line.from ≤ at }
    requires before { at ≤ line.to }
    ensures { MatchOption result (words_left bytes.now line at ≡ []) (IsFirstWord bytes.now line at) }
{
    if has_comment(&bytes[line.from..at]) {
        return None;
    }
    let from = at + blank_len(&bytes[at..line.to]);
    let len = word_len(&bytes[from..line.to]);
    if len == 0 {
        return None;
    }
    Some(WordSpan {
        from,
        to: from + len,
    })
}
