// Rows of lines, words, names and numbers, read and written.
use crate::{
    LineSpan, Text, WordSpan, first_word, is_name, next_line, next_word, push_decimal, push_number,
    push_signed, push_word, read_number,
};
use std::test::Fail;

#[test]
fn cuts_lines(rt: HostRuntime) -> Result<(), Fail> {
    let text = b"ab\r\n\nc\r\r\n\rd\r".as_slice();
    let mut at = 0;
    for (from, to, next) in [(0, 2, 4), (4, 4, 5), (5, 7, 9), (9, 12, 12)] {
        assert_eq!(rt; at, from);
        let line = next_line(text, from).ok_or("a line")?;
        assert_eq!(rt; line, LineSpan { from, to, next });
        at = line.next;
    }
    assert_eq!(rt; next_line(text, 12), None);
    Ok(())
}

#[test]
fn cuts_single_lines(rt: HostRuntime) {
    for (text, at, line) in [
        (b"".as_slice(), 0, None),
        (b"a\n".as_slice(), 0, Some((0, 1, 2))),
        (b"a\n".as_slice(), 2, None),
        (b"\r".as_slice(), 0, Some((0, 1, 1))),
        (b"\r\n".as_slice(), 0, Some((0, 0, 2))),
        (b"\r\n".as_slice(), 1, Some((1, 1, 2))),
    ] {
        let line = line.map(|(from, to, next)| LineSpan { from, to, next });
        assert_eq!(rt; next_line(text, at), line, "{text:?} from {at}");
    }
}

#[test]
fn cuts_words(rt: HostRuntime) {
    let text = b"x\n \tnet=a b\t# c d\n".as_slice();
    let line = LineSpan {
        from: 2,
        to: 17,
        next: 18,
    };
    for (at, from, to) in [(2, 4, 9), (4, 4, 9), (5, 5, 9), (9, 10, 11), (10, 10, 11)] {
        let word = next_word(text, line, at);
        assert_eq!(rt; word, Some(WordSpan { from, to }), "from {at}");
    }
    for at in [11, 13, 15, 17] {
        assert_eq!(rt; next_word(text, line, at), None, "from {at}");
    }
}

#[test]
fn cuts_words_before_comments(rt: HostRuntime) {
    for text in [b"a#a".as_slice(), b"b #b".as_slice(), b"a\t#".as_slice()] {
        let line = LineSpan {
            from: 0,
            to: text.len(),
            next: text.len(),
        };
        let word = next_word(text, line, 0);
        assert_eq!(rt; word, Some(WordSpan { from: 0, to: 1 }), "{text:?}");
    }
}

#[test]
fn ends_words(rt: HostRuntime) {
    let line = LineSpan {
        from: 0,
        to: 3,
        next: 3,
    };
    for byte in 0..=u8::MAX {
        let text = [b'a', byte, b'c'];
        let to = if b"\t #".contains(&byte) { 1 } else { 3 };
        let word = next_word(&text, line, 0);
        assert_eq!(rt; word, Some(WordSpan { from: 0, to }), "{byte}");
    }
}

#[test]
fn takes_first_words(rt: HostRuntime) {
    for (line, word, rest) in [
        (
            b" \tnet=a b# c".as_slice(),
            b"net=a".as_slice(),
            b" b# c".as_slice(),
        ),
        (b"a#b".as_slice(), b"a".as_slice(), b"#b".as_slice()),
        (b"a".as_slice(), b"a".as_slice(), b"".as_slice()),
    ] {
        assert_eq!(rt; first_word(line), Some((word, rest)), "{line:?}");
    }
    for line in [b"".as_slice(), b" \t".as_slice(), b" # a".as_slice()] {
        assert_eq!(rt; first_word(line), None, "{line:?}");
    }
}

#[test]
fn writes_words_and_numbers(rt: HostRuntime) -> Result<(), Fail> {
    let mut text = Vec::new(rt.alloc());
    push_word(&mut text, b"tick")?;
    push_number(&mut text, 0)?;
    push_signed(&mut text, i64::MIN)?;
    push_decimal(&mut text, u64::MAX)?;
    assert_eq!(rt;
        text.as_slice(),
        b" tick 0-922337203685477580818446744073709551615".as_slice()
    );
    Ok(())
}

#[test]
fn reads_numbers(rt: HostRuntime) {
    for (word, value) in [
        (b"0".as_slice(), Some(0)),
        (b"1000000".as_slice(), Some(1_000_000)),
        (
            b"9999999999999999999".as_slice(),
            Some(9_999_999_999_999_999_999),
        ),
        (b"10000000000000000000".as_slice(), None),
        (b"".as_slice(), None),
        (b"00".as_slice(), None),
        (b"01".as_slice(), None),
        (b"+1".as_slice(), None),
        (b"-1".as_slice(), None),
        (b"1a".as_slice(), None),
    ] {
        assert_eq!(rt; read_number(word), value, "{word:?}");
    }
    for byte in 0..=u8::MAX {
        let value = b"0123456789".iter().position(|digit| *digit == byte);
        let read = read_number(&[b'1', byte]);
        assert_eq!(rt; read, value.map(|digit| 10 + digit as u64), "{byte}");
    }
}

#[test]
fn tells_names(rt: HostRuntime) {
    let most = [b'n'; 64];
    let more = [b'n'; 65];
    for (bytes, name) in [
        (b"aZ09_.[]/".as_slice(), true),
        (most.as_slice(), true),
        (more.as_slice(), false),
        (b"".as_slice(), false),
        (b"a-b".as_slice(), false),
        (b"a b".as_slice(), false),
        (b"\xc3\xa9".as_slice(), false),
    ] {
        assert_eq!(rt; is_name(bytes), name, "{bytes:?}");
    }
    let all = b"abcdefghijklmnopqrstuvwxyzABCDEFGHIJKLMNOPQRSTUVWXYZ0123456789_.[]/".as_slice();
    for byte in 0..=u8::MAX {
        assert_eq!(rt; is_name(&[byte]), all.contains(&byte), "{byte}");
    }
}

#[test]
fn owns_bytes(rt: HostRuntime) -> Result<(), Fail> {
    let text = Text::of(rt.alloc(), b"a\xff\n")?;
    assert_eq!(rt; text.bytes(), b"a\xff\n".as_slice());
    assert_eq!(rt; text.copy()?.bytes(), text.bytes());
    Ok(())
}
