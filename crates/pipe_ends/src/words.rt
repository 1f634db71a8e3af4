//! The lines of a text, and the words of a line.

ghost use Rattle.std.specs.Prelude.{◌≡◌, ◌==◌, ◌≤◌, ◌<◌, ◌+◌, ◌-◌, ◌∷◌, [], length, slice_index, IfSome, MatchOption};
ghost use Rattle.pipe_ends.specs.Words.{is_blank, is_skipped, lines_of, without_return, word_in, words_of};

/// The first line of a text, without its line feed and one carriage return before that, and the text
/// after it; none where there is no byte. The last line may end with the text.
pub fn next_line(text: &[u8]) -> Option<(&[u8], &[u8])>
    ensures exact { MatchOption result (lines_of text.now ≡ [])
        (λ next. lines_of text.now ≡ next.0.now ∷ lines_of next.1.now) }
    ensures shorter { IfSome result (λ next. length next.1.now < length text.now) }
{
    for i in 0..text.len() {
        if text[i] == b'\n' {
            return Some((without_return(&text[..i]), &text[i + 1..]));
        }
    }
    if text.len() == 0 {
        return None;
    }
    Some((text, &text[text.len()..]))
}

/// A line without the carriage return at its end.
#[tactic(auto, unfolding(crate::specs::Words::without_return))]
fn without_return(line: &[u8]) -> &[u8]
    ensures exact { result.now ≡ without_return line.now }
{
    if line.len() > 0 && line[line.len() - 1] == b'\r' {
        &line[..line.len() - 1]
    } else {
        line
    }
}

/// Whether a byte separates words.
fn is_blank(c: u8) -> bool
    ensures exact { result ≡ is_blank c }
{
    c == b' ' || c == b'\t'
}

/// The word of this number; no byte where there are fewer.
pub fn word_at(line: &[u8], number: usize) -> &[u8]
    ensures exact { result.now ≡ word_in number (words_of line.now) }
{
    let mut left = number;
    let mut from = 0;
    for i in 0..line.len() {
        if !is_blank(line[i]) {
            continue;
        }
        if from < i {
            if left == 0 {
                return &line[from..i];
            }
            left -= 1;
        }
        from = i + 1;
    }
    if left == 0 {
        &line[from..]
    } else {
        &line[line.len()..]
    }
}

/// Whether a word begins with this byte.
pub fn begins_with(word: &[u8], byte: u8) -> bool
    requires { 0 < byte }
    ensures exact { result ≡ (slice_index word.now 0 == byte) }
{
    word.len() > 0 && word[0] == byte
}

/// Whether a line has so many words, at least one.
pub fn has_words(line: &[u8], count: usize) -> bool
    requires { 1 ≤ count }
    ensures exact { result ≡ (length (words_of line.now) == count) }
{
    word_at(line, count - 1).len() > 0 && word_at(line, count).len() == 0
}

/// Whether a line says nothing: it has no word, or its first one begins with `#`.
#[tactic(auto, unfolding(crate::specs::Words::is_skipped))]
pub fn is_skipped(line: &[u8]) -> bool
    ensures exact { result ≡ is_skipped (words_of line.now) }
{
    let key = word_at(line, 0);
    key.len() == 0 || begins_with(key, b'#')
}

#[cfg(test)]
mod tests {
    use super::{has_words, next_line, word_at};

    #[test]
    fn a_text_is_read_line_by_line_and_word_by_word(rt: HostRuntime) {
        let text = b"entry 1\r\n\n \tflash  2\t32 \r\r\nend\r";
        let mut left = text.as_slice();
        for (line, first, second, words) in [
            (
                b"entry 1".as_slice(),
                b"entry".as_slice(),
                b"1".as_slice(),
                2,
            ),
            (b"", b"", b"", 0),
            (b" \tflash  2\t32 \r", b"flash", b"2", 4),
            (b"end\r", b"end\r", b"", 1),
        ] {
            let Some((found, rest)) = next_line(left) else {
                break;
            };
            assert_eq!(rt; found, line);
            assert_eq!(rt; word_at(found, 0), first);
            assert_eq!(rt; word_at(found, 1), second);
            for count in 1..6 {
                assert_eq!(rt; has_words(found, count), count == words);
            }
            left = rest;
        }
        assert_eq!(rt; next_line(left), None);
    }
}
