//! A field without the blanks at its ends.

ghost use Rattle.std.specs.Prelude.{◌≡◌, ◌≤◌, ◌<◌, length};
ghost use Rattle.part_csv.specs.Trim.{is_blank, kept, trim, trim_back, trim_front};

/// A text without the spaces and tabs at its ends.
#[tactic(auto, unfolding(crate::specs::Trim::trim))]
pub(crate) fn trim(text: &[u8]) -> &[u8]
    ensures exact { result.now ≡ trim text.now }
{
    trim_back(trim_front(text))
}

/// Whether a byte is a space or a tab.
fn is_blank(c: u8) -> bool
    ensures exact { result ≡ is_blank c }
{
    c == b' ' || c == b'\t'
}

/// A text without the blanks at its start.
fn trim_front(text: &[u8]) -> &[u8]
    ensures exact { result.now ≡ trim_front text.now }
{
    for i in 0..text.len() {
        if !is_blank(text[i]) {
            return &text[i..];
        }
    }
    &text[text.len()..]
}

/// A text without the blanks at its end.
fn trim_back(text: &[u8]) -> &[u8]
    ensures exact { result.now ≡ trim_back text.now }
{
    &text[..kept(text)]
}

/// How many bytes are kept where the blanks at the end go.
fn kept(text: &[u8]) -> usize
    ensures exact { result ≡ kept (length text.now) text.now }
    ensures within { result ≤ length text.now }
{
    let mut end = text.len();
    while end > 0 {
        if !is_blank(text[end - 1]) {
            return end;
        }
        end -= 1;
    }
    0
}
