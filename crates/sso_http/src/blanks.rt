// Blanks at the ends of a text, and positions in a text.

ghost use Rattle.std.specs.Prelude.{◌≡◌, ◌≤◌, ◌==◌, length};
ghost use Rattle.std.specs.List.{position_or_len};
ghost use Rattle.sso_http.specs.Blanks as spec;

/// The position of the first such byte, or the length of the text if there is none.
pub(crate) fn position(text: &[u8], mark: u8) -> usize
    ensures value { result ≡ position_or_len (λ b. b == mark) text.now }
    ensures within { result ≤ length text.now }
{
    for i in 0..text.len() {
        if text[i] == mark {
            return i;
        }
    }
    text.len()
}

// Whether a byte is a space, or a tab if tabs count.
fn is_blank(tabs: bool, byte: u8) -> bool
    ensures { result ≡ spec.is_blank tabs byte }
{
    byte == b' ' || (tabs && byte == b'\t')
}

// The text without the blanks at its start.
fn without_front(tabs: bool, text: &[u8]) -> &[u8]
    ensures { result.now ≡ spec.without_front (spec.is_blank tabs) text.now }
{
    let mut start = 0;
    while start < text.len() && is_blank(tabs, text[start]) {
        start += 1;
    }
    &text[start..]
}

// The text without the blanks at its end.
fn without_end(tabs: bool, text: &[u8]) -> &[u8]
    ensures { result.now ≡ spec.without_end (spec.is_blank tabs) text.now }
{
    let mut end = text.len();
    while end > 0 && is_blank(tabs, text[end - 1]) {
        end -= 1;
    }
    &text[..end]
}

/// The text without the spaces at its ends, and without the tabs there if they count.
pub(crate) fn trimmed(tabs: bool, text: &[u8]) -> &[u8]
    ensures { result.now ≡ spec.trimmed tabs text.now }
{
    without_end(tabs, without_front(tabs, text))
}
