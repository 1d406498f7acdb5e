//! Lines of a text, and where a text is cut.

ghost use Rattle.std.specs.Prelude.{◌≡◌, ◌==◌, ◌<◌, ◌≤◌, ◌∷◌, [], true, false, length, IfSome, IfNone};
ghost use Rattle.std.specs.List.{position_or_len, list_any, before_first, after_first};
ghost use Rattle.std.specs.Str.Lines.{lines as text_lines, strip_carriage_return};

/// The first line of a text that isn't empty, without its end, and the text behind it.
#[tactic(auto, using(crate::proofs::Cuts::cut_lines))]
pub fn first_line(text: &[u8]) -> (&[u8], &[u8])
    requires { 0 < length text.now }
    ensures lines { text_lines text.now ≡ result.0.now ∷ text_lines result.1.now }
    ensures shorter { length result.1.now < length text.now }
{
    match cut_at(b'\n', text) {
        Some((line, behind)) => (without_return(line), behind),
        None => (text, b"".as_slice()),
    }
}

/// A line without the one carriage return at its end.
fn without_return(line: &[u8]) -> &[u8]
    ensures { result.now ≡ strip_carriage_return line.now }
{
    match line {
        [front @ .., b'\r'] => front,
        _ => line,
    }
}

/// What stands before the first of these bytes in a text, and what stands behind it. None where there is none.
pub fn cut_at(byte: u8, text: &[u8]) -> Option<(&[u8], &[u8])>
    ensures there { IfSome result (λ _. list_any (λ c. c == byte) text.now ≡ true) }
    ensures before { IfSome result (λ parts. parts.0.now ≡ before_first (λ c. c == byte) text.now) }
    ensures behind { IfSome result (λ parts. parts.1.now ≡ after_first (λ c. c == byte) text.now) }
    ensures none { IfNone result (list_any (λ c. c == byte) text.now ≡ false) }
    ensures whole { IfNone result (before_first (λ c. c == byte) text.now ≡ text.now) }
    ensures nothing { IfNone result (after_first (λ c. c == byte) text.now ≡ []) }
{
    let (front, rest) = text.split_at(place_of(byte, text));
    if rest.is_empty() {
        return None;
    }
    let (_, behind) = rest.split_at(1);
    Some((front, behind))
}

/// Where the byte first stands in a text, or the text's length.
fn place_of(byte: u8, text: &[u8]) -> usize
    ensures place { result ≡ position_or_len (λ c. c == byte) text.now }
    ensures within { result ≤ length text.now }
{
    let mut at = 0;
    while at < text.len() && text[at] != byte {
        at += 1;
    }
    at
}
