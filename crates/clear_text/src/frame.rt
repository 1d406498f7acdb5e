//! The frame, taken off. It may take memory, and touches nothing else.

ghost use Rattle.std.specs.Prelude.{◌≡◌, ◌⊎◌, ◌++◌, ◌∷◌, [], ◌+◌, ℕ, true, List, Some, None, Ok, Err, IfOk, IfErr, OnOk, MatchResult, option_map};
ghost use Rattle.std.specs.Str.Lines.{lines as text_lines};
ghost use Rattle.std.specs.List.{list_all};
ghost use Rattle.acq_base.specs.Words.{is_blank as blank};
ghost use Rattle.clear_text.specs.Frame.{IsFrame, ended, is_line};
ghost use Rattle.clear_text.specs.Refused.{IsRefused, IsUnframedOf};
ghost use Rattle.clear_text.specs.Unframed.{unframed, unescaped as unescaped_line, in_headers, in_text, in_signature, behind_frame};
ghost use Rattle.clear_text.specs.Lines.{IsCounted, with_front};

use crate::FrameError;
use crate::header::is_header;
use crate::numbered::Numbered;
use acq_base::{Bytes, NoMemory, is_blank};
use std::alloc::Global;

/// The line that begins a frame.
const BEGIN: &[u8] = b"-----BEGIN PGP SIGNED MESSAGE-----";

/// The line that ends the text and begins the signature.
const SIGNATURE: &[u8] = b"-----BEGIN PGP SIGNATURE-----";

/// The line that ends the signature.
const END: &[u8] = b"-----END PGP SIGNATURE-----";

/// The text within the frame of a text that is signed in clear (RFC 9580, section 7), or None where the first line begins
/// no frame. The signature isn't judged.
///
/// Behind the first line stand headers `NAME:VALUE`, an empty line, the text, and the signature; behind that only lines
/// of blanks may follow. A line of the text that begins with `-` must begin with `- `, which is taken off. The answer is
/// the text's lines, each ended by a line feed. `BadFrame` names the first line that isn't so, and 0 where the bytes end
/// too early.
#[tactic(auto, using(crate::proofs::Laws::laws))]
pub fn unframe(alloc: Global, bytes: &[u8]) -> Result<Option<Bytes>, FrameError>
    ensures value { (result ≡ Err FrameError.NoMemory) ⊎ (result ≡ unframed bytes.now) }
    // None is answered of lines that begin no frame, and a text of a frame around its lines.
    ensures told { IfOk result (λ text. IsUnframedOf (text_lines bytes.now) text) }
    // The text within every frame is answered.
    ensures framed { (text : List (List ℕ)) → IsFrame (text_lines bytes.now) text
        → (result ≡ Err FrameError.NoMemory) ⊎ (result ≡ Ok (Some (ended text))) }
    // A line is refused where a frame can begin with the lines before it, and none can with it too.
    ensures refused { IfErr result (λ fault. (fault ≡ FrameError.NoMemory) ⊎ IsRefused (text_lines bytes.now) fault) }
{
    taken_off(alloc, bytes)
}

/// Framing a text and taking the frame off gives the lines of the text, each ended by a line feed.
#[tactic(auto, using(crate::proofs::Laws::again))]
pub fn frames_come_off()
    ensures { (lines text : List (List ℕ)) → list_all is_line lines ≡ true → IsFrame lines text
        → unframed (ended lines) ≡ Ok (Some (ended text)) }
{}

/// Takes the frame off.
#[tactic(auto, unfolding(crate::specs::Unframed::unframed, crate::specs::Unframed::unframed_lines))]
fn taken_off(alloc: Global, bytes: &[u8]) -> Result<Option<Bytes>, FrameError>
    ensures { (result ≡ Err FrameError.NoMemory) ⊎ (result ≡ unframed bytes.now) }
{
    let mut lines = Numbered::new(bytes);
    if lines.take() != Some(BEGIN) {
        return Ok(None);
    }
    skip_headers(&mut lines)?;
    let text = read_text(alloc, &mut lines, bytes.len())?;
    skip_signature(&mut lines)?;
    check_behind(&mut lines)?;
    Ok(Some(text))
}

/// Takes the headers and the empty line behind them.
fn skip_headers(lines: &mut Numbered<'_>) -> Result<(), FrameError>
    requires { IsCounted lines.old.above lines.old.lines }
    ensures counted { IsCounted lines.new.above lines.new.lines }
    ensures value { MatchResult result
        (λ _. in_headers (lines.old.above + 1) lines.old.lines ≡ in_text (lines.new.above + 1) lines.new.lines)
        (λ fault. in_headers (lines.old.above + 1) lines.old.lines ≡ Err fault) }
{
    while let Some(line) = lines.take() {
        if line.is_empty() {
            return Ok(());
        }
        if !is_header(line) {
            return Err(FrameError::BadFrame(lines.above));
        }
    }
    Err(FrameError::BadFrame(0))
}

/// Takes the lines of the text, which has at most `most` bytes, and the line that begins the signature.
fn read_text(alloc: Global, lines: &mut Numbered<'_>, most: usize) -> Result<Bytes, FrameError>
    requires { IsCounted lines.old.above lines.old.lines }
    ensures counted { IsCounted lines.new.above lines.new.lines }
    ensures value { MatchResult result
        (λ text. in_text (lines.old.above + 1) lines.old.lines ≡ with_front text (in_signature (lines.new.above + 1) lines.new.lines))
        (λ fault. (fault ≡ FrameError.NoMemory) ⊎ (in_text (lines.old.above + 1) lines.old.lines ≡ Err fault)) }
{
    let mut text = with_room(alloc, most)?;
    while let Some(line) = lines.take() {
        if line == SIGNATURE {
            return Ok(text);
        }
        let Some(line) = unescaped(line) else {
            return Err(FrameError::BadFrame(lines.above));
        };
        add_line(&mut text, line)?;
    }
    Err(FrameError::BadFrame(0))
}

/// No bytes yet, with room for so many.
fn with_room(alloc: Global, most: usize) -> Result<Bytes, NoMemory>
    ensures { IfOk result (λ text. text ≡ []) }
{
    Ok(Bytes::from(Vec::with_capacity(alloc, most)?))
}

/// The line that is written so in a frame, if one is (section 7.1).
fn unescaped(line: &[u8]) -> Option<&[u8]>
    ensures { option_map (λ text. text.now) result ≡ unescaped_line line.now }
{
    match line {
        [b'-', b' ', text @ ..] => Some(text),
        [b'-', ..] => None,
        _ => Some(line),
    }
}

/// Appends a line and a line feed.
fn add_line(text: &mut Bytes, line: &[u8]) -> Result<(), NoMemory>
    ensures { OnOk result (text.new ≡ text.old ++ (line.now ++ 10 ∷ [])) }
{
    text.append(line)?;
    text.push(b'\n')
}

/// Takes the lines of the signature and the line that ends it.
fn skip_signature(lines: &mut Numbered<'_>) -> Result<(), FrameError>
    requires { IsCounted lines.old.above lines.old.lines }
    ensures counted { IsCounted lines.new.above lines.new.lines }
    ensures value { MatchResult result
        (λ _. in_signature (lines.old.above + 1) lines.old.lines ≡ behind_frame (lines.new.above + 1) lines.new.lines)
        (λ fault. in_signature (lines.old.above + 1) lines.old.lines ≡ Err fault) }
{
    while let Some(line) = lines.take() {
        if line == END {
            return Ok(());
        }
    }
    Err(FrameError::BadFrame(0))
}

/// Takes what stands behind the frame, which is to be lines of blanks.
fn check_behind(lines: &mut Numbered<'_>) -> Result<(), FrameError>
    requires { IsCounted lines.old.above lines.old.lines }
    ensures { MatchResult result
        (λ _. behind_frame (lines.old.above + 1) lines.old.lines ≡ Ok [])
        (λ fault. behind_frame (lines.old.above + 1) lines.old.lines ≡ Err fault) }
{
    while let Some(line) = lines.take() {
        if !all_blank(line) {
            return Err(FrameError::BadFrame(lines.above));
        }
    }
    Ok(())
}

/// Whether a line has nothing but blanks.
fn all_blank(line: &[u8]) -> bool
    ensures { result ≡ list_all blank line.now }
{
    line.iter().all(|byte| is_blank(*byte))
}
