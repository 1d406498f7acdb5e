//! Reading a script line by line. It takes memory for the hunks and their texts.

ghost use Rattle.std.specs.Prelude.{◌≡◌, ◌⊎◌, ◌++◌, ◌∷◌, ℕ, [], Ok, Err, IfOk};
ghost use Rattle.ed_apply.specs.Edits.{IsSound};
ghost use Rattle.ed_apply.specs.Grammar.{script_of, at_end, on_line, on_text, on_command, goes_down, last_of, with_line, with_dot};
ghost use Rattle.ed_apply.specs.Spelling.{IsSpelled, IsRefusedAt, IsUnended, lines_within};
ghost use Rattle.ed_apply.specs.Taken.{Takes};
ghost use Rattle.ed_apply.specs.declared.script.Script.{Script as AnyScript};

use crate::command::{Command, read_command};
use crate::lines::{first_line_len, without_feed};
use crate::{Hunk, Script, ScriptError};
use acq_base::{Bytes, NoMemory, Row};
use std::alloc::Global;

/// Where in a script the next line stands. A hunk is the one whose text it is, and `true` says that the text's last line
/// is `..`.
#[derive(Drop)]
pub enum Phase {
    /// A command is due.
    Commands,
    /// Within a text.
    Within(Hunk, bool),
    /// Behind the `.` of a text.
    Ended(Hunk, bool),
    /// Behind an `s/.//`.
    Replaced(Hunk),
}

/// Reads an edit script, as `diff --ed` writes it (the commands a, c and d of ed, POSIX).
///
/// `Na` and a text: the text goes behind line N, which may be 0. `N,Mc` or `Nc` and a text: the lines N to M give way to
/// it. `N,Md` or `Nd`: they are removed. Numbers are 1 to 18 digits. A text runs to a line that is `.`. Where its last
/// line is `..`, the line `s/.//` may follow, which makes that line `.`, and directly behind it the line `a`, with more
/// of the text.
///
/// The first line that can't stand there is refused: `BadCommand`, or `NotDown` for a hunk that ends behind the
/// beginning of the one before it. `NoDot` comes where the script ends within a text.
pub fn read_script(alloc: Global, bytes: &[u8]) -> Result<Script, ScriptError>
    ensures value { (result ≡ Err ScriptError.NoMemory) ⊎ (result ≡ script_of bytes.now) }
    ensures sound { IfOk result (λ script. IsSound script) }
    // What is read is spelled by the lines, and what they spell is read.
    ensures spelled { IfOk result (λ script. IsSpelled (lines_within bytes.now) script) }
    ensures grammar { (script : AnyScript) → IsSpelled (lines_within bytes.now) script → (result ≡ Err ScriptError.NoMemory) ⊎ (result ≡ Ok script) }
    // The line that is refused is the first with which nothing is a script.
    ensures refused { (at : ℕ) → (result ≡ Err (ScriptError.BadCommand at)) ⊎ (result ≡ Err (ScriptError.NotDown at)) → IsRefusedAt (lines_within bytes.now) at }
    ensures no_dot { result ≡ Err ScriptError.NoDot → IsUnended (lines_within bytes.now) }
{
    read_lines(alloc, bytes)
}

/// Reads line by line.
#[tactic(auto, unfolding(crate::specs::Grammar::script_of))]
fn read_lines(alloc: Global, bytes: &[u8]) -> Result<Script, ScriptError>
    ensures { (result ≡ Err ScriptError.NoMemory) ⊎ (result ≡ script_of bytes.now) }
{
    let mut hunks = Row::new(alloc);
    let mut phase = Phase::Commands;
    let mut rest = bytes;
    let mut at = 0;
    while !rest.is_empty() {
        let (line, behind) = rest.split_at(first_line_len(rest));
        at += 1;
        phase = take_line(alloc, &mut hunks, phase, at, without_feed(line))?;
        rest = behind;
    }
    close(hunks, phase)
}

/// Takes the next line.
#[tactic(auto, unfolding(crate::specs::Grammar::on_line))]
fn take_line(
    alloc: Global,
    hunks: &mut Row<Hunk>,
    phase: Phase,
    at: u64,
    line: &[u8],
) -> Result<Phase, ScriptError>
    ensures { Takes (on_line (record { hunks = hunks.old; phase = phase }) at line.now) result hunks.new }
{
    match phase {
        Phase::Commands => take_command(alloc, hunks, at, line),
        Phase::Within(hunk, dots) => Ok(take_text(hunk, dots, line)?),
        Phase::Ended(hunk, true) if matches!(line, b"s/.//") => Ok(Phase::Replaced(dotted(hunk)?)),
        Phase::Ended(hunk, _) => take_next(alloc, hunks, hunk, at, line),
        Phase::Replaced(hunk) if matches!(line, b"a") => Ok(Phase::Within(hunk, false)),
        Phase::Replaced(hunk) => take_next(alloc, hunks, hunk, at, line),
    }
}

/// Takes a line of a text, or the `.` behind it.
fn take_text(hunk: Hunk, dots: bool, line: &[u8]) -> Result<Phase, NoMemory>
    ensures { IfOk result (λ phase. phase ≡ on_text hunk dots line.now) }
{
    match line {
        b"." => Ok(Phase::Ended(hunk, dots)),
        _ => Ok(Phase::Within(longer(hunk, line)?, matches!(line, b".."))),
    }
}

/// Takes a command behind a hunk that is whole now.
fn take_next(
    alloc: Global,
    hunks: &mut Row<Hunk>,
    hunk: Hunk,
    at: u64,
    line: &[u8],
) -> Result<Phase, ScriptError>
    ensures { Takes (on_command (hunks.old ++ hunk ∷ []) at line.now) result hunks.new }
{
    hunks.push(hunk)?;
    take_command(alloc, hunks, at, line)
}

/// Takes a command, where the hunks before it are whole.
#[tactic(auto, unfolding(crate::specs::Grammar::on_command))]
fn take_command(
    alloc: Global,
    hunks: &mut Row<Hunk>,
    at: u64,
    line: &[u8],
) -> Result<Phase, ScriptError>
    ensures { Takes (on_command hunks.old at line.now) result hunks.new }
{
    let Some(command) = read_command(line) else {
        return Err(ScriptError::BadCommand(at));
    };
    if !may_follow(hunks.as_slice(), command.to) {
        return Err(ScriptError::NotDown(at));
    }
    let hunk = Hunk {
        from: command.from,
        to: command.to,
        text: Bytes::new(alloc),
        at,
    };
    if command.adds {
        return Ok(Phase::Within(hunk, false));
    }
    hunks.push(hunk)?;
    Ok(Phase::Commands)
}

/// Whether a hunk up to this line may stand behind these hunks.
fn may_follow(hunks: &[Hunk], to: u64) -> bool
    ensures { result ≡ goes_down (last_of hunks.now) to }
{
    match hunks.last() {
        Some(above) => to <= above.from,
        None => true,
    }
}

/// A hunk with one more line of text.
fn longer(hunk: Hunk, line: &[u8]) -> Result<Hunk, NoMemory>
    ensures { IfOk result (λ longer. longer ≡ with_line hunk line.now) }
{
    let mut text = hunk.text;
    text.append(line)?;
    text.push(b'\n')?;
    Ok(Hunk {
        from: hunk.from,
        to: hunk.to,
        text,
        at: hunk.at,
    })
}

/// A hunk whose text ends in the line `.`, and ended in `..`.
fn dotted(hunk: Hunk) -> Result<Hunk, NoMemory>
    ensures { IfOk result (λ dotted. dotted ≡ with_dot hunk) }
{
    let mut text = hunk.text.into_vec();
    text.truncate(text.len().saturating_sub(2));
    text.push(b'\n')?;
    Ok(Hunk {
        from: hunk.from,
        to: hunk.to,
        text: Bytes::from(text),
        at: hunk.at,
    })
}

/// The script of these hunks, which may not end within a text.
fn close(hunks: Row<Hunk>, phase: Phase) -> Result<Script, ScriptError>
    ensures { (result ≡ Err ScriptError.NoMemory) ⊎ (result ≡ at_end hunks phase) }
{
    let mut hunks = hunks;
    match phase {
        Phase::Commands => {}
        Phase::Within(_, _) => return Err(ScriptError::NoDot),
        Phase::Ended(hunk, _) | Phase::Replaced(hunk) => hunks.push(hunk)?,
    }
    Ok(Script { hunks })
}
