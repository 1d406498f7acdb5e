//! The command of a hunk. Nothing here takes memory.

ghost use Rattle.std.specs.Prelude.{◌≡◌};
ghost use Rattle.ed_apply.specs.Grammar.{both, command_of, lettered, added, changed, range_of, line_number};

use crate::lines::place_of;
use acq_base::read_digits;

/// The most digits that the number of a line has.
const MOST_DIGITS: usize = 18;

/// A command of a script: the lines behind the first `from` up to the line `to` give way.
#[derive(Clone, Copy)]
pub struct Command {
    pub from: u64,
    pub to: u64,
    /// Whether a text follows.
    pub adds: bool,
}

/// The command that a line is, if it is one.
#[tactic(auto, unfolding(crate::specs::Grammar::command_of))]
pub fn read_command(line: &[u8]) -> Option<Command>
    ensures { result ≡ command_of line.now }
{
    match line {
        [places @ .., letter] => with_letter(*letter, places),
        [] => None,
    }
}

/// The command of this letter at these places.
fn with_letter(letter: u8, places: &[u8]) -> Option<Command>
    ensures { result ≡ lettered letter places.now }
{
    match letter {
        b'a' => add(read_line_number(places)),
        b'c' => change(true, read_range(places)),
        b'd' => change(false, read_range(places)),
        _ => None,
    }
}

/// A text behind this line.
fn add(line: Option<u64>) -> Option<Command>
    ensures { result ≡ added line }
{
    let line = line?;
    Some(Command {
        from: line,
        to: line,
        adds: true,
    })
}

/// The lines of this range, counted from 1, give way.
fn change(adds: bool, range: Option<(u64, u64)>) -> Option<Command>
    ensures { result ≡ changed adds range }
{
    let (first, last) = range?;
    if first < 1 || last < first {
        return None;
    }
    Some(Command {
        from: first - 1,
        to: last,
        adds,
    })
}

/// The range `N,M`, or `N` for that line alone.
#[tactic(auto, using(crate::proofs::Ranges::ranges))]
fn read_range(places: &[u8]) -> Option<(u64, u64)>
    ensures { result ≡ range_of places.now }
{
    let (first, behind) = places.split_at(place_of(b',', places));
    if behind.is_empty() {
        return pair(read_line_number(places), read_line_number(places));
    }
    let (_, last) = behind.split_at(1);
    pair(read_line_number(first), read_line_number(last))
}

fn pair(first: Option<u64>, last: Option<u64>) -> Option<(u64, u64)>
    ensures { result ≡ both first last }
{
    Some((first?, last?))
}

/// The number of a line: 1 to 18 decimal digits.
fn read_line_number(text: &[u8]) -> Option<u64>
    ensures { result ≡ line_number text.now }
{
    if text.len() > MOST_DIGITS {
        return None;
    }
    read_digits(text)
}
