//! The lines that stand in place of a report.

ghost use Rattle.std.specs.Prelude.{◌≡◌, ◌++◌, codes, IfOk, OnOk, option_copied};
ghost use Rattle.std.specs.Fmt.{decimal};
ghost use Rattle.report_text.specs.Faults.{fault_text, fixed_text, place_text};
ghost use Rattle.report_text.specs.Packages.{package_text};
ghost use Rattle.report_text.specs.Sources.{newline};

use crate::numbers::append_decimal;
use crate::package::append_package;
use acq_base::{Bytes, ListName, NoMemory, Text};
use std::alloc::Global;

/// Why there is no report.
#[derive(Debug, PartialEq, Drop)]
pub enum FaultLine {
    /// The words aren't those of a command.
    Words,
    /// The configuration is refused: the file, or the key of a setting; the refusal's number, and its line or 0.
    Conf {
        file: Text,
        number: u32,
        line: u64,
    },
    /// Two sources have a file of one name: the file and the line of each entry that first gave it.
    Clash {
        first: Text,
        first_line: u64,
        second: Text,
        second_line: u64,
    },
    /// There are more than 4,096 sources and targets together.
    TooMany,
    /// This list name has more than 240 bytes.
    LongName(ListName),
    /// The journal is open and no record, from this byte on.
    Journal(u64),
    /// The lists folder failed.
    Disk,
    /// Memory ran out.
    Memory,
    /// Another process holds the lists folder.
    Held,
    /// The configuration folder failed.
    Etc,
    /// No file of a package is found: 34 where no list has this version of it, 35 where two entries for it have sums that
    /// differ.
    Download {
        number: u32,
        name: Text,
        version: Text,
    },
    /// Listening at a port, or accepting a peer there, failed.
    Port,
}

impl FaultLine {
    /// The line with its line feed. It takes memory.
    pub fn text(&self, alloc: Global) -> Result<Bytes, NoMemory>
        ensures { IfOk result (λ text. text ≡ fault_text self.now) }
    {
        Ok(fault_line(alloc, self)?.into_bytes())
    }

    /// The line with its line feed, where the fault has nothing to name. It takes no memory.
    #[tactic(auto, unfolding(crate::specs::Faults::fixed_text))]
    pub fn fixed(&self) -> Option<&'static [u8]>
        ensures { option_copied result ≡ fixed_text self.now }
    {
        match self {
            FaultLine::Words => Some(b"E words\n"),
            FaultLine::TooMany => Some(b"E plan 23\n"),
            FaultLine::Disk => Some(b"E disk\n"),
            FaultLine::Memory => Some(b"E memory\n"),
            FaultLine::Held => Some(b"E held\n"),
            FaultLine::Etc => Some(b"E etc\n"),
            FaultLine::Port => Some(b"E port\n"),
            _ => None,
        }
    }
}

#[tactic(auto, unfolding(crate::specs::Faults::fault_text))]
fn fault_line(alloc: Global, fault: &FaultLine) -> Result<Text, NoMemory>
    ensures { IfOk result (λ text. text ≡ fault_text fault.now) }
{
    match fault {
        FaultLine::Words => Text::from_bytes(alloc, b"E words\n"),
        FaultLine::Conf { file, number, line } => conf_line(alloc, file, *number, *line),
        FaultLine::Clash {
            first,
            first_line,
            second,
            second_line,
        } => clash_line(alloc, first, *first_line, second, *second_line),
        FaultLine::TooMany => Text::from_bytes(alloc, b"E plan 23\n"),
        FaultLine::LongName(name) => name_line(alloc, name),
        FaultLine::Journal(at) => journal_line(alloc, *at),
        FaultLine::Disk => Text::from_bytes(alloc, b"E disk\n"),
        FaultLine::Memory => Text::from_bytes(alloc, b"E memory\n"),
        FaultLine::Held => Text::from_bytes(alloc, b"E held\n"),
        FaultLine::Etc => Text::from_bytes(alloc, b"E etc\n"),
        FaultLine::Download {
            number,
            name,
            version,
        } => download_line(alloc, *number, name, version),
        FaultLine::Port => Text::from_bytes(alloc, b"E port\n"),
    }
}

fn conf_line(alloc: Global, file: &Text, number: u32, line: u64) -> Result<Text, NoMemory>
    ensures { IfOk result (λ text. text ≡ codes "E conf " ++ file.now ++ codes " " ++ decimal number ++ codes " " ++ decimal line ++ newline) }
{
    let mut text = Text::from_bytes(alloc, b"E conf ")?;
    text.append(file.as_bytes())?;
    text.append(b" ")?;
    append_decimal(alloc, &mut text, u64::from(number))?;
    text.append(b" ")?;
    append_decimal(alloc, &mut text, line)?;
    text.push(b'\n')?;
    Ok(text)
}

fn clash_line(
    alloc: Global,
    first: &Text,
    first_line: u64,
    second: &Text,
    second_line: u64,
) -> Result<Text, NoMemory>
    ensures { IfOk result (λ text. text ≡ codes "E plan 22 " ++ place_text first.now first_line ++ codes " " ++ place_text second.now second_line ++ newline) }
{
    let mut text = Text::from_bytes(alloc, b"E plan 22 ")?;
    text.append(place_line(alloc, first, first_line)?.as_bytes())?;
    text.append(b" ")?;
    text.append(place_line(alloc, second, second_line)?.as_bytes())?;
    text.push(b'\n')?;
    Ok(text)
}

/// A file and a line of it.
fn place_line(alloc: Global, file: &Text, line: u64) -> Result<Text, NoMemory>
    ensures { IfOk result (λ text. text ≡ place_text file.now line) }
{
    let mut text = Text::from_bytes(alloc, file.as_bytes())?;
    text.append(b":")?;
    append_decimal(alloc, &mut text, line)?;
    Ok(text)
}

fn name_line(alloc: Global, name: &ListName) -> Result<Text, NoMemory>
    ensures { IfOk result (λ text. text ≡ codes "E plan 36 " ++ name.now.0 ++ newline) }
{
    let mut text = Text::from_bytes(alloc, b"E plan 36 ")?;
    text.append(name.0.as_bytes())?;
    text.push(b'\n')?;
    Ok(text)
}

fn journal_line(alloc: Global, at: u64) -> Result<Text, NoMemory>
    ensures { IfOk result (λ text. text ≡ codes "E journal " ++ decimal at ++ newline) }
{
    let mut text = Text::from_bytes(alloc, b"E journal ")?;
    append_decimal(alloc, &mut text, at)?;
    text.push(b'\n')?;
    Ok(text)
}

fn download_line(alloc: Global, number: u32, name: &Text, version: &Text) -> Result<Text, NoMemory>
    ensures { IfOk result (λ text. text ≡ codes "E download " ++ decimal number ++ codes " " ++ package_text name.now version.now ++ newline) }
{
    let mut text = Text::from_bytes(alloc, b"E download ")?;
    append_decimal(alloc, &mut text, u64::from(number))?;
    text.append(b" ")?;
    append_package(&mut text, name, version)?;
    text.push(b'\n')?;
    Ok(text)
}
