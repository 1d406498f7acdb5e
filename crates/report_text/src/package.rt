//! What is told of one package's file. It takes memory.

ghost use Rattle.std.specs.Prelude.{◌≡◌, ◌++◌, IfOk, OnOk};
ghost use Rattle.report_text.specs.Packages.{fail_text, got_text, package_text};

use crate::cause::cause_text;
use crate::numbers::append_decimal;
use acq_base::{Bytes, ListName, NoMemory, Sum, Text};
use std::alloc::Global;
use update_model::Cause;

/// The line of a file that was fetched or stood already, with its size in bytes and its SHA-256.
pub fn got_line(alloc: Global, file: &ListName, sum: &Sum) -> Result<Bytes, NoMemory>
    ensures { IfOk result (λ line. line ≡ got_text file.now sum.now) }
{
    Ok(got(alloc, file, sum)?.into_bytes())
}

/// The line of a package's version whose file can't be had, with the cause in the words of a report.
pub fn fail_line(
    alloc: Global,
    name: &Text,
    version: &Text,
    cause: &Cause,
) -> Result<Bytes, NoMemory>
    ensures { IfOk result (λ line. line ≡ fail_text name.now version.now cause.now) }
{
    Ok(failed(alloc, name, version, cause)?.into_bytes())
}

fn got(alloc: Global, file: &ListName, sum: &Sum) -> Result<Text, NoMemory>
    ensures { IfOk result (λ text. text ≡ got_text file.now sum.now) }
{
    let mut text = Text::from_bytes(alloc, b"Got ")?;
    text.append(file.0.as_bytes())?;
    text.append(b" ")?;
    append_decimal(alloc, &mut text, sum.size)?;
    text.append(b" ")?;
    let digits = hex::encode(alloc, sum.sha.0)?;
    text.append(digits.as_bytes())?;
    text.push(b'\n')?;
    Ok(text)
}

fn failed(alloc: Global, name: &Text, version: &Text, cause: &Cause) -> Result<Text, NoMemory>
    ensures { IfOk result (λ text. text ≡ fail_text name.now version.now cause.now) }
{
    let mut text = Text::from_bytes(alloc, b"Fail ")?;
    append_package(&mut text, name, version)?;
    text.append(b" ")?;
    text.append(cause_text(alloc, cause)?.as_bytes())?;
    text.push(b'\n')?;
    Ok(text)
}

/// Appends a package and its version, as the words ask for them.
pub fn append_package(text: &mut Text, name: &Text, version: &Text) -> Result<(), NoMemory>
    ensures { OnOk result (text.new ≡ text.old ++ package_text name.now version.now) }
{
    text.append(name.as_bytes())?;
    text.append(b"=")?;
    text.append(version.as_bytes())
}
