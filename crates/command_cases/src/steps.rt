//! The lines of a case.

use acq_base::{Bytes, Row, Text};
use case_words::{Refused, number, text, words_of};
use std::alloc::Global;

/// A line: its first word, and the others.
#[derive(Drop)]
pub struct Step {
    name: Text,
    arguments: Vec<Text>,
}

impl Step {
    /// Reads a line of a case.
    pub fn read(alloc: Global, line: &str) -> Result<Step, Refused> {
        let mut words = words_of(alloc, line.as_bytes())?;
        if words.is_empty() {
            return Err(Refused::NoCall);
        }
        let name = words.remove(0);
        if !is_known(name.as_bytes()) {
            return Err(Refused::NoCall);
        }
        Ok(Step {
            name,
            arguments: words,
        })
    }

    /// Whether this is its first word.
    pub fn is(&self, name: &[u8]) -> bool {
        self.name.as_bytes() == name
    }

    /// The words behind the first.
    pub fn arguments(&self) -> &[Text] {
        self.arguments.as_slice()
    }

    /// The only word behind the first.
    pub fn argument(&self) -> Result<&Text, Refused> {
        match self.arguments() {
            [argument] => Ok(argument),
            _ => Err(Refused::NoCall),
        }
    }

    /// The two words behind the first.
    pub fn pair(&self) -> Result<(&Text, &Text), Refused> {
        match self.arguments() {
            [first, second] => Ok((first, second)),
            _ => Err(Refused::NoCall),
        }
    }
}

/// Whether a case may have a line with this first word.
fn is_known(name: &[u8]) -> bool {
    is_of_objects(name) || matches!(name, b"word" | b"look" | b"stop" | b"fail")
}

/// Whether such a line says what an object has.
fn is_of_objects(name: &[u8]) -> bool {
    is_of_update(name) || matches!(name, b"place" | b"input" | b"file" | b"peer")
}

fn is_of_update(name: &[u8]) -> bool {
    is_of_mirror(name) || matches!(name, b"etc" | b"disk" | b"held" | b"methods")
}

fn is_of_mirror(name: &[u8]) -> bool {
    matches!(name, b"mirror" | b"moved" | b"absent")
}

/// Whether there is a line with this first word.
pub fn has(steps: &[Step], name: &[u8]) -> bool {
    steps.iter().any(|step| step.is(name))
}

/// The words behind this first word.
pub fn words(alloc: Global, steps: &[Step], name: &[u8]) -> Result<Vec<String>, Refused> {
    let mut words = Vec::new(alloc);
    for step in steps {
        if step.is(name) {
            words.push(String::from_str(alloc, text(step.argument()?.as_bytes())?)?)?;
        }
    }
    Ok(words)
}

/// The bytes behind this first word, of all its lines.
pub fn bytes(alloc: Global, steps: &[Step], name: &[u8]) -> Result<Bytes, Refused> {
    let mut bytes = Bytes::new(alloc);
    for step in steps {
        if step.is(name) {
            append_all(&mut bytes, step.arguments())?;
        }
    }
    Ok(bytes)
}

fn append_all(bytes: &mut Bytes, texts: &[Text]) -> Result<(), Refused> {
    for text in texts {
        bytes.append(text.as_bytes())?;
    }
    Ok(())
}

/// The pieces behind this first word, those of each line by themselves.
pub fn pieces(alloc: Global, steps: &[Step], name: &[u8]) -> Result<Row<Row<Bytes>>, Refused> {
    let mut rows = Row::new(alloc);
    for step in steps {
        if step.is(name) {
            rows.push(row(alloc, step.arguments())?)?;
        }
    }
    Ok(rows)
}

fn row(alloc: Global, texts: &[Text]) -> Result<Row<Bytes>, Refused> {
    let mut row = Row::new(alloc);
    for text in texts {
        row.push(Bytes::from(Vec::from_slice(alloc, text.as_bytes())?))?;
    }
    Ok(row)
}

/// The numbers of the calls of an object that are to fail.
pub fn failing(alloc: Global, steps: &[Step], object: &[u8]) -> Result<Row<u64>, Refused> {
    let mut numbers = Row::new(alloc);
    for step in steps {
        if step.is(b"fail") {
            add_failing(&mut numbers, step, object)?;
        }
    }
    Ok(numbers)
}

/// Adds the numbers of a line, if they are those of the object.
fn add_failing(numbers: &mut Row<u64>, step: &Step, object: &[u8]) -> Result<(), Refused> {
    let [of, words @ ..] = step.arguments() else {
        return Err(Refused::NoCall);
    };
    if of.as_bytes() == object {
        for word in words {
            numbers.push(number(word.as_bytes())?)?;
        }
    }
    Ok(())
}

/// The number behind this first word, that of the last such line, or else this one.
pub fn number_or(steps: &[Step], name: &[u8], other: u64) -> Result<u64, Refused> {
    let mut found = other;
    for step in steps {
        if step.is(name) {
            found = number(step.argument()?.as_bytes())?;
        }
    }
    Ok(found)
}
