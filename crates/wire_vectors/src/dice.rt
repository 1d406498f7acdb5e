//! Messages drawn from a seed, and so the same in each run.
ghost use Rattle.std.specs.Prelude.{◌<◌};

use acq_base::{Bytes, NoMemory};
use std::alloc::Global;

/// What texts and values are made of. The first is no blank.
const PLAIN: &[u8] = b"aZ0:.~/-\xff\x00\r# \t";

/// What names are made of. None of them but the first five may begin a name.
const NAME: &[u8] = b"aZ0!+-#~%_";

/// Numbers that look random.
#[derive(Drop)]
pub struct Dice {
    state: u64,
}

impl Dice {
    /// Dice whose rolls all follow from this number.
    pub fn new(seed: u64) -> Dice {
        Dice { state: seed }
    }

    /// A number below `sides`, by a linear congruential generator.
    pub fn roll(&mut self, sides: u64) -> u64
        requires { 0 < sides }
        ensures { result < sides }
    {
        let next = self.state.wrapping_mul(6_364_136_223_846_793_005);
        self.state = next.wrapping_add(1_442_695_040_888_963_407);
        (self.state >> 33) % sides
    }

    /// One of the first `most` bytes of a text.
    fn pick(&mut self, text: &[u8], most: u64) -> u8
        requires { 0 < most }
    {
        let at = self.roll(most) as usize;
        text.get(at).copied().unwrap_or(b'a')
    }
}

/// The same messages, as a stream may have them and as they are written.
#[derive(Drop)]
pub struct Drawn {
    pub loose: Bytes,
    pub tight: Bytes,
}

impl Drawn {
    /// The same bytes at the end of both.
    fn both(&mut self, bytes: &[u8]) -> Result<(), NoMemory> {
        self.loose.append(bytes)?;
        self.tight.append(bytes)
    }

    /// A number, a text and up to four fields, behind up to two empty lines.
    fn message(&mut self, alloc: Global, dice: &mut Dice) -> Result<(), NoMemory> {
        for _ in 0..dice.roll(3) {
            self.loose.push(b'\n')?;
        }
        let number = dice.roll(900).saturating_add(100);
        self.both(format!(in alloc; "{number} ")?.as_bytes())?;
        self.both(text(alloc, dice, 1)?.as_slice())?;
        self.both(b"\n")?;
        for _ in 0..dice.roll(5) {
            self.field(alloc, dice)?;
        }
        self.both(b"\n")
    }

    /// A field, with any blanks behind the colon and with one space.
    fn field(&mut self, alloc: Global, dice: &mut Dice) -> Result<(), NoMemory> {
        self.both(&[dice.pick(NAME, 5)])?;
        for _ in 0..dice.roll(7) {
            self.both(&[dice.pick(NAME, 10)])?;
        }
        self.both(b":")?;
        self.tight.push(b' ')?;
        for _ in 0..dice.roll(4) {
            self.loose.push(dice.pick(b" \t", 2))?;
        }
        self.both(text(alloc, dice, 0)?.as_slice())?;
        self.both(b"\n")
    }
}

/// A text of at least `least` bytes that doesn't begin with a blank.
fn text(alloc: Global, dice: &mut Dice, least: u64) -> Result<Bytes, NoMemory> {
    let mut text = Bytes::new(alloc);
    for at in 0..dice.roll(12).saturating_add(least) {
        let most = if at == 0 { 12 } else { 14 };
        text.push(dice.pick(PLAIN, most))?;
    }
    Ok(text)
}

/// A thousand messages.
pub fn thousand(alloc: Global, dice: &mut Dice) -> Result<Drawn, NoMemory> {
    let mut drawn = Drawn {
        loose: Bytes::new(alloc),
        tight: Bytes::new(alloc),
    };
    for _ in 0..1_000 {
        drawn.message(alloc, dice)?;
    }
    Ok(drawn)
}
