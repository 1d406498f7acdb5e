//! How lists are read, as a law that callers may rest on. It touches nothing.
ghost use Rattle.deb_fetch.specs.Paragraphs.{ReadsByParagraphs};

/// Reading a control text is reading what stands before a line that separates paragraphs, and then the rest: the same
/// paragraphs come, the numbers of their lines aside, and the one can be read just where both others can.
pub fn texts_are_read_by_paragraphs()
    ensures { ReadsByParagraphs }
{}
