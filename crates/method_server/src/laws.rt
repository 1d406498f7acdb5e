//! What the answers to messages leave of the files. Nothing here does anything.

ghost use Rattle.method_server.specs.Named.{StaysServed, StaysUnnamed, StaysUntouched};

/// Files that no request over http names stay as they were, and a file that was served over http is there until a
/// later request names it.
pub fn files_are_as_answered()
    ensures stays { StaysUnnamed }
    ensures begun { StaysUntouched }
    ensures holds { StaysServed }
{}
