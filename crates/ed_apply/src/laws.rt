//! Laws of the definitions, on functions with nothing to do.

ghost use Rattle.std.specs.Prelude.{◌≡◌, ◌↔◌, ℕ, List, length, Some, None, IsSome};
ghost use Rattle.ed_apply.specs.Edits.{applied, edited, file_lines, refusal, IsSound, IsFirstOutside};
ghost use Rattle.ed_apply.specs.declared.error.ApplyError.TheVariants.{Outside};
ghost use Rattle.ed_apply.specs.declared.script.Script.{Script as AnyScript};

/// A law of the definitions, with nothing to do: the file that cutting gives is the one that the relation of lines says.
pub fn applied_is_edited()
    ensures { (old : List ℕ) (script : AnyScript) (new : List ℕ) → (applied old script ≡ Some new) ↔ edited old script new }
{}

/// A law of the definitions, with nothing to do: a sound script is refused exactly where it makes no file, and the refusal
/// is that of the first hunk that reaches beyond the old file's lines.
pub fn refused_where_none_is_applied()
    ensures none { (old : List ℕ) (script : AnyScript) → IsSound script → (applied old script ≡ None) ↔ IsSome (refusal old script) }
    ensures first { (old : List ℕ) (script : AnyScript) (at : ℕ) → (refusal old script ≡ Some (Outside at))
        ↔ IsFirstOutside (length (file_lines old)) script.hunks at }
{}
