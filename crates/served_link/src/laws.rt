//! What holds of every tree that is served. Nothing here does anything.

ghost use Rattle.std.specs.Prelude.{◌≡◌, ℕ, List, All};
ghost use Rattle.acq_base.specs.Mirror.{answer_at};
ghost use Rattle.acq_base.specs.declared.uri.Scheme.TheVariants.{Http};
ghost use Rattle.acq_base.specs.declared.uri.Uri.{Uri};
ghost use Rattle.acq_outside.specs.Tree.{TreeFiles};
ghost use Rattle.served_link.specs.Served.{IsHeardAsServed, mirror_of, served_at};

/// A written request for a sound URI of the server is one head, and the response to it is heard as the mirror's answer, by
/// what a wire hears (`heard`). That answer is the file below the root at the URI's path, or status 404 (`map`). Each URI of
/// the mirror is an http one (`http`).
pub fn answers_are_heard()
    ensures heard { (root host : List ℕ) (port : ℕ) (files : TreeFiles) → IsHeardAsServed root host port files }
    ensures map { (root host : List ℕ) (port : ℕ) (files : TreeFiles) (uri : Uri)
        → answer_at (mirror_of root host port files) uri ≡ served_at root host port files uri }
    ensures http { (root host : List ℕ) (port : ℕ) (files : TreeFiles)
        → All (λ entry. entry.0.scheme ≡ Http) (mirror_of root host port files) }
{}
