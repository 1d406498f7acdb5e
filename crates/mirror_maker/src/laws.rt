//! Laws of the definitions, on functions with nothing to do.
ghost use Rattle.std.specs.Prelude.{ℕ};
ghost use Rattle.mirror_maker.specs.Made.{lists_in};
ghost use Rattle.mirror_maker.specs.Patch.{IsPatch};

/// A law of the definitions, with nothing to do: each source's patch makes its second list of its first, whatever was
/// drawn.
#[tactic(auto, using(crate::proofs::Editing::patch_fits))]
pub fn patch_makes_second_list()
    ensures { (n source : ℕ) → IsPatch (lists_in n source).script (lists_in n source).first (lists_in n source).second }
{}
