//! What holds of the words of every method that tells its mirror. Nothing here does anything.

ghost use Rattle.std.specs.Prelude.{◌≡◌, ℕ, List, drop};
ghost use Rattle.acq_base.specs.declared.fetch.Job.{Job};
ghost use Rattle.acq_base.specs.declared.fetch.Answer.TheVariants.{Served};
ghost use Rattle.acq_base.specs.Mirror.{MirrorMap, answer_at};
ghost use Rattle.file_method.specs.Joined.{JoinTo};

/// The pieces of a fetch that ends in a size, joined, are the mirror's file behind what the job leaves out.
#[tactic(auto, using(crate::proofs::JoinedWords::whole_file))]
pub fn words_are_the_file()
    ensures { (world : MirrorMap) (job : Job) (all : List ℕ) → answer_at world job.uri ≡ Served all → JoinTo world job (drop job.from all) }
{}
