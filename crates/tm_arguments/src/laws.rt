//! Laws of the definitions. These functions make no calls: their contracts are the laws.

ghost use Rattle.std.specs.Prelude.{◌≡◌, true};
ghost use Rattle.clap.specs.Words.{is_simple, is_simple_and_free};
ghost use Rattle.tm_arguments.specs.CommandLine.{tmx};

/// `clap` tells the matches and faults of a simple command for all arguments, and this command is one. So what `plan` promises
/// holds without a condition.
#[tactic(auto, using(crate::proofs::Required::tmx_simple, crate::proofs::Required::tmx_free))]
pub fn simple_command()
    ensures simple { is_simple tmx ≡ true }
    ensures free { is_simple_and_free tmx ≡ true }
{}
