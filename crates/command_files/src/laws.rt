// Laws of plan files.
ghost use Rattle.command_files.specs.OneAnswer.{EachHasOneAnswer};

/// Nothing is done: a plan file with its tap files has one answer, one plan that is accepted or one refusal.
pub fn law_of_one_answer()
    ensures { EachHasOneAnswer }
{}
