// What the groups of a plan are.
ghost use Rattle.plan_check.specs.Runs.{GroupsLaw};

/// The groups of a plan are runs of its elements, one after another, each the longest that there is where it begins.
pub fn law_of_groups()
    ensures { GroupsLaw }
{}
