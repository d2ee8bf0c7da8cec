// Laws of the definitions, for those who read them. The functions do nothing.
ghost use Rattle.cell_rule.specs.Laws.{DataWordsDiffer, TargetWordsDiffer, ChecksDiffer, RuleStartsWithZero, RuleShares, RuleLists, StepKeeps, RunKeeps, StartRuns};

/// Two things that fit a word and have one number are the same.
pub fn words_differ()
    ensures data { DataWordsDiffer }
    ensures target { TargetWordsDiffer }
    ensures check { ChecksDiffer }
{}

/// The rule says of each site, and of all views, what its parts say.
pub fn rule_has_parts()
    ensures zero { RuleStartsWithZero }
    ensures shares { RuleShares }
    ensures sites { RuleLists }
{}

/// Each step keeps the rule, and so does every run of steps, as that from words that are all 0.
pub fn runs_keep_the_rule()
    ensures step { StepKeeps }
    ensures run { RunKeeps }
    ensures start { StartRuns }
{}
