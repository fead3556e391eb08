//! Laws of rights: what a secret may do.

ghost use Rattle.ns_audit.specs.Rights.{
  UnknownHasNoRight,
  UnknownIsDenied,
  ManagerIsAllowed,
  DenyGivesNothing,
  SomeRuleGives,
  ExactBeforeStars,
  LongestStarCounts,
  OnePatternCounts,
  OthersDoNotCount,
};

/// An unknown secret has no right in any namespace or pool.
pub fn unknown_has_no_right()
    ensures { UnknownHasNoRight }
{}

/// A request with an unknown secret is denied.
pub fn unknown_is_denied()
    ensures { UnknownIsDenied }
{}

/// No request with the secret of a `management` token is denied.
pub fn manager_is_allowed()
    ensures { ManagerIsAllowed }
{}

/// If a rule that counts denies, the policies give no right.
pub fn deny_gives_nothing()
    ensures { DenyGivesNothing }
{}

/// If no rule that counts denies, the policies give each right that some rule that counts gives, and no other.
pub fn some_rule_gives()
    ensures { SomeRuleGives }
{}

/// If there is a rule with the exact name and without a star, a rule with a star changes nothing.
pub fn exact_before_stars()
    ensures { ExactBeforeStars }
{}

/// If no rule without a star has the exact name, each rule that counts has a pattern with a star that matches the name, and no
/// rule that matches has a longer pattern.
pub fn longest_star_counts()
    ensures { LongestStarCounts }
{}

/// All rules that count have the same pattern.
pub fn one_pattern_counts()
    ensures { OnePatternCounts }
{}

/// A rule whose pattern does not match the name, exactly or by its star, changes nothing.
pub fn others_do_not_count()
    ensures { OthersDoNotCount }
{}
