//! Laws of prefixes, and of the patterns of rules.

ghost use Rattle.ns_laws.specs.Patterns.{
  ExactPatterns,
  PrefixesBegin,
  StarPatterns,
};

/// A name begins with a prefix exactly if it is the prefix and some rest, which may be empty.
pub fn prefixes_begin()
    ensures { PrefixesBegin }
{}

/// A rule names a namespace or a pool exactly if its pattern has no star, and is that name.
pub fn exact_patterns()
    ensures { ExactPatterns }
{}

/// A rule with a star matches a name exactly if the name begins with what stands before the star.
pub fn star_patterns()
    ensures { StarPatterns }
{}
