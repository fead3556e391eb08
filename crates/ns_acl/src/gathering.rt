//! The rights that the rules of policies give for one name.

ghost use Rattle.std.specs.Prelude.{◌≡◌, ◌∷◌, [], filter};
ghost use Rattle.ns_types.specs.State.Names.{Name};
ghost use Rattle.ns_types.specs.Access.Rights.{both, is_exact, is_match, is_of_kind, unless_denied};
ghost use Rattle.ns_acl.specs.Gathered.{Adds, Counts, gathered};

use ns_types::acl::{Grants, NO_GRANTS, Rule, RuleKind};
use ns_types::text::{Text, same_text};

/// The rights that the rules seen so far give for a name.
#[derive(Clone, Copy)]
pub(crate) struct Gathered {
    /// The rights of the rules with the exact name, once there is one.
    exact: Option<Grants>,
    /// The length of the longest pattern with a star that matches, in bytes.
    longest: usize,
    /// The rights of the rules whose pattern with a star matches and has that length.
    matching: Grants,
}

fn both(a: Grants, b: Grants) -> Grants
    ensures { result ≡ both a b }
{
    Grants {
        list_jobs: a.list_jobs || b.list_jobs,
        read_job: a.read_job || b.read_job,
        submit_job: a.submit_job || b.submit_job,
        alloc_lifecycle: a.alloc_lifecycle || b.alloc_lifecycle,
        read_pool: a.read_pool || b.read_pool,
        write_pool: a.write_pool || b.write_pool,
        deny: a.deny || b.deny,
    }
}

fn unless_denied(grants: Grants) -> Grants
    ensures { result ≡ unless_denied grants }
{
    if grants.deny { NO_GRANTS } else { grants }
}

fn is_of_kind(kind: RuleKind, rule: &Rule) -> bool
    ensures { result ≡ is_of_kind kind rule.now }
{
    match kind {
        RuleKind::Namespace => matches!(rule.kind, RuleKind::Namespace),
        RuleKind::Pool => matches!(rule.kind, RuleKind::Pool),
    }
}

fn is_exact(target: &Text, rule: &Rule) -> bool
    ensures { result ≡ is_exact target.now rule.now }
{
    !rule.pattern.is_prefix && same_text(&rule.pattern.text, target)
}

fn is_match(target: &Text, rule: &Rule) -> bool
    ensures { result ≡ is_match target.now rule.now }
{
    let prefix = rule.pattern.text.as_str().as_bytes();
    rule.pattern.is_prefix && target.as_str().as_bytes().starts_with(prefix)
}

impl Gathered {
    /// The rights of no rules.
    pub(crate) fn new() -> Gathered
        ensures { (target : Name) → result ≡ gathered target [] }
    {
        Gathered {
            exact: None,
            longest: 0,
            matching: NO_GRANTS,
        }
    }

    fn with_rule(self, target: &Text, rule: &Rule) -> Gathered
        ensures { Adds target.now (rule.now ∷ []) self result }
    {
        if is_exact(target, rule) {
            let earlier = self.exact.unwrap_or(NO_GRANTS);
            return Gathered {
                exact: Some(both(earlier, rule.grants)),
                ..self
            };
        }
        if !is_match(target, rule) {
            return self;
        }
        let length = rule.pattern.text.as_str().len();
        if length < self.longest {
            return self;
        }
        if length > self.longest {
            return Gathered {
                longest: length,
                matching: rule.grants,
                ..self
            };
        }
        Gathered {
            matching: both(self.matching, rule.grants),
            ..self
        }
    }

    /// The rights with those of `rules` that are of that kind added.
    pub(crate) fn with_rules(self, kind: RuleKind, target: &Text, rules: &[Rule]) -> Gathered
        ensures { Adds target.now (filter (is_of_kind kind) rules.now) self result }
    {
        let mut all = self;
        for rule in rules {
            if is_of_kind(kind, rule) {
                all = all.with_rule(target, rule);
            }
        }
        all
    }

    /// The rights that count: those of the exact name if there are any, else those of the longest match; none if one denies.
    pub(crate) fn grants(self) -> Grants
        ensures { Counts self result }
    {
        unless_denied(self.exact.unwrap_or(self.matching))
    }
}
