//! Laws of rules texts.

ghost use Rattle.ns_policy.specs.Laws.{ReadIsSpelled, SpelledIsRead};

/// A text that spells items is read as the rules that they mean, or refused with the fault that they mean.
pub fn spelled_is_read()
    ensures { SpelledIsRead }
{}

/// If a text is read as rules, it spells items that mean these rules.
pub fn read_is_spelled()
    ensures { ReadIsSpelled }
{}
