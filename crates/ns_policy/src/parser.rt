//! Reads rules, one token after the other.

ghost use Rattle.std.specs.Prelude.{◌≡◌, Ok, Err};
ghost use Rattle.ns_policy.specs.Tokens.{seen};
ghost use Rattle.ns_policy.specs.Rules.{Gives, same};
ghost use Rattle.ns_policy.specs.Grammar.{role_of, start, at, blocks, read_on, next, finish, step, with_rule, step_item, step_name, step_label, step_value, step_before, step_after, close_list, set_policy, begin_capabilities, add_capability, enter, leave, begun, named, is_flag};

use crate::fault::RuleFault;
use crate::lex::{RulesToken, skip_blanks, token_at};
use crate::rule::{one_more, read_pattern, with_capability, with_policy};
use ns_types::acl::{Grants, NO_GRANTS, Pattern, Rule, RuleKind};
use ns_types::rows::Rows;
use std::alloc::Global;

/// What the first word of an item means.
#[derive(Clone, Copy, PartialEq, Eq)]
pub enum ItemRole {
    Block(RuleKind),
    Policy,
    Capabilities,
    Other,
}

/// What was read before the next token.
#[derive(Clone, Copy, PartialEq, Eq)]
pub enum Place {
    /// An item may begin here, or the block or the text end.
    Item,
    /// After the word of an item.
    Name(ItemRole),
    /// After a label.
    Label(ItemRole),
    /// After `=`.
    Value(ItemRole),
    /// Before a value, in that many open lists.
    Before(ItemRole, u64),
    /// After a value, in that many open lists.
    After(ItemRole, u64),
}

/// A rule whose block is open, or is about to open.
#[derive(Drop)]
pub struct OpenRule {
    pub kind: RuleKind,
    pub pattern: Pattern,
    pub grants: Grants,
    pub has_policy: bool,
    pub has_capabilities: bool,
}

/// What has been read so far.
#[derive(Drop)]
pub struct State {
    pub rules: Rows<Rule>,
    pub draft: Option<OpenRule>,
    pub depth: u64,
    pub place: Place,
}

const MAX_DEPTH: u64 = 16;

#[tactic(auto, unfolding(crate::specs::Grammar::role_of))]
fn role_at(depth: u64, in_rule: bool, word: &[u8]) -> ItemRole
    ensures { result ≡ role_of depth in_rule word.now }
{
    if depth == 0 {
        if word == b"namespace".as_slice() {
            return ItemRole::Block(RuleKind::Namespace);
        }
        if word == b"node_pool".as_slice() {
            return ItemRole::Block(RuleKind::Pool);
        }
        return ItemRole::Other;
    }
    if depth == 1 && in_rule {
        if word == b"policy".as_slice() {
            return ItemRole::Policy;
        }
        if word == b"capabilities".as_slice() {
            return ItemRole::Capabilities;
        }
    }
    ItemRole::Other
}

fn is_flag(word: &[u8]) -> bool
    ensures { result ≡ is_flag word.now }
{
    word == b"true".as_slice() || word == b"false".as_slice()
}

/// Drops what was read, and returns the fault.
fn refused(state: State, fault: RuleFault) -> Result<State, RuleFault>
    ensures { result ≡ Err fault }
{
    drop(state);
    Err(fault)
}

/// Drops what was read and the rule whose block is open, and returns the fault.
fn refused_in_rule(rules: Rows<Rule>, draft: OpenRule, fault: RuleFault) -> Result<State, RuleFault>
    ensures { result ≡ Err fault }
{
    drop(rules);
    drop(draft);
    Err(fault)
}

/// Opens a block.
#[tactic(auto, unfolding(crate::specs::Grammar::enter))]
fn enter(state: State) -> Result<State, RuleFault>
    ensures { Gives same result (enter state) }
{
    if state.depth >= MAX_DEPTH {
        return refused(state, RuleFault::Syntax);
    }
    Ok(State {
        depth: state.depth + 1,
        place: Place::Item,
        ..state
    })
}

/// Adds the rule of the block that closes, if it states one, behind the others.
fn with_rule(rules: Rows<Rule>, draft: Option<OpenRule>) -> Result<Rows<Rule>, RuleFault>
    ensures { Gives same result (Ok (with_rule rules draft)) }
{
    match draft {
        None => Ok(rules),
        Some(draft) => one_more(
            rules,
            Rule {
                kind: draft.kind,
                pattern: draft.pattern,
                grants: draft.grants,
            },
        ),
    }
}

/// Closes a block, and completes the rule that it states.
#[tactic(auto, unfolding(crate::specs::Grammar::leave))]
fn leave(state: State) -> Result<State, RuleFault>
    ensures { Gives same result (leave state) }
{
    if state.depth == 0 {
        return refused(state, RuleFault::Syntax);
    }
    if state.depth > 1 {
        return Ok(State {
            depth: state.depth - 1,
            place: Place::Item,
            ..state
        });
    }
    Ok(State {
        rules: with_rule(state.rules, state.draft)?,
        draft: None,
        depth: 0,
        place: Place::Item,
    })
}

#[tactic(auto, unfolding(crate::specs::Grammar::step_item))]
fn step_item(state: State, token: RulesToken<'_>) -> Result<State, RuleFault>
    ensures { Gives same result (step_item state (seen token.entry)) }
{
    match token {
        RulesToken::Word(word) => {
            let role = role_at(state.depth, state.draft.is_some(), word);
            Ok(State {
                place: Place::Name(role),
                ..state
            })
        }
        RulesToken::CloseBlock => leave(state),
        _ => refused(state, RuleFault::Syntax),
    }
}

/// Begins a rule, which gives nothing yet.
fn begun(state: State, kind: RuleKind, pattern: Pattern) -> State
    ensures { result ≡ begun state kind pattern }
{
    let State {
        rules,
        draft,
        depth,
        place: _,
    } = state;
    drop(draft);
    State {
        rules,
        draft: Some(OpenRule {
            kind,
            pattern,
            grants: NO_GRANTS,
            has_policy: false,
            has_capabilities: false,
        }),
        depth,
        place: Place::Label(ItemRole::Block(kind)),
    }
}

/// Reads the label of a block that states a rule.
#[tactic(auto, unfolding(crate::specs::Grammar::named))]
fn named(alloc: Global, state: State, kind: RuleKind, label: &[u8]) -> Result<State, RuleFault>
    ensures { Gives same result (named state kind label.now) }
{
    match read_pattern(alloc, kind, label) {
        Ok(pattern) => Ok(begun(state, kind, pattern)),
        Err(fault) => refused(state, fault),
    }
}

#[tactic(auto, unfolding(crate::specs::Grammar::step_name))]
fn step_name(
    alloc: Global,
    state: State,
    role: ItemRole,
    token: RulesToken<'_>,
) -> Result<State, RuleFault>
    ensures { Gives same result (step_name state role (seen token.entry)) }
{
    match (token, role) {
        (RulesToken::Equals, _) => Ok(State {
            place: Place::Value(role),
            ..state
        }),
        (RulesToken::Text(label), ItemRole::Block(kind)) => named(alloc, state, kind, label),
        (RulesToken::Text(_), ItemRole::Other) => Ok(State {
            place: Place::Label(role),
            ..state
        }),
        (RulesToken::OpenBlock, ItemRole::Other) => enter(state),
        (RulesToken::Text(_) | RulesToken::OpenBlock, _) => refused(state, RuleFault::Value),
        _ => refused(state, RuleFault::Syntax),
    }
}

#[tactic(auto, unfolding(crate::specs::Grammar::step_label))]
fn step_label(state: State, role: ItemRole, token: RulesToken<'_>) -> Result<State, RuleFault>
    ensures { Gives same result (step_label state role (seen token.entry)) }
{
    match (token, role) {
        (RulesToken::Text(_), ItemRole::Other) => Ok(state),
        (RulesToken::Text(_), _) => refused(state, RuleFault::Value),
        (RulesToken::OpenBlock, _) => enter(state),
        _ => refused(state, RuleFault::Syntax),
    }
}

/// Reads the policy of the rule whose block is open.
#[tactic(auto, unfolding(crate::specs::Grammar::set_policy))]
fn set_policy(state: State, word: &[u8]) -> Result<State, RuleFault>
    ensures { Gives same result (set_policy state word.now) }
{
    let State {
        rules,
        draft,
        depth,
        place: _,
    } = state;
    let Some(draft) = draft else {
        drop(rules);
        return Err(RuleFault::Value);
    };
    if draft.has_policy {
        return refused_in_rule(rules, draft, RuleFault::Value);
    }
    match with_policy(draft.kind, draft.grants, word) {
        Ok(grants) => Ok(State {
            rules,
            draft: Some(OpenRule {
                grants,
                has_policy: true,
                ..draft
            }),
            depth,
            place: Place::Item,
        }),
        Err(fault) => refused_in_rule(rules, draft, fault),
    }
}

/// Begins the list of capabilities.
#[tactic(auto, unfolding(crate::specs::Grammar::begin_capabilities))]
fn begin_capabilities(state: State) -> Result<State, RuleFault>
    ensures { Gives same result (begin_capabilities state) }
{
    let State {
        rules,
        draft,
        depth,
        place: _,
    } = state;
    let Some(draft) = draft else {
        drop(rules);
        return Err(RuleFault::Value);
    };
    if draft.has_capabilities {
        return refused_in_rule(rules, draft, RuleFault::Value);
    }
    Ok(State {
        rules,
        draft: Some(OpenRule {
            has_capabilities: true,
            ..draft
        }),
        depth,
        place: Place::Before(ItemRole::Capabilities, 1),
    })
}

/// Adds one capability of the list that is open.
#[tactic(auto, unfolding(crate::specs::Grammar::add_capability))]
fn add_capability(state: State, word: &[u8]) -> Result<State, RuleFault>
    ensures { Gives same result (add_capability state word.now) }
{
    let State {
        rules,
        draft,
        depth,
        place: _,
    } = state;
    let Some(draft) = draft else {
        drop(rules);
        return Err(RuleFault::Value);
    };
    match with_capability(draft.kind, draft.grants, word) {
        Ok(grants) => Ok(State {
            rules,
            draft: Some(OpenRule { grants, ..draft }),
            depth,
            place: Place::After(ItemRole::Capabilities, 1),
        }),
        Err(fault) => refused_in_rule(rules, draft, fault),
    }
}

fn move_to(state: State, place: Place) -> State
    ensures { result ≡ at state place }
{
    State { place, ..state }
}

#[tactic(auto, unfolding(crate::specs::Grammar::step_value))]
fn step_value(state: State, role: ItemRole, token: RulesToken<'_>) -> Result<State, RuleFault>
    ensures { Gives same result (step_value state role (seen token.entry)) }
{
    match (token, role) {
        (RulesToken::Text(word), ItemRole::Policy) => set_policy(state, word),
        (RulesToken::BeginList, ItemRole::Capabilities) => begin_capabilities(state),
        (
            RulesToken::Text(_) | RulesToken::Number | RulesToken::BeginList,
            ItemRole::Policy | ItemRole::Capabilities,
        ) => { refused(state, RuleFault::Value) }
        (RulesToken::Text(_) | RulesToken::Number, _) => Ok(move_to(state, Place::Item)),
        (RulesToken::BeginList, _) => Ok(move_to(state, Place::Before(role, 1))),
        (RulesToken::Word(word), ItemRole::Policy | ItemRole::Capabilities) if is_flag(word) => {
            refused(state, RuleFault::Value)
        }
        (RulesToken::Word(word), _) if is_flag(word) => Ok(move_to(state, Place::Item)),
        _ => refused(state, RuleFault::Syntax),
    }
}

/// Closes the innermost of `lists` open lists.
fn close_list(state: State, role: ItemRole, lists: u64) -> State
    ensures { result ≡ close_list state role lists }
{
    if lists > 1 {
        move_to(state, Place::After(role, lists - 1))
    } else {
        move_to(state, Place::Item)
    }
}

#[tactic(auto, unfolding(crate::specs::Grammar::step_before))]
fn step_before(
    state: State,
    role: ItemRole,
    lists: u64,
    token: RulesToken<'_>,
) -> Result<State, RuleFault>
    ensures { Gives same result (step_before state role lists (seen token.entry)) }
{
    match (token, role) {
        (RulesToken::EndList, _) => Ok(close_list(state, role, lists)),
        (RulesToken::Text(word), ItemRole::Capabilities) => add_capability(state, word),
        (RulesToken::Number | RulesToken::BeginList, ItemRole::Capabilities) => refused(
            state,
            RuleFault::Value,
        ),
        (RulesToken::Text(_) | RulesToken::Number, _) => Ok(move_to(
            state,
            Place::After(role, lists),
        )),
        (RulesToken::BeginList, _) => match lists.checked_add(1) {
            Some(lists) => Ok(move_to(state, Place::Before(role, lists))),
            None => refused(state, RuleFault::Syntax),
        },
        (RulesToken::Word(word), ItemRole::Capabilities) if is_flag(word) => {
            refused(state, RuleFault::Value)
        }
        (RulesToken::Word(word), _) if is_flag(word) => Ok(move_to(
            state,
            Place::After(role, lists),
        )),
        _ => refused(state, RuleFault::Syntax),
    }
}

#[tactic(auto, unfolding(crate::specs::Grammar::step_after))]
fn step_after(
    state: State,
    role: ItemRole,
    lists: u64,
    token: RulesToken<'_>,
) -> Result<State, RuleFault>
    ensures { Gives same result (step_after state role lists (seen token.entry)) }
{
    match token {
        RulesToken::Comma => Ok(move_to(state, Place::Before(role, lists))),
        RulesToken::EndList => Ok(close_list(state, role, lists)),
        _ => refused(state, RuleFault::Syntax),
    }
}

#[tactic(auto, unfolding(crate::specs::Grammar::step))]
fn step(alloc: Global, state: State, token: RulesToken<'_>) -> Result<State, RuleFault>
    ensures { Gives same result (step state (seen token.entry)) }
{
    match state.place {
        Place::Item => step_item(state, token),
        Place::Name(role) => step_name(alloc, state, role, token),
        Place::Label(role) => step_label(state, role, token),
        Place::Value(role) => step_value(state, role, token),
        Place::Before(role, lists) => step_before(state, role, lists, token),
        Place::After(role, lists) => step_after(state, role, lists, token),
    }
}

/// The rules, once the text has ended. It is a fault if an item is begun or a block is open.
#[tactic(auto, unfolding(crate::specs::Grammar::finish))]
fn finish(state: State) -> Result<Rows<Rule>, RuleFault>
    ensures { Gives same result (finish state) }
{
    if state.place == Place::Item && state.depth == 0 {
        let State {
            rules,
            draft,
            depth: _,
            place: _,
        } = state;
        drop(draft);
        Ok(rules)
    } else {
        drop(state);
        Err(RuleFault::Syntax)
    }
}

/// The first token of a text, and the text behind it.
#[tactic(auto, unfolding(crate::specs::Grammar::next))]
fn next(text: &[u8]) -> Result<(RulesToken<'_>, &[u8]), RuleFault>
    ensures { Gives (λ x. (seen x.0, x.1.now)) result (next text.now) }
{
    token_at(text).ok_or(RuleFault::Syntax)
}

/// The rules of a text of blocks, or the first fault.
#[tactic(auto, unfolding(crate::specs::Grammar::blocks))]
pub fn read_blocks(alloc: Global, text: &[u8]) -> Result<Rows<Rule>, RuleFault>
    ensures { Gives same result (blocks text.now) }
{
    finish(read_tokens(alloc, skip_blanks(text), text.len())?)
}

fn read_tokens(alloc: Global, text: &[u8], turns: usize) -> Result<State, RuleFault>
    ensures { Gives same result (read_on turns start text.now) }
{
    let mut state = State {
        rules: Rows::new(alloc),
        draft: None,
        depth: 0,
        place: Place::Item,
    };
    let mut rest = text;
    for _ in 0..turns {
        if rest.is_empty() {
            return Ok(state);
        }
        let (token, others) = next(rest)?;
        state = step(alloc, state, token)?;
        rest = skip_blanks(others);
    }
    if rest.is_empty() {
        Ok(state)
    } else {
        drop(state);
        Err(RuleFault::Syntax)
    }
}
