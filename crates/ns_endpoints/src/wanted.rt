//! Steps that still lack their bearer, or what is drawn for them.

ghost use Rattle.std.specs.Prelude.{◌≡◌, [], None, IsTrue};
ghost use Rattle.ns_types.specs.declared.name.NameKind.TheVariants as NameKind;
ghost use Rattle.ns_types.specs.declared.step.AdminCommand.TheVariants as AdminCommand;
ghost use Rattle.ns_types.specs.Asking.Good.{IsGoodNodeCommand, is_good_admin, is_good_ask};
ghost use Rattle.ns_types.specs.State.Limits.{is_good_token};
ghost use Rattle.ns_types.specs.State.Name.{is_name};
ghost use Rattle.ns_documents.specs.Access.{with_accessor};
ghost use Rattle.ns_endpoints.specs.Asking.{new_token};
ghost use Rattle.ns_endpoints.specs.Drawing.{with_texts};
ghost use Rattle.ns_endpoints.specs.declared.wanted.Wanted.TheVariants as Wanted;

use ns_documents::TokenDocument;
use ns_types::good::{GoodAdmin, GoodAsk, GoodNodeCommand};
use ns_types::step::{AdminCommand, AskCommand, NewToken, NodeCommand, Step};
use ns_types::text::Text;
use std::marker::Model;

/// A new token within the limits, before its two texts are drawn. Contracts see its document.
pub struct GoodToken {
    document: TokenDocument,
}

impl Drop for GoodToken {
    fn drop(self) {
        let GoodToken {
            document: _document,
        } = self;
    }
}

impl Model for GoodToken {
    ghost use Rattle.std.specs.Prelude.{[], IsTrue};
    ghost use Rattle.ns_types.specs.State.Limits.{is_good_token};
    ghost use Rattle.ns_documents.specs.declared.token.TokenDocument.{TokenDocument};
    ghost use Rattle.ns_documents.specs.Access.{with_accessor};

    ghost Value = { TokenDocument };

    ghost view = { λ t. t.document };

    ghost invariant = { λ t. IsTrue (is_good_token (with_accessor [] t.document)) };
}

impl GoodToken {
    /// A new token, by its document.
    pub fn new(document: TokenDocument) -> GoodToken
        requires { IsTrue (is_good_token (with_accessor [] document)) }
        ensures { result ≡ document }
    {
        GoodToken { document }
    }

    /// The command that creates the token with this accessor and this secret.
    pub fn with_texts(self, accessor: Text, secret: Text) -> GoodAdmin
        requires { IsTrue (is_name NameKind.Secret secret) }
        ensures { result ≡ AdminCommand.CreateToken (with_texts accessor secret (new_token self)) }
    {
        let GoodToken { document } = self;
        GoodAdmin::new(AdminCommand::CreateToken(NewToken {
            accessor,
            secret,
            name: document.name,
            kind: document.kind,
            policies: document.policies,
        }))
    }
}

/// What a request wants, before its bearer is known.
#[derive(Drop)]
pub enum Wanted {
    /// A command in the query's namespace, or else in the document's.
    Ask(Option<Text>, GoodAsk),
    /// A command in the namespace that the path names.
    AskIn(Text, GoodAsk),
    /// An administrator's command that makes no new token.
    Admin(GoodAdmin),
    Token(GoodToken),
    /// A command about the pool that the path names.
    Node(Text, GoodNodeCommand),
}

/// A command in the namespace of the query.
pub fn asks(command: AskCommand) -> Wanted
    requires { IsTrue (is_good_ask command) }
    ensures { result ≡ Wanted.Ask None command }
{
    Wanted::Ask(None, GoodAsk::new(command))
}

/// A command in the namespace that the path names.
pub fn asks_in(namespace: Text, command: AskCommand) -> Wanted
    requires { IsTrue (is_good_ask command) }
    ensures { result ≡ Wanted.AskIn namespace command }
{
    Wanted::AskIn(namespace, GoodAsk::new(command))
}

/// A command of an administrator.
pub fn administers(command: AdminCommand) -> Wanted
    requires { IsTrue (is_good_admin command) }
    ensures { result ≡ Wanted.Admin command }
{
    Wanted::Admin(GoodAdmin::new(command))
}

/// A command about the pool that the path names.
pub fn commands(pool: Text, command: NodeCommand) -> Wanted
    requires { IsGoodNodeCommand command }
    ensures { result ≡ Wanted.Node pool command }
{
    Wanted::Node(pool, GoodNodeCommand::new(command))
}

/// The secret of a request, and the namespace that its query names.
#[derive(Drop)]
pub struct Bearer {
    pub namespace: Option<Text>,
    pub secret: Option<Text>,
}

/// The step that a request asks for, before anything is drawn for it.
#[derive(Drop)]
pub enum Draft {
    /// A step for which nothing is drawn.
    Step(Step),
    /// A new token, requested with that secret.
    Token(Option<Text>, GoodToken),
}
