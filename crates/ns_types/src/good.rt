//! Commands whose names, members and lists are within the limits. Contracts see the command.

ghost use Rattle.std.specs.Prelude.{◌≡◌, IsTrue};
ghost use Rattle.ns_types.specs.Asking.Good.{IsGoodNodeCommand, is_good_admin, is_good_ask};

use crate::step::{AdminCommand, AskCommand, NodeCommand};
use std::marker::Model;

/// A request in one namespace, within the limits.
pub struct GoodAsk {
    command: AskCommand,
}

impl Drop for GoodAsk {
    fn drop(self) {
        let GoodAsk { command: _command } = self;
    }
}

impl Model for GoodAsk {
    ghost use Rattle.std.specs.Prelude.{IsTrue};
    ghost use Rattle.ns_types.specs.declared.step.AskCommand.{AskCommand};
    ghost use Rattle.ns_types.specs.Asking.Good.{is_good_ask};

    ghost Value = { AskCommand };

    ghost view = { λ c. c.command };

    ghost invariant = { λ c. IsTrue (is_good_ask c.command) };
}

impl GoodAsk {
    /// The command, which is within the limits.
    pub fn new(command: AskCommand) -> GoodAsk
        requires { IsTrue (is_good_ask command) }
        ensures { result ≡ command }
    {
        GoodAsk { command }
    }

    /// The command, for reading.
    pub fn get(&self) -> &AskCommand
        ensures same { result.now ≡ self.now }
        ensures good { IsTrue (is_good_ask self.now) }
    {
        &self.command
    }
}

/// A request of an administrator, within the limits.
pub struct GoodAdmin {
    command: AdminCommand,
}

impl Drop for GoodAdmin {
    fn drop(self) {
        let GoodAdmin { command: _command } = self;
    }
}

impl Model for GoodAdmin {
    ghost use Rattle.std.specs.Prelude.{IsTrue};
    ghost use Rattle.ns_types.specs.declared.step.AdminCommand.{AdminCommand};
    ghost use Rattle.ns_types.specs.Asking.Good.{is_good_admin};

    ghost Value = { AdminCommand };

    ghost view = { λ c. c.command };

    ghost invariant = { λ c. IsTrue (is_good_admin c.command) };
}

impl GoodAdmin {
    /// The command, which is within the limits.
    pub fn new(command: AdminCommand) -> GoodAdmin
        requires { IsTrue (is_good_admin command) }
        ensures { result ≡ command }
    {
        GoodAdmin { command }
    }

    /// The command, for reading.
    pub fn get(&self) -> &AdminCommand
        ensures same { result.now ≡ self.now }
        ensures good { IsTrue (is_good_admin self.now) }
    {
        &self.command
    }
}

/// A request about one pool and its nodes, within the limits.
pub struct GoodNodeCommand {
    command: NodeCommand,
}

impl Drop for GoodNodeCommand {
    fn drop(self) {
        let GoodNodeCommand { command: _command } = self;
    }
}

impl Model for GoodNodeCommand {
    ghost use Rattle.ns_types.specs.declared.step.NodeCommand.{NodeCommand};
    ghost use Rattle.ns_types.specs.Asking.Good.{IsGoodNodeCommand};

    ghost Value = { NodeCommand };

    ghost view = { λ c. c.command };

    ghost invariant = { λ c. IsGoodNodeCommand c.command };
}

impl GoodNodeCommand {
    /// The command, which is within the limits.
    pub fn new(command: NodeCommand) -> GoodNodeCommand
        requires { IsGoodNodeCommand command }
        ensures { result ≡ command }
    {
        GoodNodeCommand { command }
    }

    /// The command, for reading.
    pub fn get(&self) -> &NodeCommand
        ensures same { result.now ≡ self.now }
        ensures good { IsGoodNodeCommand self.now }
    {
        &self.command
    }
}
