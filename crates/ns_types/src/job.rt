//! Jobs, as they are registered and as they are kept.

ghost use Rattle.std.specs.Prelude.{◌≡◌};

use crate::rows::Rows;
use crate::shared::Shared;
use crate::text::Text;
use std::alloc::AllocError;

#[derive(Clone, Copy, PartialEq, Eq)]
pub enum JobKind {
    Service,
    Batch,
}

/// What a task asks for. The disk is its group's.
#[derive(Clone, Copy, PartialEq, Eq)]
pub struct TaskResources {
    /// MHz.
    pub cpu: u64,
    /// MB.
    pub memory: u64,
}

#[derive(Drop)]
pub struct Task {
    pub name: Text,
    pub resources: TaskResources,
}

impl Clone for Task {
    ghost is_clone = { λ a b. b ≡ a };

    fn clone(&self) -> Result<Task, AllocError> {
        Ok(Task {
            name: self.name.clone()?,
            resources: self.resources,
        })
    }
}

pub struct Group {
    pub name: Text,
    pub count: u64,
    /// MB, which an allocation takes once, however many tasks it has.
    pub disk: u64,
    pub tasks: Rows<Task>,
}

impl Drop for Group {
    fn drop(self) {
        let Group {
            name: _name,
            count: _,
            disk: _,
            tasks: _tasks,
        } = self;
    }
}

impl Clone for Group {
    ghost is_clone = { λ a b. b ≡ a };

    fn clone(&self) -> Result<Group, AllocError> {
        Ok(Group {
            name: self.name.clone()?,
            count: self.count,
            disk: self.disk,
            tasks: self.tasks.clone()?,
        })
    }
}

#[derive(Clone, Copy, PartialEq, Eq)]
pub enum Operand {
    Equal,
    NotEqual,
}

/// What a constraint looks at on a node.
#[derive(Drop)]
pub enum Target {
    NodeClass,
    NodeName,
    Attribute(Text),
}

impl Clone for Target {
    ghost is_clone = { λ a b. b ≡ a };

    fn clone(&self) -> Result<Target, AllocError> {
        match self {
            Target::NodeClass => Ok(Target::NodeClass),
            Target::NodeName => Ok(Target::NodeName),
            Target::Attribute(key) => Ok(Target::Attribute(key.clone()?)),
        }
    }
}

pub struct Constraint {
    pub target: Target,
    pub operand: Operand,
    pub value: Text,
}

impl Drop for Constraint {
    fn drop(self) {
        let Constraint {
            target: _target,
            operand: _operand,
            value: _value,
        } = self;
    }
}

impl Clone for Constraint {
    ghost is_clone = { λ a b. b ≡ a };

    fn clone(&self) -> Result<Constraint, AllocError> {
        Ok(Constraint {
            target: self.target.clone()?,
            operand: self.operand,
            value: self.value.clone()?,
        })
    }
}

/// What a registration says of a job, with its pool filled in.
pub struct Document {
    pub kind: JobKind,
    pub priority: u64,
    pub pool: Text,
    pub constraints: Rows<Constraint>,
    pub groups: Rows<Group>,
}

impl Drop for Document {
    fn drop(self) {
        let Document {
            kind: _,
            priority: _,
            pool: _pool,
            constraints: _constraints,
            groups: _groups,
        } = self;
    }
}

impl Clone for Document {
    ghost is_clone = { λ a b. b ≡ a };

    fn clone(&self) -> Result<Document, AllocError> {
        Ok(Document {
            kind: self.kind,
            priority: self.priority,
            pool: self.pool.clone()?,
            constraints: self.constraints.clone()?,
            groups: self.groups.clone()?,
        })
    }
}

/// A row of a namespace, by the job's id. Copies of the row share its document.
pub struct Job {
    pub document: Shared<Document>,
    pub stop: bool,
    pub version: u64,
    pub create_index: u64,
    pub modify_index: u64,
}

impl Drop for Job {
    fn drop(self) {
        let Job {
            document: _document,
            stop: _,
            version: _,
            create_index: _,
            modify_index: _,
        } = self;
    }
}

impl Clone for Job {
    ghost is_clone = { λ a b. b ≡ a };

    fn clone(&self) -> Result<Job, AllocError> {
        Ok(Job {
            document: self.document.share()?,
            stop: self.stop,
            version: self.version,
            create_index: self.create_index,
            modify_index: self.modify_index,
        })
    }
}

/// A registration as it is requested. Without a pool, the job gets the namespace's default pool.
pub struct Registration {
    pub id: Text,
    pub kind: JobKind,
    pub priority: u64,
    pub pool: Option<Text>,
    pub constraints: Rows<Constraint>,
    pub groups: Rows<Group>,
    /// The modify index that the job must have, if one is demanded. 0: there must be no such job.
    pub enforced: Option<u64>,
}

impl Drop for Registration {
    fn drop(self) {
        let Registration {
            id: _id,
            kind: _,
            priority: _,
            pool: _pool,
            constraints: _constraints,
            groups: _groups,
            enforced: _enforced,
        } = self;
    }
}
