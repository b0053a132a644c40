//! Resource rows: the engine's memory of what it asked for.
ghost use Rattle.std.specs.Prelude.{◌≡◌, ◌↔◌, IsTrue, IfOk};

use heat_plan::{
    Act, EngineNo, Equals, Facts, Kind, Policy, Properties, ResName, RowNo, Seq, StackName, Status,
    TravNo, TryCopy, copy_option,
};
use std::alloc::AllocError;

/// One resource under one number: what was last done to it and how far that is, its properties and
/// those that it is to get, its facts once it is ready, the rows that it requires, the rows before and
/// behind it in a chain of replacement, and the engine whose job has it. `key` counts its locks and
/// unlocks and stays below 2^62.
#[derive(Debug)]
pub struct Row {
    /// Its number, drawn once and never again.
    pub no: RowNo,
    /// The stack that it belongs to.
    pub stack: StackName,
    /// The resource of the template that it stands for.
    pub name: ResName,
    /// The kind of the resource.
    pub kind: Kind,
    /// What was last begun at it.
    pub act: Act,
    /// How far that is.
    pub status: Status,
    /// The traversal that last began something at it.
    pub trav: TravNo,
    /// The properties that it has, or that its create asks for.
    pub props: Properties,
    /// The properties that an update asks for, until it is done.
    pub target: Option<Properties>,
    /// What the cloud told when it was ready.
    pub facts: Option<Facts>,
    /// The rows whose facts it was given.
    pub requires_: Seq<RowNo>,
    /// The row before it in its chain of replacement.
    pub replaces: Option<RowNo>,
    /// The row behind it in that chain.
    pub replaced_by: Option<RowNo>,
    /// The engine whose job has it; none where it is free.
    pub engine: Option<EngineNo>,
    /// How often it was locked and unlocked; below 2^62.
    pub key: u64,
    /// What is done where its resource is to go: deleted, or kept and released.
    pub policy: Policy,
}

impl Drop for Row {
    fn drop(self) {
        let Row {
            no: _,
            stack: _,
            name: _,
            kind: _,
            act: _,
            status: _,
            trav: _,
            props: _,
            target: _,
            facts: _,
            requires_: _,
            replaces: _,
            replaced_by: _,
            engine: _,
            key: _,
            policy: _,
        } = self;
    }
}

impl TryCopy for Row {
    fn copy(&self) -> Result<Row, AllocError> {
        let (stack, name, kind) = names_of(self)?;
        let (props, target, facts) = contents_of(self)?;
        let required = Vec::from_slice(self.requires_.allocator(), self.requires_.as_slice())?;
        Ok(Row {
            no: self.no,
            stack,
            name,
            kind,
            act: self.act,
            status: self.status,
            trav: self.trav,
            props,
            target,
            facts,
            requires_: Seq::from_vec(required),
            replaces: self.replaces,
            replaced_by: self.replaced_by,
            engine: self.engine,
            key: self.key,
            policy: self.policy,
        })
    }
}

// Copies of the row's stack, name and kind.
fn names_of(row: &Row) -> Result<(StackName, ResName, Kind), AllocError>
    ensures { IfOk result (λ names. names ≡ (row.now.stack, row.now.name, row.now.kind)) }
{
    Ok((row.stack.copy()?, row.name.copy()?, row.kind.copy()?))
}

// Copies of the row's properties, target and facts.
fn contents_of(row: &Row) -> Result<(Properties, Option<Properties>, Option<Facts>), AllocError>
    ensures { IfOk result (λ contents. contents ≡ (row.now.props, row.now.target, row.now.facts)) }
{
    Ok((
        row.props.copy()?,
        copy_option(&row.target)?,
        copy_option(&row.facts)?,
    ))
}

impl Equals for Row {
    fn equals(&self, other: &Row) -> bool {
        self.no == other.no
            && has_same_names(self, other)
            && self.act == other.act
            && self.status == other.status
            && self.trav == other.trav
            && has_same_contents(self, other)
            && has_same_ties(self, other)
            && self.engine == other.engine
            && self.key == other.key
            && self.policy == other.policy
    }
}

// Whether two rows have the same stack, name and kind.
fn has_same_names(row: &Row, other: &Row) -> bool
    ensures { IsTrue result
        ↔ (row.now.stack ≡ other.now.stack) × (row.now.name ≡ other.now.name)
        × (row.now.kind ≡ other.now.kind) }
{
    row.stack.equals(&other.stack) && row.name.equals(&other.name) && row.kind.equals(&other.kind)
}

// Whether two rows have the same properties, target and facts.
fn has_same_contents(row: &Row, other: &Row) -> bool
    ensures { IsTrue result
        ↔ (row.now.props ≡ other.now.props) × (row.now.target ≡ other.now.target)
        × (row.now.facts ≡ other.now.facts) }
{
    row.props.equals(&other.props)
        && row.target.equals(&other.target)
        && row.facts.equals(&other.facts)
}

// Whether two rows require the same rows, and stand between the same in a chain of replacement.
fn has_same_ties(row: &Row, other: &Row) -> bool
    ensures { IsTrue result
        ↔ (row.now.requires_ ≡ other.now.requires_) × (row.now.replaces ≡ other.now.replaces)
        × (row.now.replaced_by ≡ other.now.replaced_by) }
{
    row.requires_.equals(&other.requires_)
        && row.replaces == other.replaces
        && row.replaced_by == other.replaced_by
}
