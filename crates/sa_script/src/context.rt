use crate::names::Names;
use sa_base::Sequence;
use sa_call::{ArrayDecl, TaskList};
use sa_descr::Descr;

/// What the lines so far declared and call.
#[derive(Drop)]
pub struct Context {
    /// The version of the script: 1, or 2 where its first statement says so.
    pub version: u8,
    /// Whether there was a statement.
    pub begun: bool,
    /// The descriptors, in order of declaration.
    pub descrs: Sequence<Descr>,
    /// The arrays, in order of declaration.
    pub arrays: Sequence<ArrayDecl>,
    /// Their names.
    pub names: Names,
    /// The calls of each task.
    pub tasks: TaskList,
    /// How many calls there are.
    pub calls: u32,
    /// Whether the script has ended.
    pub ended: bool,
}
