ghost use Rattle.std.specs.Prelude.{◌≡◌};
ghost use Rattle.sa_script.specs.Sound.{IsSound, IsVersion};

use crate::names::Names;
use sa_call::{Decls, TaskList};
use std::marker::Model;

/// A script: what it declares, the names, and its tasks' calls. The limits hold, names and texts are
/// such, and each call is valid under the declarations.
#[derive(Drop)]
pub struct Script {
    version: u8,
    decls: Decls,
    names: Names,
    tasks: TaskList,
}

impl Model for Script {
    ghost use Rattle.sa_script.specs.Scripts.{ScriptValue};
    ghost use Rattle.sa_script.specs.Sound.{IsSound, IsVersion};

    ghost Value = { ScriptValue };

    ghost view = { λ s. record { version = s.version; decls = s.decls; names = s.names; tasks = s.tasks } };

    ghost invariant = { λ s. IsVersion s.version × IsSound s.decls s.names s.tasks };
}

impl Script {
    /// The script of this version, these declarations, names and calls. It takes no memory.
    pub(crate) fn new(version: u8, decls: Decls, names: Names, tasks: TaskList) -> Script
        requires version { IsVersion version }
        requires sound { IsSound decls names tasks }
        ensures { result ≡ record { version = version; decls = decls; names = names; tasks = tasks } }
    {
        Script {
            version,
            decls,
            names,
            tasks,
        }
    }

    /// The version of the language: 1 or 2.
    pub fn version(&self) -> u8
        ensures version { result ≡ self.now.version }
        ensures versions { IsVersion self.now.version }
    {
        self.version
    }

    /// The descriptors and arrays.
    pub fn decls(&self) -> &Decls
        ensures { result.now ≡ self.now.decls }
    {
        &self.decls
    }

    /// The names of descriptors and arrays.
    pub fn names(&self) -> &Names
        ensures { result.now ≡ self.now.names }
    {
        &self.names
    }

    /// The calls of each task. Of the whole script it says what each keeps: declarations, tasks and
    /// calls are within the limits; a name is spelled as one, is short enough, and no other is the
    /// same; the text of a rule is a text; a call is valid under the declarations, and a literal list
    /// has at least one item and only texts and missing values.
    pub fn tasks(&self) -> &TaskList
        ensures tasks { result.now ≡ self.now.tasks }
        ensures sound { IsSound self.now.decls self.now.names self.now.tasks }
    {
        &self.tasks
    }
}
