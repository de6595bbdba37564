//! The codes of a network: a copy of its own, or those by which a deck was looked up.
ghost use Rattle.std.specs.Prelude.{◌≡◌, IfOk};
ghost use Rattle.pc_model.specs.Codes.{IsNamedOnce};

use pc_names::Names;
use pc_text::Code;
use std::alloc::{AllocError, Global};
use std::marker::Model;

/// The codes of a project, its events and its activities, each in card order. An activity is found by its code.
#[derive(Drop)]
pub struct NetCodes<'n> {
    project: Code,
    lists: CodeLists<'n>,
}

/// The codes of events and activities, by their owner.
#[derive(Drop)]
pub(crate) enum CodeLists<'n> {
    Own {
        events: Vec<Code>,
        activities: Names,
    },
    Borrowed {
        events: &'n [Code],
        activities: &'n Names,
    },
}

impl<'n> Model for NetCodes<'n> {
    ghost use Rattle.pc_crash.specs.inside.NetCodes.{Codes, codes_from};

    ghost Value = { Codes };

    ghost view = { codes_from };
}

impl<'n> NetCodes<'n> {
    /// Copies these codes, and hashes those of the activities. [`NetCodes::of`] does neither.
    ///
    /// # Errors
    ///
    /// Returns `AllocError` if memory runs out.
    pub fn build(
        alloc: Global,
        project: Code,
        events: &[Code],
        activities: &[Code],
    ) -> Result<NetCodes<'n>, AllocError>
        requires { IsNamedOnce activities.now }
        ensures project { IfOk result (λ codes. codes.project ≡ project) }
        ensures events { IfOk result (λ codes. codes.events ≡ events.now) }
        ensures activities { IfOk result (λ codes. codes.activities ≡ activities.now) }
    {
        Ok(NetCodes {
            project,
            lists: CodeLists::Own {
                events: Vec::from_slice(alloc, events)?,
                activities: Names::build(alloc, activities)?,
            },
        })
    }

    /// Returns these codes, which are stored elsewhere. Allocates nothing.
    pub fn of(project: Code, events: &'n [Code], activities: &'n Names) -> NetCodes<'n>
        ensures project { result.project ≡ project }
        ensures events { result.events ≡ events.now }
        ensures activities { result.activities ≡ activities.now }
    {
        NetCodes {
            project,
            lists: CodeLists::Borrowed { events, activities },
        }
    }

    /// The code of the project.
    pub(crate) fn project(&self) -> Code
        ensures { result ≡ self.now.project }
    {
        self.project
    }

    /// The code of each event.
    pub(crate) fn events(&self) -> &[Code]
        ensures { result.now ≡ self.now.events }
    {
        match &self.lists {
            CodeLists::Own { events, .. } => events,
            CodeLists::Borrowed { events, .. } => events,
        }
    }

    /// The code of each activity, with the index that finds it.
    pub(crate) fn activities(&self) -> &Names
        ensures { result.now ≡ self.now.activities }
    {
        match &self.lists {
            CodeLists::Own { activities, .. } => activities,
            CodeLists::Borrowed { activities, .. } => activities,
        }
    }
}
