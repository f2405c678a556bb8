//! The history of a record: the site of each drop by number, in a list of its own or in one that copies share.
//!
//! A history has an entry for each drop of a run, so a record is made to share its history before it is copied: the
//! copy then takes no time and no memory for it. Only a record that grows needs its own list.

ghost use Rattle.std.specs.Prelude.{◌≡◌, ◌++◌, IfOk, OnOk, OnErr};

use std::alloc::{AllocError, Global};
use std::marker::Model;
use std::sync::ArcSlice;

#[derive(Debug, Drop)]
enum Sites {
    Own(Vec<usize>),
    Shared(ArcSlice<usize>),
}

#[derive(Debug, Drop)]
pub(crate) struct History {
    sites: Sites,
}

impl Model for History {
    ghost use Rattle.std.specs.Prelude.{List, ℕ};
    ghost use Rattle.sand_shared.specs.Listed.{listed};

    ghost Value = { List ℕ };

    ghost view = { λ h. listed h.sites };
}

// A copy of a list, with room for `more` further entries.
fn list_with_room(alloc: Global, list: &[usize], more: usize) -> Result<Vec<usize>, AllocError>
    ensures { IfOk result (λ v. v.items ≡ list.now) }
{
    let mut copy = Vec::with_capacity(alloc, list.len().saturating_add(more))?;
    copy.extend_from_slice(list)?;
    Ok(copy)
}

impl History {
    pub(crate) fn of(sites: Vec<usize>) -> History
        ensures { result ≡ sites.items }
    {
        History {
            sites: Sites::Own(sites),
        }
    }

    pub(crate) fn as_slice(&self) -> &[usize]
        ensures { result.now ≡ self.now }
    {
        match &self.sites {
            Sites::Own(sites) => sites.as_slice(),
            Sites::Shared(sites) => sites.as_slice(),
        }
    }

    /// The same history, in a list that its copies share.
    pub(crate) fn share(self) -> Result<History, AllocError>
        ensures { IfOk result (λ h. h ≡ self) }
    {
        let sites = match self.sites {
            Sites::Own(sites) => ArcSlice::from_vec(sites)?,
            Sites::Shared(sites) => sites,
        };
        Ok(History {
            sites: Sites::Shared(sites),
        })
    }

    /// A copy. Copies of a shared history share its list.
    pub(crate) fn copy(&self, alloc: Global) -> Result<History, AllocError>
        ensures { IfOk result (λ h. h ≡ self.now) }
    {
        match &self.sites {
            Sites::Own(sites) => Ok(History::of(Vec::from_slice(alloc, sites.as_slice())?)),
            Sites::Shared(sites) => Ok(History {
                sites: Sites::Shared(sites.clone()?),
            }),
        }
    }

    /// A copy with its own list, with room for `drops` more.
    pub(crate) fn copy_with_room(&self, alloc: Global, drops: usize) -> Result<History, AllocError>
        ensures { IfOk result (λ h. h ≡ self.now) }
    {
        let sites = list_with_room(alloc, self.as_slice(), drops)?;
        Ok(History::of(sites))
    }

    /// Appends the sites of the next history. Returns an error if an allocation fails; the history is then unchanged.
    pub(crate) fn append(&mut self, alloc: Global, next: &[usize]) -> Result<(), AllocError>
        ensures both { OnOk result (self.new ≡ self.old ++ next.now) }
        ensures unchanged { OnErr result (self.new ≡ self.old) }
    {
        match &mut self.sites {
            Sites::Own(sites) => sites.extend_from_slice(next),
            Sites::Shared(shared) => {
                let mut sites = list_with_room(alloc, shared.as_slice(), next.len())?;
                sites.extend_from_slice(next)?;
                self.sites = Sites::Own(sites);
                Ok(())
            }
        }
    }
}
