//! An album: a place for the picture of each epoch, set once, and notes by which readers agree on what they saw.
//!
//! A look at a place finds no picture, or the only one that it will ever hold. A note records what its holder has seen
//! of a place: once it knows a picture, every look with it finds that one. Any two notes of a place that know a picture
//! know the same one.

ghost use Rattle.std.specs.Prelude.{◌≡◌, ℕ, ◌+◌, ◌<◌, ◌^◌, ◌⊎◌, List, length, vec_len, IfOk, IfErr, IfSome, IsOkUnless, MatchOption, alloc_error};
ghost use Rattle.std.specs.declared.option.Option.TheVariants.{None, Some};
ghost use Rattle.once_cell.specs.Once.{Agrees};
ghost use Rattle.sand_lab.specs.Albums.{IsPlace, PictureView};

use crate::faults::LabFault;
use once_cell::race::OnceBox;
use sand_shared::Record;
use std::alloc::{AllocError, Global};
use std::marker::Model;

/// The result of a closed epoch.
#[derive(Debug, Drop)]
pub struct Picture {
    epoch: u32,
    closed: Record,
}

impl Model for Picture {
    ghost use Rattle.sand_lab.specs.Albums.{PictureView};

    ghost Value = { PictureView };

    ghost view = { λ p. record { epoch = p.epoch; closed = p.closed } };
}

impl Picture {
    pub(crate) fn new(epoch: u32, closed: Record) -> Picture
        ensures { result ≡ record { epoch = epoch; closed = closed } }
    {
        Picture { epoch, closed }
    }

    pub fn epoch(&self) -> u32
        ensures { result ≡ self.now.epoch }
    {
        self.epoch
    }

    /// The record of the epoch.
    pub fn closed(&self) -> &Record
        ensures { result.now ≡ self.now.closed }
    {
        &self.closed
    }
}

/// What its holder has seen of one place of an album. It allocates nothing.
pub type Note = once_cell::race::Note<Picture>;

/// A place for the picture of each epoch. Contracts see the names of the places.
#[derive(Drop)]
pub struct Album {
    places: Vec<OnceBox<Picture>>,
}

impl Model for Album {
    ghost use Rattle.std.specs.Prelude.{ℕ, List, ◌<◌, ◌^◌, vec_len};
    ghost use Rattle.sand_lab.specs.Albums.{names_of};

    ghost Value = { List ℕ };

    ghost view = { λ a. names_of a.places.items };

    ghost invariant = { λ a. vec_len a.places < 2 ^ 32 };
}

impl Album {
    /// An album with an empty place for each epoch. The only error is Memory.
    pub fn new(alloc: Global, epochs: u32) -> Result<Album, LabFault>
        ensures places { IfOk result (λ a. length a ≡ epochs) }
        ensures memory { IsOkUnless result (LabFault.Memory alloc_error) }
    {
        let mut places = Vec::with_capacity(alloc, epochs as usize)?;
        for _ in 0..epochs {
            places.push_reserved(OnceBox::new(alloc));
        }
        Ok(Album { places })
    }

    /// The number of places.
    pub fn places(&self) -> u32
        ensures { result ≡ length self.now }
    {
        self.places.len() as u32
    }

    /// A note of place `k` that knows nothing yet.
    pub fn note(&self, k: u32) -> Note
        requires { k < length self.now }
        ensures place { IsPlace self.now k result.cell }
        ensures nothing { result.known ≡ None }
    {
        self.places[k as usize].note()
    }

    /// The picture at place `k`, if there is one. A note that knows a picture finds that one; a note that finds one
    /// knows it from then on.
    pub fn look<'a>(&'a self, k: u32, note: &mut Note) -> Option<&'a Picture>
        requires { IsPlace self.now k note.old.cell }
        ensures place { note.new.cell ≡ note.old.cell }
        ensures picture { MatchOption result
            ((note.old.known ≡ None) × (note.new.known ≡ None))
            (λ r. (note.new.known ≡ Some r.now) × Agrees note.old.known r.now) }
    {
        self.places[k as usize].get_as(note)
    }

    /// For the proof: two notes of place `k` that know a picture know the same one.
    pub fn agree(&self, k: u32, note: &mut Note, other: Note)
        requires place { IsPlace self.now k note.old.cell }
        requires other { IsPlace self.now k other.cell }
        ensures same { note.new ≡ note.old }
        ensures agree { IfSome other.known (Agrees note.old.known) }
    {
        note.compare(other);
    }

    /// Sets place `k`, and returns a note that knows the picture. Returns Memory if an allocation fails, and Taken if
    /// the place was already set.
    pub(crate) fn publish(&self, alloc: Global, k: u32, picture: Picture) -> Result<Note, LabFault>
        requires { k < length self.now }
        ensures place { IfOk result (λ n. IsPlace self.now k n.cell) }
        ensures shown { IfOk result (λ n. n.known ≡ Some picture) }
        ensures refusals { IfErr result (λ e. (e ≡ LabFault.Taken) ⊎ (e ≡ LabFault.Memory alloc_error)) }
    {
        let picture = match Box::new(alloc, picture) {
            Ok(picture) => picture,
            Err(refused) => return Err(AllocError::from(refused).into()),
        };
        let place = &self.places[k as usize];
        let mut note = place.note();
        match place.set_as(picture, &mut note) {
            Ok(()) => Ok(note),
            Err(_) => Err(LabFault::Taken),
        }
    }
}
