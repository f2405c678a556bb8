//! What a reader sees in an album before, during and after a run.

use crate::setup::TWO_EPOCHS;
use sand_lab::{Album, Gate, LabFault, Open, Role};
use sand_testing::piles::one_site;
use sand_testing::runs::{QUIET, run_into, seen, seen_anew};
use sand_testing::wish;
use std::sync::atomic::AtomicU64;
use std::sync::atomic::Ordering::SeqCst;
use std::test::Fail;
use std::thread::join;

#[test]
fn a_place_is_set_once(rt: HostRuntime) -> Result<(), Fail> {
    let start = one_site(rt.alloc(), 0)?;
    let wish = wish!(drops: 3);
    let album = Album::new(rt.alloc(), 1)?;
    let mut note = album.note(0);
    assert_eq!(rt; seen(&album, 0, &mut note), None);
    let first = run_into(&rt, rt.alloc(), &start, wish, &Open, &album);
    assert_eq!(rt; seen(&album, 0, &mut note), Some((0, 3)));
    let again = run_into(&rt, rt.alloc(), &start, QUIET, &Open, &album);
    assert!(rt; first.is_ok());
    assert!(rt; matches!(again, Err(LabFault::Taken)));
    assert_eq!(rt; seen(&album, 0, &mut note), Some((0, 3)));
    drop((first, again, note, album, start));
    Ok(())
}

// Two epochs of six drops: the first leaves a height of 2, the second a height of 0. Two threads see it, too.
#[test]
fn each_epoch_is_at_its_place(rt: HostRuntime) -> Result<(), Fail> {
    let start = one_site(rt.alloc(), 0)?;
    let album = &Album::new(rt.alloc(), 2)?;
    let mut report = run_into(&rt, rt.alloc(), &start, TWO_EPOCHS, &Open, album)?;
    let (mut first, mut second) = (report.note(0), report.note(1));
    assert_eq!(rt; seen(album, 0, &mut first), Some((0, 2)));
    assert_eq!(rt; seen(album, 1, &mut second), Some((1, 0)));
    let both = join(
        &rt,
        move || seen_anew(album, 0),
        move || seen_anew(album, 0),
    );
    assert_eq!(rt; both, (Some((0, 2)), Some((0, 2))));
    album.agree(0, &mut first, album.note(0));
    Ok(())
}

// Counts the places with a picture at each turn.
#[derive(Drop)]
struct Watch<'a> {
    album: &'a Album,
    pictures: AtomicU64,
}

impl Gate for Watch<'_> {
    fn turn(&self, _role: Role, _who: u32, _turn: u32) {
        for k in 0..self.album.places() {
            let is_set = seen_anew(self.album, k).is_some();
            self.pictures.fetch_add(u64::from(is_set), SeqCst);
        }
    }
}

// One drop in each of four epochs. Its turn sees the pictures of the earlier epochs: 0, 1, 2 and 3 of them.
#[test]
fn an_epoch_is_shown_before_the_next_one(rt: HostRuntime) -> Result<(), Fail> {
    let start = one_site(rt.alloc(), 0)?;
    let wish = wish!(drops: 1, epochs: 4);
    let album = Album::new(rt.alloc(), 4)?;
    let watch = Watch {
        album: &album,
        pictures: AtomicU64::new(0),
    };
    let ran = run_into(&rt, rt.alloc(), &start, wish, &watch, &album);
    assert!(rt; ran.is_ok());
    assert_eq!(rt; watch.pictures.load(SeqCst), 6);
    drop((ran, watch));
    drop((album, start));
    Ok(())
}
