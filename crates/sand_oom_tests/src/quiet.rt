//! Calls that allocate nothing: with every allocation refused they return what they always return, and none was
//! attempted.

ghost use Rattle.std.specs.Prelude.{◌≡◌, ◌<◌, [], length, IfOk};
ghost use Rattle.sand_model.specs.Grid.{sites};
ghost use Rattle.sand_shared.specs.Passes.{IsPassOf};
ghost use Rattle.sand_lab.specs.Reports.{sheet_at};

use crate::group::recurrent;
use crate::memory::{refuse, was_refused};
use crate::settling::{full_of_one_thread, is_after_the_drop};
use sand_desk::{DeskFault, read_pile, status, write_fault};
use sand_group::GroupFault;
use sand_lab::{Album, LabFault, Open, Report, Wish};
use sand_model::{Edge, GRAIN_LIMIT, Pile, PileFault, Shape, ToppleFault, topple};
use sand_settle::{OneFault, OnePile, SettleFault, settle};
use sand_shared::{BarePass, CloseFault, JoinFault, SharedFault, SharedPile, SplitFault};
use sand_testing::pile_with_passes::Call::{
    DropAll, DropAt, Holds, IntoBare, IsWhole, Sweep, Tally, Toppled,
};
use sand_testing::pile_with_passes::Returned::{Done, Fault, Has, Is, Number};
use sand_testing::pile_with_passes::{PileWithPasses, Start, is_there};
use sand_testing::piles::{one_site, open_pile};
use sand_testing::records::{dropped_on_a_site, is_record, is_settled};
use sand_testing::runs::{run_into, seen_anew};
use sand_testing::wish;
use std::alloc::{AllocError, Global};
use std::test::Fail;

// `quiet!(rt, IS_RIGHT, ..)`: these hold with every allocation refused, and none was attempted.
macro_rules! quiet {
    ($rt:ident, $($is_right:expr),+) => {
        refuse($rt.alloc(), 0);
        $(assert!($rt; $is_right);)+
        assert!($rt; !was_refused($rt.alloc()));
    };
}

// Whether a site of four grains topples once, then takes a grain.
fn topples_once(pile: &mut Pile) -> bool
    requires { 0 < sites pile.old.grid }
{
    let is_toppled = topple(pile, 0).is_ok_and(|lost| lost == 3);
    let is_refused = topple(pile, 0).is_err_and(|fault| fault.number() == 5);
    is_toppled && is_refused && pile.add_grain(0).is_ok()
}

#[test]
fn piles_take_no_memory(rt: HostRuntime) -> Result<(), Fail> {
    let alloc = rt.alloc();
    let shape = Shape::new(2, 1)?;
    let heights = Vec::from_slice(alloc, &[4, 0])?;
    assert!(rt; heights.as_slice() == [4, 0].as_slice() && shape.grain_limit() >= 4);
    refuse(alloc, 0);
    let mut pile = Pile::from_vec(shape, heights);
    let actual = (pile.height(0), pile.grains(), pile.is_stable());
    assert!(rt; pile.shape() == shape && actual == (4, 4, false));
    assert!(rt; topples_once(&mut pile));
    assert!(rt; pile.heights() == [1, 1].as_slice());
    assert!(rt; !was_refused(alloc));
    drop(pile);
    Ok(())
}

#[test]
fn a_pile_at_the_limit_takes_no_memory(rt: HostRuntime) -> Result<(), Fail> {
    let mut pile = one_site(rt.alloc(), GRAIN_LIMIT)?;
    assert!(rt; 0 < pile.shape().sites());
    quiet!(
        rt,
        pile.add_grain(0).is_err_and(|fault| fault.number() == 3)
    );
    drop(pile);
    Ok(())
}

// Three sites; the middle one has toppled.
#[test]
fn settled_piles_take_no_memory(rt: HostRuntime) -> Result<(), Fail> {
    let settled = settle(rt.alloc(), &open_pile(rt.alloc(), 3, 1, &[0, 4, 0])?)?;
    assert!(rt; settled.pile().shape().sites() == 3);
    quiet!(
        rt,
        is_settled(&settled, &[1, 0, 1], &[0, 1, 0], 2),
        (settled.odometer(1), settled.topplings()) == (1, 1)
    );
    drop(settled);
    Ok(())
}

#[test]
fn piles_of_one_thread_take_no_memory(rt: HostRuntime) -> Result<(), Fail> {
    let mut one = full_of_one_thread(rt.alloc())?;
    assert!(rt; one.pile().shape().sites() == 9);
    assert!(rt; one.drop_at(rt.alloc(), 4).is_ok());
    quiet!(
        rt,
        is_after_the_drop(&one),
        (one.height(4), one.odometer(4)) == (0, 2)
    );
    drop(one);
    Ok(())
}

// Only the first drop allocates. Though nothing toppled, the room it made is enough for drops in which all sites
// topple.
#[test]
fn drops_after_the_first_take_no_memory(rt: HostRuntime) -> Result<(), Fail> {
    let alloc = rt.alloc();
    let mut one = OnePile::new(alloc, &open_pile(alloc, 2, 1, &[3, 2])?)?;
    assert!(rt; one.pile().shape().sites() == 2);
    assert!(rt; one.drop_at(alloc, 1).is_ok());
    quiet!(
        rt,
        one.drop_at(alloc, 0).is_ok(),
        one.topplings() == 2,
        one.drop_at(alloc, 1).is_ok(),
        one.pile().heights() == [1, 1].as_slice()
    );
    drop(one);
    Ok(())
}

#[test]
fn recurrent_piles_take_no_memory(rt: HostRuntime) -> Result<(), Fail> {
    let recurrent = recurrent(rt.alloc(), [3, 1])?;
    quiet!(rt, recurrent.pile().heights() == [3, 1].as_slice());
    drop(recurrent);
    Ok(())
}

#[test]
fn passes_take_no_memory(rt: HostRuntime) -> Result<(), Fail> {
    let calls = [
        (IsWhole(0), Is(true)),
        (DropAt(0, 1), Number(0)),
        (DropAll(0, &[1, 1, 1]), Fault(13)),
        (DropAll(0, &[0, 1]), Number(1)),
        (DropAt(0, 1), Fault(13)),
        (Tally(0), Number(3)),
        (Sweep(0), Number(2)),
        (Holds(0), Has(0, 3, 3, 0, 2)),
        (Toppled(0, 0), Number(1)),
        (Toppled(0, 1), Number(1)),
        (IsWhole(0), Is(true)),
        (IntoBare(0), Done),
    ];
    let pile = PileWithPasses::played(rt.alloc(), Start(Edge::Open, (1, 2), &[4, 4], 3), &[]);
    let pile = pile.ok_or("a shared pile")?;
    quiet!(rt, is_there(pile.play(rt.alloc(), &calls)));
    Ok(())
}

// Two sites of seven grains without drops, and a bare pass that has everything.
fn two_sites(alloc: Global) -> Result<(SharedPile, BarePass), Fail>
    ensures of_pile { IfOk result (λ r. IsPassOf r.0 r.1) }
    ensures no_drops { IfOk result (λ r. r.1.receipts ≡ []) }
{
    let (pile, pass) = SharedPile::new(alloc, &open_pile(alloc, 2, 1, &[7, 7])?, 0)?;
    Ok((pile, pass.into_bare().0))
}

#[test]
fn a_record_is_completed_without_memory(rt: HostRuntime) -> Result<(), Fail> {
    let (pile, mut pass) = two_sites(rt.alloc())?;
    let rest = pile.settle_rest(rt.alloc(), &mut pass)?;
    let history = Vec::new(rt.alloc());
    quiet!(
        rt,
        is_record(
            &pile.complete(pass, rest, history),
            &[],
            &[1, 1],
            &[2, 2],
            12
        )
    );
    Ok(())
}

#[test]
fn records_take_no_memory(rt: HostRuntime) -> Result<(), Fail> {
    let record = dropped_on_a_site(rt.alloc(), 3, 1)?;
    assert!(rt; record.start().shape().sites() == 1);
    quiet!(
        rt,
        record.start().heights() == [3].as_slice(),
        (record.odometer(0), record.lost()) == (1, 4),
        is_record(&record, &[0], &[0], &[1], 4)
    );
    drop(record);
    Ok(())
}

// One epoch with a dropper, a worker and an observer.
const ONE_EPOCH: Wish = wish!(drops: 3, sweeps: 1, observers: 1);

// Whether a report has one epoch of three drops, with the tallies of an observer and a worker that toppled nothing.
fn has_one_epoch(report: &Report) -> bool
    requires epoch { 0 < length report.now.sheets }
    requires observer { 0 < length (sheet_at report.now 0).tallies }
    requires worker { 0 < length (sheet_at report.now 0).swept }
{
    let epochs = report.records().len();
    let drops = (report.journal(0).len(), report.total().history().len());
    let others = (report.tallies(0, 0).len(), report.swept(0, 0));
    epochs == 1 && drops == (3, 3) && others == (16, 0)
}

#[test]
fn albums_and_reports_take_no_memory(rt: HostRuntime) -> Result<(), Fail> {
    let alloc = rt.alloc();
    let start = one_site(alloc, 0)?;
    let album = Album::new(alloc, 1)?;
    assert!(rt; album.places() == 1);
    let ran = run_into(&rt, alloc, &start, ONE_EPOCH, &Open, &album);
    drop(start);
    let mut report = ran.ok().expect(&rt, "a run");
    refuse(alloc, 0);
    assert!(rt; album.places() == 1);
    assert!(rt; seen_anew(&album, 0) == Some((0, 3)));
    assert!(rt; has_one_epoch(&report));
    let known = report.note(0);
    assert!(rt; !was_refused(alloc));
    drop((known, report, album));
    Ok(())
}

// The numbers of other faults are checked with the calls that return them.
#[test]
fn numbers_of_faults_take_no_memory(rt: HostRuntime) {
    quiet!(
        rt,
        PileFault::Length.number() == 2,
        PileFault::TooManyGrains.number() == 3,
        PileFault::Memory(AllocError).number() == 4,
        ToppleFault::TooLow.number() == 5,
        SettleFault::Memory(AllocError).number() == 4,
        OneFault::Full.number() == 6,
        OneFault::Memory(AllocError).number() == 4,
        GroupFault::Unstable.number() == 7,
        GroupFault::NotRecurrent.number() == 8,
        GroupFault::Shapes.number() == 9,
        GroupFault::Memory(AllocError).number() == 4,
        SharedFault::TooManyGrains.number() == 3,
        SplitFault::Rows.number() == 11,
        JoinFault::Apart.number() == 12,
        CloseFault::Missing.number() == 14,
        LabFault::Taken.number() == 17
    );
}

#[test]
fn faults_take_no_memory(rt: HostRuntime) -> Result<(), Fail> {
    let mut line: Vec<u8> = Vec::with_capacity(rt.alloc(), 64)?;
    let fault = DeskFault::Text(6);
    quiet!(
        rt,
        (fault.number(), status(&fault)) == (18, 1),
        write_fault(&fault, &mut line).is_ok()
    );
    assert!(rt; line.as_slice() == b"fault 18 Text at 6\n".as_slice());
    Ok(())
}

// A fault of the text is found before anything is allocated.
#[test]
fn texts_with_a_fault_take_no_memory(rt: HostRuntime) -> Result<(), Fail> {
    let alloc = rt.alloc();
    refuse(alloc, 0);
    for (text, number) in [
        ("2 1\n3 x", 18),
        ("1 1\n1099511627776", 19),
        ("0 1\n", 1),
        ("2 1\n3", 2),
        ("2 1\n1099511627775 1", 3),
    ] {
        let read = read_pile(alloc, text.as_bytes());
        assert!(rt; read.is_err_and(|fault| fault.number() == number), "{text}");
    }
    assert!(rt; !was_refused(alloc));
    Ok(())
}
