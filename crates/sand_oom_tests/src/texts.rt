//! Texts that are read, and texts that are written.

use crate::piles::full;
use crate::settling::MIDDLE;
use crate::trying::refused;
use sand_desk::{
    burn_text, pgm_text, pile_text, read_drops, read_pile, read_two, settle_text, table_text,
};
use sand_group::burn;
use sand_model::Edge;
use sand_settle::settle;
use sand_testing::piles::{open_pile, pile_on};
use std::test::Fail;

#[test]
fn readings_report_out_of_memory(rt: HostRuntime) -> Result<(), Fail> {
    refused!(rt, "read_pile", alloc => read_pile(alloc, b"3 1\n0 4 0\n"), pile =>
        pile.heights() == [0, 4, 0].as_slice())?;
    refused!(rt, "read_two", alloc => read_two(alloc, b"2 1\n3 1\n2 1\n3 3\n"), piles =>
        piles.0.heights() == [3, 1].as_slice() && piles.1.heights() == [3, 3].as_slice())?;
    refused!(rt, "read_drops", alloc => read_drops(alloc, b"2 1\n3 1\n1 0 1\n"), read =>
        read.0.heights() == [3, 1].as_slice() && read.1.as_slice() == [1, 0, 1].as_slice())
}

#[test]
fn texts_of_piles_report_out_of_memory(rt: HostRuntime) -> Result<(), Fail> {
    let pile = pile_on(
        rt.alloc(),
        3,
        1,
        Edge::Cylinder,
        &[10, 0, 1_099_511_627_762],
    )?;
    refused!(rt, "pile_text", alloc => pile_text(alloc, &pile), text =>
        text.as_slice() == b"3 1 c\n10 0 1099511627762\n".as_slice())?;
    let pile = full(rt.alloc())?;
    assert!(rt; pile.is_stable());
    refused!(rt, "pgm_text", alloc => pgm_text(alloc, &pile), text =>
        text.as_slice() == b"P2\n3 3\n3\n3 3 3\n3 3 3\n3 3 3\n".as_slice())
}

#[test]
fn texts_of_results_report_out_of_memory(rt: HostRuntime) -> Result<(), Fail> {
    let settled = settle(rt.alloc(), &open_pile(rt.alloc(), 3, 1, &[0, 4, 0])?)?;
    refused!(rt, "settle_text", alloc => settle_text(alloc, &settled), text =>
        text.as_slice() == b"3 1\n1 0 1\nodometer\n0 1 0\nlost 2\ntopplings 1\n".as_slice())?;
    refused!(rt, "table_text", alloc => table_text(alloc, &[(0, MIDDLE)]), text =>
        text.as_slice() == b"number site size area reach lost\n0 4 10 9 2 12\n".as_slice())
}

#[test]
fn texts_of_burning_report_out_of_memory(rt: HostRuntime) -> Result<(), Fail> {
    let pile = open_pile(rt.alloc(), 3, 1, &[0, 0, 3])?;
    let burned = burn(rt.alloc(), &pile)?;
    refused!(rt, "burn_text", alloc => burn_text(alloc, pile.shape(), &burned), text =>
        text.as_slice() == b"forbidden 2\n0 0\n1 0\n".as_slice())
}
