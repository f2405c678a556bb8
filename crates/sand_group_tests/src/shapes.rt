//! Shapes, and the neighbours of their sites.

use sand_model::{Edge, Shape, ShapeFault};
use std::test::Fail;

// The neighbours of a site, and the number that are missing, if the site is in the grid.
fn around(shape: Shape, site: usize) -> Option<([Option<usize>; 4], u8)> {
    (site < shape.sites()).then(|| (shape.neighbours(site), shape.missing(site)))
}

// A corner, a middle site and both ends of a row, on a grid and on a cylinder: north, west, east, south.
#[test]
fn neighbours_on_a_grid_and_on_a_cylinder(rt: HostRuntime) -> Result<(), Fail> {
    let open = Shape::with_edge(4, 3, Edge::Open)?;
    let cylinder = Shape::with_edge(4, 3, Edge::Cylinder)?;
    for (shape, site, expected) in [
        (open, 0, ([None, None, Some(1), Some(4)], 2)),
        (open, 5, ([Some(1), Some(4), Some(6), Some(9)], 0)),
        (open, 7, ([Some(3), Some(6), None, Some(11)], 1)),
        (open, 11, ([Some(7), Some(10), None, None], 2)),
        (cylinder, 0, ([None, Some(3), Some(1), Some(4)], 1)),
        (cylinder, 4, ([Some(0), Some(7), Some(5), Some(8)], 0)),
        (cylinder, 7, ([Some(3), Some(6), Some(4), Some(11)], 0)),
        (cylinder, 11, ([Some(7), Some(10), Some(8), None], 1)),
    ] {
        assert!(rt; around(shape, site) == Some(expected), "at {site}");
    }
    Ok(())
}

// Sites are numbered by rows, also on a cylinder.
#[test]
fn a_site_and_its_place(rt: HostRuntime) -> Result<(), Fail> {
    let shape = Shape::with_edge(4, 3, Edge::Cylinder)?;
    assert!(rt; shape.sites() == 12);
    assert_eq!(rt; (shape.site(1, 2), shape.place(9)), (Some(9), (1, 2)));
    Ok(())
}

#[test]
fn sides_outside_the_limits(rt: HostRuntime) {
    for (width, height) in [(0, 1), (257, 1), (1, 0), (1, 257)] {
        assert!(rt;
            Shape::new(width, height) == Err(ShapeFault::Side),
            "{width} by {height}"
        );
    }
    assert!(rt; Shape::with_edge(2, 1, Edge::Cylinder) == Err(ShapeFault::Narrow));
    assert!(rt; ShapeFault::Side.number() == 1 && ShapeFault::Narrow.number() == 24);
}

// A grid of 1 by so many rows, whose grain limit divides 2^57 - 1 by the square of one more than its rows.
#[test]
fn large_grids_and_their_grain_limits(rt: HostRuntime) -> Result<(), Fail> {
    for (width, height) in [(0, 1), (8193, 1), (1, 0), (1, 8193)] {
        assert!(rt;
            Shape::large(width, height, Edge::Open) == Err(ShapeFault::Side),
            "{width} by {height}"
        );
    }
    assert!(rt; Shape::large(2, 8192, Edge::Cylinder) == Err(ShapeFault::Narrow));
    for (rows, limit) in [
        (256, 1_099_511_627_775),
        (361, 1_099_511_627_775),
        (362, 1_093_695_695_314),
        (8192, 2_146_959_455),
    ] {
        let shape = Shape::large(1, rows, Edge::Open)?;
        assert!(rt; shape.grain_limit() == limit, "{rows} rows");
    }
    Ok(())
}
