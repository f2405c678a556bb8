//! Random trees: those of three streams, worked out by another program from the words of ChaCha8 and from Wilson's algorithm
//! as he states it, with loops erased as they close; the piles of three; and how often each tree of a square comes.

use crate::{random_recurrent, random_tree};
use sand_model::{Edge, Shape};
use std::alloc::Global;
use std::test::Fail;

fn has_directions(alloc: Global, shape: Shape, seed: u64, stream: u64, directions: &[u8]) -> bool {
    random_tree(alloc, shape, seed, stream).is_ok_and(|tree| tree.directions() == directions)
}

#[test]
fn the_trees_of_three_streams(rt: HostRuntime) -> Result<(), Fail> {
    let most = u64::MAX;
    let wide = Shape::new(3, 2)?;
    assert!(rt; has_directions(rt.alloc(), wide, 7, 1, &[2, 2, 0, 1, 1, 1]));
    let round = Shape::with_edge(3, 3, Edge::Cylinder)?;
    assert!(rt; has_directions(rt.alloc(), round, 7, 2, &[2, 3, 0, 1, 3, 1, 1, 2, 3]));
    let last = Shape::new(4, 3)?;
    assert!(rt;
        has_directions(
            rt.alloc(),
            last,
            most,
            most,
            &[2, 0, 1, 0, 3, 3, 0, 2, 3, 3, 1, 1]
        )
    );
    Ok(())
}

fn has_heights(alloc: Global, shape: Shape, seed: u64, stream: u64, heights: &[u64]) -> bool {
    random_recurrent(alloc, shape, seed, stream).is_ok_and(|recurrent| recurrent.pile().heights()
        == heights)
}

// The formula of the other program follows the directions of each site to the sink.
#[test]
fn the_piles_of_three_streams(rt: HostRuntime) -> Result<(), Fail> {
    let wide = Shape::new(3, 2)?;
    assert!(rt; has_heights(rt.alloc(), wide, 7, 1, &[0, 2, 2, 2, 2, 0]));
    let round = Shape::with_edge(3, 3, Edge::Cylinder)?;
    assert!(rt; has_heights(rt.alloc(), round, 7, 2, &[1, 1, 3, 1, 3, 1, 2, 2, 3]));
    assert!(rt; has_heights(rt.alloc(), round, 2, 7, &[2, 3, 2, 3, 2, 2, 3, 2, 3]));
    Ok(())
}

// How often each tree of a square comes from so many streams: the number of trees that come, and the sum of the squares of
// the differences from 100.
fn spread_of(alloc: Global, streams: u64) -> Option<(u64, u64)> {
    let shape = Shape::new(2, 2).ok()?;
    let mut times = vec![in alloc; 0u64; 256].ok()?;
    for stream in 0..streams {
        let tree = random_tree(alloc, shape, 7, stream).ok()?;
        let mut code = 0usize;
        for direction in tree.directions() {
            code = (code % 64) * 4 + usize::from(*direction % 4);
        }
        if let Some(time) = times.get_mut(code) {
            *time = time.wrapping_add(1);
        }
    }
    let mut some = 0u64;
    let mut squares = 0u64;
    for time in times.iter().filter(|time| **time != 0) {
        some = some.wrapping_add(1);
        let apart = time.abs_diff(100);
        squares = squares.wrapping_add(apart.wrapping_mul(apart));
    }
    Some((some, squares))
}

// 19,200 streams for 192 trees: chi-squared is the sum of the squares over 100. It is 191 on average, with a standard
// deviation of about 20.
#[test]
fn each_tree_of_a_square_is_as_frequent(rt: HostRuntime) -> Result<(), Fail> {
    let (some, squares) = spread_of(rt.alloc(), 19_200).ok_or("no trees")?;
    assert!(rt;
        some == 192 && squares > 13_000 && squares < 25_000,
        "{some} {squares}"
    );
    Ok(())
}
