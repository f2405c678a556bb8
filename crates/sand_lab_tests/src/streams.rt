//! The streams of drop sites, checked against known values.

use sand_lab::sites_of;
use sand_model::Shape;
use std::test::Fail;

// The published keystream of ChaCha8 with an all-zero key begins 3e 00 ef 2f 89 5f 40 d6. The low halves of its words, and
// of those of two other seeds and streams; the words modulo a number that involves their high halves; and words of one site
// alone.
#[test]
fn sites_of_known_words(rt: HostRuntime) -> Result<(), Fail> {
    for (width, height, seed, stream, expected) in [
        (256, 256, 0, 0, [62, 24457, 23423, 2335, 33836].as_slice()),
        (256, 256, 1, 0, &[24271, 19017, 1342, 23410, 62482]),
        (
            256,
            256,
            0x0123_4567_89ab_cdef,
            4_294_967_301,
            &[51062, 45171, 36068, 19438],
        ),
        (7, 5, 0, 0, &[13, 5, 34, 26, 25, 1, 32, 3]),
        (1, 1, 7, 9, &[0; 5]),
        (1, 1, 7, 9, &[]),
    ] {
        let shape = Shape::new(width, height)?;
        let sites = sites_of(rt.alloc(), shape, seed, stream, expected.len() as u32)?;
        assert!(rt; sites.as_slice() == expected, "{width} by {height}");
    }
    Ok(())
}
