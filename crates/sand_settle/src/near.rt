//! Lists by site that are brought up to date near one site.
//!
//! An avalanche topples only sites within its reach of the dropped site, and changes no height farther away than that by
//! more than one. So a list that was right before the drop is right again once the entries near that site are written. An
//! avalanche that stays near its drop costs little on a large grid, too.

ghost use Rattle.std.specs.Prelude.{◌≡◌, ◌⊎◌, ℕ, ◌+◌, ◌*◌, ◌^◌, ◌<◌, ◌≤◌, length, slice_index};
ghost use Rattle.sand_model.specs.Grid.{sites, column, row, columns_apart, distance};
ghost use Rattle.sand_settle.specs.Near.{Tells, AgreeFar};

use sand_model::{Edge, Shape};

// The first column within a reach of column `x`, and the one after the last. If the reach crosses the seam of a cylinder,
// these are all columns.
fn columns_near(shape: Shape, x: usize, reach: usize) -> (usize, usize)
    requires column { x < shape.width }
    requires fits { reach < 2 ^ 33 }
    ensures inside { (result.0 ≤ result.1) × (result.1 ≤ shape.width) }
    ensures near { (i j : ℕ) → column shape i ≡ x → columns_apart shape i j ≤ reach
        → (result.0 ≤ column shape j) × (column shape j < result.1) }
{
    let width = shape.width();
    let crosses_seam = match shape.edge() {
        Edge::Open => false,
        Edge::Cylinder => x < reach || width <= x + reach,
    };
    if crosses_seam {
        return (0, width);
    }
    (x.saturating_sub(reach), width.min(x + reach + 1))
}

// The first site of row `y` within a reach of a site, and the one after the last; or an empty range. A row whose reach
// crosses the seam is whole.
fn sites_near(shape: Shape, site: usize, reach: usize, y: usize) -> (usize, usize)
    requires site { site < sites shape }
    requires fits { reach < 2 ^ 33 }
    requires row { y < shape.height }
    ensures inside { (y * shape.width ≤ result.0) × (result.0 ≤ result.1) × (result.1 ≤ (y + 1) * shape.width) }
    ensures near { (i : ℕ) → row shape i ≡ y → distance shape site i ≤ reach
        → (result.0 ≤ i) × (i < result.1) }
{
    let first = y * shape.width();
    let (column, row) = shape.place(site);
    let rows = y.abs_diff(row);
    if reach < rows {
        return (first, first);
    }
    let (from, to) = columns_near(shape, column, reach - rows);
    (first + from, first + to)
}

// Writes a number to each entry of a list from `first` up to `end`.
fn write_between<F: Fn(usize) -> u64>(list: &mut [u64], first: usize, end: usize, numbers: &F)
    requires order { first ≤ end }
    requires inside { end ≤ length list.old }
    requires may { (i : ℕ) → i < length list.old → F.pre numbers.now i }
    ensures len { length list.new ≡ length list.old }
    ensures written { (v : ℕ → ℕ) → Tells (length list.old) (F.post numbers.now) v
        → (i : ℕ) → first ≤ i → i < end → slice_index list.new i ≡ v i }
    ensures before { (i : ℕ) → i < first → slice_index list.new i ≡ slice_index list.old i }
    ensures after { (i : ℕ) → end ≤ i → slice_index list.new i ≡ slice_index list.old i }
{
    for site in first..end {
        list[site] = numbers(site);
    }
}

/// Writes a number to the entry of each site within a reach of a site. Any other entry gets its number, too, or stays as it is.
/// If a list has these numbers farther away, it then has them at each site.
pub fn write_near<F: Fn(usize) -> u64>(
    shape: Shape,
    site: usize,
    reach: usize,
    list: &mut [u64],
    numbers: &F,
)
    requires site { site < sites shape }
    requires fits { reach < 2 ^ 33 }
    requires len { length list.old ≡ sites shape }
    requires may { (i : ℕ) → i < sites shape → F.pre numbers.now i }
    ensures len { length list.new ≡ length list.old }
    ensures near { (v : ℕ → ℕ) → Tells (sites shape) (F.post numbers.now) v
        → (i : ℕ) → i < sites shape → distance shape site i ≤ reach → slice_index list.new i ≡ v i }
    ensures other { (v : ℕ → ℕ) → Tells (sites shape) (F.post numbers.now) v → (i : ℕ) → i < sites shape
        → (slice_index list.new i ≡ slice_index list.old i) ⊎ (slice_index list.new i ≡ v i) }
    ensures written { (v : ℕ → ℕ) → Tells (sites shape) (F.post numbers.now) v
        → AgreeFar shape site reach (slice_index list.old) v
        → (i : ℕ) → i < sites shape → slice_index list.new i ≡ v i }
{
    let (_, y) = shape.place(site);
    let last = shape.height().min(y + reach + 1);
    for row in y.saturating_sub(reach)..last {
        let (first, end) = sites_near(shape, site, reach, row);
        write_between(list, first, end, numbers);
    }
}
