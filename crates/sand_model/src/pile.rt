//! Piles of grains on the sites of a grid, and the toppling of one site.

ghost use Rattle.std.specs.Prelude.{◌≡◌, ◌≢◌, ℕ, ◌+◌, ◌*◌, ◌<◌, ◌≤◌, ◌↔◌, ◌⊎◌, length, sum, slice_index, slice_set, IfOk, IfErr, IsErr, OnErr, OnOk, IfSome, IsTrue, All, alloc_error};
ghost use Rattle.sand_model.specs.Grid.{sites, missing};
ghost use Rattle.sand_model.specs.Sand.{IsToppled, IsStable, one_at, value_at};
ghost use Rattle.sand_model.specs.Piles.{IsPile, height_of, most_grains, most_grains_on};

use crate::faults::{PileFault, ToppleFault};
use crate::shape::Shape;
use std::alloc::{AllocError, Global};
use std::marker::Model;

/// The height from which a site may topple, and the number of grains that it then loses.
pub const TOPPLING_HEIGHT: u64 = 4;

/// A pile: a height for each site of a shape, with at most `Shape::grain_limit` grains in all.
#[derive(Debug, Drop)]
pub struct Pile {
    shape: Shape,
    grains: u64,
    heights: Vec<u64>,
}

impl Model for Pile {
    ghost use Rattle.std.specs.Prelude.{◌≡◌, sum};
    ghost use Rattle.sand_model.specs.Piles.{PileView, IsPile};

    ghost Value = { PileView };

    ghost view = { λ p. record { grid = p.shape; heights = p.heights.items } };

    ghost invariant = { λ p.
        IsPile (record { grid = p.shape; heights = p.heights.items }) × (p.grains ≡ sum p.heights.items) };
}

impl Pile {
    ghost use Rattle.std.specs.Prelude.{IsOkUnless, alloc_error};

    /// Makes a pile with these heights, by site. Returns Length unless there is one height for each site, TooManyGrains
    /// if their sum is over the limit, and Memory if an allocation fails.
    pub fn new(alloc: Global, shape: Shape, heights: &[u64]) -> Result<Pile, PileFault>
        ensures made { IfOk result (λ p. p ≡ record { grid = shape; heights = heights.now }) }
        ensures length { (result ≡ Err PileFault.Length) ↔ (length heights.now ≢ sites shape) }
        ensures limit { (result ≡ Err PileFault.TooManyGrains)
            ↔ ((length heights.now ≡ sites shape) × (most_grains_on shape < sum heights.now)) }
    {
        if heights.len() != shape.sites() {
            return Err(PileFault::Length);
        }
        let limit = shape.grain_limit();
        let mut grains: u64 = 0;
        for height in heights {
            if *height > limit - grains {
                return Err(PileFault::TooManyGrains);
            }
            grains += *height;
        }
        let heights = Vec::from_slice(alloc, heights)?;
        Ok(Pile {
            shape,
            grains,
            heights,
        })
    }

    /// Makes a pile that takes over a list of heights.
    pub fn from_vec(shape: Shape, heights: Vec<u64>) -> Pile
        requires len { length heights.items ≡ sites shape }
        requires limit { sum heights.items ≤ most_grains_on shape }
        ensures { result ≡ record { grid = shape; heights = heights.items } }
    {
        let mut grains: u64 = 0;
        for height in &heights {
            grains += *height;
        }
        Pile::from_counted(shape, heights, grains)
    }

    /// The same for a list with a known sum: no height is read.
    pub fn from_counted(shape: Shape, heights: Vec<u64>, grains: u64) -> Pile
        requires len { length heights.items ≡ sites shape }
        requires limit { sum heights.items ≤ most_grains_on shape }
        requires counted { grains ≡ sum heights.items }
        ensures { result ≡ record { grid = shape; heights = heights.items } }
    {
        prove_eq!(heights.len(), shape.sites());
        Pile {
            shape,
            grains,
            heights,
        }
    }

    /// Splits the pile into its shape and its list of heights, and reads no height.
    pub fn into_parts(self) -> (Shape, Vec<u64>)
        ensures shape { result.0 ≡ self.grid }
        ensures heights { result.1.items ≡ self.heights }
        ensures pile { IsPile self }
    {
        (self.shape, self.heights)
    }

    pub fn shape(&self) -> Shape
        ensures value { result ≡ self.now.grid }
        ensures pile { IsPile self.now }
    {
        self.shape
    }

    pub fn height(&self, site: usize) -> u64
        requires { site < sites self.now.grid }
        ensures { result ≡ height_of self.now site }
    {
        self.heights[site]
    }

    /// The heights by site.
    pub fn heights(&self) -> &[u64]
        ensures value { result.now ≡ self.now.heights }
        ensures pile { IsPile self.now }
    {
        self.heights.as_slice()
    }

    /// The sum of the heights.
    pub fn grains(&self) -> u64
        ensures value { result ≡ sum self.now.heights }
        ensures pile { IsPile self.now }
    {
        self.grains
    }

    /// Whether no site may topple.
    pub fn is_stable(&self) -> bool
        ensures { IsTrue result ↔ IsStable self.now.grid (height_of self.now) }
    {
        are_low(self.heights.as_slice())
    }

    pub fn copy(&self, alloc: Global) -> Result<Pile, PileFault>
        ensures made { IfOk result (λ p. p ≡ self.now) }
        ensures memory { IsOkUnless result (PileFault.Memory alloc_error) }
    {
        let heights = Vec::from_slice(alloc, self.heights.as_slice())?;
        Ok(Pile {
            shape: self.shape,
            grains: self.grains,
            heights,
        })
    }

    /// Whether the other pile has the same shape and the same heights.
    pub fn equals(&self, other: &Pile) -> bool
        ensures { IsTrue result ↔ (self.now ≡ other.now) }
    {
        self.shape == other.shape && self.heights.as_slice() == other.heights.as_slice()
    }

    /// The grains of two piles together, on their common shape. Returns TooManyGrains if their sum is over the limit, and
    /// Memory if an allocation fails.
    pub fn plus(&self, alloc: Global, other: &Pile) -> Result<Pile, PileFault>
        requires { other.now.grid ≡ self.now.grid }
        ensures grid { IfOk result (λ p. p.grid ≡ self.now.grid) }
        ensures heights { IfOk result (λ p. (i : ℕ) → height_of p i ≡ height_of self.now i + height_of other.now i) }
        ensures limit { (result ≡ Err PileFault.TooManyGrains)
            ↔ (most_grains_on self.now.grid < sum self.now.heights + sum other.now.heights) }
        ensures faults { IfErr result (λ e. (e ≡ PileFault.TooManyGrains) ⊎ (e ≡ PileFault.Memory alloc_error)) }
    {
        if other.grains > self.shape.grain_limit() - self.grains {
            return Err(PileFault::TooManyGrains);
        }
        Ok(Pile {
            shape: self.shape,
            grains: self.grains + other.grains,
            heights: sums(alloc, self.heights.as_slice(), other.heights.as_slice())?,
        })
    }

    /// Adds one grain at a site. If the pile is at the limit, it returns TooManyGrains and changes nothing.
    pub fn add_grain(&mut self, site: usize) -> Result<(), PileFault>
        requires { site < sites self.old.grid }
        ensures ok { OnOk result (self.new
            ≡ record self.old { heights = slice_set self.old.heights site (height_of self.old site + 1) }) }
        ensures limit { IsErr result ↔ (sum self.old.heights ≡ most_grains_on self.old.grid) }
        ensures fault { IfErr result (λ e. e ≡ PileFault.TooManyGrains) }
        ensures unchanged { OnErr result (self.new ≡ self.old) }
    {
        if self.grains == self.shape.grain_limit() {
            return Err(PileFault::TooManyGrains);
        }
        self.heights[site] += 1;
        self.grains += 1;
        Ok(())
    }
}

// The sums of two lists, entry by entry.
fn sums(alloc: Global, a: &[u64], b: &[u64]) -> Result<Vec<u64>, AllocError>
    requires same_length { length a.now ≡ length b.now }
    requires bound { sum a.now + sum b.now ≤ most_grains }
    ensures len { IfOk result (λ v. length v.items ≡ length a.now) }
    ensures sums { IfOk result (λ v. (i : ℕ) → slice_index v.items i ≡ slice_index a.now i + slice_index b.now i) }
    ensures total { IfOk result (λ v. sum v.items ≡ sum a.now + sum b.now) }
{
    let mut sums = Vec::with_capacity(alloc, a.len())?;
    for (site, height) in a.iter().enumerate() {
        sums.push_reserved(*height + b[site]);
    }
    Ok(sums)
}

fn are_low(heights: &[u64]) -> bool
    ensures { IsTrue result ↔ All (λ h. h ≤ 3) heights.now }
{
    heights.iter().all(|height| *height < TOPPLING_HEIGHT)
}

fn give(heights: &mut [u64], neighbour: Option<usize>)
    requires inside { IfSome neighbour (λ j. j < length heights.old) }
    requires room { sum heights.old + 1 ≤ most_grains }
    ensures each { (j : ℕ) → slice_index heights.new j ≡ slice_index heights.old j + value_at (λ k. one_at k j) neighbour }
    ensures total { sum heights.new ≤ sum heights.old + 1 }
{
    if let Some(j) = neighbour {
        heights[j] += 1;
    }
}

// Takes 4 grains from a site, and gives one to each neighbour.
fn spread(shape: Shape, heights: &mut [u64], site: usize)
    requires len { length heights.old ≡ sites shape }
    requires site { site < sites shape }
    requires high { 4 ≤ slice_index heights.old site }
    requires limit { sum heights.old ≤ most_grains }
    ensures toppled { IsToppled shape (slice_index heights.old) (one_at site) (slice_index heights.new) }
    ensures total { sum heights.new + missing shape site ≡ sum heights.old }
{
    let [north, west, east, south] = shape.neighbours(site);
    heights[site] -= TOPPLING_HEIGHT;
    give(heights, north);
    give(heights, west);
    give(heights, east);
    give(heights, south);
}

/// Topples a site once, and returns the number of grains lost, 0 to 4. If the height is below 4, it returns TooLow and
/// changes nothing.
pub fn topple(pile: &mut Pile, site: usize) -> Result<u8, ToppleFault>
    requires { site < sites pile.old.grid }
    ensures shape { pile.new.grid ≡ pile.old.grid }
    ensures low { IsErr result ↔ (height_of pile.old site < 4) }
    ensures unchanged { OnErr result (pile.new ≡ pile.old) }
    ensures toppled { OnOk result (IsToppled pile.old.grid (height_of pile.old) (one_at site) (height_of pile.new)) }
    ensures lost { IfOk result (λ n. n ≡ missing pile.old.grid site) }
{
    if pile.heights[site] < TOPPLING_HEIGHT {
        return Err(ToppleFault::TooLow);
    }
    let lost = pile.shape.missing(site);
    spread(pile.shape, &mut pile.heights, site);
    pile.grains -= u64::from(lost);
    Ok(lost)
}
