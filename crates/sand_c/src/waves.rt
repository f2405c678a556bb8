//! Drops with their waves, in one list.

ghost use Rattle.std.specs.Prelude.{◌≡◌, ◌+◌, ◌*◌, ◌<◌, ◌≤◌, ◌++◌, ℕ, All, length, take, drop};
ghost use Rattle.sand_model.specs.Grid.{sites};
ghost use Rattle.sand_model.specs.Edges.{most_to_edge};
ghost use Rattle.sand_model.specs.Piles.{most_grains_on};
ghost use Rattle.sand_settle.specs.Drops.{grid_of_driven};
ghost use Rattle.sand_settle.specs.Waves.{HasDropped};
ghost use Rattle.sand_c.specs.Waves.{waves_from, AreWavesOf, HaveDrivenInWaves};

use crate::SandpileAvalanche;
use sand_settle::DrivenPile;

/// A wave of a drop, as passed to C.
#[repr(C)]
#[derive(Clone, Copy)]
pub struct SandpileWave {
    /// The number of the drop.
    pub number: u64,
    /// Which wave of the drop it is, from 0.
    pub wave: u64,
    /// How many sites topple in it.
    pub size: u64,
}

// Writes the waves of a drop, which have these sizes.
fn write_waves(number: u64, sizes: &[u64], waves: &mut [SandpileWave])
    requires { length sizes.now ≤ length waves.old }
    ensures { waves.new ≡ waves_from number 0 sizes.now ++ drop (length sizes.now) waves.old }
{
    for wave in 0..sizes.len() {
        waves[wave] = SandpileWave {
            number,
            wave: wave as u64,
            size: sizes[wave],
        };
    }
}

// Drops a grain at a site, and writes the waves of its avalanche, once it has their sizes. Returns the avalanche, and how
// many waves it has.
fn drop_in_list(
    pile: &mut DrivenPile,
    site: usize,
    sizes: &mut [u64],
    waves: &mut [SandpileWave],
) -> (SandpileAvalanche, usize)
    requires site { site < sites (grid_of_driven pile.old) }
    requires room { pile.old.grains < most_grains_on (grid_of_driven pile.old) }
    requires sizes { most_to_edge (grid_of_driven pile.old) ≤ length sizes.old }
    requires waves { most_to_edge (grid_of_driven pile.old) ≤ length waves.old }
    ensures dropped { HasDropped pile.old site pile.old.number result.0 pile.new }
    ensures waves { AreWavesOf pile.old site (take result.1 waves.new) pile.new }
    ensures few { result.1 ≤ most_to_edge (grid_of_driven pile.old) }
    ensures rest { drop result.1 waves.new ≡ drop result.1 waves.old }
    ensures len { length waves.new ≡ length waves.old }
    ensures sizes { length sizes.new ≡ length sizes.old }
{
    let (number, avalanche, count) = pile.drop_with_waves(site, sizes).unwrap();
    write_waves(number, &sizes[..count], waves);
    (avalanche, count)
}

/// Drops a grain at each site in turn. Writes the avalanches, and the waves of each drop after those before. Returns how many
/// waves there are. The sizes are overwritten.
pub(crate) fn drop_all_in_list(
    pile: &mut DrivenPile,
    drops: &[usize],
    avalanches: &mut [SandpileAvalanche],
    sizes: &mut [u64],
    waves: &mut [SandpileWave],
) -> usize
    requires sites { All (λ site. site < sites (grid_of_driven pile.old)) drops.now }
    requires room { pile.old.grains + length drops.now ≤ most_grains_on (grid_of_driven pile.old) }
    requires avalanches { length avalanches.old ≡ length drops.now }
    requires sizes { most_to_edge (grid_of_driven pile.old) ≤ length sizes.old }
    requires waves { length drops.now * most_to_edge (grid_of_driven pile.old) ≤ length waves.old }
    ensures driven { HaveDrivenInWaves pile.old drops.now avalanches.new waves.old waves.new result pile.new }
    ensures grains { pile.new.grains ≡ pile.old.grains + length drops.now }
    ensures grid { grid_of_driven pile.new ≡ grid_of_driven pile.old }
    ensures len { length sizes.new ≡ length sizes.old }
{
    let mut count = 0;
    for next in 0..drops.len() {
        let (_, rest) = waves.split_at_mut(count);
        let (avalanche, more) = drop_in_list(pile, drops[next], sizes, rest);
        avalanches[next] = avalanche;
        count += more;
    }
    count
}
