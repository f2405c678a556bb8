//! Dropping grains on a driven pile, one after another.

ghost use Rattle.std.specs.Prelude.{◌≡◌, ◌+◌, ◌<◌, ◌≤◌, length, All, IsTrue};
ghost use Rattle.sand_model.specs.Grid.{sites};
ghost use Rattle.sand_model.specs.Piles.{most_grains_on};
ghost use Rattle.sand_settle.specs.Drops.{grid_of_driven};
ghost use Rattle.sand_settle.specs.Waves.{HasDropped};
ghost use Rattle.sand_c.specs.Driving.{HaveDriven};
ghost use Rattle.sand_c.specs.Dropping.{are_sites};

use crate::SandpileAvalanche;
use sand_settle::DrivenPile;

/// Drops a grain at a site, if the pile takes one more.
pub(crate) fn drop_grain(pile: &mut DrivenPile, site: usize) -> SandpileAvalanche
    requires site { site < sites (grid_of_driven pile.old) }
    requires room { pile.old.grains < most_grains_on (grid_of_driven pile.old) }
    ensures { HasDropped pile.old site pile.old.number result pile.new }
{
    let (_, avalanche, _) = pile.drop_with_waves(site, &mut []).unwrap();
    avalanche
}

/// Drops a grain at each site in turn, and writes the avalanches.
pub(crate) fn drop_all(pile: &mut DrivenPile, drops: &[usize], avalanches: &mut [SandpileAvalanche])
    requires sites { All (λ site. site < sites (grid_of_driven pile.old)) drops.now }
    requires room { pile.old.grains + length drops.now ≤ most_grains_on (grid_of_driven pile.old) }
    requires avalanches { length avalanches.old ≡ length drops.now }
    ensures driven { HaveDriven pile.old drops.now avalanches.new pile.new }
    ensures grains { pile.new.grains ≡ pile.old.grains + length drops.now }
    ensures grid { grid_of_driven pile.new ≡ grid_of_driven pile.old }
{
    for next in 0..drops.len() {
        avalanches[next] = drop_grain(pile, drops[next]);
    }
}

/// Whether every drop is at a site.
#[tactic(auto, using(crate::proofs::Sites::all_sites))]
pub(crate) fn are_sites(drops: &[usize], sites: usize) -> bool
    ensures value { result ≡ are_sites sites drops.now }
    ensures all { IsTrue result → All (λ site. site < sites) drops.now }
{
    drops.iter().all(|site| *site < sites)
}
