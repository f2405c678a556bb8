//! The avalanche of one drop, in numbers.

/// The numbers of one avalanche.
#[repr(C)]
#[derive(Clone, Copy, Debug, PartialEq, Eq)]
pub struct Avalanche {
    /// The site of the drop.
    pub site: usize,
    /// The number of topplings.
    pub size: u64,
    /// The number of sites that toppled.
    pub area: u32,
    /// The greatest distance from the drop to a site that toppled, in columns plus rows, or 0 if none did.
    pub reach: u32,
    /// The number of grains that fell into the sink.
    pub lost: u64,
}
