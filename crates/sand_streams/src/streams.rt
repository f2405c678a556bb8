//! The numbered streams of drop sites: ChaCha8 (Bernstein 2008) under a seed's key, read word by word.

ghost use Rattle.std.specs.Prelude.{◌≡◌, ◌+◌, ◌*◌, ◌<◌, ◌^◌, IfOk, IsOkUnless, alloc_error};
ghost use Rattle.sand_model.specs.Grid.{sites};
ghost use Rattle.sand_streams.specs.Streams.{key_bytes, key_of_seed, site_at, stream_of, stream_sites, words_per_site, Reading};

use rand_chacha::ChaCha8Rng;
use rand_core::SeedableRng;
use rand_core::utils::{NextWord, next_u64_via_u32};
use sand_model::Shape;
use std::alloc::{AllocError, Global};
use std::marker::Model;

// On a grid with more sites than these, a site takes two words of the stream.
const ONE_WORD_SITES: u32 = 65_536;

// The bytes of the seed, the low byte first, and zeros.
#[tactic(auto, unfolding(crate::specs::Streams::key_bytes))]
fn key_bytes(seed: u64) -> [u8; 32]
    ensures { result ≡ key_bytes seed }
{
    let mut bytes = [0; 32];
    bytes[..8].copy_from_slice(&seed.to_le_bytes());
    bytes
}

/// The number of the stream of a dropper in an epoch. The streams of one epoch come before those of the next.
pub fn stream_of(epoch: u32, dropper: u32) -> u64
    ensures { result ≡ stream_of epoch dropper }
{
    u64::from(epoch) * 64 + u64::from(dropper)
}

/// The words of the stream with this number, from place 0.
#[tactic(auto, unfolding(crate::specs::Streams::key_of_seed))]
pub fn words_of(seed: u64, stream: u64) -> ChaCha8Rng
    ensures key { result.key ≡ key_of_seed seed }
    ensures stream { result.stream ≡ stream }
    ensures start { result.word_pos ≡ 0 }
{
    let mut words = ChaCha8Rng::from_seed(key_bytes(seed));
    words.set_stream(stream);
    words
}

/// A stream of drop sites, read one by one. Each is a 32-bit word of the stream, or on more than 65,536 sites a number of
/// 64 bits from two of its words, modulo the number of sites.
#[derive(Drop)]
pub struct SiteReader {
    words: ChaCha8Rng,
    seed: u64,
    sites: u32,
}

impl Model for SiteReader {
    ghost use Rattle.std.specs.Prelude.{◌≡◌, ◌<◌, ◌/◌, ◌%◌};
    ghost use Rattle.sand_streams.specs.Streams.{key_of_seed, words_per_site, Reading};

    ghost Value = { Reading };

    ghost view = { λ r. record {
      sites = r.sites;
      seed = r.seed;
      stream = r.words.stream;
      read = r.words.word_pos / words_per_site r.sites;
    } };

    ghost invariant = { λ r. (0 < r.sites) × (r.words.key ≡ key_of_seed r.seed)
        × (r.words.word_pos % words_per_site r.sites ≡ 0) };
}

impl SiteReader {
    /// The stream with this number, from place 0.
    pub fn new(shape: Shape, seed: u64, stream: u64) -> SiteReader
        ensures { result ≡ record { sites = sites shape; seed = seed; stream = stream; read = 0 } }
    {
        SiteReader {
            words: words_of(seed, stream),
            seed,
            sites: shape.sites() as u32,
        }
    }

    /// Moves to a place of the stream: its site is the next one.
    pub fn go_to(&mut self, place: u64)
        ensures { self.new ≡ record self.old { read = place } }
    {
        let words = if self.sites <= ONE_WORD_SITES { 1 } else { 2 };
        self.words.set_word_pos(u128::from(place) * words);
    }

    /// The next site of the stream.
    #[tactic(auto, unfolding(crate::specs::Streams::stream_word, crate::specs::Streams::stream_pair))]
    pub fn next_site(&mut self) -> usize
        requires { words_per_site self.old.sites * (self.old.read + 1) < 2 ^ 68 }
        ensures site { result ≡ site_at self.old.sites self.old.seed self.old.stream self.old.read }
        ensures inside { result < self.old.sites }
        ensures read { self.new ≡ record self.old { read = self.old.read + 1 } }
    {
        if self.sites <= ONE_WORD_SITES {
            return (self.words.next_word() % self.sites) as usize;
        }
        let pair = next_u64_via_u32(&mut self.words);
        (pair % u64::from(self.sites)) as usize
    }
}

/// The first `count` sites of a stream. Fails only if an allocation fails.
pub fn sites_of(
    alloc: Global,
    shape: Shape,
    seed: u64,
    stream: u64,
    count: u32,
) -> Result<Vec<usize>, AllocError>
    ensures sites { IfOk result (λ v. v.items ≡ stream_sites (sites shape) seed stream count) }
    ensures memory { IsOkUnless result alloc_error }
{
    let mut reader = SiteReader::new(shape, seed, stream);
    let mut read = Vec::with_capacity(alloc, count as usize)?;
    for _ in 0..count {
        read.push_reserved(reader.next_site());
    }
    Ok(read)
}
