//! Numbers that are drawn from the stream of a seed.

ghost use Rattle.std.specs.Prelude.{◌≡◌, ◌<◌};
ghost use Rattle.cbt_gen.specs.Draws.{stream_of, draw};

use rand_core::utils::NextWord;
use rand_pcg::Pcg32;

/// Which of the generator's streams is drawn from.
const STREAM: u64 = 54;

/// The stream of a seed.
#[tactic(auto, unfolding(crate::specs::Draws::stream_of))]
pub(crate) fn stream_of(seed: u64) -> Pcg32
    ensures { result ≡ stream_of seed }
{
    Pcg32::new(seed, STREAM)
}

/// Draws a number below `m`.
#[tactic(auto, unfolding(crate::specs::Draws::draw))]
pub(crate) fn draw(stream: &mut Pcg32, m: u32) -> u32
    requires { 0 < m }
    ensures value { result ≡ (draw m stream.old).0 }
    ensures behind { stream.new ≡ (draw m stream.old).1 }
    ensures below { result < m }
{
    stream.next_word() % m
}
