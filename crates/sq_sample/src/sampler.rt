//! A choice of homes, from a seed.
ghost use Rattle.std.specs.Prelude.{◌≡◌, ◌≤◌, ◌<◌, All, IfOk, IfErr};
ghost use Rattle.rand.specs.Sample.{IsSampleOf};
ghost use Rattle.rand_core.specs.Pcg32Seed.{pcg32_seed};
ghost use Rattle.rand_pcg.specs.Pcg.{pcg32_of_seed};

use rand::seq::index;
use rand::{RngExt, SeedableRng};
use rand_pcg::Pcg32;
use sq_base::ids::HomeNo;
use sq_base::ranges::Within;
use sq_base::refusal::Refusal;
use std::alloc::Global;

/// How many homes a queue has, or how many of them a receive asks. Own.
pub type HomeCount = Within<1, 16>;

/// A source of choices. Two of one seed choose the same homes; which ones is not promised.
#[derive(Drop)]
pub struct Sampler {
    rng: Pcg32,
}

impl Sampler {
    /// A source that begins from a seed.
    pub fn new(seed: u64) -> Sampler
        ensures { result.rng ≡ pcg32_of_seed (pcg32_seed 16 seed) }
    {
        Sampler {
            rng: Pcg32::seed_from_u64(seed),
        }
    }

    /// Distinct homes of a queue, so many as asked, in the order in which they are to be visited.
    /// Refused only where memory is out.
    pub fn draw(
        &mut self,
        alloc: Global,
        homes: HomeCount,
        count: HomeCount,
    ) -> Result<Vec<HomeNo>, Refusal>
        requires { count ≤ homes }
        ensures sample { IfOk result (λ drawn. IsSampleOf homes count drawn.items) }
        ensures refused { IfErr result (λ e. e ≡ Refusal.NoMemory) }
    {
        let indices = index::sample(
            alloc,
            &mut self.rng,
            homes.get() as usize,
            count.get() as usize,
        )?;
        home_numbers(alloc, indices.as_slice())
    }

    /// One home of a queue.
    pub fn pick(&mut self, homes: HomeCount) -> HomeNo
        ensures { result < homes }
    {
        let homes = homes.get() as u8;
        HomeNo::of(self.rng.random_range(0u8..homes))
    }
}

// The homes of these numbers.
fn home_numbers(alloc: Global, numbers: &[usize]) -> Result<Vec<HomeNo>, Refusal>
    requires { All (λ n. n < 16) numbers.now }
    ensures homes { IfOk result (λ homes. homes.items ≡ numbers.now) }
    ensures refused { IfErr result (λ e. e ≡ Refusal.NoMemory) }
{
    let mut homes = Vec::with_capacity(alloc, numbers.len())?;
    for number in numbers {
        homes.push(HomeNo::of(*number as u8))?;
    }
    Ok(homes)
}
