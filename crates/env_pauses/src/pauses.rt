ghost use Rattle.std.specs.Prelude.{◌≡◌, ◌≤◌};
ghost use Rattle.env_pauses.specs.Pauses.{pause_of, scaled};

use rand_core::utils::NextWord;
use rand_pcg::Pcg32;

/// How long pauses are, in microseconds: each is drawn from 0 up to `most`, by a seed.
#[derive(Clone, Copy, Debug, PartialEq, Eq)]
pub struct Pauses {
    /// The longest pause. Where it is 0 there are none.
    pub most: u64,
    /// By which they are drawn.
    pub seed: u64,
}

impl Pauses {
    /// The pause of a worker between its take of this task and the first step, whichever worker it is.
    pub fn of_task(self, task: u32) -> u64
        ensures drawn { result ≡ pause_of self.seed task self.most }
        ensures within { result ≤ self.most }
    {
        scale(
            Pcg32::new(self.seed, u64::from(task)).next_word(),
            self.most,
        )
    }
}

/// The number from 0 up to the most that this word stands for.
pub(crate) fn scale(word: u32, most: u64) -> u64
    ensures scaled { result ≡ scaled most word }
    ensures within { result ≤ most }
{
    ((u128::from(word) * (u128::from(most) + 1)) >> 32) as u64
}
