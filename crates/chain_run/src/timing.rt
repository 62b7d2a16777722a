// At which ticks a chain's samples and values stand.
ghost use Rattle.std.specs.Prelude.{◌≡◌, ◌≤◌, ◌<◌, ◌+◌, ◌*◌, ◌^◌, None};
ghost use Rattle.mr_values.specs.Timing.{ceil_div};
ghost use Rattle.chain_run.specs.Outputs.{IsTiming};
ghost use Rattle.chain_run.specs.Ticks.{ticks_to_show, end_tick};

/// The numbers of a plan's module: the bits of a sample, the ticks from one sample to the next, the tick of the first value, and the ticks
/// from one value to the next.
#[derive(Clone, Copy, Debug, PartialEq, Eq)]
pub struct ChainTiming {
    pub width: u8,
    pub ticks: u64,
    pub latency: u64,
    pub period: u64,
}

impl ChainTiming {
    // After how many ticks the last value that belongs to so many samples was shown.
    fn ticks_to_show(&self, samples: u64) -> u64
        requires timing { IsTiming self.now }
        requires few { samples < 2 ^ 32 }
        ensures value { result ≡ ticks_to_show self.now samples }
        ensures most { result ≤ samples * 2 ^ 16 + 2 ^ 32 }
    {
        if samples == 0 {
            return 0;
        }
        let values = (samples * self.ticks + self.period - 1) / self.period;
        self.latency + (values - 1) * self.period + 1
    }

    // How many ticks there are for so many samples, with those that show their values.
    pub(crate) fn end_tick(&self, samples: u64) -> u64
        requires timing { IsTiming self.now }
        requires few { samples < 2 ^ 32 }
        ensures value { result ≡ end_tick self.now samples None }
        ensures most { result ≤ samples * 2 ^ 16 + 2 ^ 32 }
    {
        (samples * self.ticks).max(self.ticks_to_show(samples))
    }
}
