// The numbers drawn.
ghost use Rattle.std.specs.Prelude.{◌≡◌, ◌/◌, ◌^◌, ◌<◌};
ghost use Rattle.bulk_logs.specs.Bulk.{after};

/// A linear congruential generator of 64 bits.
#[derive(Clone, Copy, Debug)]
pub struct Generator {
    pub x: u64,
}

impl Generator {
    /// The upper 31 bits of the next number.
    pub fn draw(&mut self) -> u32
        ensures next { self.new.x ≡ after self.old.x }
        ensures drawn { result ≡ self.new.x / 2 ^ 33 }
    {
        self.x = next(self.x);
        upper(self.x)
    }
}

fn next(x: u64) -> u64
    ensures { result ≡ after x }
{
    x.wrapping_mul(6_364_136_223_846_793_005)
        .wrapping_add(1_442_695_040_888_963_407)
}

fn upper(x: u64) -> u32
    ensures { result ≡ x / 2 ^ 33 }
{
    (x >> 33) as u32
}
