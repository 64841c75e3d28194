ghost use Rattle.std.specs.Prelude.{◌≡◌};
ghost use Rattle.litmus_rounds.specs.Sum.{sum_of};

/// Returns the sum that identifies the parts of a test: the 64-bit FNV-1a hash of its text.
pub fn sum_of(text: &[u8]) -> u64
    ensures { result ≡ sum_of text.now }
{
    let mut sum: u64 = 14_695_981_039_346_656_037;
    for byte in text {
        sum = (sum ^ u64::from(*byte)).wrapping_mul(1_099_511_628_211);
    }
    sum
}
