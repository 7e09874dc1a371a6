// The bits of the peak.
ghost use Rattle.std.specs.Prelude.{◌≡◌};
ghost use Rattle.reports.specs.Report.{bits_of};

// The number of bits that the peak needs, 0 for 0: those of a word after its leading zeros.
pub fn bits(peak: u64) -> u32
    ensures { result ≡ bits_of peak }
{
    64 - u64::leading_zeros(peak)
}
