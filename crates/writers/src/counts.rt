// The report's counts.

// The free rank, the number of torsion orders, the peak and the number of bits that it needs.
#[derive(Clone, Copy)]
pub struct Counts {
    pub free: usize,
    pub torsion: usize,
    pub peak: u64,
    pub bits: u32,
}
