// Clients of the sweep: each calls it and nothing else, and its contract says what the sweep's own contract gives on sheets and slices written out.
#![tactic(auto)]

ghost use Rattle.sweep_client.specs.Used.{Used, LibraryUsed};

use fildwuk::fildwuk_sweep;
use library_host::fildwuk_library_sweep;
use refusal::Refusal;
use sweeper::sweep::sweep;

// The library's sweep.
pub fn sweep_library(sheet: &[u8], swept: &mut [u8]) -> Result<usize, Refusal>
    ensures { LibraryUsed sheet.now swept.old result swept.new }
{
    sweep(sheet, swept)
}

// The host's sweep.
pub fn sweep_host(sheet: &[u8], swept: &mut [u8]) -> u32
    ensures { Used sheet.now swept.old result swept.new }
{
    fildwuk_sweep(sheet, swept)
}

// The library's sweep for C.
pub fn sweep_library_c(sheet: &[u8], swept: &mut [u8]) -> u32
    ensures { Used sheet.now swept.old result swept.new }
{
    fildwuk_library_sweep(sheet, swept)
}
