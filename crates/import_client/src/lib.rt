// Clients of the import: each calls it and nothing else, and its contract says what the import's own contract gives on texts and slices written out.
#![tactic(auto)]

ghost use Rattle.import_client.specs.Used.{Used, LibraryUsed};

use fildwuk::fildwuk_import;
use importer::import::import;
use library_host::fildwuk_library_import;
use refusal::Refusal;

// The library's import.
pub fn import_library(text: &[u8], sheet: &mut [u8]) -> Result<usize, Refusal>
    ensures { LibraryUsed text.now sheet.old result sheet.new }
{
    import(text, sheet)
}

// The host's import.
pub fn import_host(text: &[u8], sheet: &mut [u8]) -> u32
    ensures { Used text.now sheet.old result sheet.new }
{
    fildwuk_import(text, sheet)
}

// The library's import for C.
pub fn import_library_c(text: &[u8], sheet: &mut [u8]) -> u32
    ensures { Used text.now sheet.old result sheet.new }
{
    fildwuk_library_import(text, sheet)
}
