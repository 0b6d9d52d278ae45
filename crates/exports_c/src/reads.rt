// The full check of a table, and its reads.
ghost use Rattle.exports.specs.Reads.{ChecksOut, SeeksOut, LooksOut, StepsOut};

use exports::reads::SalevoniEntry;

// The full check: 0, or the refusal's number.
#[unsafe(no_mangle)]
pub extern "C" fn salevoni_check(table: &[u8]) -> u32
    ensures { ChecksOut table.now result }
{
    exports::reads::salevoni_check(table)
}

// The least entry that is not below a word and an edition; its key goes to the front of key.
#[unsafe(no_mangle)]
pub extern "C" fn salevoni_seek(
    table: &[u8],
    word: &[u8],
    edition: u64,
    key: &mut [u8],
) -> SalevoniEntry
    ensures { SeeksOut table.now (record { word = word.entry.now; edition = edition }) key.old result key.new }
{
    exports::reads::salevoni_seek(table, word, edition, key)
}

// The newest entry of a word that is no newer than an edition; its key goes to the front of key.
#[unsafe(no_mangle)]
pub extern "C" fn salevoni_lookup(
    table: &[u8],
    word: &[u8],
    edition: u64,
    key: &mut [u8],
) -> SalevoniEntry
    ensures { LooksOut table.now (record { word = word.entry.now; edition = edition }) key.old result key.new }
{
    exports::reads::salevoni_lookup(table, word, edition, key)
}

// The entry after the one at a place; its key goes to the front of key.
#[unsafe(no_mangle)]
pub extern "C" fn salevoni_step(
    table: &[u8],
    index: usize,
    entry: usize,
    key: &mut [u8],
) -> SalevoniEntry
    ensures { StepsOut table.now index entry key.old result key.new }
{
    exports::reads::salevoni_step(table, index, entry, key)
}
