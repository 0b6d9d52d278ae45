// What the metaindex of a table names: the filter block.
ghost use Rattle.std.specs.Prelude.{◌≡◌, List, []};
ghost use Rattle.std.proofs.Math.Option.{some};
ghost use Rattle.codec.specs.Answers.{given};
ghost use Rattle.blocks.specs.Block.{Entry, pairs_of};
ghost use Rattle.block_reader.specs.Steps.{read_from};
ghost use Rattle.table_block.specs.Answers.{BloomRead};
ghost use Rattle.table.specs.Table.{bloom_handle};

use block_reader::block::{LastKey, is_bloom, layout};
use codec::blockhandle::{BlockHandle, one_handle};

// The handle of the filter block, by the entries that fill d.
fn bloom_in(d: &[u8]) -> Option<BlockHandle>
    ensures { (es : List Entry) → read_from d.now 0 [] ≡ some es → result ≡ given (bloom_handle (pairs_of es)) }
{
    let mut key = LastKey::new();
    let mut at: usize = 0;
    while at < d.len() {
        let read = key.read(d, at)?;
        let next = read.value_at + read.value_len;
        let named = is_bloom(key.as_slice());
        if named {
            return one_handle(&d[read.value_at..next]);
        }
        at = next;
    }
    None
}

// The handle of the filter block, by the metaindex: exact on every block that can be read.
pub fn bloom_handle(metaindex: &[u8]) -> Option<BlockHandle>
    ensures { BloomRead metaindex.now result }
{
    let rows = layout(metaindex)?;
    bloom_in(&metaindex[..rows.end])
}
