//! The bytes of a segment.
ghost use Rattle.std.specs.Prelude.{◌≡◌, ℕ, List, ◌++◌, ◌^◌, ◌<◌, length, OnOk};
ghost use Rattle.std.specs.List.{flat_map};
ghost use Rattle.row_cells.specs.Dimensions.{text_bytes};
ghost use Rattle.index_segment.specs.Spelling.{AreColumns, IsFrontOf, head_bytes};

use column_block::Column;
use edge_face::NoMemory;
use packed_lists::NumberList;
use row_cells::Key;

fn put_key(key: &Key, into: &mut Vec<u8>) -> Result<(), NoMemory>
    ensures { OnOk result (into.new.items ≡ into.old.items ++ text_bytes key.now) }
{
    let bytes = key.bytes();
    let count = bytes.len() as u16;
    into.extend_from_slice(&count.to_be_bytes())?;
    into.extend_from_slice(bytes)?;
    Ok(())
}

fn put_keys(keys: &[Key], into: &mut Vec<u8>) -> Result<(), NoMemory>
    ensures { OnOk result (into.new.items ≡ into.old.items ++ flat_map text_bytes keys.now) }
{
    for key in keys {
        put_key(key, into)?;
    }
    Ok(())
}

fn put_head(rows: u32, keys: &[Key], into: &mut Vec<u8>) -> Result<(), NoMemory>
    requires { length keys.now < 2 ^ 32 }
    ensures { OnOk result (into.new.items ≡ into.old.items ++ head_bytes rows keys.now) }
{
    into.extend_from_slice(b"TSS1")?;
    into.extend_from_slice(&rows.to_be_bytes())?;
    let series = keys.len() as u32;
    into.extend_from_slice(&series.to_be_bytes())?;
    put_keys(keys, into)?;
    Ok(())
}

/// Appends what stands in front of the columns.
pub fn put_front(
    keys: &[Key],
    sizes: &NumberList,
    times: &NumberList,
    counts: &NumberList,
    into: &mut Vec<u8>,
) -> Result<(), NoMemory>
    requires few_rows { length times.now < 2 ^ 32 }
    requires few_series { length keys.now < 2 ^ 32 }
    ensures { OnOk result ((front : List ℕ) × IsFrontOf (length times.now) keys.now sizes.now times.now counts.now front × (into.new.items ≡ into.old.items ++ front)) }
{
    put_head(times.len() as u32, keys, into)?;
    into.extend_from_slice(sizes.bytes())?;
    into.extend_from_slice(times.bytes())?;
    into.extend_from_slice(counts.bytes())?;
    Ok(())
}

/// Appends the bytes of columns, one behind the other.
pub fn put_columns(columns: &[Column], into: &mut Vec<u8>) -> Result<(), NoMemory>
    ensures { OnOk result ((back : List ℕ) × AreColumns columns.now back × (into.new.items ≡ into.old.items ++ back)) }
{
    for column in columns {
        into.extend_from_slice(column.bytes())?;
    }
    Ok(())
}
