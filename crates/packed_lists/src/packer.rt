//! Numbers that are packed while they come.
ghost use Rattle.std.specs.Prelude.{◌≡◌, ℕ, ℤ, ◌+◌, ◌*◌, ◌<◌, ◌≤◌, ◌++◌, List, [], ◌∷◌, length, take, drop, IfOk, OnOk, OnErr};
ghost use Rattle.column_pack.specs.Block.{IsBlock};

use crate::blocks::BLOCK;
use crate::number_list::NumberList;
use column_pack::pack_block;
use edge_face::NoMemory;
use std::alloc::Global;
use std::marker::Model;

/// The list of the numbers that were written so far. Whole blocks of it are packed, and fewer than 128 numbers aren't yet.
#[derive(Debug, Drop)]
pub struct Packer {
    bytes: Vec<u8>,
    places: Vec<usize>,
    buffer: [i64; 128],
    filled: usize,
}

impl Model for Packer {
    ghost use Rattle.std.specs.Prelude.{List, ℤ, ◌++◌, take};
    ghost use Rattle.packed_lists.specs.Decoded.{values_at};
    ghost use Rattle.packed_lists.specs.Packing.{IsPacking};

    ghost Value = { List ℤ };

    ghost view = { λ p. values_at p.bytes.items p.places.items ++ take p.filled p.buffer };

    ghost invariant = { λ p. IsPacking p.bytes.items p.places.items p.filled (values_at p.bytes.items p.places.items) };
}

/// Appends a block and its place, or changes nothing.
fn put_block(values: &[i64], bytes: &mut Vec<u8>, places: &mut Vec<usize>) -> Result<(), NoMemory>
    requires some { 0 < length values.now }
    requires few { length values.now ≤ 128 }
    ensures block { OnOk result ((block : List ℕ) × IsBlock values.now block × (bytes.new.items ≡ bytes.old.items ++ block)) }
    ensures place { OnOk result (places.new.items ≡ places.old.items ++ length bytes.old.items ∷ []) }
    ensures bytes_kept { OnErr result (bytes.new.items ≡ bytes.old.items) }
    ensures places_kept { OnErr result (places.new.items ≡ places.old.items) }
{
    places.push(bytes.len())?;
    if pack_block(values, bytes).is_err() {
        places.pop();
        return Err(NoMemory);
    }
    Ok(())
}

impl Packer {
    pub fn new(alloc: Global) -> Packer
        ensures { result ≡ [] }
    {
        Packer {
            bytes: Vec::new(alloc),
            places: Vec::new(alloc),
            buffer: [0; 128],
            filled: 0,
        }
    }

    /// Appends a number, or changes nothing.
    pub fn push(&mut self, value: i64) -> Result<(), NoMemory>
        ensures ok { OnOk result (self.new ≡ self.old ++ value ∷ []) }
        ensures err { OnErr result (self.new ≡ self.old) }
    {
        self.buffer[self.filled] = value;
        if self.filled < BLOCK - 1 {
            self.filled += 1;
            return Ok(());
        }
        put_block(&self.buffer, &mut self.bytes, &mut self.places)?;
        self.filled = 0;
        Ok(())
    }

    /// Appends numbers.
    pub fn extend(&mut self, values: &[i64]) -> Result<(), NoMemory>
        ensures { OnOk result (self.new ≡ self.old ++ values.now) }
    {
        let mut done = 0;
        while done < values.len() {
            done += self.extend_within(&values[done..])?;
        }
        Ok(())
    }

    /// Appends as many numbers as the block that was begun has room for, and says how many they are.
    fn extend_within(&mut self, values: &[i64]) -> Result<usize, NoMemory>
        requires { 0 < length values.now }
        ensures some { IfOk result (λ n. (0 < n) × (n ≤ length values.now)) }
        ensures numbers { IfOk result (λ n. self.new ≡ self.old ++ take n values.now) }
        ensures err { OnErr result (self.new ≡ self.old) }
    {
        let from = self.filled;
        let count = values.len().min(BLOCK - from);
        self.buffer[from..from + count].copy_from_slice(&values[..count]);
        if from + count < BLOCK {
            self.filled = from + count;
            return Ok(count);
        }
        put_block(&self.buffer, &mut self.bytes, &mut self.places)?;
        self.filled = 0;
        Ok(count)
    }

    /// The list, all packed.
    pub fn finish(self) -> Result<NumberList, NoMemory>
        ensures { IfOk result (λ list. list ≡ self) }
    {
        let Packer {
            mut bytes,
            mut places,
            buffer,
            filled,
        } = self;
        if 1 << 56 <= places.len() {
            return Err(NoMemory);
        }
        let len = BLOCK * places.len() + filled;
        if filled == 0 {
            return Ok(NumberList::from_parts(bytes, places, len));
        }
        put_block(&buffer[..filled], &mut bytes, &mut places)?;
        Ok(NumberList::from_parts(bytes, places, len))
    }
}
