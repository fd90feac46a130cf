//! Blocks of entries, and changes of one block of the slab.
ghost use Rattle.std.specs.Prelude.{◌≡◌, ◌≢◌, ℕ, ◌+◌, ◌-◌, ◌<◌, ◌^◌, None, Some, IsSome, option_map};
ghost use Rattle.slab.specs.Slab.{HasRoomFor};
ghost use Rattle.block_graph.specs.Blocks.{block_at, len_at, appended, shortened, written, started};

use label_graph::link::RowEntry;
use slab::Slab;

/// Six entries of a row. All but the first block of a row are full.
#[derive(Clone, Copy)]
pub struct Block {
    /// The entries; those from `len` on say nothing.
    pub entries: [RowEntry; 6],
    /// The key of the block behind it, if there is one.
    pub next: u32,
    /// The vertex whose row it is.
    pub vertex: u32,
    /// Whether that is the row of incoming triples.
    pub incoming: bool,
    /// Whether there is a block behind it.
    pub more: bool,
    /// How many entries it has.
    pub len: u8,
}

// With the word by which a slab tells vacant slots, a block fills one cache line of 64 bytes.
const _: () = prove!(size_of::<Block>() == 60);

/// The blocks of all rows.
pub type Blocks = Slab<Block>;

/// Puts an entry at the end of a block, and tells its number.
pub fn append(blocks: &mut Blocks, b: u32, entry: RowEntry) -> u32
    requires stands { IsSome (block_at blocks.old.slots b) }
    requires room { len_at blocks.old.slots b < 6 }
    ensures here { block_at blocks.new.slots b ≡ option_map (appended entry) (block_at blocks.old.slots b) }
    ensures others { (q : ℕ) → q ≢ b → block_at blocks.new.slots q ≡ block_at blocks.old.slots q }
    ensures number { result ≡ len_at blocks.old.slots b }
    ensures keeps { (m : ℕ) → HasRoomFor blocks.old m → HasRoomFor blocks.new m }
    ensures capacity { blocks.new.capacity ≡ blocks.old.capacity }
{
    let block = blocks.get_mut(b as usize).unwrap();
    let number = block.len;
    block.entries[number as usize] = entry;
    block.len = number + 1;
    number as u32
}

/// Takes the last entry of a block of more than one away.
pub fn shorten(blocks: &mut Blocks, b: u32)
    requires stands { IsSome (block_at blocks.old.slots b) }
    requires some { 0 < len_at blocks.old.slots b }
    ensures here { block_at blocks.new.slots b ≡ option_map shortened (block_at blocks.old.slots b) }
    ensures others { (q : ℕ) → q ≢ b → block_at blocks.new.slots q ≡ block_at blocks.old.slots q }
{
    let block = blocks.get_mut(b as usize).unwrap();
    block.len -= 1;
}

/// Puts an entry in the place of another.
pub fn write(blocks: &mut Blocks, b: u32, i: u32, entry: RowEntry)
    requires stands { IsSome (block_at blocks.old.slots b) }
    requires within { i < 6 }
    ensures here { block_at blocks.new.slots b ≡ option_map (written i entry) (block_at blocks.old.slots b) }
    ensures others { (q : ℕ) → q ≢ b → block_at blocks.new.slots q ≡ block_at blocks.old.slots q }
{
    let block = blocks.get_mut(b as usize).unwrap();
    block.entries[i as usize] = entry;
}

/// Makes a block of one entry in a free slot.
pub fn start(
    blocks: &mut Blocks,
    vertex: u32,
    incoming: bool,
    next: u32,
    more: bool,
    entry: RowEntry,
) -> u32
    requires room { HasRoomFor blocks.old 1 }
    requires small { blocks.old.capacity < 2 ^ 32 }
    ensures free { block_at blocks.old.slots result ≡ None }
    ensures here { block_at blocks.new.slots result ≡ Some (started vertex incoming next more entry) }
    ensures others { (q : ℕ) → q ≢ result → block_at blocks.new.slots q ≡ block_at blocks.old.slots q }
    ensures keeps { (m : ℕ) → HasRoomFor blocks.old (m + 1) → HasRoomFor blocks.new m }
    ensures capacity { blocks.new.capacity ≡ blocks.old.capacity }
{
    blocks.insert_reserved(Block {
        entries: [entry, entry, entry, entry, entry, entry],
        next,
        vertex,
        incoming,
        more,
        len: 1,
    }) as u32
}
