//! The contents of a unit are a plain list of blocks.
ghost use Rattle.std.specs.Prelude.{◌≡◌, ℕ, ◌+◌, ◌≤◌, ◌==◌, List, ◌++◌, length, take, drop, replicate, if◌then◌else◌};
ghost use Rattle.array_model.specs.Contents.{Contents, blank_contents, zero_block, block_at, with_block, bytes_at, with_bytes};
ghost use Rattle.array_model.specs.PlainBlocks.{plain_blocks, bytes_of_blocks, blocks_of_bytes};

/// What a read gives and what a write leaves is that of the plain list of all blocks: a read takes the blocks of its
/// range out of it, a write puts the bytes in the place of that range and leaves all else.
pub fn contents_are_plain_blocks()
    ensures start { (count size : ℕ) → plain_blocks (blank_contents count size) ≡ replicate count (zero_block size) }
    ensures all { (c : Contents) → length (plain_blocks c) ≡ c.count }
    ensures block { (c : Contents) (lba : ℕ) (block : List ℕ) (other : ℕ)
        → block_at (with_block c lba block) other ≡ (if lba == other then block else block_at c other) }
    ensures read { (c : Contents) (lba n : ℕ) → lba + n ≤ c.count
        → bytes_at c lba n ≡ bytes_of_blocks (take n (drop lba (plain_blocks c))) }
    ensures write { (c : Contents) (lba n : ℕ) (bytes : List ℕ) → lba + n ≤ c.count
        → plain_blocks (with_bytes c lba n bytes)
        ≡ take lba (plain_blocks c) ++ (blocks_of_bytes c.size n bytes ++ drop (lba + n) (plain_blocks c)) }
    ensures kept { (c : Contents) (lba n : ℕ) (bytes : List ℕ) → (with_bytes c lba n bytes).size ≡ c.size }
{}
