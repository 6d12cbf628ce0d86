//! What is kept of the objects of a tape, beside the bytes of its blocks.
ghost use Rattle.std.specs.Prelude.{◌≡◌, ◌+◌, ◌*◌, ◌<◌, ◌≤◌, ◌^◌, ◌++◌, length, take, drop, vec_len, vec_capacity};
ghost use Rattle.tape_unit.specs.Stored.{AreCounted, blocks_in, block_entries, filemark_entries};

/// An object of a tape.
#[derive(Clone, Copy, Debug, PartialEq, Eq)]
pub struct StoredObject {
    /// Whether it is a filemark, and no block.
    pub is_filemark: bool,
    /// How many blocks stand before it.
    pub before: u32,
}

/// How many bytes stand before this place, of objects with blocks of this size and so many bytes in all.
pub fn bytes_before(objects: &[StoredObject], place: u32, size: usize, all: usize) -> usize
    requires counted { AreCounted 0 objects.now }
    requires within { place ≤ length objects.now }
    requires whole { all ≡ blocks_in objects.now * size }
    ensures { result ≡ blocks_in (take place objects.now) * size }
{
    let place = place as usize;
    if place < objects.len() {
        objects[place].before as usize * size
    } else {
        all
    }
}

/// So many blocks more, where so many stand before them.
pub fn add_blocks(objects: &mut Vec<StoredObject>, before: u32, count: u32)
    requires room { vec_len objects.old + count ≤ vec_capacity objects.old }
    requires few { before + count < 2 ^ 32 }
    ensures items { objects.new.items ≡ objects.old.items ++ block_entries before count }
    ensures capacity { vec_capacity objects.new ≡ vec_capacity objects.old }
{
    for i in 0..count {
        objects.push_reserved(StoredObject {
            is_filemark: false,
            before: before + i,
        });
    }
}

/// So many filemarks more, where so many blocks stand before them.
pub fn add_filemarks(objects: &mut Vec<StoredObject>, before: u32, count: u32)
    requires room { vec_len objects.old + count ≤ vec_capacity objects.old }
    ensures items { objects.new.items ≡ objects.old.items ++ filemark_entries before count }
    ensures capacity { vec_capacity objects.new ≡ vec_capacity objects.old }
{
    for _ in 0..count {
        objects.push_reserved(StoredObject {
            is_filemark: true,
            before,
        });
    }
}

/// These bytes behind the others, for which there is room.
pub fn add_bytes(bytes: &mut Vec<u8>, more: &[u8])
    requires room { vec_len bytes.old + length more.now ≤ vec_capacity bytes.old }
    ensures items { bytes.new.items ≡ bytes.old.items ++ more.now }
    ensures capacity { vec_capacity bytes.old ≤ vec_capacity bytes.new }
{
    let _ = bytes.extend_from_slice(more);
}

/// So many of these bytes, from `first` on.
pub fn part(bytes: &[u8], first: usize, count: usize) -> &[u8]
    requires { first + count ≤ length bytes.now }
    ensures { result.now ≡ take count (drop first bytes.now) }
{
    &bytes[first..first + count]
}
