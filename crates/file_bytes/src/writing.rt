//! Bytes that are written into a file in place.

ghost use Rattle.std.specs.Prelude.{◌≡◌, ◌+◌, ◌-◌, ◌≤◌, ◌++◌, length, take, drop, replicate, vec_capacity};
ghost use Rattle.file_bytes.specs.Overwritten.{overwritten};

// The bytes take the place of those from there on.
fn replace_at(file: &mut [u8], from: usize, bytes: &[u8])
    requires { from + length bytes.now ≤ length file.old }
    ensures { file.new ≡ take from file.old ++ bytes.now ++ drop (from + length bytes.now) file.old }
{
    file[from..from + bytes.len()].copy_from_slice(bytes);
}

// Zeros go to the end of the file until it has this length.
fn lengthen(file: &mut Vec<u8>, len: usize)
    requires { len ≤ vec_capacity file.old }
    ensures items { file.new.items ≡ file.old.items ++ replicate (len - length file.old.items) 0 }
    ensures room { vec_capacity file.old ≤ vec_capacity file.new }
{
    if file.len() < len {
        file.resize(len, 0).unwrap();
    }
}

/// Writes the bytes at this place of the file, counted in bytes; zeros fill a gap before them. The file keeps the room that it has.
///
/// Conditions: it has room for them.
pub fn overwrite(file: &mut Vec<u8>, from: usize, bytes: &[u8])
    requires { from + length bytes.now ≤ vec_capacity file.old }
    ensures items { file.new.items ≡ overwritten file.old.items from bytes.now }
    ensures room { vec_capacity file.old ≤ vec_capacity file.new }
{
    if bytes.is_empty() {
        return;
    }
    lengthen(file, from + bytes.len());
    replace_at(file.as_mut_slice(), from, bytes);
}
