//! Parts of slices, and files by their names.

ghost use Rattle.std.specs.Prelude.{◌≡◌, ◌≤◌, length, take};
ghost use Rattle.std.specs.Option.{option_copied};
ghost use Rattle.io_edge.specs.Memory.{file_under};
ghost use Rattle.io_edge.specs.Named.{named_bytes};

/// Copies the first `count` bytes into the front of `buf`.
pub fn copy_front(bytes: &[u8], buf: &mut [u8], count: usize)
    requires there { count ≤ length bytes.now }
    requires room { count ≤ length buf.old }
    ensures { take count buf.new ≡ take count bytes.now }
{
    buf[..count].copy_from_slice(&bytes[..count]);
}

/// The bytes of the first file of this name.
pub fn bytes_under<'a>(files: &'a [(String, Vec<u8>)], name: &str) -> Option<&'a [u8]>
    ensures { option_copied result ≡ file_under (named_bytes files.now) name.now }
{
    for (own, bytes) in files {
        if own.as_str() == name {
            return Some(bytes.as_slice());
        }
    }
    None
}
