//! The text of the file server.

use ac_file_server::load_text;
use md5::{Digest, Md5};
use std::test::Fail;

// What `md5sum examples/server.ac` prints.
const DIGEST: [u8; 16] = [
    0xd6, 0x34, 0x6a, 0x80, 0x20, 0xd4, 0x8f, 0xf7, 0xaf, 0x50, 0x6d, 0x09, 0xdb, 0x1c, 0xf1, 0xb1,
];

#[test]
fn the_example_is_the_text_for_twenty_turns(rt: HostRuntime) -> Result<(), Fail> {
    let text = load_text(rt.alloc(), 20)?;
    assert_eq!(rt; text.len(), 2128);
    assert_eq!(rt; Md5::digest(text.as_slice()), DIGEST);
    Ok(())
}
