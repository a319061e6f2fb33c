//! Which file a handle is of.

use disk_preparer::Node;
use std::fs::File;
use std::os::unix::fs::MetadataExt;

/// What an open file is.
pub(crate) fn node_of(file: &File) -> Option<Node> {
    match file.metadata() {
        Ok(metadata) => Some(Node {
            device: metadata.dev(),
            number: metadata.ino(),
        }),
        Err(_) => None,
    }
}
