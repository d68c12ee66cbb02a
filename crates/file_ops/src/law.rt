//! What one request makes of a disk.

ghost use Rattle.file_ops.specs.Laws.{FilesAreDone, RequestsAreCounted};

/// One request more is one call more where its file is bound, and none where it is not; and it is a
/// failure where the disk was called and `Fault` is the answer.
pub fn requests_are_counted()
    ensures { RequestsAreCounted }
{}

/// The disk does to its bound files what the history does to them.
pub fn files_are_done()
    ensures { FilesAreDone }
{}
