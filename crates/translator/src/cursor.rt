// Where a reader stands in a file.
ghost use Rattle.std.specs.Prelude.{◌≤◌, length};

// The file, the next byte to be read of the line in hand, where the next line begins, and the number of the
// line in hand. The line's last part has been read where `place` has come to `next`.
#[derive(Drop)]
pub(crate) struct Reader<'a> {
    pub(crate) bytes: &'a [u8],
    pub(crate) place: usize,
    pub(crate) next: usize,
    pub(crate) line: u32,
    ghost reached: { place ≤ next },
    ghost inside: { next ≤ length bytes.now },
    ghost counted: { line ≤ next },
    ghost small: { length bytes.now ≤ 65536 },
}
