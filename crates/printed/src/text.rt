// A lent buffer that text is put into: its first `len` bytes are in use.
ghost use Rattle.std.specs.Prelude.{◌≤◌, length};

// A lent buffer with a length, since nothing here has a heap. Its fields are open: who lends the buffer learns what it holds afterwards.
// Lines are put piece by piece and not by `write!`: into a lent buffer that promises no bytes, and a text that is cut would be its failure.
#[derive(Drop)]
pub struct Text<'a> {
    pub out: &'a mut [u8],
    pub len: usize,
    ghost within: { len ≤ length out.now },
}
