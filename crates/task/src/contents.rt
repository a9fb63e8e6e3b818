ghost use Rattle.std.specs.Prelude.{◌≤◌, length};

// A file that is long enough for its contents, which say where the bodies lie.
#[derive(Clone, Copy)]
pub(crate) struct Contents<'a> {
    pub(crate) file: &'a [u8],
    ghost long: { 40 ≤ length file.now },
}
