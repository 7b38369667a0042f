// Lines and words: borrowed parts of the file, with the place where each begins.
ghost use Rattle.std.specs.Prelude.{◌+◌, ◌^◌, ◌<◌, length};

#[derive(Clone, Copy)]
pub struct Word<'a> {
    pub text: &'a [u8],
    pub at: usize,
}

// What is left to read of a line.
#[derive(Clone, Copy)]
pub struct Line<'a> {
    pub rest: &'a [u8],
    pub at: usize,
    ghost within: { at + length rest.now < 2 ^ 64 },
}
