// What a correction asks: from `place` on, `struck` readings are struck and these words entered there.
#[derive(Clone, Copy)]
pub struct Correction<'a> {
    pub place: u32,
    pub struck: u32,
    pub words: &'a [u64],
}
