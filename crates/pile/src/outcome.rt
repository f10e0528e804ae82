// What a call came to.
use records::fault::BatchFault;
use series::refusal::Refusal;

#[derive(Clone, Copy)]
pub enum Outcome {
    // A correction: the new length, or why it was refused.
    Corrected(Result<u32, Refusal>),
    // A batch: how many records it had, or why it was refused.
    Batched(Result<u16, BatchFault>),
    // A draft: how many of its corrections were accepted, whether it was kept or not.
    Drafted(usize),
    // The journal was tidied.
    Tidied,
}
