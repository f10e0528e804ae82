// The commands by name, told apart by what follows their numbers.

// Commands of so many numbers and nothing more.
#[derive(Clone, Copy)]
pub(crate) enum PlainVerb {
    Nominal,
    Check,
    NoCheck,
    Start,
    Strike,
    Tidy,
    Fold,
    Pieces,
    Words,
    Length,
    Fits,
    Origin,
    Read,
    Pile,
    Flatten,
    Walk,
}

// Commands that end in words, any number of them.
#[derive(Clone, Copy)]
pub(crate) enum WordsVerb {
    Register,
    Enter,
    Replace,
    Record,
}

// Commands that end in bytes.
#[derive(Clone, Copy)]
pub(crate) enum BytesVerb {
    Profile,
    Batch,
    Unrecord,
}

#[derive(Clone, Copy)]
pub(crate) enum Verb {
    Plain(PlainVerb),
    Words(WordsVerb),
    Bytes(BytesVerb),
    Draft,
}
