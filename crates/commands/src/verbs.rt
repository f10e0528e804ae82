// The commands by their names.
ghost use Rattle.std.specs.Prelude.{◌≡◌, map, codes};
ghost use Rattle.commands.specs.Parsing.{keeps};
ghost use Rattle.commands.specs.Verbs.{same, named, verb};

use crate::verb::{BytesVerb, PlainVerb, Verb, WordsVerb};

// Each command by its name. A table, since a `match` on 24 byte strings leaves the prover some 90 ways open.
const SPELLED: [(&[u8], Verb); 24] = [
    (b"register", Verb::Words(WordsVerb::Register)),
    (b"nominal", Verb::Plain(PlainVerb::Nominal)),
    (b"profile", Verb::Bytes(BytesVerb::Profile)),
    (b"check", Verb::Plain(PlainVerb::Check)),
    (b"nocheck", Verb::Plain(PlainVerb::NoCheck)),
    (b"start", Verb::Plain(PlainVerb::Start)),
    (b"enter", Verb::Words(WordsVerb::Enter)),
    (b"strike", Verb::Plain(PlainVerb::Strike)),
    (b"replace", Verb::Words(WordsVerb::Replace)),
    (b"batch", Verb::Bytes(BytesVerb::Batch)),
    (b"draft", Verb::Draft),
    (b"tidy", Verb::Plain(PlainVerb::Tidy)),
    (b"fold", Verb::Plain(PlainVerb::Fold)),
    (b"pieces", Verb::Plain(PlainVerb::Pieces)),
    (b"words", Verb::Plain(PlainVerb::Words)),
    (b"length", Verb::Plain(PlainVerb::Length)),
    (b"fits", Verb::Plain(PlainVerb::Fits)),
    (b"origin", Verb::Plain(PlainVerb::Origin)),
    (b"read", Verb::Plain(PlainVerb::Read)),
    (b"pile", Verb::Plain(PlainVerb::Pile)),
    (b"flatten", Verb::Plain(PlainVerb::Flatten)),
    (b"walk", Verb::Plain(PlainVerb::Walk)),
    (b"record", Verb::Words(WordsVerb::Record)),
    (b"unrecord", Verb::Bytes(BytesVerb::Unrecord)),
];

// The first command with this name, where there is one.
fn first_named(spelled: &[(&[u8], Verb)], name: &[u8]) -> Option<Verb>
    ensures { result ≡ named (map (λ p. (p.0.now, p.1)) spelled.now) name.now }
{
    for (spelling, verb) in spelled {
        if *spelling == name {
            return Some(*verb);
        }
    }
    None
}

// The command of this name, where there is one.
pub(crate) fn verb_of(name: &[u8]) -> Option<Verb>
    ensures { result ≡ verb name.now }
{
    first_named(&SPELLED, name)
}

// Whether a field is a semicolon alone.
pub(crate) fn is_semicolon(field: &[u8]) -> bool
    ensures { result ≡ same (codes ";") field.now }
{
    matches!(field, b";")
}

// Whether a draft is kept (`keep`) or let go (`drop`); none for any other field.
pub(crate) fn keep_of(field: &[u8]) -> Option<bool>
    ensures { result ≡ keeps field.now }
{
    match field {
        b"keep" => Some(true),
        b"drop" => Some(false),
        _ => None,
    }
}
