// The names of the commands.
ghost use Rattle.std.specs.Prelude.{◌≡◌, MatchOption};
ghost use Rattle.script.specs.declared.names.Name.{Name};
ghost use Rattle.script.specs.Names.{text};

#[derive(Clone, Copy)]
pub(crate) enum Name {
    Open,
    Send,
    Input,
    Flush,
    Update,
    Check,
    Read,
    Size,
    Show,
    State,
    Held,
    Jump,
    Lend,
    Poke,
    Hold,
    Rec,
}

// The name that a word is.
pub(crate) fn of_word(word: &[u8]) -> Option<Name>
    ensures { MatchOption result ((x : Name) → word.now ≡ text x → ⊥) (λ x. word.now ≡ text x) }
{
    match word {
        b"open" => Some(Name::Open),
        b"send" => Some(Name::Send),
        b"input" => Some(Name::Input),
        b"flush" => Some(Name::Flush),
        b"update" => Some(Name::Update),
        b"check" => Some(Name::Check),
        b"read" => Some(Name::Read),
        b"size" => Some(Name::Size),
        b"show" => Some(Name::Show),
        b"state" => Some(Name::State),
        b"held" => Some(Name::Held),
        b"jump" => Some(Name::Jump),
        b"lend" => Some(Name::Lend),
        b"poke" => Some(Name::Poke),
        b"hold" => Some(Name::Hold),
        b"rec" => Some(Name::Rec),
        _ => None,
    }
}
