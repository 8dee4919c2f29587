ghost use Rattle.std.specs.Prelude.{◌≡◌};

/// The kinds of lines, one for each first word.
#[derive(Clone, Copy)]
pub enum Kind {
    Units,
    Replica,
    Files,
    Create,
    Set,
    Delete,
    Clean,
    Scan,
    Sync,
    Show,
    Knows,
    Equal,
}

impl Kind {
    ghost use Rattle.sfx_script.specs.Grammar.{line_kind};

    /// The kind of line that begins with the word.
    pub fn of(word: &str) -> Option<Kind>
        ensures { result ≡ line_kind word.now }
    {
        match word {
            "units" => Some(Kind::Units),
            "replica" => Some(Kind::Replica),
            "files" => Some(Kind::Files),
            "create" => Some(Kind::Create),
            "set" => Some(Kind::Set),
            "delete" => Some(Kind::Delete),
            "clean" => Some(Kind::Clean),
            "scan" => Some(Kind::Scan),
            "sync" => Some(Kind::Sync),
            "show" => Some(Kind::Show),
            "knows" => Some(Kind::Knows),
            "equal" => Some(Kind::Equal),
            _ => None,
        }
    }
}
