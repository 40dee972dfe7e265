// The words that begin commands with arguments.
/// What a command with arguments begins with.
#[derive(Clone, Copy)]
pub enum Verb {
    Load,
    LoadGrammar,
    Save,
    SaveGrammar,
    Show,
    Query,
    ShowAll,
    Count,
    Rename,
    Insert,
    Append,
    Delete,
    Value,
    Attr,
    Copy,
    RenameAll,
    DeleteAll,
    Check,
    Generate,
}

impl Verb {
    ghost use Rattle.std.specs.Prelude.{◌≡◌, ◌≢◌, MatchOption};
    ghost use Rattle.store_shell.specs.declared.verb.Verb.{Verb};
    ghost use Rattle.store_shell.specs.Verbs.{verb_word};

    /// The verb that this word is, or None where it is none.
    pub fn of(word: &[u8]) -> Option<Verb>
        ensures { MatchOption result ((verb : Verb) → word.now ≢ verb_word verb) (λ verb. word.now ≡ verb_word verb) }
    {
        match word {
            b"load" => Some(Verb::Load),
            b"load-grammar" => Some(Verb::LoadGrammar),
            b"save" => Some(Verb::Save),
            b"save-grammar" => Some(Verb::SaveGrammar),
            b"show" => Some(Verb::Show),
            b"query" => Some(Verb::Query),
            b"show-all" => Some(Verb::ShowAll),
            b"count" => Some(Verb::Count),
            b"rename" => Some(Verb::Rename),
            b"insert" => Some(Verb::Insert),
            b"append" => Some(Verb::Append),
            b"delete" => Some(Verb::Delete),
            b"value" => Some(Verb::Value),
            b"attr" => Some(Verb::Attr),
            b"copy" => Some(Verb::Copy),
            b"rename-all" => Some(Verb::RenameAll),
            b"delete-all" => Some(Verb::DeleteAll),
            b"check" => Some(Verb::Check),
            b"generate" => Some(Verb::Generate),
            _ => None,
        }
    }
}
