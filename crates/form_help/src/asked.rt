// Which form's help is asked for.
ghost use Rattle.std.specs.Prelude.{◌≡◌, None, Some, MatchOption, map, string_bytes};
ghost use Rattle.form_help.specs.Asked.{help_asked};

/// The name of the form whose help the words ask for, as in `FORM --help`; None where they don't ask for one.
pub fn help_asked(words: &[String]) -> Option<&str>
    ensures { MatchOption result (help_asked (map string_bytes words.now) ≡ None)
        (λ form. help_asked (map string_bytes words.now) ≡ Some form.now) }
{
    match words {
        [form, word] => {
            if word.as_str() == "--help" {
                Some(form.as_str())
            } else {
                None
            }
        }
        _ => None,
    }
}
