// The words of a call.
ghost use Rattle.std.specs.Prelude.{◌≡◌, map, string_bytes};
ghost use Rattle.report_seen.specs.CompareForm.{asked_by, form_of};

/// What the words ask for: the comparison of two logs.
#[derive(Clone, Copy)]
pub struct CompareForm<'a> {
    /// The one log.
    pub one: &'a str,
    /// The other log.
    pub other: &'a str,
}

/// What the words after the program's name ask for: `compare LOG LOG`.
pub fn form_of(words: &[String]) -> Option<CompareForm<'_>>
    ensures { asked_by result ≡ form_of (map string_bytes words.now) }
{
    let [word, one, other] = words else {
        return None;
    };
    if word.as_str() != "compare" {
        return None;
    }
    Some(CompareForm {
        one: one.as_str(),
        other: other.as_str(),
    })
}
