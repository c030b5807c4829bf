// The words of a run of several junctions.
ghost use Rattle.std.specs.Prelude.{◌≡◌, None, Some, MatchOption, map, string_bytes};
ghost use Rattle.junction_net.specs.Form.{begins_net, net_form};

const NET: &str = "net";

/// Whether the first word asks for several junctions.
pub fn begins_net(words: &[String]) -> bool
    ensures { result ≡ begins_net (map string_bytes words.now) }
{
    match words {
        [command, ..] => command.as_str() == NET,
        [] => false,
    }
}

/// The name of the list; None where the words are not the form of a run of several junctions.
pub(crate) fn net_form(words: &[String]) -> Option<&str>
    ensures { MatchOption result (net_form (map string_bytes words.now) ≡ None)
        (λ word. net_form (map string_bytes words.now) ≡ Some word.now) }
{
    match words {
        [command, list] => {
            if command.as_str() != NET {
                return None;
            }
            Some(list.as_str())
        }
        _ => None,
    }
}
