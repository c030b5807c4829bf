// What the guard foretells of whole wishes: exactly the turns that the second of these wishes then refuses.
ghost use Rattle.std.specs.Prelude.{◌≡◌, length};
ghost use Rattle.std.specs.Option.{ForSome};
ghost use Rattle.pua_model.specs.Plan.{groups_in};
ghost use Rattle.sig_guard.specs.Stands.{rules};

use pua_model::Plan;
use sig_guard::Guard;
use sig_types::{TurnRefusals, Wishes};

// The wishes that letters tell; None where they don't tell one of each group.
fn wishes_in(plan: &Plan, letters: &[u8]) -> Option<Wishes>
    ensures { ForSome result (λ wishes. length wishes ≡ groups_in plan.now) }
{
    let mut wishes = Wishes::all_red(plan.groups());
    let mut place = 0u8;
    for letter in letters {
        if plan.groups() <= place || *letter == b'.' {
            return None;
        }
        wishes.set(place, *letter == b'G');
        place += 1;
    }
    if place == plan.groups() {
        Some(wishes)
    } else {
        None
    }
}

/// The wishes of a line that wishes something of each group, and commands nothing else.
pub fn whole_wishes(plan: &Plan, line: &str) -> Option<Wishes>
    ensures { ForSome result (λ wishes. length wishes ≡ groups_in plan.now) }
{
    match line.split_once("wishes=") {
        Some((counts, letters)) if counts.split_once('=').is_none() => {
            wishes_in(plan, letters.as_bytes())
        }
        Some(_) | None => None,
    }
}

/// The turns that the next second would refuse for these wishes; none where there are none.
pub fn foretold(guard: &Guard, wishes: &Option<Wishes>) -> TurnRefusals
    requires { ForSome wishes.now (λ wishes. length wishes ≡ (rules guard.now).count) }
{
    let mut turns = TurnRefusals::empty();
    if let Some(wishes) = wishes {
        guard.would_refuse(wishes, &mut turns);
    }
    turns
}

/// Whether both are the same turns, rules and groups in the way.
pub fn are_same(told: &TurnRefusals, shown: &TurnRefusals) -> bool {
    let mut same = told.len() == shown.len();
    for place in 0usize..64 {
        if place < told.len() && place < shown.len() {
            same = same && told.get(place) == shown.get(place);
        }
    }
    same
}
