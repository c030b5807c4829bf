// What came, picture by picture.
ghost use Rattle.std.specs.Prelude.{◌≡◌, ℕ, ◌+◌, ◌*◌, ◌<◌, ◌≤◌, ◌++◌, ◌∷◌, [], IfOk, length};
ghost use Rattle.sig_types.specs.Turns.{History};

use crate::together::{Together, add_together};
use log_judge::{Extremes, Judge, Kind, Protocol};
use sig_types::{GroupNo, Memory, Picture};
use std::alloc::{AllocError, Global};

/// What came in the pictures up to the last one. It keeps a few numbers of each group and of each two groups, and no history.
#[derive(Drop)]
pub struct Page {
    judge: Judge,
    pub(crate) protocol: Protocol,
    pub(crate) together: Vec<Together>,
    ghost sized: { length together.items ≡ 4096 },
}

impl Page {
    ghost use Rattle.log_protocol.specs.Page.{IsPageOf, came_on, groups_of, seconds_of};

    /// The page of a log of so many groups before its first picture. It takes all the memory that it needs.
    #[tactic(auto, unfolding(crate::specs::Page::groups_of, crate::specs::Page::seconds_of))]
    pub fn new(alloc: Global, groups: u8) -> Result<Page, Memory>
        requires { groups ≤ 64 }
        ensures groups { IfOk result (λ page. groups_of page ≡ groups) }
        ensures seconds { IfOk result (λ page. seconds_of page ≡ 0) }
        ensures page { IfOk result (λ page. IsPageOf page []) }
    {
        let none = Together {
            seconds: 0,
            first: 0,
        };
        let protocol = match Protocol::new(alloc) {
            Ok(protocol) => protocol,
            Err(memory) => return Err(memory),
        };
        let together: Result<Vec<Together>, AllocError> = vec![in alloc; none; 4096];
        match together {
            Ok(together) => Ok(Page {
                judge: Judge::new(groups, 0),
                protocol,
                together,
            }),
            Err(_) => Err(Memory),
        }
    }

    /// How many pictures were added.
    #[tactic(auto, unfolding(crate::specs::Page::seconds_of))]
    pub fn seconds(&self) -> u32
        ensures { result ≡ seconds_of self.now }
    {
        self.judge.seconds()
    }

    /// Adds the picture of the next second.
    #[tactic(auto, unfolding(crate::specs::Page::groups_of, crate::specs::Page::seconds_of))]
    pub fn add(&mut self, picture: &Picture)
        requires size { length picture.now ≡ groups_of self.old }
        requires at_most { seconds_of self.old < 6048002 }
        ensures groups { groups_of self.new ≡ groups_of self.old }
        ensures seconds { seconds_of self.new ≡ seconds_of self.old + 1 }
        ensures page { (h : History) → IsPageOf self.old h → IsPageOf self.new (h ++ picture.now ∷ []) }
    {
        self.protocol.add(&self.judge, picture);
        add_together(picture, self.judge.seconds(), &mut self.together);
        self.judge.show(picture);
    }

    /// What came of a group.
    #[tactic(auto, unfolding(crate::specs::Page::came_on))]
    pub fn runs(&self, kind: Kind, g: GroupNo) -> Extremes
        requires { g.0 < 64 }
        ensures { result ≡ (came_on self.now).runs kind g.0 }
    {
        let place = g.0 as usize;
        match kind {
            Kind::Green => self.protocol.greens[place],
            Kind::Red => self.protocol.reds[place],
            Kind::RedAmber => self.protocol.red_ambers[place],
            Kind::Amber => self.protocol.ambers[place],
        }
    }

    /// The changes to a group that turns green from one that ended.
    #[tactic(auto, unfolding(crate::specs::Page::came_on))]
    pub fn changes(&self, to: GroupNo, from: GroupNo) -> Extremes
        requires to { to.0 < 64 }
        requires from { from.0 < 64 }
        ensures { result ≡ (came_on self.now).changes to.0 from.0 }
    {
        self.protocol.pair(from, to)
    }

    /// The seconds in which two groups were green together.
    #[tactic(auto, unfolding(crate::specs::Page::came_on))]
    pub fn greens(&self, one: GroupNo, other: GroupNo) -> Together
        requires one { one.0 < 64 }
        requires other { other.0 < 64 }
        ensures { result ≡ (came_on self.now).greens one.0 other.0 }
    {
        self.together[64 * one.0 as usize + other.0 as usize]
    }
}
