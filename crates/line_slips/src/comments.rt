// The comments of a program's text.
ghost use Rattle.std.specs.Prelude.{◌≡◌};
ghost use Rattle.line_slips.specs.Comments.{after, closes_earlier, closes_later, is_inside, line_start};

/// Where a reader of a text stands.
#[derive(Clone, Copy, PartialEq, Eq)]
pub(crate) enum Reading {
    /// Outside comments, and behind neither a slash nor a star.
    Outside,
    /// Outside comments, behind a slash.
    Slash,
    /// Outside comments, behind a star.
    Star,
    /// In a comment, and behind no star of it.
    Comment,
    /// In a comment, behind a star of it.
    CommentStar,
}

// Where a reader outside comments stands behind one more byte.
fn outside(b: u8) -> Reading
    ensures { result ≡ after Reading.Outside b }
{
    if b == b'/' {
        Reading::Slash
    } else if b == b'*' {
        Reading::Star
    } else {
        Reading::Outside
    }
}

// The same behind a slash.
fn behind_slash(b: u8) -> Reading
    ensures { result ≡ after Reading.Slash b }
{
    if b == b'/' {
        Reading::Slash
    } else if b == b'*' {
        Reading::Comment
    } else {
        Reading::Outside
    }
}

// The same behind a star of a comment.
fn behind_star(b: u8) -> Reading
    ensures { result ≡ after Reading.CommentStar b }
{
    if b == b'/' {
        Reading::Outside
    } else if b == b'*' {
        Reading::CommentStar
    } else {
        Reading::Comment
    }
}

/// Where a reader stands behind one more byte.
pub(crate) fn after(at: Reading, b: u8) -> Reading
    ensures { result ≡ after at b }
{
    match at {
        Reading::Outside | Reading::Star => outside(b),
        Reading::Slash => behind_slash(b),
        Reading::Comment if b == b'*' => Reading::CommentStar,
        Reading::Comment => Reading::Comment,
        Reading::CommentStar => behind_star(b),
    }
}

/// Whether it stands in a comment.
pub(crate) fn is_inside(at: Reading) -> bool
    ensures { result ≡ is_inside at }
{
    match at {
        Reading::Comment | Reading::CommentStar => true,
        Reading::Outside | Reading::Slash | Reading::Star => false,
    }
}

// Whether a comment ends here that began in an earlier line.
fn closes_earlier(at: Reading, b: u8) -> bool
    ensures { result ≡ closes_earlier at b }
{
    match at {
        Reading::Star => b == b'/',
        Reading::Outside | Reading::Slash | Reading::Comment | Reading::CommentStar => false,
    }
}

// Whether a comment ends in a line that began in an earlier one.
fn closes_later(line: &[u8]) -> bool
    ensures { result ≡ closes_later Reading.Outside line.now }
{
    let mut at = Reading::Outside;
    for b in line {
        if closes_earlier(at, *b) {
            return true;
        }
        at = after(at, *b);
    }
    false
}

/// Where a line begins: in a comment where one ends in it that doesn't begin in it.
#[tactic(auto, unfolding(crate::specs::Comments::line_start))]
pub(crate) fn line_start(line: &[u8]) -> Reading
    ensures { result ≡ line_start line.now }
{
    if closes_later(line) {
        Reading::Comment
    } else {
        Reading::Outside
    }
}
