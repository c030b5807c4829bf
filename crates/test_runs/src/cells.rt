// The cell of pictures, by one thread.
use picture_cell::make_cell;
use sig_types::{Aspect, Picture, Second};
use std::test::Fail;

#[test]
fn a_watcher_sees_what_was_published(rt: HostRuntime) -> Result<(), Fail> {
    let (cell, mut publisher, mut watchers) = make_cell(rt.alloc(), 33, 1, 1)?;
    let mut picture = Picture::all_red(33);
    picture.set(31, Aspect::Green);
    picture.set(32, Aspect::Amber);
    publisher.publish(&cell, &picture);
    let watcher = &mut watchers[0];
    assert_eq!(rt; watcher.second(), Second(0));
    watcher.look(&cell);
    assert_eq!(rt; watcher.second(), Second(1));
    assert_eq!(rt; watcher.picture().get(0), Aspect::Red);
    assert_eq!(rt; watcher.picture().get(31), Aspect::Green);
    assert_eq!(rt; watcher.picture().get(32), Aspect::Amber);
    Ok(())
}
