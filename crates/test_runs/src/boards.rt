// The detector board, by one thread.
use det_board::make_board;
use sig_types::Frame;
use std::test::Fail;

#[test]
fn a_take_finds_what_was_played(rt: HostRuntime) -> Result<(), Fail> {
    let (board, mut feeders, mut tick) = make_board(rt.alloc(), 1)?;
    let mut frame = Frame::empty();
    let feeder = &mut feeders[0];
    feeder.front(&board);
    feeder.front(&board);
    feeder.rear(&board);
    tick.take(&board, &mut frame);
    assert_eq!(rt; frame.get(0), (2, 1));
    assert_eq!(rt; (feeder.fronts(), feeder.rears()), (2, 1));
    tick.take(&board, &mut frame);
    assert_eq!(rt; frame.get(0), (0, 0));
    Ok(())
}
