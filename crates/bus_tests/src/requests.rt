// Requests, their order, and how long their frames take.

use can_bus::{
    Transmission, Waiting, carries_earlier, goes_before, intermission, laws, rank, time_on_wire,
    transmission_with_rank,
};
use can_frame::{Frame, Ident};
use std::test::Fail;

#[test]
fn the_lesser_node_goes_before(rt: HostRuntime) -> Result<(), Fail> {
    let frame = Frame::make(Ident::Std(0), false, 0, [0; 8], 1).ok_or("a frame")?;
    let first = Waiting {
        node: 0,
        number: 1,
        frame,
    };
    let second = Waiting {
        node: 1,
        number: 0,
        frame,
    };
    assert!(rt; goes_before(&first, &second));
    assert!(rt; !goes_before(&second, &first));
    Ok(())
}

// The frame of zeros has 50 bits, by a model of ISO 11898-1 apart from this code.
#[test]
fn times_of_the_frame_of_zeros(rt: HostRuntime) -> Result<(), Fail> {
    let frame = Frame::make(Ident::Std(0), false, 0, [0; 8], 1).ok_or("a frame")?;
    assert_eq!(rt; time_on_wire(&frame, 2), 100);
    assert_eq!(rt; intermission(2), 6);
    Ok(())
}

// Of node 1 one request is on the wire, with number 4, and two wait; node 0 has another.
#[test]
fn ranks_count_the_wire_and_those_that_wait(rt: HostRuntime) -> Result<(), Fail> {
    let frame = Frame::make(Ident::Std(0), false, 0, [0; 8], 1).ok_or("a frame")?;
    let request = |node: u32, number: u64| Waiting {
        node,
        number,
        frame,
    };
    let waiting = [request(1, 9), request(0, 5), request(1, 7)];
    let wire = Some(Transmission {
        request: request(1, 4),
        end: 100,
    });
    assert!(rt; carries_earlier(&wire, 1, 7));
    assert!(rt; !carries_earlier(&wire, 0, 7));
    assert_eq!(rt; rank(&waiting, &wire, 1, 9), 2);
    assert_eq!(rt; rank(&waiting, &wire, 0, 9), 1);
    let carried = Some(Transmission {
        request: request(1, 0),
        end: 100,
    });
    assert_eq!(rt; transmission_with_rank(&waiting, &wire, 1), carried);
    assert_eq!(rt; transmission_with_rank(&waiting, &wire, 0), wire);
    Ok(())
}

#[test]
fn laws_can_be_called() {
    laws::winner_goes_first();
}
